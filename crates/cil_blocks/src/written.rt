//! Where statements are written, by the numbers of namespaces. One pass numbers the namespaces of the written blocks, at a hash
//! for each block; then two full names are compared by a number and a name, however deep the blocks are in one another. The
//! statements in front that are in no block take no memory. What stands in a namespace by inheritance is not looked at here:
//! `places.rt` has it.

ghost use Rattle.std.specs.Prelude.{◌≡◌, IfOk, Some};
ghost use Rattle.cil_syntax.specs.Program.{IsNested, program_of};
ghost use Rattle.cil_blocks.specs.Entries.{statement_at};
ghost use Rattle.cil_blocks.specs.Named.{space_in};
ghost use Rattle.cil_blocks.specs.Namespaces.{IsGrown, IsNumber};
ghost use Rattle.cil_blocks.specs.WrittenSpaces.{AreWritten};

use crate::names::{is_block_at, name_at, under_at};
use crate::namespaces::Namespaces;
use crate::numbers::Numbers;
use cil_base::NoMemory;
use cil_syntax::Statement;
use std::alloc::Global;

/// The namespaces of the written blocks of a program.
#[derive(Drop)]
pub struct WrittenSpaces<'a> {
    /// Each of them once, after the one round it.
    pub namespaces: Namespaces<'a>,
    /// For each statement the number of the namespace of what is directly in it.
    pub numbers: Numbers,
}

/// The namespaces of the written blocks of a program.
pub fn written_spaces<'a>(
    alloc: Global,
    statements: &[Statement<'a>],
) -> Result<WrittenSpaces<'a>, NoMemory>
    requires { IsNested statements.now }
    ensures { IfOk result (AreWritten (program_of statements.now)) }
{
    let mut spaces = WrittenSpaces {
        namespaces: Namespaces::global(alloc),
        numbers: Numbers::new(alloc),
    };
    for number in 0..statements.len() {
        spaces.add(statements, number)?;
    }
    // What is known of the table.
    spaces.namespaces.are_namespaces();
    Ok(spaces)
}

impl<'a> WrittenSpaces<'a> {
    ghost use Rattle.std.specs.Prelude.{◌≡◌, ◌<◌, ◌+◌, OnOk, length};
    ghost use Rattle.cil_syntax.specs.Program.{IsNested, program_of};
    ghost use Rattle.cil_blocks.specs.Numbers.{number_in};
    ghost use Rattle.cil_blocks.specs.WrittenSpaces.{AreWrittenUpTo, number_round};

    /// The number of the namespace of what is directly in a statement; that of the global one where there is no statement.
    pub fn inside(&self, statement: Option<usize>) -> usize
        ensures { result ≡ number_in self.now.numbers statement }
    {
        match statement {
            None => 0,
            Some(number) => match self.numbers.get(number) {
                None => 0,
                Some(space) => space,
            },
        }
    }

    /// The number of the namespace in which a statement is written.
    pub fn round(&self, statements: &[Statement], number: usize) -> usize
        ensures { result ≡ number_round statements.now self.now.numbers number }
    {
        self.inside(under_at(statements, number))
    }

    /// Adds the statement of the next number.
    fn add(&mut self, statements: &[Statement<'a>], number: usize) -> Result<(), NoMemory>
        requires nested { IsNested statements.now }
        requires within { number < length statements.now }
        requires before { AreWrittenUpTo (program_of statements.now) number self.old }
        ensures { OnOk result (AreWrittenUpTo (program_of statements.now) (number + 1) self.new) }
    {
        let round = self.round(statements, number);
        let inside = number_inside(&mut self.namespaces, statements, number, round)?;
        self.numbers.push(inside)?;
        Ok(())
    }
}

/// The number of the namespace in a statement that is written in the one of another number: a block has its own.
fn number_inside<'a>(
    namespaces: &mut Namespaces<'a>,
    statements: &[Statement<'a>],
    number: usize,
    round: usize,
) -> Result<usize, NoMemory>
    requires nested { IsNested statements.now }
    requires round { IsNumber namespaces.old (statement_at (program_of statements.now) number).context.space round }
    ensures grown { IsGrown namespaces.old namespaces.new }
    ensures numbered { IfOk result (IsNumber namespaces.new (space_in (program_of statements.now) (Some number))) }
{
    if !is_block_at(statements, number) {
        return Ok(round);
    }
    let space = namespaces.number(round, name_at(statements, number))?;
    Ok(space)
}
