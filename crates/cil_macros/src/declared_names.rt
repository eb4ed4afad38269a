//! What macros declare: their parameters, and for each name and kind that is declared in their bodies one entry, by the
//! number of the macro. To make the tables costs a hash for each parameter and for each declaration in a body, and for
//! each declaration a step for each statement round it, 128 at most. A look-up in a body costs a hash for each kind that
//! a word may name, three at most.

ghost use Rattle.std.specs.Prelude.{◌≡◌, ◌<◌, ◌≤◌, IfOk, MatchOption, length};
ghost use Rattle.cil_syntax.specs.Program.{IsNested, program_of};
ghost use Rattle.cil_blocks.specs.Entries.{statement_at};
ghost use Rattle.cil_blocks.specs.Named.{rank};
ghost use Rattle.cil_macros.specs.DeclaredInBodies.{AreDeclared, IsRound, macro_in};

use crate::macros::is_macro_at;
use crate::parameters::{Parameters, parameters_of};
use cil_base::NoMemory;
use cil_blocks::names::name_at;
use cil_syntax::{Sign, Statement};
use indexmap::IndexSet;
use std::alloc::Global;

/// What macros declare.
#[derive(Drop)]
pub struct Declared<'a> {
    /// In their bodies: by the number of the macro, the number of the kind, and the name.
    keys: IndexSet<(usize, u8, &'a [u8])>,
    /// As their parameters.
    pub(crate) parameters: Parameters<'a>,
}

/// What all macros of a program declare: their parameters, and what is in their bodies, in optionals of these too.
pub fn declared_in_bodies<'a>(
    alloc: Global,
    statements: &[Statement<'a>],
) -> Result<Declared<'a>, NoMemory>
    requires { IsNested statements.now }
    ensures { IfOk result (AreDeclared (program_of statements.now)) }
{
    let parameters = parameters_of(alloc, statements)?;
    let mut declared = Declared {
        keys: IndexSet::new(alloc),
        parameters,
    };
    for number in 0..statements.len() {
        declared.add(statements, number)?;
    }
    Ok(declared)
}

impl<'a> Declared<'a> {
    ghost use Rattle.std.specs.Prelude.{◌≡◌, ◌+◌, ◌<◌, List, OnOk, length};
    ghost use Rattle.cil_syntax.specs.Written.{Written};
    ghost use Rattle.cil_macros.specs.DeclaredInBodies.{AreDeclared, AreDeclaredUpTo};
    ghost use Rattle.cil_macros.specs.Placed.{declares};

    /// Whether the body of the macro of a number declares a name in a kind that a word of this sign may name.
    pub fn has(&self, number: usize, name: &[u8], sign: Sign) -> bool
        ensures { (ws : List Written) → AreDeclared ws self.now → number < length ws → result ≡ declares ws (statement_at ws number) name.now sign }
    {
        for kind in sign.kinds() {
            if self.keys.contains(&(number, kind.number(), name)) {
                return true;
            }
        }
        false
    }

    /// Adds what the statement of the next number declares, if it is in the body of a macro.
    fn add(&mut self, statements: &[Statement<'a>], number: usize) -> Result<(), NoMemory>
        requires nested { IsNested statements.now }
        requires within { number < length statements.now }
        requires before { AreDeclaredUpTo (program_of statements.now) number self.old }
        ensures declared { OnOk result (AreDeclaredUpTo (program_of statements.now) (number + 1) self.new) }
        ensures parameters { OnOk result (self.new.parameters ≡ self.old.parameters) }
    {
        let Some(kind) = statements[number].keyword.declares() else {
            return Ok(());
        };
        let Some(round) = macro_round(statements, number) else {
            return Ok(());
        };
        self.keys
            .insert((round, kind.number(), name_at(statements, number)))?;
        Ok(())
    }
}

/// The number of the macro in whose body a statement is, in an optional of it too.
fn macro_round(statements: &[Statement], number: usize) -> Option<usize>
    requires { IsNested statements.now }
    ensures { MatchOption result ((statement_at (program_of statements.now) number).context.macro ≡ None) (IsRound (program_of statements.now) number) }
{
    let mut at = opener_of(statements, number);
    while let Some(round) = at {
        if is_macro_at(statements, round) {
            return Some(round);
        }
        at = opener_of(statements, round);
    }
    None
}

/// The number of the statement in which another one directly stands.
fn opener_of(statements: &[Statement], number: usize) -> Option<usize>
    requires { IsNested statements.now }
    ensures lower { rank result ≤ number }
    ensures round { macro_in (program_of statements.now) result ≡ (statement_at (program_of statements.now) number).context.macro }
{
    match statements.get(number) {
        None => None,
        Some(statement) => statement.under,
    }
}
