//! The parameters of all macros by their names, so that a word of a body costs a hash, and no step for each parameter of
//! its macro. To make the table costs a hash for each parameter.

ghost use Rattle.std.specs.Prelude.{IfOk};
ghost use Rattle.cil_syntax.specs.Program.{IsNested, program_of};
ghost use Rattle.cil_macros.specs.NamedParameters.{AreNamed};

use crate::arguments::{listed, place_of, place_served};
use crate::macros::is_macro;
use cil_base::NoMemory;
use cil_syntax::{Parameter, Statement, Word};
use indexmap::IndexMap;
use std::alloc::Global;

/// The parameters of macros: by the number of the macro, that of the place that a parameter serves, and its name, which
/// of the macro's parameters it is. Of several that are alike it is the first.
#[derive(Drop)]
pub struct Parameters<'a> {
    numbers: IndexMap<(usize, u8, &'a [u8]), usize>,
}

/// The parameters of all macros of a program.
pub fn parameters_of<'a>(
    alloc: Global,
    statements: &[Statement<'a>],
) -> Result<Parameters<'a>, NoMemory>
    requires { IsNested statements.now }
    ensures { IfOk result (AreNamed (program_of statements.now)) }
{
    let mut parameters = Parameters {
        numbers: IndexMap::new(alloc),
    };
    for number in 0..statements.len() {
        parameters.add(statements, number)?;
    }
    Ok(parameters)
}

impl<'a> Parameters<'a> {
    ghost use Rattle.std.specs.Prelude.{◌≡◌, ◌+◌, ◌<◌, List, OnOk, length, true};
    ghost use Rattle.cil_syntax.specs.Said.{args_of};
    ghost use Rattle.cil_syntax.specs.Written.{Written, is_macro};
    ghost use Rattle.cil_blocks.specs.Entries.{statement_at};
    ghost use Rattle.cil_macros.specs.Meant.{first_for};
    ghost use Rattle.cil_macros.specs.NamedParameters.{AreAdded, AreNamed, AreNamedUpTo, IsAdded};
    ghost use Rattle.cil_macros.specs.Parameters.{macro_parameters};

    /// Which parameter of the macro of a number a word of its body stands for: the first one that serves the place where
    /// the word stands, and has its name. It costs a hash.
    pub fn number_for(&self, called: usize, word: &Word) -> Option<usize>
        ensures { (ws : List Written) → AreNamed ws self.now → is_macro (statement_at ws called).statement.keyword ≡ true
            → result ≡ first_for word.now (macro_parameters (statement_at ws called).statement.args) }
    {
        let place = place_of(word.sign)?;
        self.numbers
            .get(&(called, place, word.bytes.as_slice()))
            .copied()
    }

    /// Adds the parameters of the statement of the next number, if it is a macro.
    fn add(&mut self, statements: &[Statement<'a>], number: usize) -> Result<(), NoMemory>
        requires nested { IsNested statements.now }
        requires within { number < length statements.now }
        requires before { AreNamedUpTo (program_of statements.now) number self.old }
        ensures { OnOk result (AreNamedUpTo (program_of statements.now) (number + 1) self.new) }
    {
        let statement = &statements[number];
        if !is_macro(statement.keyword) {
            return Ok(());
        }
        self.add_all(number, statement)
    }

    /// Adds the parameters of the macro of a number.
    fn add_all(&mut self, number: usize, called: &Statement<'a>) -> Result<(), NoMemory>
        ensures { OnOk result (AreAdded number (macro_parameters (args_of called.now)) self.old self.new) }
    {
        let mut before = 0;
        for term in listed(called) {
            if let Some(parameter) = term.parameter(called.at.module) {
                self.add_one(number, before, &parameter)?;
                before += 1;
            }
        }
        Ok(())
    }

    /// Adds a parameter behind so many of the macro of a number, if none of these is like it.
    fn add_one(
        &mut self,
        number: usize,
        before: usize,
        parameter: &Parameter<'a>,
    ) -> Result<(), NoMemory>
        ensures { OnOk result (IsAdded number before (record { kind = parameter.now.kind; name = record { at = parameter.now.name.at; name = parameter.now.name.bytes.now } }) self.old self.new) }
    {
        let Some(place) = place_served(parameter.kind) else {
            return Ok(());
        };
        let key = (number, place, parameter.name.bytes);
        if self.numbers.contains_key(&key) {
            return Ok(());
        }
        self.numbers.insert(key, before)?;
        Ok(())
    }
}
