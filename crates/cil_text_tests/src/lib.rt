//! The tests of the crates below names: sets of numbers, graphs, module sets, texts, lists of faults and written statements. What
//! they test is what neither a clause nor a session says; what a session can show is a row in `rows/`. Expected values come from
//! the rules of the language or from another program, never from this one. They stand in a crate above all that they test, since
//! the test build of a crate proves that crate once more. `cil_name_tests` and `cil_tests` have those of the crates above; all make
//! their sets of modules by `set_of`.
#![tactic(auto)]

#[cfg(test)]
mod fault_lists;
#[cfg(test)]
mod forms;
#[cfg(test)]
mod graph_cycles;
#[cfg(test)]
mod growths;
#[cfg(test)]
mod masks;
#[cfg(test)]
mod module_sets;
#[cfg(test)]
mod number_sets;
#[cfg(test)]
mod settled_nodes;
#[cfg(test)]
mod texts;

ghost use Rattle.std.specs.Prelude.{IfOk, map};
ghost use Rattle.cil_text_tests.specs.Sets.{IsSetOf};

use cil_modset::ModuleSet;
use cil_sexpr::ReadError;
use std::alloc::Global;

/// The set of some texts, installed in this order. Errors: the first fault of the first text that cannot be read, or out of
/// memory.
pub fn set_of(alloc: Global, texts: &[&str]) -> Result<ModuleSet, ReadError>
    ensures { IfOk result (IsSetOf (map (λ text. text.now) texts.now)) }
{
    let mut modules = ModuleSet::new(alloc);
    for text in texts {
        modules.install(alloc, text.as_bytes())?;
    }
    Ok(modules)
}
