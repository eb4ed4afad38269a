//! The tests of the crates of levels: the orders of sensitivities and of categories, sets of categories, levels and ranges. A session shows
//! only the faults and the decisions that they lead to. Expected values come from the rules of the language, never from this program.
#![tactic(auto)]

ghost use Rattle.std.specs.Prelude.{◌≡◌, None, get_or};

#[cfg(test)]
mod orders;
#[cfg(test)]
mod ranges;

#[cfg(test)]
use cil_syntax::{FaultList, render};
#[cfg(test)]
use std::alloc::Global;

/// Adds the lines of faults. False where there is no memory.
#[cfg(test)]
fn show_faults(alloc: Global, faults: &FaultList, out: &mut String) -> bool {
    let Ok(lines) = render(alloc, faults) else {
        return false;
    };
    str::from_utf8(lines.as_slice()).is_ok_and(|text| out.push_str(text).is_ok())
}

/// What a table has for the entry with a number; none too where the table has no such place.
pub fn there<T: Copy>(table: &[Option<T>], number: usize) -> Option<T>
    ensures { result ≡ get_or table.now number None }
{
    match table.get(number) {
        Some(found) => *found,
        None => None,
    }
}
