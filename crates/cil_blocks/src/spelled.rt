//! Namespaces as they are told: their names, the outermost first, joined by dots.

ghost use Rattle.std.specs.Prelude.{◌≡◌, ◌≤◌, IfOk, length};
ghost use Rattle.cil_syntax.specs.Around.{names_of};
ghost use Rattle.cil_faults.specs.Namespaces.{qualified};
ghost use Rattle.cil_blocks.specs.Namespaces.{space_at};

use crate::namespaces::Namespaces;
use cil_base::NoMemory;
use cil_syntax::{Bytes, joined};
use std::alloc::Global;

/// The namespace of a number, as it is told; empty for the global one.
pub fn spelled(alloc: Global, namespaces: &Namespaces, number: usize) -> Result<Bytes, NoMemory>
    requires { number ≤ length namespaces.now }
    ensures { IfOk result (λ space. space ≡ qualified (space_at namespaces.now number)) }
{
    let mut names = names_in(alloc, namespaces, number)?;
    names.reverse();
    Ok(Bytes::from_vec(joined(alloc, names.as_slice())?))
}

/// The names of the namespace of a number, the innermost first.
fn names_in<'a>(
    alloc: Global,
    namespaces: &Namespaces<'a>,
    number: usize,
) -> Result<Vec<&'a [u8]>, NoMemory>
    requires { number ≤ length namespaces.now }
    ensures { IfOk result (λ names. names_of names.items ≡ space_at namespaces.now number) }
{
    let mut names = Vec::new(alloc);
    let mut at = number;
    while let Some(space) = namespaces.get(at) {
        names.push(space.name.as_slice())?;
        at = space.outer;
    }
    Ok(names)
}
