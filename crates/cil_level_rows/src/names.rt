//! The names of items in the order of the items.

ghost use Rattle.std.specs.Prelude.{◌≡◌, IfOk, [], get_or, map};

use cil_base::{Bytes, NoMemory};
use std::alloc::Global;

/// The names with these numbers, one after another. It costs a copy of each. Error: out of memory.
pub fn in_order(alloc: Global, names: &[Bytes], order: &[usize]) -> Result<Vec<Bytes>, NoMemory>
    ensures { IfOk result (λ row. row.items ≡ map (λ n. get_or names.now n []) order.now) }
{
    let mut row = Vec::new(alloc);
    for number in order {
        row.push(name_at(alloc, names, *number)?)?;
    }
    Ok(row)
}

/// A copy of the name with this number; an empty one where there is none.
fn name_at(alloc: Global, names: &[Bytes], number: usize) -> Result<Bytes, NoMemory>
    ensures { IfOk result (λ name. name ≡ get_or names.now number []) }
{
    match names.get(number) {
        Some(name) => Bytes::copy_of(alloc, name.as_slice()),
        None => Ok(Bytes::from_vec(Vec::new(alloc))),
    }
}
