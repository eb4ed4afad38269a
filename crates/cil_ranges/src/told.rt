//! Faults that are told of a statement.

ghost use Rattle.std.specs.Prelude.{◌≡◌, ◌++◌, ◌∷◌, [], ◌<◌, OnOk, length};
ghost use Rattle.cil_faults.specs.Reported.{fault_at};
ghost use Rattle.cil_macros.specs.Items.{item_at, items_in};

use cil_base::NoMemory;
use cil_macros::Instances;
use cil_macros::blocks_spelled::spelled;
use cil_syntax::{Fault, FaultCode, Spot, push_fault_in};
use std::alloc::Global;

/// Adds a fault of the statement at a place, told at this spot with this word. Error: out of memory.
pub fn push_told(
    alloc: Global,
    instances: &Instances,
    at: usize,
    faults: &mut Vec<Fault>,
    code: FaultCode,
    spot: Spot,
    word: &[u8],
) -> Result<(), NoMemory>
    requires { at < length (items_in instances.now) }
    ensures { OnOk result (faults.new.items ≡ faults.old.items ++ fault_at code spot (item_at instances.now at).space word.now ∷ []) }
{
    let space = spelled(alloc, instances.namespaces(), instances.space(at))?;
    push_fault_in(alloc, faults, code, spot, space, word)?;
    Ok(())
}
