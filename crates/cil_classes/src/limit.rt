//! More classes than a policy may have.

ghost use Rattle.std.specs.Prelude.{◌↔◌, ◌⊎◌, Contains, List, OnOk};
ghost use Rattle.cil_base.specs.Lists.{Lists, text_cmp};
ghost use Rattle.cil_faults.specs.declared.fault.Fault.{Fault as AFault};
ghost use Rattle.cil_macros.specs.Item.{Item, OptSet};
ghost use Rattle.cil_classes.specs.Faults.{HasManyClasses, IsClassName};

use cil_base::{Bytes, NoMemory};
use cil_faults::{Fault, FaultCode, Spot, push_fault};
use std::alloc::Global;

/// How many classes a policy may have.
const MOST_CLASSES: usize = 1024;

/// Reports that there are more classes than a policy may have, where these are the names of all. Error: out of memory.
pub fn push_many(alloc: Global, faults: &mut Vec<Fault>, names: &[Bytes]) -> Result<(), NoMemory>
    ensures { OnOk result ((xs : List Item) (s : OptSet) → Lists text_cmp (IsClassName s xs) names.now
        → (f : AFault) → Contains faults.new.items f ↔ (Contains faults.old.items f ⊎ HasManyClasses s xs f)) }
{
    if names.len() <= MOST_CLASSES {
        return Ok(());
    }
    push_fault(
        alloc,
        faults,
        FaultCode::TooMany,
        Spot { module: 0, at: 0 },
        b"classes".as_slice(),
    )
}
