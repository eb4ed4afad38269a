//! More booleans than a policy may have.

ghost use Rattle.cil_base.specs.Lists.{Lists, text_cmp};
ghost use Rattle.std.specs.Prelude.{◌≤◌, List, length};
ghost use Rattle.cil_faults.specs.Refusal.{Answers};
ghost use Rattle.cil_macros.specs.Item.{Item, OptSet};
ghost use Rattle.cil_syntax.specs.declared.kind.Kind.TheVariants as variants;
ghost use Rattle.cil_tables.specs.Booleans.{HasManyBooleans};
ghost use Rattle.cil_tables.specs.Named.{IsNameOf};
ghost use Rattle.cil_tables.specs.Table.{most_booleans};

use cil_base::Bytes;
use cil_faults::{Failure, FaultCode, Spot, push_fault, refuse};
use cil_neverallow::MOST_BOOLEANS;
use std::alloc::Global;

/// Refuses more booleans than a policy may have, where these are the names of all. Errors: that fault, or out of memory.
pub(crate) fn check_booleans(alloc: Global, names: &[Bytes]) -> Result<(), Failure>
    ensures { (xs : List Item) (s : OptSet) → Lists text_cmp (IsNameOf xs s variants.Boolean) names.now → Answers (λ done. length names.now ≤ most_booleans) (HasManyBooleans s xs) result }
{
    if names.len() <= MOST_BOOLEANS as usize {
        return Ok(());
    }
    let mut faults = Vec::new(alloc);
    push_fault(
        alloc,
        &mut faults,
        FaultCode::TooMany,
        Spot { module: 0, at: 0 },
        b"booleans".as_slice(),
    )?;
    refuse(faults)
}
