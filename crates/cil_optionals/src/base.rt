//! The words outside all optionals that name nothing.

ghost use Rattle.cil_faults.specs.Refusal.{Answers};
ghost use Rattle.cil_macros.specs.Items.{items_in, namespaces_in};
ghost use Rattle.cil_names.specs.Entries.{AreEntries, is_in};
ghost use Rattle.cil_names.specs.Faults.{ResolveFault};
ghost use Rattle.cil_names.specs.Unresolved.{ArePermissions};

use crate::chosen::Chosen;
use cil_macros::Instances;
use cil_names::Names;
use cil_syntax::{Bytes, Failure};
use cil_words::{asks_of, judged};
use std::alloc::Global;

/// Judges the words of all statements that are in no optional, by the names that are declared where these optionals are in force.
/// It makes the table of what all instances ask for, and drops it.
///
/// Errors: a fault 41 for each such word that names nothing, or out of memory.
pub fn base_faults<'r, 'a>(
    alloc: Global,
    instances: &'r Instances<'_, '_, 'a>,
    names: &'r Names<'a>,
    permissions: &'r [Vec<Bytes>],
    chosen: &'r Chosen,
) -> Result<(), Failure>
    requires entries { AreEntries (namespaces_in instances.now) (items_in instances.now) names.now }
    requires permissions { ArePermissions (namespaces_in instances.now) names.now (items_in instances.now) permissions.now }
    ensures { Answers (λ done. Unit {0}) (ResolveFault (is_in chosen.now.enabled) (items_in instances.now)) result }
{
    let asks = asks_of(alloc, instances, names, permissions)?;
    judged(alloc, instances, names, &asks, &chosen.enabled)?;
    Ok(())
}
