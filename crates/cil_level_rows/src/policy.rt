//! What tables hold of the levels of a policy, or all that is wrong with its levels.

ghost use Rattle.std.specs.Prelude.{◌≡◌, map};
ghost use Rattle.cil_faults.specs.Refusal.{Answers};
ghost use Rattle.cil_faults.specs.declared.fault.Fault.{Fault};
ghost use Rattle.cil_macros.specs.Items.{items_in, namespaces_in};
ghost use Rattle.cil_names.specs.Faults.{ClashFault};
ghost use Rattle.cil_names.specs.Rows.{IsTableOf};
ghost use Rattle.cil_known.specs.Known.{IsKnown, enabled_in, row_in};
ghost use Rattle.cil_known.specs.Numbers.{AreApart, names_of};
ghost use Rattle.cil_mls.specs.OrderFaults.{AreOrders, OrderFault};
ghost use Rattle.cil_level_rows.specs.Rows.{IsLevelTable};
ghost use Rattle.cil_level_rows.specs.Steps.{LevelStep};

use crate::rows::level_rows;
use cil_faults::Failure;
use cil_known::{Known, Sections};
use cil_labels::Labels;
use cil_macros::Instances;
use cil_mls::Orders;
use cil_ranges::levels_of;
use std::alloc::Global;

/// What tables hold of the levels of a policy, where these are the orders of its sensitivities and categories.
///
/// Errors: the faults of levels and ranges and of the ranges of users; or out of memory.
pub fn labels_of(
    alloc: Global,
    instances: &Instances,
    known: &Known,
    sections: &Sections,
    orders: &Orders,
) -> Result<Labels, Failure>
    requires namespaces { known.now.lookup.namespaces.now ≡ namespaces_in instances.now }
    requires table { IsTableOf (map (row_in known.now) (items_in instances.now)) known.now.words.now }
    requires known { IsKnown known.now (items_in instances.now) (names_of sections.now) }
    requires numbers { AreApart known.now.lookup.names.now (enabled_in known.now) known.now.numbers.now }
    requires orders { AreOrders (items_in instances.now) (enabled_in known.now) sections.now.sensitivities.items sections.now.categories.items orders.now }
    requires none { (f : Fault) → OrderFault (items_in instances.now) (enabled_in known.now) f → ⊥ }
    requires apart { (f : Fault) → ClashFault (items_in instances.now) f → ⊥ }
    ensures { Answers (IsLevelTable (items_in instances.now) (enabled_in known.now) sections.now.users.items) (LevelStep (items_in instances.now) (enabled_in known.now)) result }
{
    let levels = levels_of(alloc, instances, known, sections, orders)?;
    let labels = level_rows(alloc, instances, known, sections, orders, levels)?;
    Ok(labels)
}
