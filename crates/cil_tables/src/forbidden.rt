//! Rules that the policy forbids itself.

ghost use Rattle.std.specs.Prelude.{◌≡◌, ℕ, List, map};
ghost use Rattle.std.specs.List.Sorted.{IsStrictlySortedBy};
ghost use Rattle.cil_faults.specs.Refusal.{Answers};
ghost use Rattle.cil_syntax.specs.declared.kind.Kind as kinds;
ghost use Rattle.cil_syntax.specs.declared.kind.Kind.TheVariants as variants;
ghost use Rattle.cil_macros.specs.Items.{items_in};
ghost use Rattle.cil_known.specs.Known.{IsKnown, enabled_in, row_in};
ghost use Rattle.cil_known.specs.Numbers.{AreApart};
ghost use Rattle.cil_names.specs.Rows.{IsTableOf};
ghost use Rattle.cil_classes.specs.ClassRows.{AreClasses};
ghost use Rattle.cil_classes.specs.Held.{IsAssigned};
ghost use Rattle.cil_classes.specs.NodeOrder.{node_cmp};
ghost use Rattle.cil_classes.specs.Row.{AreOrderlyRows};
ghost use Rattle.cil_neverallow.specs.NeverFaults.{NeverFault};
ghost use Rattle.cil_tables.specs.Standings.{AllStand};

use crate::standings::Standings;
use cil_base::Bytes;
use cil_classes::{Class, GivenPermissions};
use cil_faults::Failure;
use cil_known::Known;
use cil_macros::Instances;
use cil_neverallow::{View, violations};
use std::alloc::Global;

/// Refuses rules that the policy forbids itself, where these are the names of types. Errors: the faults, or out of memory.
pub(crate) fn check_forbidden<'s>(
    alloc: Global,
    instances: &Instances,
    known: &Known,
    types: &'s [Bytes],
    stand: &'s Standings,
    classes: &'s [Class],
    permissions: &GivenPermissions,
) -> Result<(), Failure>
    requires table { IsTableOf (map (row_in known.now) (items_in instances.now)) known.now.words.now }
    requires rows { AreOrderlyRows classes.now }
    requires nodes { IsStrictlySortedBy node_cmp permissions.now.nodes.items }
    ensures { (names : kinds.Kind → List (List ℕ)) → names variants.Type_ ≡ types.now → IsKnown known.now (items_in instances.now) names
        → AreApart known.now.lookup.names.now (enabled_in known.now) known.now.numbers.now → AllStand known.now (items_in instances.now) names stand.now
        → AreClasses (items_in instances.now) (enabled_in known.now) (names variants.Class) classes.now
        → IsAssigned known.now (items_in instances.now) classes.now permissions.now
        → Answers (λ done. Unit {0}) (NeverFault (items_in instances.now) (enabled_in known.now)) result }
{
    let view = View {
        sets: stand.types.as_slice(),
        types,
        classes,
    };
    violations(alloc, instances, known, &view, permissions)
}
