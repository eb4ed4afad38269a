//! The constraints of a policy. Each costs a walk over its term, a step for each of its permission words, and a copy of its steps for each
//! class of which it gives permissions; then all are sorted.

ghost use Rattle.std.specs.Prelude.{◌≡◌, ◌↔◌, IfOk, map, true};
ghost use Rattle.std.specs.List.Sorted.{IsStrictlySortedBy};
ghost use Rattle.cil_base.specs.Gives.{Gives};
ghost use Rattle.cil_base.specs.Records.{AreRecordsOf};
ghost use Rattle.cil_macros.specs.Items.{items_in};
ghost use Rattle.cil_mls.specs.OrderFaults.{Switches};
ghost use Rattle.cil_classes.specs.known.Known.{enabled_in, row_in};
ghost use Rattle.cil_classes.specs.names.Rows.{IsTableOf};
ghost use Rattle.cil_classes.specs.NodeOrder.{node_cmp};
ghost use Rattle.cil_classes.specs.Row.{AreOrderlyRows};
ghost use Rattle.cil_constraints.specs.Compiled.{IsConstraintCase, IsConstraintOf};
ghost use Rattle.cil_constraints.specs.ForNames.{ForNames};
ghost use Rattle.cil_constraints.specs.Order.{constraint_cmp};
ghost use Rattle.cil_constraints.specs.Stated.{CaseBy};

use crate::mask::Constraint;
use crate::push::Standing;
use crate::statement::push_constraints;
use cil_base::NoMemory;
use cil_classes::{Class, GivenPermissions, Known};
use cil_macros::Instances;
use std::alloc::Global;

/// The constraints of the enabled statements, sorted and without repeats, where the words of each declared name stand for these users, roles
/// and types: one for each class of which a statement gives permissions. Those of `mlsconstrain` count where levels are on. Error: out of
/// memory.
pub fn constraints(
    alloc: Global,
    instances: &Instances,
    known: &Known,
    sets: &Standing,
    classes: &[Class],
    given: &GivenPermissions,
    levels_on: bool,
) -> Result<Vec<Constraint>, NoMemory>
    requires table { IsTableOf (map (row_in known.now) (items_in instances.now)) known.now.words.now }
    requires rows { AreOrderlyRows classes.now }
    requires nodes { IsStrictlySortedBy node_cmp given.now.nodes.items }
    ensures { IfOk result (λ list. ((levels_on ≡ true) ↔ Switches (items_in instances.now) (enabled_in known.now) true)
        → ForNames known.now (items_in instances.now) sets.now classes.now given.now (λ names.
        Gives constraint_cmp (IsConstraintCase (items_in instances.now) (enabled_in known.now)) (IsConstraintOf (items_in instances.now) (enabled_in known.now) names classes.now) list.items)) }
{
    let mut list = unsorted(alloc, instances, known, sets, classes, given, levels_on)?;
    list.sort_unstable();
    list.dedup();
    Ok(list)
}

/// The constraints in the order of their statements.
fn unsorted(
    alloc: Global,
    instances: &Instances,
    known: &Known,
    sets: &Standing,
    classes: &[Class],
    given: &GivenPermissions,
    levels_on: bool,
) -> Result<Vec<Constraint>, NoMemory>
    requires table { IsTableOf (map (row_in known.now) (items_in instances.now)) known.now.words.now }
    requires rows { AreOrderlyRows classes.now }
    requires nodes { IsStrictlySortedBy node_cmp given.now.nodes.items }
    ensures { IfOk result (λ list. ((levels_on ≡ true) ↔ Switches (items_in instances.now) (enabled_in known.now) true)
        → ForNames known.now (items_in instances.now) sets.now classes.now given.now (λ names.
        AreRecordsOf (CaseBy (items_in instances.now) (enabled_in known.now)) (IsConstraintOf (items_in instances.now) (enabled_in known.now) names classes.now) (items_in instances.now) list.items)) }
{
    let mut list = Vec::new(alloc);
    let mut masks = Vec::new(alloc);
    let mut steps = Vec::new(alloc);
    for at in 0..instances.len() {
        let words = known.words.row(at);
        push_constraints(
            alloc, instances, &mut list, &mut masks, &mut steps, at, words, known, sets, classes,
            given, levels_on,
        )?;
    }
    Ok(list)
}
