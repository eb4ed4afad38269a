//! The sensitivities and categories of a policy in their orders, and whether levels are on, or exactly what is wrong with them.

ghost use Rattle.std.specs.Prelude.{◌≡◌, map};
ghost use Rattle.cil_faults.specs.Refusal.{Answers};
ghost use Rattle.cil_syntax.specs.declared.kind.Keyword.TheVariants as keywords;
ghost use Rattle.cil_syntax.specs.declared.kind.Kind.TheVariants as kinds;
ghost use Rattle.cil_faults.specs.declared.code.FaultCode.TheVariants as causes;
ghost use Rattle.cil_attrs.specs.macros.Items.{items_in, namespaces_in};
ghost use Rattle.cil_attrs.specs.names.Rows.{IsTableOf};
ghost use Rattle.cil_attrs.specs.known.Known.{IsKnown, enabled_in, row_in};
ghost use Rattle.cil_attrs.specs.known.Numbers.{AreApart, names_of};
ghost use Rattle.cil_mls.specs.OrderFaults.{AreOrders, OrderFault};
ghost use Rattle.cil_mls.specs.OrderParts.{AreBothOrders, AreFew, AreJudged, IsOn, IsOrderOf, JudgedFault, LimitFault, MlsTwice, OrdersFault, SpaceFault};

use crate::categories::MOST_CATEGORIES;
use crate::category_sets::check_category_sets;
use crate::in_order::Orders;
use crate::item_order::{category_order, sensitivity_order};
use crate::level_names::MOST_SENSITIVITIES;
use crate::policy_faults::{check_limit, ordered, policy_fault};
use crate::switch::is_switched;
use cil_attrs::{Instances, Known, Limit, Sections};
use cil_faults::{Both, Failure, FaultCode, together};
use std::alloc::Global;

/// The orders of sensitivities and of categories, and whether levels are on. It costs what `sensitivity_order` and `category_order`
/// cost, and two steps for each statement.
///
/// Errors: aliases without a target, with two or in a circle; sets of categories that depend on themselves; sensitivities or categories
/// without an order, with several, or more of them than there may be; levels that are turned both on and off; or out of memory.
pub fn orders(
    alloc: Global,
    instances: &Instances,
    known: &Known,
    sections: &Sections,
) -> Result<Orders, Failure>
    requires namespaces { known.now.lookup.namespaces.now ≡ namespaces_in instances.now }
    requires table { IsTableOf (map (row_in known.now) (items_in instances.now)) known.now.words.now }
    requires known { IsKnown known.now (items_in instances.now) (names_of sections.now) }
    requires apart { AreApart known.now.lookup.names.now (enabled_in known.now) known.now.numbers.now }
    ensures { Answers (AreOrders (items_in instances.now) (enabled_in known.now) sections.now.sensitivities.items sections.now.categories.items)
        (OrderFault (items_in instances.now) (enabled_in known.now)) result }
{
    let Both {
        first: rows,
        second: others,
    } = judged(alloc, instances, known, sections)?;
    let Both {
        first: sensitivities,
        second: categories,
    } = rows;
    Ok(Orders {
        sensitivities,
        categories,
        are_on: others.first,
    })
}

/// What is judged: both orders, whether levels are on, how many items there are, and sets of categories.
type Judged = Both<Both<Vec<usize>, Vec<usize>>, Both<bool, Both<Both<(), ()>, ()>>>;

/// The same in parts, with the faults of all parts.
fn judged(
    alloc: Global,
    instances: &Instances,
    known: &Known,
    sections: &Sections,
) -> Result<Judged, Failure>
    requires namespaces { known.now.lookup.namespaces.now ≡ namespaces_in instances.now }
    requires table { IsTableOf (map (row_in known.now) (items_in instances.now)) known.now.words.now }
    requires known { IsKnown known.now (items_in instances.now) (names_of sections.now) }
    requires apart { AreApart known.now.lookup.names.now (enabled_in known.now) known.now.numbers.now }
    ensures { Answers (AreJudged (items_in instances.now) (enabled_in known.now) sections.now.sensitivities.items sections.now.categories.items)
        (JudgedFault (items_in instances.now) (enabled_in known.now)) result }
{
    let rows = both_orders(alloc, instances, known, sections);
    let on = check_mls(alloc, instances, known);
    let few = check_limits(alloc, sections);
    let sets = check_category_sets(alloc, instances, known);
    let checked = together(few, sets);
    let others = together(on, checked);
    together(rows, others)
}

/// Both orders, or the faults of both name spaces.
fn both_orders(
    alloc: Global,
    instances: &Instances,
    known: &Known,
    sections: &Sections,
) -> Result<Both<Vec<usize>, Vec<usize>>, Failure>
    requires namespaces { known.now.lookup.namespaces.now ≡ namespaces_in instances.now }
    requires table { IsTableOf (map (row_in known.now) (items_in instances.now)) known.now.words.now }
    requires known { IsKnown known.now (items_in instances.now) (names_of sections.now) }
    requires apart { AreApart known.now.lookup.names.now (enabled_in known.now) known.now.numbers.now }
    ensures { Answers (AreBothOrders (items_in instances.now) (enabled_in known.now) sections.now.sensitivities.items sections.now.categories.items)
        (OrdersFault (items_in instances.now) (enabled_in known.now)) result }
{
    let sensitivities = sensitivities_of(alloc, instances, known, sections);
    let categories = categories_of(alloc, instances, known, sections);
    together(sensitivities, categories)
}

/// The sensitivities in their order. Errors: the faults of their aliases, or that there is no one order; or out of memory.
fn sensitivities_of(
    alloc: Global,
    instances: &Instances,
    known: &Known,
    sections: &Sections,
) -> Result<Vec<usize>, Failure>
    requires namespaces { known.now.lookup.namespaces.now ≡ namespaces_in instances.now }
    requires table { IsTableOf (map (row_in known.now) (items_in instances.now)) known.now.words.now }
    requires known { IsKnown known.now (items_in instances.now) (names_of sections.now) }
    requires apart { AreApart known.now.lookup.names.now (enabled_in known.now) known.now.numbers.now }
    ensures { Answers (IsOrderOf (items_in instances.now) (enabled_in known.now) kinds.Sensitivity keywords.SensitivityOrder sections.now.sensitivities.items)
        (SpaceFault (items_in instances.now) (enabled_in known.now) kinds.Sensitivity keywords.SensitivityOrder causes.SensitivityOrder) result }
{
    let order = sensitivity_order(alloc, instances, known, sections)?;
    ordered(alloc, order, FaultCode::SensitivityOrder)
}

/// The categories in their order, likewise.
fn categories_of(
    alloc: Global,
    instances: &Instances,
    known: &Known,
    sections: &Sections,
) -> Result<Vec<usize>, Failure>
    requires namespaces { known.now.lookup.namespaces.now ≡ namespaces_in instances.now }
    requires table { IsTableOf (map (row_in known.now) (items_in instances.now)) known.now.words.now }
    requires known { IsKnown known.now (items_in instances.now) (names_of sections.now) }
    requires apart { AreApart known.now.lookup.names.now (enabled_in known.now) known.now.numbers.now }
    ensures { Answers (IsOrderOf (items_in instances.now) (enabled_in known.now) kinds.Category keywords.CategoryOrder sections.now.categories.items)
        (SpaceFault (items_in instances.now) (enabled_in known.now) kinds.Category keywords.CategoryOrder causes.CategoryOrder) result }
{
    let order = category_order(alloc, instances, known, sections)?;
    ordered(alloc, order, FaultCode::CategoryOrder)
}

/// Whether levels are on. Errors: they are turned both on and off; or out of memory.
fn check_mls(alloc: Global, instances: &Instances, known: &Known) -> Result<bool, Failure>
    ensures { Answers (IsOn (items_in instances.now) (enabled_in known.now)) (MlsTwice (items_in instances.now) (enabled_in known.now)) result }
{
    if !is_switched(instances, known, true) {
        return Ok(false);
    }
    if is_switched(instances, known, false) {
        return Err(policy_fault(alloc, FaultCode::MlsTwice, &[]));
    }
    Ok(true)
}

/// Refuses more sensitivities or categories than a policy may have. Errors: these faults, or out of memory.
fn check_limits(alloc: Global, sections: &Sections) -> Result<Both<(), ()>, Failure>
    ensures { AreFew sections.now result }
{
    let few_sensitivities = check_limit(
        alloc,
        sections.sensitivities.as_slice(),
        Limit {
            most: MOST_SENSITIVITIES,
            word: b"sensitivities",
        },
    );
    let few_categories = check_limit(
        alloc,
        sections.categories.as_slice(),
        Limit {
            most: MOST_CATEGORIES,
            word: b"categories",
        },
    );
    together(few_sensitivities, few_categories)
}
