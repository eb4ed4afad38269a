//! What each declared name holds: a category, an alias or a set of categories.

ghost use Rattle.std.specs.Prelude.{◌≡◌, ◌≤◌, ℕ, All, IfOk, List, length, map, true};
ghost use Rattle.cil_faults.specs.declared.fault.Fault.{Fault};
ghost use Rattle.cil_syntax.specs.declared.kind.Keyword.TheVariants as keywords;
ghost use Rattle.cil_syntax.specs.declared.kind.Kind as kinds;
ghost use Rattle.cil_syntax.specs.declared.kind.Kind.TheVariants as variants;
ghost use Rattle.cil_macros.specs.Items.{items_in, namespaces_in};
ghost use Rattle.cil_names.specs.Rows.{IsTableOf};
ghost use Rattle.cil_known.specs.Known.{IsKnown, enabled_in, row_in};
ghost use Rattle.cil_known.specs.Numbers.{AreApart, names_of};
ghost use Rattle.cil_mls.specs.CategorySets.{CircularSet};
ghost use Rattle.cil_mls.specs.OrderFaults.{AreOrders, OrderFault};
ghost use Rattle.cil_mls.specs.Ordering.{IsNumberedOrder};
ghost use Rattle.cil_mls.specs.Values.{IsFew};
ghost use Rattle.cil_levels.specs.Begun.{AreFirst, IsBegunBy};
ghost use Rattle.cil_levels.specs.Held.{HoldValues};
ghost use Rattle.cil_levels.specs.Made.{AreSetsMade};

use crate::beginning::begun;
use crate::definitions::{definitions_of, ranked};
use crate::inverse::inverse_of;
use crate::making::made;
use cil_base::NoMemory;
use cil_known::{Known, Sections};
use cil_macros::Instances;
use cil_mls::{CategorySpace as Categories, Held, Orders, members, set_edges, standing_of};
use cil_names::laws;
use cil_settle::cycles_of;
use std::alloc::Global;

/// What each declared name holds, by the number of its entry, where these are the orders: a category and an alias of one the place of
/// that category, a set of categories what its declarations say, and any other name nothing. `value` evaluates expressions by this.
///
/// Each expression is evaluated once, in an order in which each set is made before it is named. It costs n log n steps for n names,
/// statements and words, and 136 bytes for each name. Errors: out of memory, which is also the answer where an alias stands for
/// several categories, or where the declaration of a set says a list or names permissions: there are none of these.
pub fn category_values(
    alloc: Global,
    instances: &Instances,
    known: &Known,
    sections: &Sections,
    orders: &Orders,
) -> Result<Vec<Held>, NoMemory>
    requires namespaces { known.now.lookup.namespaces.now ≡ namespaces_in instances.now }
    requires table { IsTableOf (map (row_in known.now) (items_in instances.now)) known.now.words.now }
    requires known { IsKnown known.now (items_in instances.now) (names_of sections.now) }
    requires apart { AreApart known.now.lookup.names.now (enabled_in known.now) known.now.numbers.now }
    requires orders { AreOrders (items_in instances.now) (enabled_in known.now) sections.now.sensitivities.items sections.now.categories.items orders.now }
    requires none { (f : Fault) → OrderFault (items_in instances.now) (enabled_in known.now) f → ⊥ }
    ensures { IfOk result (λ helds. (o : AreOrders (items_in instances.now) (enabled_in known.now) sections.now.sensitivities.items sections.now.categories.items orders.now)
        → HoldValues known.now (items_in instances.now) o.of_categories.row helds.items) }
{
    // What is known of a word: it means the entry that it names.
    laws::means_what_it_names();
    let order = orders.categories.as_slice();
    let first = first_held(alloc, instances, known, sections, order)?;
    let helds = with_sets(alloc, instances, known, order.len(), first)?;
    Ok(helds)
}

/// What each name holds before sets have what their declarations say, where this is the order of the categories. Error: out of memory.
fn first_held(
    alloc: Global,
    instances: &Instances,
    known: &Known,
    sections: &Sections,
    order: &[usize],
) -> Result<Vec<Held>, NoMemory>
    requires namespaces { known.now.lookup.namespaces.now ≡ namespaces_in instances.now }
    requires table { IsTableOf (map (row_in known.now) (items_in instances.now)) known.now.words.now }
    requires known { IsKnown known.now (items_in instances.now) (names_of sections.now) }
    requires apart { AreApart known.now.lookup.names.now (enabled_in known.now) known.now.numbers.now }
    requires order { IsNumberedOrder (items_in instances.now) (enabled_in known.now) variants.Category keywords.CategoryOrder sections.now.categories.items order.now }
    requires few { length sections.now.categories.items ≤ 1024 }
    ensures first { IfOk result (λ helds. AreFirst known.now (items_in instances.now) (names_of sections.now) sections.now.categories.items order.now helds.items) }
    ensures few { IfOk result (λ helds. All IsFew helds.items) }
    ensures count { IfOk result (λ helds. length order.now ≤ 1024) }
{
    let names = sections.categories.as_slice();
    let Ok(members) = members::<Categories>(alloc, instances, known, names) else {
        return Err(NoMemory);
    };
    let standing = standing_of(alloc, members.held(), names.len())?;
    let places = inverse_of(alloc, order, names.len())?;
    let helds = begun(
        alloc,
        known.lookup.names.entries(),
        standing.as_slice(),
        places.as_slice(),
    )?;
    Ok(helds)
}

/// The same where each set has what its declarations say, and there are so many categories. Error: out of memory.
fn with_sets(
    alloc: Global,
    instances: &Instances,
    known: &Known,
    count: usize,
    first: Vec<Held>,
) -> Result<Vec<Held>, NoMemory>
    requires namespaces { known.now.lookup.namespaces.now ≡ namespaces_in instances.now }
    requires table { IsTableOf (map (row_in known.now) (items_in instances.now)) known.now.words.now }
    requires known { (sections : kinds.Kind → List (List ℕ)) × IsKnown known.now (items_in instances.now) sections }
    requires none { (f : Fault) → CircularSet (items_in instances.now) (enabled_in known.now) f → ⊥ }
    requires begun { IsBegunBy known.now.lookup.names.now first.items }
    requires few { All IsFew first.items }
    requires count { count ≤ 1024 }
    ensures made { IfOk result (λ helds. AreSetsMade known.now instances.now count first.items helds.items) }
    ensures few { IfOk result (λ helds. All IsFew helds.items) }
{
    // What is known of a word: it means the entry that it names.
    laws::means_what_it_names();
    let definitions = definitions_of(alloc, instances, known)?;
    let edges = set_edges(alloc, instances, known)?;
    let entries = known.lookup.names.entries();
    let cycles = cycles_of(alloc, entries.len(), edges.as_slice())?;
    let ordered = ranked(definitions, cycles.ranks.as_slice());
    let helds = made(instances, known, count, first, ordered.as_slice())?;
    Ok(helds)
}
