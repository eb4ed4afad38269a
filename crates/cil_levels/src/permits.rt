//! Which categories sensitivities permit.

ghost use Rattle.std.specs.Prelude.{◌≡◌, ◌↔◌, ◌<◌, ◌≤◌, ℕ, All, Contains, IfOk, OnOk, [], get_or, length, map, true};
ghost use Rattle.cil_syntax.specs.Said.{all_said, said_of};
ghost use Rattle.cil_macros.specs.Items.{item_at, items_in, namespaces_in};
ghost use Rattle.cil_names.specs.Rows.{IsTableOf};
ghost use Rattle.cil_known.specs.Known.{IsKnown, enabled_in, row_in, set_meant};
ghost use Rattle.cil_known.specs.Numbers.{AreApart, names_of};
ghost use Rattle.cil_mls.specs.OrderFaults.{AreOrders};
ghost use Rattle.cil_mls.specs.Bits.{in_words};
ghost use Rattle.cil_mls.specs.Pairs.{is_word};
ghost use Rattle.cil_mls.specs.Values.{IsFew};
ghost use Rattle.cil_levels.specs.Held.{AreHeld, HoldValues};
ghost use Rattle.cil_levels.specs.Permitted.{ArePermitted};
ghost use Rattle.cil_levels.specs.Permits.{AreEmpty, HaveMore, PermitsAmong, PermitsBy, begins_with_word};
ghost use Rattle.cil_levels.specs.Values.{Values as TheValues};

use crate::beginning::numbers_at;
use crate::expressions::second_value;
use crate::inverse::{inverse_of, place_at};
use cil_base::NoMemory;
use cil_known::{Known, Sections, meaning_at};
use cil_macros::Instances;
use cil_mls::{Categories, Evaluator, Held, Orders, Sensitivities, members, standing_of};
use cil_names::same_keyword;
use cil_sets::Numbers;
use cil_syntax::{Keyword, Term};
use std::alloc::Global;

/// For each sensitivity, by its place in the order, the categories that may go with it, where names hold these categories: what all
/// enabled `sensitivitycategory` statements say of it together.
///
/// Each expression is evaluated once. It costs a step for each statement, and n log n steps for the names of sensitivities. Error: out
/// of memory, which is also the answer where such a statement says a list or names permissions: there is none of these.
pub fn permitted(
    alloc: Global,
    instances: &Instances,
    known: &Known,
    sections: &Sections,
    orders: &Orders,
    helds: &[Held],
) -> Result<Vec<Categories>, NoMemory>
    requires namespaces { known.now.lookup.namespaces.now ≡ namespaces_in instances.now }
    requires table { IsTableOf (map (row_in known.now) (items_in instances.now)) known.now.words.now }
    requires known { IsKnown known.now (items_in instances.now) (names_of sections.now) }
    requires apart { AreApart known.now.lookup.names.now (enabled_in known.now) known.now.numbers.now }
    requires orders { AreOrders (items_in instances.now) (enabled_in known.now) sections.now.sensitivities.items sections.now.categories.items orders.now }
    requires held { (o : AreOrders (items_in instances.now) (enabled_in known.now) sections.now.sensitivities.items sections.now.categories.items orders.now)
        → HoldValues known.now (items_in instances.now) o.of_categories.row helds.now }
    ensures { IfOk result (λ sets. (o : AreOrders (items_in instances.now) (enabled_in known.now) sections.now.sensitivities.items sections.now.categories.items orders.now)
        → (v : TheValues) → AreHeld known.now (items_in instances.now) o.of_categories.row helds.now v
        → ArePermitted (items_in instances.now) (enabled_in known.now) o.of_sensitivities.row o.of_categories.row v sets.items) }
{
    let names = sections.sensitivities.as_slice();
    let order = orders.sensitivities.as_slice();
    let Ok(members) = members::<Sensitivities>(alloc, instances, known, names) else {
        return Err(NoMemory);
    };
    let standing = standing_of(alloc, members.held(), names.len())?;
    let places = inverse_of(alloc, order, names.len())?;
    let mut sets = empty_sets(alloc, order.len())?;
    let categories = orders.categories.as_slice();
    let by = Evaluator {
        count: categories.len(),
        held: helds,
    };
    permit_all(
        alloc,
        instances,
        known,
        &by,
        standing.as_slice(),
        places.as_slice(),
        &mut sets,
    )?;
    Ok(sets)
}

/// So many empty sets. Error: out of memory.
fn empty_sets(alloc: Global, count: usize) -> Result<Vec<Categories>, NoMemory>
    ensures { IfOk result (λ sets. AreEmpty count sets.items) }
{
    let mut sets = Vec::new(alloc);
    while sets.len() < count {
        sets.push(Categories::none())?;
    }
    Ok(sets)
}

/// Adds to the set of each sensitivity what the statements permit to it, where words stand for these numbers, which have these places.
/// Error: out of memory.
fn permit_all(
    alloc: Global,
    instances: &Instances,
    known: &Known,
    by: &Evaluator,
    standing: &[Numbers],
    places: &[usize],
    sets: &mut Vec<Categories>,
) -> Result<(), NoMemory>
    requires table { IsTableOf (map (row_in known.now) (items_in instances.now)) known.now.words.now }
    requires count { by.now.count ≤ 1024 }
    requires few { All IsFew by.now.held.now }
    ensures { OnOk result (HaveMore sets.old.items sets.new.items (PermitsAmong known.now standing.now places.now by.now.held.now by.now.count (items_in instances.now))) }
{
    for at in 0..instances.len() {
        permit_at(alloc, instances, known, by, standing, places, at, sets)?;
    }
    Ok(())
}

/// Adds what the statement at a place permits.
fn permit_at(
    alloc: Global,
    instances: &Instances,
    known: &Known,
    by: &Evaluator,
    standing: &[Numbers],
    places: &[usize],
    at: usize,
    sets: &mut Vec<Categories>,
) -> Result<(), NoMemory>
    requires table { IsTableOf (map (row_in known.now) (items_in instances.now)) known.now.words.now }
    requires within { at < length (items_in instances.now) }
    requires count { by.now.count ≤ 1024 }
    requires few { All IsFew by.now.held.now }
    ensures { OnOk result (HaveMore sets.old.items sets.new.items (PermitsBy known.now standing.now places.now by.now.held.now by.now.count (item_at instances.now at))) }
{
    let statement = instances.statement_there(at);
    if !same_keyword(statement.keyword, Keyword::SensitivityCategory) {
        return Ok(());
    }
    if !known.is_enabled(instances, at) {
        return Ok(());
    }
    let more = second_value(instances, known, by, at)?;
    if !begins_with_word(statement.args.as_slice()) {
        return Ok(());
    }
    let word = meaning_at(known.words.row(at), 0);
    let numbers = numbers_meant(alloc, standing, word)?;
    add_all(sets, places, numbers.as_slice(), &more);
    Ok(())
}

/// Adds categories to the sets at the places of some numbers.
fn add_all(sets: &mut Vec<Categories>, places: &[usize], numbers: &[usize], more: &Categories)
    ensures { HaveMore sets.old.items sets.new.items (λ n c. (m : ℕ) × Contains numbers.now m × (get_or places.now m 0 ≡ n) × (in_words more.now.words c ≡ true)) }
{
    for number in numbers {
        add(sets, place_at(places, *number), more);
    }
}

/// Adds categories to the set at a place, if there is one.
fn add(sets: &mut Vec<Categories>, place: usize, more: &Categories)
    ensures { HaveMore sets.old.items sets.new.items (λ n c. (place ≡ n) × (in_words more.now.words c ≡ true)) }
{
    if place < sets.len() {
        sets[place] = sets[place].union(more);
    }
}

/// The numbers for which a word of a meaning stands.
fn numbers_meant(
    alloc: Global,
    standing: &[Numbers],
    meaning: Option<usize>,
) -> Result<Vec<usize>, NoMemory>
    ensures { IfOk result (λ numbers. numbers.items ≡ set_meant standing.now meaning) }
{
    let Some(entry) = meaning else {
        return Ok(Vec::new(alloc));
    };
    numbers_at(alloc, standing, entry)
}

/// Whether the first of some terms is a word.
fn begins_with_word(terms: &[Term]) -> bool
    ensures { (m : ℕ) → result ≡ begins_with_word (all_said m terms.now) }
{
    match terms {
        [] => false,
        [first, ..] => is_word(first),
    }
}

fn is_word(term: &Term) -> bool
    ensures { (m : ℕ) → result ≡ is_word (said_of m term.now) }
{
    matches!(term, Term::Leaf(_))
}
