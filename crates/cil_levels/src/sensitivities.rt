//! Which sensitivity each declared name stands for.

ghost use Rattle.std.specs.Prelude.{◌≡◌, ◌<◌, ℕ, IfOk, [], get_or, map};
ghost use Rattle.cil_macros.specs.Items.{items_in, namespaces_in};
ghost use Rattle.cil_names.specs.Rows.{IsTableOf};
ghost use Rattle.cil_known.specs.Known.{IsKnown, enabled_in, row_in};
ghost use Rattle.cil_known.specs.Numbers.{AreApart, names_of};
ghost use Rattle.cil_mls.specs.OrderFaults.{AreOrders};
ghost use Rattle.cil_levels.specs.Sensitivities.{ArePlaces, ArePlacesOfNumbers, IsPlaceOfNumbers};

use crate::beginning::numbers_at;
use crate::inverse::{inverse_of, place_at};
use cil_base::NoMemory;
use cil_known::{Known, Sections};
use cil_macros::Instances;
use cil_mls::{Orders, Sensitivities, members, standing_of};
use cil_sets::Numbers;
use std::alloc::Global;

/// For each declared name, by the number of its entry, the place in the order of the sensitivity for which it stands, itself or as an
/// alias; none for any other name.
///
/// It costs n log n steps for n names. Errors: out of memory, which is also the answer where an alias stands for several sensitivities:
/// there is none.
pub fn sensitivity_places(
    alloc: Global,
    instances: &Instances,
    known: &Known,
    sections: &Sections,
    orders: &Orders,
) -> Result<Vec<Option<u16>>, NoMemory>
    requires namespaces { known.now.lookup.namespaces.now ≡ namespaces_in instances.now }
    requires table { IsTableOf (map (row_in known.now) (items_in instances.now)) known.now.words.now }
    requires known { IsKnown known.now (items_in instances.now) (names_of sections.now) }
    requires apart { AreApart known.now.lookup.names.now (enabled_in known.now) known.now.numbers.now }
    requires orders { AreOrders (items_in instances.now) (enabled_in known.now) sections.now.sensitivities.items sections.now.categories.items orders.now }
    ensures { IfOk result (λ places. (o : AreOrders (items_in instances.now) (enabled_in known.now) sections.now.sensitivities.items sections.now.categories.items orders.now)
        → ArePlaces known.now (items_in instances.now) o.of_sensitivities.row places.items) }
{
    let names = sections.sensitivities.as_slice();
    let order = orders.sensitivities.as_slice();
    let Ok(members) = members::<Sensitivities>(alloc, instances, known, names) else {
        return Err(NoMemory);
    };
    let standing = standing_of(alloc, members.held(), names.len())?;
    let places = inverse_of(alloc, order, names.len())?;
    let kept = places_of_names(alloc, standing.as_slice(), places.as_slice())?;
    Ok(kept)
}

/// The place of what each name stands for, where words that mean it stand for these numbers, which have these places. Error: out of
/// memory, which is also the answer where a name stands for several.
fn places_of_names(
    alloc: Global,
    standing: &[Numbers],
    places: &[usize],
) -> Result<Vec<Option<u16>>, NoMemory>
    requires few { (n : ℕ) → get_or places.now n 0 < 1024 }
    ensures { IfOk result (λ kept. ArePlacesOfNumbers standing.now places.now kept.items) }
{
    let mut kept = Vec::new(alloc);
    for d in 0..standing.len() {
        kept.push(place_of_name(alloc, standing, places, d)?)?;
    }
    Ok(kept)
}

/// The same for the name of this number.
fn place_of_name(
    alloc: Global,
    standing: &[Numbers],
    places: &[usize],
    d: usize,
) -> Result<Option<u16>, NoMemory>
    requires few { (n : ℕ) → get_or places.now n 0 < 1024 }
    ensures { IfOk result (IsPlaceOfNumbers places.now (get_or standing.now d [])) }
{
    let numbers = numbers_at(alloc, standing, d)?;
    match numbers.as_slice() {
        [] => Ok(None),
        [number] => Ok(Some(place_at(places, *number) as u16)),
        [_, _, ..] => Err(NoMemory),
    }
}
