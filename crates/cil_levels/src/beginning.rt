//! What declared names hold before sets of categories have what their declarations say.

ghost use Rattle.std.specs.Prelude.{◌≡◌, ◌<◌, ℕ, All, IfOk, [], get_or};
ghost use Rattle.cil_mls.specs.SetEdges.{is_set, is_set_at};
ghost use Rattle.cil_mls.specs.Values.{IsFew};
ghost use Rattle.cil_levels.specs.Begun.{AreBegun, IsBegun, IsNoneAs};

use crate::inverse::place_at;
use cil_base::NoMemory;
use cil_mls::{Categories, Held};
use cil_names::Entry;
use cil_sets::Numbers;
use cil_syntax::Kind;
use std::alloc::Global;

/// What each name holds at first, where words that mean it stand for these numbers, which have these places: a set of categories
/// nothing, and each other name the place of its number. It costs a step for each name. Errors: out of memory, which is also the answer
/// if a name stands for several: there is none, since an alias has one target, and a set of categories stands for no category.
pub fn begun(
    alloc: Global,
    entries: &[Entry],
    standing: &[Numbers],
    places: &[usize],
) -> Result<Vec<Held>, NoMemory>
    requires few { (n : ℕ) → get_or places.now n 0 < 1024 }
    ensures begun { IfOk result (λ helds. AreBegun entries.now standing.now places.now helds.items) }
    ensures few { IfOk result (λ helds. All IsFew helds.items) }
{
    let mut helds = Vec::new(alloc);
    for d in 0..entries.len() {
        helds.push(begun_at(alloc, entries, standing, places, d)?)?;
    }
    Ok(helds)
}

/// What the name of this number holds at first.
fn begun_at(
    alloc: Global,
    entries: &[Entry],
    standing: &[Numbers],
    places: &[usize],
    d: usize,
) -> Result<Held, NoMemory>
    requires few { (n : ℕ) → get_or places.now n 0 < 1024 }
    ensures begun { IfOk result (IsBegun entries.now standing.now places.now d) }
    ensures few { IfOk result IsFew }
{
    let numbers = numbers_at(alloc, standing, d)?;
    let is_set = is_set_at(entries, d);
    match numbers.as_slice() {
        [] => Ok(begun_with_none(is_set)),
        [number] => {
            if is_set {
                return Err(NoMemory);
            }
            Ok(Held::Category(place_at(places, *number)))
        }
        [_, _, ..] => Err(NoMemory),
    }
}

/// What a name holds at first that stands for nothing.
fn begun_with_none(is_set: bool) -> Held
    ensures { IsNoneAs is_set result }
{
    if is_set {
        Held::Set(Categories::none())
    } else {
        Held::Nothing
    }
}

/// The numbers for which words stand that mean the name of this number.
pub fn numbers_at(alloc: Global, standing: &[Numbers], d: usize) -> Result<Vec<usize>, NoMemory>
    ensures { IfOk result (λ numbers. numbers.items ≡ get_or standing.now d []) }
{
    match standing.get(d) {
        Some(set) => set.to_vec(alloc),
        None => Ok(Vec::new(alloc)),
    }
}

/// Whether the name of a number is that of a set of categories.
fn is_set_at(entries: &[Entry], number: usize) -> bool
    ensures { result ≡ is_set_at entries.now number }
{
    match entries.get(number) {
        Some(entry) => is_set(entry),
        None => false,
    }
}

fn is_set(entry: &Entry) -> bool
    ensures { result ≡ is_set entry.now }
{
    matches!(entry.kind, Kind::CategorySet)
}
