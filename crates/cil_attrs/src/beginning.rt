//! What declared names hold before any statement gives a set something: an item its number, a set nothing.

ghost use Rattle.std.specs.Prelude.{◌≡◌, ◌<◌, ℕ, IfOk, List, Some, get_or, length, slice_get};
ghost use Rattle.std.specs.Ordering.{nat_cmp};
ghost use Rattle.cil_base.specs.Lists.{Lists};
ghost use Rattle.cil_syntax.specs.declared.kind.Kind as kinds;
ghost use Rattle.cil_known.specs.macros.Item.{Item};
ghost use Rattle.cil_known.specs.names.Entry.{Entry as Declared};
ghost use Rattle.cil_known.specs.declared.known.Known.{Known as Lookups};
ghost use Rattle.cil_known.specs.Known.{IsKnown, enabled_in};
ghost use Rattle.cil_known.specs.Spaces.{SpaceOf};
ghost use Rattle.cil_attrs.specs.Begun.{begun_as, has_kind, is_sets_kind};
ghost use Rattle.cil_attrs.specs.Holding.{AreAll};

use crate::evaluator::Held;
use crate::giver::{SetKind, SpaceKinds, is_same_kind};
use cil_base::{Bytes, NoMemory};
use cil_known::Known;
use cil_sets::Numbers;
use cil_syntax::Kind;
use std::alloc::Global;

/// The numbers of all items, by their names: those below the number of the names. Error: out of memory.
pub fn all_items(alloc: Global, names: &[Bytes]) -> Result<Numbers, NoMemory>
    ensures numbers { IfOk result (Lists nat_cmp (λ v. v < length names.now)) }
    ensures every { IfOk result (λ all. (k : Lookups) (xs : List Item) (sections : kinds.Kind → List (List ℕ)) (which : SpaceOf) → sections which.item ≡ names.now → AreAll k xs sections which all) }
{
    let all = Numbers::below(alloc, names.len())?;
    Ok(all)
}

/// What each declared name holds at first. Error: out of memory.
pub fn begun(alloc: Global, known: &Known, space: &SpaceKinds) -> Result<Vec<Held>, NoMemory>
    ensures len { IfOk result (λ held. length held.items ≡ length known.now.lookup.names.now) }
    ensures each { IfOk result (λ held. (d : ℕ) (e : Declared) → slice_get known.now.lookup.names.now d ≡ Some e
        → slice_get held.items d ≡ Some (begun_as space.now (enabled_in known.now) known.now.numbers.now d e)) }
{
    let mut held = Vec::new(alloc);
    for d in 0..known.lookup.names.entries().len() {
        held.push(begun_at(alloc, known, space, d))?;
    }
    Ok(held)
}

fn begun_at(alloc: Global, known: &Known, space: &SpaceKinds, d: usize) -> Held
    ensures { (e : Declared) → slice_get known.now.lookup.names.now d ≡ Some e → result ≡ begun_as space.now (enabled_in known.now) known.now.numbers.now d e }
{
    let Some(entry) = known.lookup.names.entries().get(d) else {
        return Held::Nothing;
    };
    if entry.is_declared_as(space.item, known.lookup.enabled) {
        return Held::Item(number_at(known.numbers, d));
    }
    if is_sets_kind(space, entry.kind) {
        return Held::Set(Numbers::new(alloc));
    }
    Held::Nothing
}

/// Whether this is a kind of sets of the name space.
fn is_sets_kind(space: &SpaceKinds, kind: Kind) -> bool
    ensures { result ≡ is_sets_kind space.now kind }
{
    has_kind(space.aliases, kind) || has_kind(space.attributes, kind)
}

fn has_kind(sets: Option<SetKind>, kind: Kind) -> bool
    ensures { result ≡ has_kind sets kind }
{
    match sets {
        Some(sets) => is_same_kind(kind, sets.kind),
        None => false,
    }
}

/// The number at a place; 0 where there is none.
fn number_at(numbers: &[usize], place: usize) -> usize
    ensures { result ≡ get_or numbers.now place 0 }
{
    match numbers.get(place) {
        Some(number) => *number,
        None => 0,
    }
}
