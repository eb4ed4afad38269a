//! What the words of a kind stand for, as sets of numbers.

ghost use Rattle.std.specs.Prelude.{◌≡◌, ◌<◌, ℕ, IfOk, List, Some, length, slice_get, true};
ghost use Rattle.std.specs.Ordering.{nat_cmp};
ghost use Rattle.cil_base.specs.Lists.{Lists};
ghost use Rattle.cil_syntax.specs.declared.kind.Kind as kinds;
ghost use Rattle.cil_known.specs.macros.Item.{Item};
ghost use Rattle.cil_known.specs.declared.known.Known.{Known as Lookups};
ghost use Rattle.cil_known.specs.Known.{AreStanding, HaveMembers, IsKnown};
ghost use Rattle.cil_known.specs.Members.{space_of};
ghost use Rattle.cil_known.specs.Numbers.{has_section};
ghost use Rattle.cil_attrs.specs.Members.{AreMembers};
ghost use Rattle.cil_attrs.specs.declared.evaluator.Held.{Held as AHeld};
ghost use Rattle.cil_attrs.specs.declared.evaluator.Held.TheVariants.{Item as HeldItem};
ghost use Rattle.cil_attrs.specs.Standing.{AreAllBelow, AreBelow};

use crate::evaluator::Held;
use cil_base::NoMemory;
use cil_known::names_laws as laws;
use cil_sets::{Joining, Numbers};
use std::alloc::Global;

/// For each declared name the numbers of the items for which it stands, by what it holds, where there are so many items: of an alias
/// or an attribute those that it has. It costs
/// a step for each name and for each block of its set. Error: out of memory.
pub fn standing_of(alloc: Global, held: &[Held], items: usize) -> Result<Vec<Numbers>, NoMemory>
    ensures { IfOk result (λ sets. (k : Lookups) (xs : List Item) (names : kinds.Kind → List (List ℕ)) (kind : kinds.Kind) → IsKnown k xs names → has_section kind ≡ true
        → AreMembers k xs names (space_of kind) held.now → items ≡ length (names kind) → AreStanding k xs names kind sets.items × HaveMembers k xs names kind sets.items) }
{
    // What is known of a word: it means the entry that it names.
    laws::means_what_it_names();
    let sets = all_below(alloc, held, items)?;
    Ok(sets)
}

/// The numbers below this one that each holds.
fn all_below(alloc: Global, held: &[Held], items: usize) -> Result<Vec<Numbers>, NoMemory>
    ensures { IfOk result (λ sets. AreAllBelow items held.now sets.items) }
{
    let all = Numbers::below(alloc, items)?;
    let mut sets = Vec::new(alloc);
    for d in 0..held.len() {
        sets.push(below_at(alloc, held, d, &all)?)?;
    }
    Ok(sets)
}

/// Those that one of some holds, by its place, where these are all below that number.
fn below_at(alloc: Global, held: &[Held], d: usize, all: &Numbers) -> Result<Numbers, NoMemory>
    ensures { IfOk result (λ set. (items : ℕ) (h : AHeld) → Lists nat_cmp (λ v. v < items) all.now → slice_get held.now d ≡ Some h → AreBelow items h set) }
{
    let Some(one) = held.get(d) else {
        return Ok(Numbers::new(alloc));
    };
    let set = below(alloc, one, all)?;
    Ok(set)
}

fn below(alloc: Global, held: &Held, all: &Numbers) -> Result<Numbers, NoMemory>
    ensures { IfOk result (λ set. (items : ℕ) → Lists nat_cmp (λ v. v < items) all.now → AreBelow items held.now set) }
{
    match held {
        Held::Nothing => Ok(Numbers::new(alloc)),
        Held::Item(number) => {
            let one = single(alloc, *number, all)?;
            Ok(one)
        }
        Held::Set(numbers) => {
            let both = numbers.joined(alloc, Joining::Both, all)?;
            Ok(both)
        }
    }
}

/// The set of a number that is one of these, and the empty one for any other.
fn single(alloc: Global, number: usize, all: &Numbers) -> Result<Numbers, NoMemory>
    ensures { IfOk result (λ set. (items : ℕ) → Lists nat_cmp (λ v. v < items) all.now → AreBelow items (HeldItem number) set) }
{
    if !all.contains(number) {
        return Ok(Numbers::new(alloc));
    }
    let mut set = Numbers::new(alloc);
    set.add(number)?;
    Ok(set)
}
