//! What is wrong with the ranges of users.

ghost use Rattle.std.specs.Prelude.{◌≡◌, ◌↔◌, ◌⊎◌, ◌≤◌, ◌<◌, ◌∷◌, ◌++◌, [], ℕ, All, Bool, Contains, IfOk, List, MatchOption, OnOk, length, map, true};
ghost use Rattle.cil_faults.specs.Reported.{fault_at};
ghost use Rattle.cil_faults.specs.declared.code.FaultCode.TheVariants as causes;
ghost use Rattle.cil_syntax.specs.declared.kind.Keyword.TheVariants as keywords;
ghost use Rattle.cil_syntax.specs.declared.kind.Kind as kinds;
ghost use Rattle.cil_syntax.specs.declared.kind.Kind.TheVariants as variants;
ghost use Rattle.cil_syntax.specs.Terms.{Leaf, Terms, cons};
ghost use Rattle.cil_syntax.specs.Scopes.{ScopedWord};
ghost use Rattle.cil_macros.specs.Item.{Item};
ghost use Rattle.cil_macros.specs.Items.{item_at, items_in, namespaces_in};
ghost use Rattle.cil_macros.specs.Listed.{Part as APart, parts_there, scoped_by, word};
ghost use Rattle.cil_macros.specs.Placed.{Placed};
ghost use Rattle.cil_names.specs.Rows.{IsTableOf};
ghost use Rattle.cil_known.specs.Known.{IsKnown, enabled_in, row_in};
ghost use Rattle.cil_mls.specs.attrs.Targets.{IsToldIn};
ghost use Rattle.cil_mls.specs.OrderFaults.{Switches};
ghost use Rattle.cil_mls.specs.Values.{IsFew};
ghost use Rattle.cil_ranges.specs.Given.{AreGiven, AreWithout, HasRoom, IsToldTwice, ReadsRanges};
ghost use Rattle.cil_ranges.specs.Levels.{Ground};
ghost use Rattle.cil_ranges.specs.Reading.{HaveMore};
ghost use Rattle.cil_ranges.specs.Users.{HasNoRange, HasTwoRanges};

use crate::giving::giving_at;
use crate::scale::Ranged;
use crate::told::push_told;
use crate::users::{UserRanges, is_flagged};
use crate::walk::word_there;
use cil_base::NoMemory;
use cil_faults::Fault;
use cil_known::Known;
use cil_macros::{Instances, Part, PlacedWord};
use cil_mls::{Range, Told, push_declared};
use cil_names::laws;
use cil_syntax::{FaultCode, Kind, Sign};
use std::alloc::Global;

/// Adds what is wrong with the ranges of users, where statements give them these: a user to which two statements give ranges that differ,
/// told at each statement that gives it one, and, where levels are on, a user to which none gives one, told where it is declared. It costs
/// a step for each statement. Error: out of memory.
pub fn push_user_faults(
    alloc: Global,
    instances: &Instances,
    known: &Known,
    by: &Ranged,
    all: &UserRanges,
    are_on: bool,
    faults: &mut Vec<Fault>,
) -> Result<(), NoMemory>
    requires namespaces { known.now.lookup.namespaces.now ≡ namespaces_in instances.now }
    requires table { IsTableOf (map (row_in known.now) (items_in instances.now)) known.now.words.now }
    requires known { (sections : kinds.Kind → List (List ℕ)) × IsKnown known.now (items_in instances.now) sections }
    requires room { HasRoom known.now all.now }
    requires count { by.now.named.scale.categories.count ≤ 1024 }
    requires few { All IsFew by.now.named.scale.categories.held.now }
    ensures { OnOk result ((g : Ground) → g.items ≡ items_in instances.now → ReadsRanges known.now by.now g → AreGiven known.now g (items_in instances.now) all.now
        → ((are_on ≡ true) ↔ Switches g.items (enabled_in known.now) true)
        → HaveMore faults.old.items faults.new.items (λ f. HasTwoRanges (enabled_in known.now) g f ⊎ HasNoRange (enabled_in known.now) g f)) }
{
    // What is known of a word: it means the entry that it names.
    laws::means_what_it_names();
    let differing = all.differing.as_slice();
    push_twice(alloc, instances, known, by, differing, faults)?;
    if !are_on {
        return Ok(());
    }
    push_without(alloc, instances, known, all.ranges.as_slice(), faults)?;
    Ok(())
}

/// Adds a fault for each statement that gives a range to a user that is flagged.
fn push_twice(
    alloc: Global,
    instances: &Instances,
    known: &Known,
    by: &Ranged,
    differing: &[bool],
    faults: &mut Vec<Fault>,
) -> Result<(), NoMemory>
    requires table { IsTableOf (map (row_in known.now) (items_in instances.now)) known.now.words.now }
    requires known { (sections : kinds.Kind → List (List ℕ)) × IsKnown known.now (items_in instances.now) sections }
    requires count { by.now.named.scale.categories.count ≤ 1024 }
    requires few { All IsFew by.now.named.scale.categories.held.now }
    ensures { OnOk result ((g : Ground) → g.items ≡ items_in instances.now → ReadsRanges known.now by.now g
        → HaveMore faults.old.items faults.new.items (λ f. (x : Item) × Contains (items_in instances.now) x × IsToldTwice known.now g differing.now x f)) }
{
    for at in 0..instances.len() {
        push_twice_at(alloc, instances, known, by, differing, at, faults)?;
    }
    Ok(())
}

/// Adds the fault of the statement at a place.
fn push_twice_at(
    alloc: Global,
    instances: &Instances,
    known: &Known,
    by: &Ranged,
    differing: &[bool],
    at: usize,
    faults: &mut Vec<Fault>,
) -> Result<(), NoMemory>
    requires table { IsTableOf (map (row_in known.now) (items_in instances.now)) known.now.words.now }
    requires known { (sections : kinds.Kind → List (List ℕ)) × IsKnown known.now (items_in instances.now) sections }
    requires within { at < length (items_in instances.now) }
    requires count { by.now.named.scale.categories.count ≤ 1024 }
    requires few { All IsFew by.now.named.scale.categories.held.now }
    ensures { OnOk result ((g : Ground) → g.items ≡ items_in instances.now → ReadsRanges known.now by.now g
        → HaveMore faults.old.items faults.new.items (IsToldTwice known.now g differing.now (item_at instances.now at))) }
{
    // What is known of a word: it means the entry that it names.
    laws::means_what_it_names();
    let Some(giving) = giving_at(alloc, instances, known, by, at)? else {
        return Ok(());
    };
    if !is_flagged(differing, giving.user) {
        return Ok(());
    }
    push_twice_there(alloc, instances, at, faults)
}

/// Adds the fault of the statement at a place, which gives a user a range.
fn push_twice_there(
    alloc: Global,
    instances: &Instances,
    at: usize,
    faults: &mut Vec<Fault>,
) -> Result<(), NoMemory>
    requires within { at < length (items_in instances.now) }
    requires gives { (item_at instances.now at).keyword ≡ keywords.UserRange }
    ensures { OnOk result ((w : ScopedWord) (rest : Terms ScopedWord) → (item_at instances.now at).args ≡ cons (Leaf w) rest
        → faults.new.items ≡ faults.old.items ++ fault_at causes.UserRangeTwice w.at (item_at instances.now at).space w.bytes ∷ []) }
{
    let parts = instances.parts(alloc, at)?;
    let Some(there) = front_word(parts.as_slice()) else {
        return Err(NoMemory);
    };
    push_told(
        alloc,
        instances,
        at,
        faults,
        FaultCode::UserRangeTwice,
        there.word.at,
        there.word.bytes.as_slice(),
    )?;
    Ok(())
}

/// The word that is the first of some parts.
fn front_word<'r, 'a>(parts: &'r [Part<'a>]) -> Option<&'r PlacedWord<'a>>
    ensures { (ps : List Placed) (w : ScopedWord) (xs : List APart) → parts_there ps parts.now ≡ word w ∷ xs → MatchOption result ⊥ (λ there. scoped_by ps there.now ≡ w) }
{
    match parts {
        [] => None,
        [first, ..] => word_there(first),
    }
}

/// Adds a fault for each declaration of a user that has no range.
fn push_without(
    alloc: Global,
    instances: &Instances,
    known: &Known,
    ranges: &[Option<Range>],
    faults: &mut Vec<Fault>,
) -> Result<(), NoMemory>
    requires namespaces { known.now.lookup.namespaces.now ≡ namespaces_in instances.now }
    requires known { (sections : kinds.Kind → List (List ℕ)) × IsKnown known.now (items_in instances.now) sections }
    ensures { OnOk result ((flags : List Bool) × AreWithout ranges.now flags
        × HaveMore faults.old.items faults.new.items (IsToldIn known.now.lookup.namespaces.now known.now.lookup.names.now (items_in instances.now) (enabled_in known.now) variants.User causes.UserNoRange flags)) }
{
    let flags = without(alloc, ranges)?;
    let told = Told {
        kind: Kind::User,
        sign: Sign::PlainUser,
        flags: flags.as_slice(),
    };
    push_declared(
        alloc,
        instances,
        faults,
        &known.lookup,
        &told,
        FaultCode::UserNoRange,
    )?;
    Ok(())
}

/// A flag for each name: whether it has no range.
fn without(alloc: Global, ranges: &[Option<Range>]) -> Result<Vec<bool>, NoMemory>
    ensures { IfOk result (λ flags. AreWithout ranges.now flags.items) }
{
    let mut flags = Vec::new(alloc);
    for range in ranges {
        flags.push(range.is_none())?;
    }
    Ok(flags)
}
