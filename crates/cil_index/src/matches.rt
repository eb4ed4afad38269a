//! Whether one rule is on what is asked.

ghost use Rattle.std.specs.Prelude.{◌≡◌, ◌<◌, ◌↔◌, ℕ, IfSome, IsBitSet, IsTrue, Contains, Some};
ghost use Rattle.cil_rules.specs.Covers.{Reaches};
ghost use Rattle.cil_index.specs.Memberships.{AreMemberships};
ghost use Rattle.cil_rules.specs.conditions.Active.{is_active};
ghost use Rattle.cil_rules.specs.conditions.Bits.{is_on};
ghost use Rattle.cil_rules.specs.Kept.{branch_named};
ghost use Rattle.cil_index.specs.Kept.{rule_of, target_at};
ghost use Rattle.cil_index.specs.Found.{CoversAt, Matches};
ghost use Rattle.cil_index.specs.Searched.{rules_in};
ghost use Rattle.cil_index.specs.Sets.{set_of};

use crate::asked::{Asked, Searched};
use crate::record::Record;
use cil_rules::{Branch, Settings};

/// The permissions of the rule at a place, where it is on what is asked.
pub fn mask_at(searched: &Searched, settings: &Settings, asked: &Asked, place: usize) -> u32
    requires memberships { AreMemberships searched.now.sets.now searched.now.memberships.now }
    ensures { (bit : ℕ) → IsBitSet result bit ↔ CoversAt (is_on settings.now) (rules_in searched.now) asked.now.source asked.now.target asked.now.class place bit }
{
    mask_known(searched, settings, asked, None, place)
}

/// The permissions of the rule at a place, where it is on what is asked, and the set of a number is known to have the source.
pub fn mask_known(
    searched: &Searched,
    settings: &Settings,
    asked: &Asked,
    known: Option<u32>,
    place: usize,
) -> u32
    requires memberships { AreMemberships searched.now.sets.now searched.now.memberships.now }
    requires known { IfSome known (λ k. Contains (set_of searched.now.sets.now k) asked.now.source) }
    ensures { (bit : ℕ) → IsBitSet result bit ↔ CoversAt (is_on settings.now) (rules_in searched.now) asked.now.source asked.now.target asked.now.class place bit }
{
    let Some(kept) = searched.records.get(place) else {
        return 0;
    };
    if matches(searched, settings, asked, known, kept) {
        kept.mask
    } else {
        0
    }
}

/// Whether a rule counts, and is on what is asked. Its condition is asked last.
fn matches(
    searched: &Searched,
    settings: &Settings,
    asked: &Asked,
    known: Option<u32>,
    kept: &Record,
) -> bool
    requires memberships { AreMemberships searched.now.sets.now searched.now.memberships.now }
    requires known { IfSome known (λ k. Contains (set_of searched.now.sets.now k) asked.now.source) }
    ensures { IsTrue result ↔ Matches (is_on settings.now) (rule_of searched.now.branches.now searched.now.sets.now kept.now) asked.now.source asked.now.target asked.now.class }
{
    kept.class as usize == asked.class
        && reaches(searched, kept.target, asked)
        && has_source(searched, asked, known, kept.source)
        && is_active(searched.branches, settings, kept.branch)
}

/// Whether the rules of a branch count. It costs a step for each part of the condition.
fn is_active(branches: &[Branch], settings: &Settings, number: u32) -> bool
    ensures { result ≡ is_active (is_on settings.now) (branch_named branches.now number) }
{
    if number == 0 {
        return true;
    }
    match branches.get((number - 1) as usize) {
        Some(branch) => branch.condition.eval(settings) == branch.value,
        None => true,
    }
}

/// Whether a rule reaches the target.
fn reaches(searched: &Searched, target: u32, asked: &Asked) -> bool
    requires { AreMemberships searched.now.sets.now searched.now.memberships.now }
    ensures { IsTrue result ↔ Reaches (target_at searched.now.sets.now target) asked.now.source asked.now.target }
{
    if searched.sets.is_number(target) {
        return holds(searched, target, asked.target);
    }
    asked.source == asked.target
}

/// Whether a set has the source, where the set of a number is known to have it.
fn has_source(searched: &Searched, asked: &Asked, known: Option<u32>, set: u32) -> bool
    requires memberships { AreMemberships searched.now.sets.now searched.now.memberships.now }
    requires known { IfSome known (λ k. Contains (set_of searched.now.sets.now k) asked.now.source) }
    ensures { IsTrue result ↔ Contains (set_of searched.now.sets.now set) asked.now.source }
{
    if is_known(known, set) {
        return true;
    }
    holds(searched, set, asked.source)
}

/// Whether this is the number.
fn is_known(known: Option<u32>, set: u32) -> bool
    ensures { IsTrue result → known ≡ Some set }
{
    match known {
        Some(number) => number == set,
        None => false,
    }
}

/// Whether a set has a type. One that is noted for its types is asked there.
fn holds(searched: &Searched, set: u32, number: usize) -> bool
    requires { AreMemberships searched.now.sets.now searched.now.memberships.now }
    ensures { IsTrue result ↔ Contains (set_of searched.now.sets.now set) number }
{
    if searched.memberships.notes(set) {
        return searched.memberships.has(number, set);
    }
    searched.sets.has(set, number)
}
