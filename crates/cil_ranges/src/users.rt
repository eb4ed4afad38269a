//! The ranges of users.

ghost use Rattle.std.specs.Prelude.{◌≡◌, ◌↔◌, ◌≤◌, ◌<◌, ℕ, All, IfOk, IsTrue, List, None, OnOk, false, get_or, length, map};
ghost use Rattle.cil_syntax.specs.declared.kind.Kind as kinds;
ghost use Rattle.cil_macros.specs.Items.{item_at, items_in, namespaces_in};
ghost use Rattle.cil_names.specs.Rows.{IsTableOf};
ghost use Rattle.cil_known.specs.Known.{IsKnown, row_in};
ghost use Rattle.cil_mls.specs.Dominance.{AreSame};
ghost use Rattle.cil_mls.specs.Values.{IsFew};
ghost use Rattle.cil_ranges.specs.Given.{AreGiven, HasRoom, IsGivenBy, IsGivenOne, ReadsRanges};
ghost use Rattle.cil_ranges.specs.Levels.{Ground};
ghost use Rattle.cil_ranges.specs.Users.{IsSameRange};

use crate::giving::{Giving, giving_at};
use crate::scale::Ranged;
use cil_base::NoMemory;
use cil_known::Known;
use cil_macros::Instances;
use cil_mls::{Level, Range};
use cil_names::laws;
use std::alloc::Global;

/// What statements give users, by the entries of these.
#[derive(Drop)]
pub struct UserRanges {
    /// For each declared name the range that the first statement gives it, if it is a user and some statement does.
    pub ranges: Vec<Option<Range>>,
    /// Whether another statement gives it another range.
    pub differing: Vec<bool>,
}

/// What all enabled statements give users. It costs a step for each statement, and a few for each term of those that give ranges. Error:
/// out of memory, which is also the answer where such a statement has permissions of a class in it: there is none of these.
pub fn user_ranges(
    alloc: Global,
    instances: &Instances,
    known: &Known,
    by: &Ranged,
) -> Result<UserRanges, NoMemory>
    requires table { IsTableOf (map (row_in known.now) (items_in instances.now)) known.now.words.now }
    requires known { (sections : kinds.Kind → List (List ℕ)) × IsKnown known.now (items_in instances.now) sections }
    requires count { by.now.named.scale.categories.count ≤ 1024 }
    requires few { All IsFew by.now.named.scale.categories.held.now }
    ensures given { IfOk result (λ all. (g : Ground) → g.items ≡ items_in instances.now → ReadsRanges known.now by.now g → AreGiven known.now g (items_in instances.now) all) }
    ensures room { IfOk result (HasRoom known.now) }
{
    let count = known.lookup.names.entries().len();
    let mut all = UserRanges {
        ranges: no_ranges(alloc, count)?,
        differing: vec![in alloc; false; count]?,
    };
    for at in 0..instances.len() {
        give_at(alloc, instances, known, by, at, &mut all)?;
    }
    Ok(all)
}

/// No range for each of so many names.
fn no_ranges(alloc: Global, count: usize) -> Result<Vec<Option<Range>>, NoMemory>
    ensures len { IfOk result (λ ranges. length ranges.items ≡ count) }
    ensures none { IfOk result (λ ranges. (d : ℕ) → get_or ranges.items d None ≡ None) }
{
    let mut ranges = Vec::new(alloc);
    while ranges.len() < count {
        ranges.push(None)?;
    }
    Ok(ranges)
}

/// Adds what the statement at a place gives.
fn give_at(
    alloc: Global,
    instances: &Instances,
    known: &Known,
    by: &Ranged,
    at: usize,
    all: &mut UserRanges,
) -> Result<(), NoMemory>
    requires table { IsTableOf (map (row_in known.now) (items_in instances.now)) known.now.words.now }
    requires known { (sections : kinds.Kind → List (List ℕ)) × IsKnown known.now (items_in instances.now) sections }
    requires within { at < length (items_in instances.now) }
    requires room { HasRoom known.now all.old }
    requires count { by.now.named.scale.categories.count ≤ 1024 }
    requires few { All IsFew by.now.named.scale.categories.held.now }
    ensures room { OnOk result (HasRoom known.now all.new) }
    ensures given { OnOk result ((g : Ground) → g.items ≡ items_in instances.now → ReadsRanges known.now by.now g → IsGivenBy known.now g (item_at instances.now at) all.old all.new) }
{
    // What is known of a word: it means the entry that it names.
    laws::means_what_it_names();
    let Some(giving) = giving_at(alloc, instances, known, by, at)? else {
        return Ok(());
    };
    give(all, &giving);
    Ok(())
}

/// Adds a range of a user.
fn give(all: &mut UserRanges, giving: &Giving)
    requires ranges { giving.now.user < length all.old.ranges.items }
    requires differing { giving.now.user < length all.old.differing.items }
    ensures { IsGivenOne giving.now all.old all.new }
{
    match all.ranges[giving.user] {
        None => all.ranges[giving.user] = Some(giving.range),
        Some(range) => {
            if !same_range(&range, &giving.range) {
                all.differing[giving.user] = true;
            }
        }
    }
}

/// Whether two ranges are the same.
fn same_range(a: &Range, b: &Range) -> bool
    ensures { IsTrue result ↔ IsSameRange a.now b.now }
{
    same_level(&a.low, &b.low) && same_level(&a.high, &b.high)
}

/// Whether two levels are the same: each dominates the other.
fn same_level(a: &Level, b: &Level) -> bool
    ensures { IsTrue result ↔ AreSame a.now b.now }
{
    a.dominates(b) && b.dominates(a)
}

/// Whether the flag of an entry is set.
pub fn is_flagged(flags: &[bool], entry: usize) -> bool
    ensures { result ≡ get_or flags.now entry false }
{
    match flags.get(entry) {
        Some(flag) => *flag,
        None => false,
    }
}
