//! Rules by numbers.

ghost use Rattle.std.specs.Prelude.{◌≡◌, ◌≤◌, Contains, IfOk, List, get_or, length, ℕ, map, refl};
ghost use Rattle.std.specs.Cmp.{eq_by_cmp_equiv, partial_equiv_from_equiv, partial_order_from_total};
ghost use Rattle.std.specs.Ordering.{as_partial_cmp, eq_by_cmp};
ghost use Rattle.std.specs.List.Sorted.{IsStrictlySortedBy};
ghost use Rattle.cil_base.specs.Lists.{Lists};
ghost use Rattle.cil_rules.specs.conditions.Order.{branch_cmp};
ghost use Rattle.cil_rules.specs.Kept.{branch_named, rule_named, target_named};
ghost use Rattle.cil_rules.specs.Order.{rule_cmp};
ghost use Rattle.cil_sets.specs.Answers.{set_cmp};
ghost use Rattle.cil_index.specs.Kept.{rule_of, target_at};
ghost use Rattle.cil_index.specs.Order.{AreWithin, IsWithin, record_cmp, record_total};
ghost use Rattle.cil_index.specs.Sets.{AreNumbered};

use cil_base::NoMemory;
use cil_rules::{Branch, NamedRule, Reach};
use std::alloc::Global;
use std::cmp::Ordering;

/// A rule, its sets by numbers.
#[derive(Clone, Copy, Debug)]
pub struct Record {
    /// The number of its branch, from 1 on; 0 for a rule that counts always.
    pub branch: u32,
    /// The number of the set of its source types.
    pub source: u32,
    /// The number of the set of types that it reaches, or the number behind all sets for the source itself.
    pub target: u32,
    /// The number of its class.
    pub class: u32,
    /// Its permissions: bit i is the i-th of the class.
    pub mask: u32,
}

// Policies have hundreds of thousands of rules.
const _: () = prove!(size_of::<Record>() <= 20);

impl PartialEq for Record {
    ghost eq = { eq_by_cmp record_cmp };

    ghost laws = { partial_equiv_from_equiv (eq_by_cmp_equiv record_total) };

    fn eq(&self, other: &Record) -> bool {
        self.cmp(other) == Ordering::Equal
    }
}

impl Eq for Record {
    ghost laws = { eq_by_cmp_equiv record_total };
}

impl PartialOrd for Record {
    ghost partial_cmp = { as_partial_cmp record_cmp };

    ghost laws = { partial_order_from_total record_total };

    fn partial_cmp(&self, other: &Record) -> Option<Ordering> {
        Some(self.cmp(other))
    }
}

impl Ord for Record {
    ghost cmp = { record_cmp };

    ghost total = { record_total };

    ghost matches_partial_cmp = { λ a b. refl };

    ghost matches_eq = { λ a b. refl };

    fn cmp(&self, other: &Record) -> Ordering {
        self.branch
            .cmp(&other.branch)
            .then(self.source.cmp(&other.source))
            .then(self.target.cmp(&other.target))
            .then(self.class.cmp(&other.class))
            .then(self.mask.cmp(&other.mask))
    }
}

/// The records of rules, in the order of the rules, each once, by the numbers of the sets of declared names and the number that stands for
/// the source itself. A rule costs what sorting costs, by numbers alone. Errors: out of memory.
pub fn records_of(
    alloc: Global,
    branches: &[Branch],
    numbers: &[u32],
    itself: u32,
    rules: &[NamedRule],
) -> Result<Vec<Record>, NoMemory>
    requires { IsStrictlySortedBy branch_cmp branches.now }
    ensures { IfOk result (λ records. (distinct named : List (List ℕ)) → IsStrictlySortedBy set_cmp distinct → itself ≡ length distinct → AreNumbered distinct named numbers.now
        → Lists rule_cmp (Contains (map (rule_named branches.now named) rules.now)) (map (rule_of branches.now distinct) records.items)) }
{
    let mut records = unsorted(alloc, branches, numbers, itself, rules)?;
    records.sort_unstable();
    records.dedup();
    Ok(records)
}

/// The records of rules, in the order in which these were handed in. Errors: out of memory.
fn unsorted(
    alloc: Global,
    branches: &[Branch],
    numbers: &[u32],
    itself: u32,
    rules: &[NamedRule],
) -> Result<Vec<Record>, NoMemory>
    ensures { IfOk result (λ records. (distinct named : List (List ℕ)) → itself ≡ length distinct → AreNumbered distinct named numbers.now
        → (map (rule_of branches.now distinct) records.items ≡ map (rule_named branches.now named) rules.now) × AreWithin branches.now distinct records.items) }
{
    let mut records = Vec::with_capacity(alloc, rules.len())?;
    for rule in rules {
        records.push(record_of(branches, numbers, itself, rule))?;
    }
    Ok(records)
}

/// The record of a rule.
fn record_of(branches: &[Branch], numbers: &[u32], itself: u32, rule: &NamedRule) -> Record
    ensures { (distinct named : List (List ℕ)) → itself ≡ length distinct → AreNumbered distinct named numbers.now
        → (rule_of branches.now distinct result ≡ rule_named branches.now named rule.now) × IsWithin branches.now distinct result }
{
    Record {
        branch: branch_of(branches, rule.branch),
        source: number_at(numbers, rule.source),
        target: target_of(numbers, itself, rule.target),
        class: rule.class,
        mask: rule.mask,
    }
}

/// The number of a branch; that of none where there is no branch of this number.
fn branch_of(branches: &[Branch], number: u32) -> u32
    ensures same { branch_named branches.now result ≡ branch_named branches.now number }
    ensures within { result ≤ length branches.now }
{
    if number as usize > branches.len() {
        return 0;
    }
    number
}

/// The number of what a rule reaches.
fn target_of(numbers: &[u32], itself: u32, target: Reach) -> u32
    ensures { (distinct named : List (List ℕ)) → itself ≡ length distinct → AreNumbered distinct named numbers.now
        → (target_at distinct result ≡ target_named named target) × (result ≤ length distinct) }
{
    match target {
        Reach::Types(d) => number_at(numbers, d),
        Reach::Itself => itself,
    }
}

/// The number of the set of a declared name.
fn number_at(numbers: &[u32], d: u32) -> u32
    ensures { result ≡ get_or numbers.now d 0 }
{
    match numbers.get(d as usize) {
        Some(number) => *number,
        None => 0,
    }
}
