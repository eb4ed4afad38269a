//! Rules that were read, by the numbers of their branches and sets.

ghost use Rattle.std.specs.Prelude.{◌≡◌, ◌++◌, Contains, IfOk, OnOk, Some};
ghost use Rattle.std.specs.List.{flat_map};
ghost use Rattle.std.specs.List.Sorted.{IsStrictlySortedBy};
ghost use Rattle.cil_base.specs.Lists.{Lists};
ghost use Rattle.cil_conditions.specs.declared.branch.Branch as branches;
ghost use Rattle.cil_conditions.specs.Order.{branch_cmp};
ghost use Rattle.cil_index.specs.rules.Kept.{branch_named};
ghost use Rattle.cil_rule_bytes.specs.Handed.{AreNamed, IsNamed, branches_in, sets_in};

use crate::rule::{ReadRule, ReadTarget};
use cil_base::{NoMemory, short};
use cil_conditions::Branch;
use cil_index::{NamedRule, Reach};
use cil_sets::Numbers;
use std::alloc::Global;

// ---- branches

/// Adds the branches of some rules. Errors: out of memory.
pub(crate) fn push_branches(
    alloc: Global,
    rows: &mut Vec<Branch>,
    rules: &[ReadRule],
) -> Result<(), NoMemory>
    ensures { OnOk result (rows.new.items ≡ rows.old.items ++ flat_map branches_in rules.now) }
{
    for rule in rules {
        push_branch(alloc, rows, rule)?;
    }
    Ok(())
}

/// Adds the branch of a rule, if it has one.
fn push_branch(alloc: Global, rows: &mut Vec<Branch>, rule: &ReadRule) -> Result<(), NoMemory>
    ensures { OnOk result (rows.new.items ≡ rows.old.items ++ branches_in rule.now) }
{
    let Some(branch) = &rule.branch else {
        return Ok(());
    };
    let condition = branch.condition.try_clone(alloc)?;
    rows.push(Branch {
        condition,
        value: branch.value,
    })?;
    Ok(())
}

/// Some branches in their order, each once.
pub(crate) fn listed(mut rows: Vec<Branch>) -> Vec<Branch>
    ensures { Lists branch_cmp (Contains rows.items) result.items }
{
    rows.sort_unstable();
    rows.dedup();
    rows
}

/// The number of the branch of a rule among some in their order, from 1 on; 0 for none. It costs a search by halving. Errors: out of memory,
/// which is the answer if there are more than 4,294,967,295.
fn branch_number(rows: &[Branch], branch: &Option<Branch>) -> Result<u32, NoMemory>
    requires rising { IsStrictlySortedBy branch_cmp rows.now }
    requires there { (b : branches.Branch) → branch.now ≡ Some b → Contains rows.now b }
    ensures { IfOk result (λ number. branch_named rows.now number ≡ branch.now) }
{
    let Some(branch) = branch else {
        return Ok(0);
    };
    match rows.binary_search(branch) {
        Ok(place) => short(place + 1),
        Err(_) => unreachable!(),
    }
}

// ---- sets

/// Adds two sets for each of some rules: its source, and the types that it reaches. Errors: out of memory.
pub(crate) fn push_sets(
    alloc: Global,
    sets: &mut Vec<Numbers>,
    rules: &[ReadRule],
) -> Result<(), NoMemory>
    ensures { OnOk result (sets.new.items ≡ sets.old.items ++ flat_map sets_in rules.now) }
{
    for rule in rules {
        push_both(alloc, sets, rule)?;
    }
    Ok(())
}

/// Adds both sets of a rule; for one that reaches the source itself the second is empty.
fn push_both(alloc: Global, sets: &mut Vec<Numbers>, rule: &ReadRule) -> Result<(), NoMemory>
    ensures { OnOk result (sets.new.items ≡ sets.old.items ++ sets_in rule.now) }
{
    sets.push(rule.source.try_clone(alloc)?)?;
    let reached = match &rule.target {
        ReadTarget::Types(numbers) => numbers.try_clone(alloc)?,
        ReadTarget::Itself => Numbers::new(alloc),
    };
    sets.push(reached)?;
    Ok(())
}

// ---- rules

/// A rule whose source is the set of this number, and what it reaches that of the next.
fn named_one(rows: &[Branch], rule: &ReadRule, number: u32) -> Result<NamedRule, NoMemory>
    requires rising { IsStrictlySortedBy branch_cmp rows.now }
    requires there { (b : branches.Branch) → rule.now.branch ≡ Some b → Contains rows.now b }
    ensures { IfOk result (IsNamed rows.now rule.now number) }
{
    let branch = branch_number(rows, &rule.branch)?;
    let next = short(number as usize + 1)?;
    let target = match &rule.target {
        ReadTarget::Types(_) => Reach::Types(next),
        ReadTarget::Itself => Reach::Itself,
    };
    Ok(NamedRule {
        instance: 0,
        branch,
        source: number,
        target,
        class: rule.class as u32,
        mask: rule.mask,
    })
}

/// Some rules by numbers, where their sets stand behind so many others, two for each rule. Errors: out of memory.
pub(crate) fn named_from(
    alloc: Global,
    rows: &[Branch],
    rules: &[ReadRule],
    first: usize,
) -> Result<Vec<NamedRule>, NoMemory>
    requires rising { IsStrictlySortedBy branch_cmp rows.now }
    requires there { (b : branches.Branch) → Contains (flat_map branches_in rules.now) b → Contains rows.now b }
    ensures { IfOk result (λ named. AreNamed rows.now rules.now first rules.now named.items) }
{
    let mut named = Vec::with_capacity(alloc, rules.len())?;
    let mut number = first;
    for rule in rules {
        let at = short(number)?;
        named.push(named_one(rows, rule, at)?)?;
        number += 2;
    }
    Ok(named)
}
