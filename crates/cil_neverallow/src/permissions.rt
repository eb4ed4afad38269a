//! Which permissions some rules name, as a mask for each class.

ghost use Rattle.std.specs.Prelude.{IfOk, IsFalse};
ghost use Rattle.cil_neverallow.specs.Permissions.{AreApart, AreIn, AreJoined, IsApart};

use cil_base::NoMemory;
use cil_index::NamedRule;
use std::alloc::Global;

/// For each of so many classes the permissions that some of these rules name: bit i of the mask is the i-th of the class. Error: out of
/// memory.
pub fn permissions_of(
    alloc: Global,
    rules: &[NamedRule],
    classes: usize,
) -> Result<Vec<u32>, NoMemory>
    ensures { IfOk result (λ masks. AreIn rules.now masks.items) }
{
    let mut masks = no_permissions(alloc, classes)?;
    for rule in rules {
        join(&mut masks, rule);
    }
    Ok(masks)
}

/// No permission of so many classes. Error: out of memory.
fn no_permissions(alloc: Global, classes: usize) -> Result<Vec<u32>, NoMemory> {
    let mut masks = Vec::with_capacity(alloc, classes)?;
    for _ in 0..classes {
        masks.push(0)?;
    }
    Ok(masks)
}

/// Adds the permissions of a rule to those of its class.
fn join(masks: &mut Vec<u32>, rule: &NamedRule)
    ensures { AreJoined masks.old.items rule.now masks.new.items }
{
    let class = rule.class as usize;
    if class < masks.len() {
        masks[class] |= rule.mask;
    }
}

/// Whether one of the rules names one of these permissions, or is on none of these classes.
pub fn name_some(masks: &[u32], rules: &[NamedRule]) -> bool
    ensures { IsFalse result → AreApart masks.now rules.now }
{
    for rule in rules {
        if names_one(masks, rule) {
            return true;
        }
    }
    false
}

/// Whether a rule names one of these permissions, or is on none of these classes.
fn names_one(masks: &[u32], rule: &NamedRule) -> bool
    ensures { IsFalse result → IsApart masks.now rule.now }
{
    match masks.get(rule.class as usize) {
        Some(mask) => mask & rule.mask != 0,
        None => true,
    }
}
