//! What one rule covers.

ghost use Rattle.std.specs.Prelude.{◌↔◌, Contains, IsBitSet, IsTrue, List};
ghost use Rattle.cil_conditions.specs.declared.branch.Branch.{Branch};
ghost use Rattle.cil_rules.specs.Covers.{CoversInBranch, Reaches};
ghost use Rattle.cil_rules.specs.Kept.{rule_named, set_named, target_named};

use crate::rule::{NamedRule, Reach};
use cil_sets::Numbers;

/// Whether a rule covers a permission, which is given by its bit in the class: from this source type to this target type, in whatever branch
/// the rule is. The words of each declared name stand for these types. It takes no memory, and costs at most two searches by halving.
pub fn covers(
    types: &[Numbers],
    rule: &NamedRule,
    source: usize,
    target: usize,
    class: usize,
    bit: u32,
) -> bool
    ensures { (branches : List Branch) → IsTrue result ↔ CoversInBranch (rule_named branches types.now rule.now) source target class bit }
{
    if rule.class as usize != class {
        return false;
    }
    if !has_bit(rule.mask, bit) {
        return false;
    }
    if !stands_for(types, rule.source, source) {
        return false;
    }
    reaches(types, rule.target, source, target)
}

/// Whether a bit of a mask is set.
fn has_bit(mask: u32, bit: u32) -> bool
    ensures { IsTrue result ↔ IsBitSet mask bit }
{
    if bit >= 32 {
        return false;
    }
    (mask >> bit) & 1 == 1
}

/// Whether a declared name stands for a type.
fn stands_for(types: &[Numbers], name: u32, number: usize) -> bool
    ensures { IsTrue result ↔ Contains (set_named types.now name) number }
{
    match types.get(name as usize) {
        Some(set) => set.contains(number),
        None => false,
    }
}

/// Whether the target of a rule reaches a type from its source type.
fn reaches(types: &[Numbers], reach: Reach, source: usize, target: usize) -> bool
    ensures { IsTrue result ↔ Reaches (target_named types.now reach) source target }
{
    match reach {
        Reach::Types(name) => stands_for(types, name, target),
        Reach::Itself => source == target,
    }
}
