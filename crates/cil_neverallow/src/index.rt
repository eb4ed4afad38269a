//! The rules of allow statements by their index, and what one question to it says of a neverallow statement.

ghost use Rattle.std.specs.Prelude.{◌≡◌, ℕ, [], Contains, IfOk, IfSome, IsFalse, map, true, false};
ghost use Rattle.cil_index.specs.rules.Covers.{Reaches};
ghost use Rattle.cil_index.specs.rules.Kept.{rule_named, set_named, target_named};
ghost use Rattle.cil_neverallow.specs.declared.overlap.Overlap.{Overlap as AnOverlap};
ghost use Rattle.cil_neverallow.specs.Overlaps.{IsMet, IsOverlap};
ghost use Rattle.cil_neverallow.specs.Violations.{AreAlways, AreAmong};

use crate::forbidden::View;
use crate::overlap::set_at;
use crate::statements::Statements;
use cil_base::NoMemory;
use cil_index::{Asked, NamedRule, NamedRules, Reach, Sections, Settings};
use cil_sets::Numbers;
use std::alloc::Global;

/// The rules of all allow statements, whatever branches they are in, with their index. Error: out of memory.
pub fn index_of(alloc: Global, view: &View, allowed: &Statements) -> Result<Sections, NoMemory>
    ensures among { IfOk result (λ index. AreAmong view.now allowed.now index.allow) }
    ensures always { IfOk result (λ index. AreAlways index.allow) }
{
    let rules = NamedRules {
        allow: Vec::from_slice(alloc, allowed.all_rules())?,
        auditallow: Vec::new(alloc),
        dontaudit: Vec::new(alloc),
    };
    let index = Sections::of(alloc, &rules, view.sets, Vec::new(alloc))?;
    Ok(index)
}

/// Whether a rule of a statement may cover something that one of these rules covers. It says no only if none does.
pub fn may_meet(sets: &[Numbers], index: &Sections, rules: &[NamedRule]) -> bool
    requires { AreAlways index.now.allow }
    ensures { IsFalse result → (o : AnOverlap) → IsOverlap (map (rule_named [] sets.now) rules.now) index.now.allow o → ⊥ }
{
    for rule in rules {
        if rule_may_meet(sets, index, rule) {
            return true;
        }
    }
    false
}

/// Whether a rule may cover something that one of these rules covers. If it is of one type a side, it costs what `allowed` costs.
fn rule_may_meet(sets: &[Numbers], index: &Sections, rule: &NamedRule) -> bool
    requires { AreAlways index.now.allow }
    ensures { IsFalse result → (o : AnOverlap) → IsMet (rule_named [] sets.now rule.now) index.now.allow o → ⊥ }
{
    let Some(source) = only_type(sets, rule.source) else {
        return true;
    };
    let Some(target) = only_target(sets, rule.target, source) else {
        return true;
    };
    let asked = Asked {
        source,
        target,
        class: rule.class as usize,
    };
    let covered = index.allowed(&Settings::all_off(), &asked);
    if covered & rule.mask == 0 {
        return false;
    }
    true
}

/// The type for which a declared name stands, if it is one alone.
fn only_type(sets: &[Numbers], number: u32) -> Option<usize>
    ensures { IfSome result (λ t. (u : ℕ) → Contains (set_named sets.now number) u → u ≡ t) }
{
    let set = set_at(sets, number)?;
    if set.len() != 1 {
        return None;
    }
    set.next_from(0)
}

/// The type that a target reaches from a source, if it is one alone.
fn only_target(sets: &[Numbers], target: Reach, source: usize) -> Option<usize>
    ensures { IfSome result (λ t. (u : ℕ) → Reaches (target_named sets.now target) source u → u ≡ t) }
{
    match target {
        Reach::Types(number) => only_type(sets, number),
        Reach::Itself => Some(source),
    }
}
