//! The three sections of rules, from their bytes to the rules of decisions.

ghost use Rattle.std.specs.Prelude.{◌≡◌, Contains, IfOk};
ghost use Rattle.cil_base.specs.Lists.{Lists};
ghost use Rattle.cil_conditions.specs.Order.{branch_cmp};
ghost use Rattle.cil_format.specs.Takes.{Takes};
ghost use Rattle.cil_rule_bytes.specs.Bounds.{limits_of};
ghost use Rattle.cil_rule_bytes.specs.Handed.{AreAllNamed, AreRising, all_branches, all_sets};
ghost use Rattle.cil_rule_bytes.specs.Layout.{rule_sections};
ghost use Rattle.cil_rule_bytes.specs.Sections.{sections_read};

use crate::bounds::Bounds;
use crate::named::{listed, named_from, push_branches, push_sets};
use crate::rule::ReadRule;
use crate::section::rules_at;
use cil_base::{NoMemory, short};
use cil_conditions::Branch;
use cil_format::TableError;
use cil_index::{NamedRules, Sections};
use cil_sets::Numbers;
use std::alloc::Global;

/// The rules of each kind, as they were read.
#[derive(Debug, Drop)]
struct ReadSections {
    allow: Vec<ReadRule>,
    auditallow: Vec<ReadRule>,
    dontaudit: Vec<ReadRule>,
}

/// Three sections of rules, one behind the other.
#[tactic(auto, unfolding(crate::specs::Layout::rule_sections))]
fn three_at<'a>(
    alloc: Global,
    bounds: &Bounds,
    bytes: &'a [u8],
) -> Result<(ReadSections, &'a [u8]), TableError>
    ensures { Takes (λ x. (sections_read x.0, x.1.now)) result ((rule_sections (limits_of bounds.now)).read bytes.now) }
{
    let (allow, rest) = rules_at(alloc, bounds, bytes)?;
    let (auditallow, rest) = rules_at(alloc, bounds, rest)?;
    let (dontaudit, rest) = rules_at(alloc, bounds, rest)?;
    let read = ReadSections {
        allow,
        auditallow,
        dontaudit,
    };
    Ok((read, rest))
}

/// The branches of all rules in their order, each once.
fn branches_of(alloc: Global, read: &ReadSections) -> Result<Vec<Branch>, NoMemory>
    ensures { IfOk result (λ rows. Lists branch_cmp (Contains (all_branches (sections_read read.now))) rows.items) }
{
    let mut rows = Vec::new(alloc);
    push_branches(alloc, &mut rows, &read.allow)?;
    push_branches(alloc, &mut rows, &read.auditallow)?;
    push_branches(alloc, &mut rows, &read.dontaudit)?;
    Ok(listed(rows))
}

/// The sets of all rules, two for each.
fn sets_of(alloc: Global, read: &ReadSections) -> Result<Vec<Numbers>, NoMemory>
    ensures { IfOk result (λ sets. sets.items ≡ all_sets (sections_read read.now)) }
{
    let mut sets = Vec::new(alloc);
    push_sets(alloc, &mut sets, &read.allow)?;
    push_sets(alloc, &mut sets, &read.auditallow)?;
    push_sets(alloc, &mut sets, &read.dontaudit)?;
    Ok(sets)
}

/// All rules by the numbers of their branches and of their sets.
fn named_of(alloc: Global, rows: &[Branch], read: &ReadSections) -> Result<NamedRules, NoMemory>
    requires { Lists branch_cmp (Contains (all_branches (sections_read read.now))) rows.now }
    ensures { IfOk result (AreAllNamed rows.now (sections_read read.now)) }
{
    let second = short(read.allow.len())? as usize * 2;
    let third = second + short(read.auditallow.len())? as usize * 2;
    let allow = named_from(alloc, rows, &read.allow, 0)?;
    let auditallow = named_from(alloc, rows, &read.auditallow, second)?;
    let dontaudit = named_from(alloc, rows, &read.dontaudit, third)?;
    Ok(NamedRules {
        allow,
        auditallow,
        dontaudit,
    })
}

/// The rules of decisions, of rules that rise.
fn decided_by(alloc: Global, read: &ReadSections) -> Result<Sections, NoMemory>
    requires { AreRising (sections_read read.now) }
    ensures { IfOk result (λ sections. sections ≡ sections_read read.now) }
{
    let branches = branches_of(alloc, read)?;
    let rules = named_of(alloc, &branches, read)?;
    let sets = sets_of(alloc, read)?;
    Sections::of(alloc, &rules, &sets, branches)
}

/// The rules of sections 14, 15 and 16 at the front of bytes, and the bytes behind these. It costs a step for each byte, and what `Sections::of`
/// costs. Errors: the first fault, or out of memory.
pub fn sections_at<'a>(
    alloc: Global,
    bounds: &Bounds,
    bytes: &'a [u8],
) -> Result<(Sections, &'a [u8]), TableError>
    ensures { Takes (λ x. (x.0, x.1.now)) result ((rule_sections (limits_of bounds.now)).read bytes.now) }
{
    let (read, rest) = three_at(alloc, bounds, bytes)?;
    let sections = decided_by(alloc, &read)?;
    Ok((sections, rest))
}
