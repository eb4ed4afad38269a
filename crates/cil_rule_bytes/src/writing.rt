//! The bytes of rules, put behind those that are there, and rules put where bytes go.

ghost use Rattle.std.specs.Prelude.{◌≡◌, ◌++◌, ℕ, List, OnOk};
ghost use Rattle.cil_index.specs.Listed.{branch_listed, members_of, rule_listed, target_listed};
ghost use Rattle.cil_format.specs.Fields.{set};
ghost use Rattle.cil_rule_bytes.specs.Layout.{Limits, rule_sections, rules as rules_format, target as target_format, token_bytes, tokens_bytes};
ghost use Rattle.cil_rule_bytes.specs.Spelled.{branch_bytes, rule_bytes};

use cil_base::NoMemory;
use cil_conditions::{Branch, Token};
use cil_format::{Out, give_count, put_set, put_small};
use cil_index::{ListedRule, ListedRules, ListedTarget, Sections, TypeSet};
use std::alloc::Global;

// ---- branches

/// A token.
fn put_token(out: &mut Vec<u8>, token: Token) -> Result<(), NoMemory>
    ensures { OnOk result (out.new.items ≡ out.old.items ++ token_bytes token) }
{
    out.push(token.tag())?;
    match token {
        Token::Boolean(number) => put_small(out, number as usize),
        _ => Ok(()),
    }
}

/// The tokens of a condition.
fn put_tokens(out: &mut Vec<u8>, tokens: &[Token]) -> Result<(), NoMemory>
    ensures { OnOk result (out.new.items ≡ out.old.items ++ tokens_bytes tokens.now) }
{
    for token in tokens {
        put_token(out, *token)?;
    }
    Ok(())
}

/// The branch of a rule, or that it has none.
fn put_branch(out: &mut Vec<u8>, branch: Option<&Branch>) -> Result<(), NoMemory>
    ensures { OnOk result (out.new.items ≡ out.old.items ++ branch_bytes (branch_listed branch.entry)) }
{
    let Some(branch) = branch else {
        out.push(0)?;
        return Ok(());
    };
    out.push(if branch.value { 1 } else { 2 })?;
    put_tokens(out, branch.condition.as_slice())
}

// ---- sets

/// A set of types.
fn put_types(alloc: Global, out: &mut Vec<u8>, types: TypeSet) -> Result<(), NoMemory>
    ensures { OnOk result (out.new.items ≡ out.old.items ++ (set 0).spell (members_of types.entry)) }
{
    match types {
        TypeSet::Empty => put_small(out, 0),
        TypeSet::One(number) => {
            put_small(out, 1)?;
            put_small(out, number as usize)
        }
        TypeSet::Several(numbers) => put_set(alloc, out, numbers),
    }
}

/// What a rule reaches.
fn put_target(alloc: Global, out: &mut Vec<u8>, target: ListedTarget) -> Result<(), NoMemory>
    ensures { OnOk result (out.new.items ≡ out.old.items ++ (target_format 0).spell (target_listed target.entry)) }
{
    match target {
        ListedTarget::Types(types) => {
            out.push(0)?;
            put_types(alloc, out, types)
        }
        ListedTarget::Itself => {
            out.push(1)?;
            Ok(())
        }
    }
}

// ---- rules

/// A rule.
fn put_rule(alloc: Global, out: &mut Vec<u8>, rule: ListedRule) -> Result<(), NoMemory>
    ensures { OnOk result (out.new.items ≡ out.old.items ++ rule_bytes (rule_listed rule.entry)) }
{
    put_branch(out, rule.branch)?;
    put_types(alloc, out, rule.source)?;
    put_target(alloc, out, rule.target)?;
    put_small(out, rule.class as usize)?;
    out.extend_from_slice(&rule.mask.to_be_bytes())?;
    Ok(())
}

/// A rule, put where bytes go: first behind nothing in a buffer, for which it takes no more room than the largest rule.
fn give_rule<O: Out>(
    alloc: Global,
    out: &mut O,
    buffer: &mut Vec<u8>,
    rule: ListedRule,
) -> Result<(), NoMemory>
    ensures { (before : List ℕ) → O.holds out.old before → OnOk result (O.holds out.new (before ++ rule_bytes (rule_listed rule.entry))) }
{
    buffer.clear();
    put_rule(alloc, buffer, rule)?;
    out.put(buffer)
}

/// A section of rules: how many there are, and these, put one by one. Errors: out of memory.
pub fn put_rules<O: Out>(alloc: Global, out: &mut O, rules: &ListedRules) -> Result<(), NoMemory>
    ensures { (limits : Limits) (before : List ℕ) → O.holds out.old before → OnOk result (O.holds out.new (before ++ (rules_format limits).spell rules.now)) }
{
    let mut buffer = Vec::new(alloc);
    give_count(out, &mut buffer, rules.len())?;
    for place in 0..rules.len() {
        give_rule(alloc, out, &mut buffer, rules.rule(place))?;
    }
    Ok(())
}

/// The rules of sections 14, 15 and 16, one section behind the other. It costs a step for each byte, and room for the bytes of one rule. Errors: out
/// of memory.
pub fn put_sections<O: Out>(alloc: Global, out: &mut O, sections: &Sections) -> Result<(), NoMemory>
    ensures { (limits : Limits) (before : List ℕ) → O.holds out.old before → OnOk result (O.holds out.new (before ++ (rule_sections limits).spell sections.now)) }
{
    let allow = sections.allow();
    put_rules(alloc, out, &allow)?;
    let auditallow = sections.auditallow();
    put_rules(alloc, out, &auditallow)?;
    let dontaudit = sections.dontaudit();
    put_rules(alloc, out, &dontaudit)
}
