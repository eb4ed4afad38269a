//! The rules of one statement. One of whose words stands for a list costs a step more for each part of what it says.

ghost use Rattle.std.specs.Prelude.{◌≡◌, ◌<◌, ◌++◌, ◌∷◌, [], List, OnOk, false, length, map, true};
ghost use Rattle.std.specs.List.Sorted.{IsStrictlySortedBy};
ghost use Rattle.cil_conditions.specs.declared.branch.Branch.{Branch as ABranch};
ghost use Rattle.cil_syntax.specs.declared.kind.Kind.TheVariants as variants;
ghost use Rattle.cil_syntax.specs.declared.term.Word.{Word as AWord};
ghost use Rattle.cil_syntax.specs.Said.{args_of};
ghost use Rattle.cil_syntax.specs.Scopes.{ScopedWord};
ghost use Rattle.cil_macros.specs.Item.{Item};
ghost use Rattle.cil_macros.proofs.FormLemmas.{all_across};
ghost use Rattle.cil_macros.specs.Items.{item_at, items_in, says_as_written, says_lists};
ghost use Rattle.cil_macros.specs.ListTerms.{AreAlike};
ghost use Rattle.cil_conditions.specs.known.Known.{enabled_in, row_in};
ghost use Rattle.cil_classes.specs.names.Resolves.{is_mapping};
ghost use Rattle.cil_classes.specs.NodeOrder.{node_cmp};
ghost use Rattle.cil_classes.specs.Row.{AreOrderlyRows};
ghost use Rattle.cil_rules.specs.Added.{AddsRules};
ghost use Rattle.cil_rules.specs.Behind.{AreBehind, rule_with};
ghost use Rattle.cil_rules.specs.ForNames.{ForNames};
ghost use Rattle.cil_rules.specs.Kept.{branch_named, rule_named};
ghost use Rattle.cil_rules.specs.Records.{Branching, CaseBy, IsPut, IsRuleOf, IsTaken};

use crate::rule::{NamedRule, Reach};
use crate::sides::{some_at, target_of};
use cil_base::{NoMemory, short};
use cil_classes::{Class, ClassId, GivenPermissions, Meaning, push_perms, same_keyword};
use cil_conditions::{Known, behind, behind_first, meaning_at};
use cil_macros::Instances;
use cil_sets::Numbers;
use cil_syntax::{Keyword, Statement};
use std::alloc::Global;

/// Adds the rules of the statement at a place, if it is an enabled one with this first word, by what its words mean; none where it covers
/// nothing. They are in the branch of this number, of which nothing is asked here. The masks are room for those of the statement, so that
/// no statement takes memory of its own.
pub fn push_rules(
    alloc: Global,
    instances: &Instances,
    out: &mut Vec<NamedRule>,
    masks: &mut Vec<(ClassId, u32)>,
    at: usize,
    words: &[Meaning],
    known: &Known,
    types: &[Numbers],
    classes: &[Class],
    given: &GivenPermissions,
    branch: u32,
    keyword: Keyword,
) -> Result<(), NoMemory>
    requires within { at < length (items_in instances.now) }
    requires rows { AreOrderlyRows classes.now }
    requires nodes { IsStrictlySortedBy node_cmp given.now.nodes.items }
    requires written { says_as_written keyword ≡ true }
    requires plain { is_mapping keyword ≡ false }
    ensures { OnOk result ((xs : List Item) (branches : List ABranch) (how : Branching) → IsTaken xs (enabled_in known.now) how (item_at instances.now at).branch
        → IsPut xs (enabled_in known.now) how (item_at instances.now at).branch (branch_named branches branch)
        → ForNames known.now xs types.now classes.now given.now (λ names.
        words.now ≡ row_in known.now (item_at instances.now at)
        → AreBehind (CaseBy xs (enabled_in known.now) keyword how) (IsRuleOf xs (enabled_in known.now) (names variants.Type_) classes.now how)
        (rule_named branches types.now) (item_at instances.now at) at out.old.items out.new.items)) }
{
    let statement = instances.statement_there(at);
    if !same_keyword(statement.keyword, keyword) {
        return Ok(());
    }
    if !known.is_enabled(instances, at) {
        return Ok(());
    }
    if instances.may_have_list(at) {
        push_listed(
            alloc, instances, out, masks, at, words, known, types, classes, given, branch,
        )?;
        return Ok(());
    }
    push_said(
        alloc, out, masks, statement, at, words, known, types, classes, given, branch,
    )?;
    Ok(())
}

/// Adds the rules of the enabled statement at a place in which a list may be put in for a word: those of what it says, as a statement.
fn push_listed(
    alloc: Global,
    instances: &Instances,
    out: &mut Vec<NamedRule>,
    masks: &mut Vec<(ClassId, u32)>,
    at: usize,
    words: &[Meaning],
    known: &Known,
    types: &[Numbers],
    classes: &[Class],
    given: &GivenPermissions,
    branch: u32,
) -> Result<(), NoMemory>
    requires within { at < length (items_in instances.now) }
    requires lists { says_lists (item_at instances.now at).keyword ≡ true }
    requires rows { AreOrderlyRows classes.now }
    requires nodes { IsStrictlySortedBy node_cmp given.now.nodes.items }
    ensures { OnOk result (AddsRules known.now types.now classes.now given.now at branch (item_at instances.now at) words.now out.old.items out.new.items) }
{
    let statement = instances.statement_there(at);
    let said = Statement {
        keyword: statement.keyword,
        at: statement.at,
        under: statement.under,
        args: instances.terms(alloc, at)?,
    };
    push_said(
        alloc, out, masks, &said, at, words, known, types, classes, given, branch,
    )?;
    Ok(())
}

/// Adds the rules of an enabled statement at a place that says what this one says, or what stands in its place.
fn push_said(
    alloc: Global,
    out: &mut Vec<NamedRule>,
    masks: &mut Vec<(ClassId, u32)>,
    statement: &Statement,
    at: usize,
    words: &[Meaning],
    known: &Known,
    types: &[Numbers],
    classes: &[Class],
    given: &GivenPermissions,
    branch: u32,
) -> Result<(), NoMemory>
    requires rows { AreOrderlyRows classes.now }
    requires nodes { IsStrictlySortedBy node_cmp given.now.nodes.items }
    ensures { OnOk result ((x : Item) (f : AWord → ScopedWord) → AreAlike (all_across f (args_of statement.now)) x.args
        → AddsRules known.now types.now classes.now given.now at branch x words.now out.old.items out.new.items) }
{
    let Some(parts) = statement.rule_parts() else {
        return Ok(());
    };
    let module = statement.at.module;
    let Some(source) = some_at(types, meaning_at(words, 0)) else {
        return Ok(());
    };
    let of_target = behind_first(words);
    let of_class = behind(of_target, parts.target, module);
    let Some(target) = target_of(types, parts.target, of_target)? else {
        return Ok(());
    };
    let instance = short(at)?;
    let source = short(source)?;
    masks.clear();
    push_perms(
        alloc,
        masks,
        known,
        classes,
        given,
        parts.class_permission,
        module,
        of_class,
    )?;
    push_named(out, masks.as_slice(), instance, branch, source, target)?;
    Ok(())
}

/// Adds a rule for each of these masks.
fn push_named(
    out: &mut Vec<NamedRule>,
    masks: &[(ClassId, u32)],
    instance: u32,
    branch: u32,
    source: u32,
    target: Reach,
) -> Result<(), NoMemory>
    ensures { OnOk result (out.new.items ≡ out.old.items ++ map (rule_with instance branch source target) masks.now) }
{
    for one in masks {
        push_one(out, one, instance, branch, source, target)?;
    }
    Ok(())
}

/// Adds the rule of one mask.
fn push_one(
    out: &mut Vec<NamedRule>,
    one: &(ClassId, u32),
    instance: u32,
    branch: u32,
    source: u32,
    target: Reach,
) -> Result<(), NoMemory>
    ensures { OnOk result (out.new.items ≡ out.old.items ++ rule_with instance branch source target one.now ∷ []) }
{
    let class = short(one.0.number)?;
    out.push(NamedRule {
        instance,
        branch,
        source,
        target,
        class,
        mask: one.1,
    })?;
    Ok(())
}
