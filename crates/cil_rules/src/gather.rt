//! The rules of a policy. A rule costs no look-up of a word and no search, but the numbers of its source, target and class, a walk over
//! the words of its target, and a step for each of its permission words. Where its class permission is a name or a list on a class map, it
//! costs what the masks of these cost, and a record for each class of which they give permissions.

ghost use Rattle.std.specs.Prelude.{◌≡◌, ◌<◌, IfOk, OnOk, length, map, false, true};
ghost use Rattle.std.specs.List.Sorted.{IsStrictlySortedBy};
ghost use Rattle.cil_conditions.specs.Numbered.{AreBranchesOf};
ghost use Rattle.cil_syntax.specs.declared.kind.Kind.TheVariants as variants;
ghost use Rattle.cil_macros.specs.Items.{item_at, items_in, says_as_written};
ghost use Rattle.cil_conditions.specs.known.Known.{enabled_in, row_in};
ghost use Rattle.cil_classes.specs.names.Resolves.{is_mapping};
ghost use Rattle.cil_classes.specs.names.Rows.{IsTableOf};
ghost use Rattle.cil_classes.specs.NodeOrder.{node_cmp};
ghost use Rattle.cil_classes.specs.Row.{AreOrderlyRows};
ghost use Rattle.cil_rules.specs.Behind.{AreBehind};
ghost use Rattle.cil_rules.specs.ForNames.{ForNames};
ghost use Rattle.cil_rules.specs.Kept.{rule_named};
ghost use Rattle.cil_rules.specs.Listed.{AreRulesOf};
ghost use Rattle.cil_rules.specs.Records.{CaseBy, IsRuleOf, spelled};

use crate::branch_number::branch_number;
use crate::rule::{NamedRule, Rules};
use crate::statement::push_rules;
use cil_base::NoMemory;
use cil_classes::{Class, ClassId, GivenPermissions, Meaning, same_keyword};
use cil_conditions::{Branches, Known};
use cil_macros::Instances;
use cil_sets::Numbers;
use cil_syntax::Keyword;
use std::alloc::Global;

/// The rules of the enabled statements with this first word, where the words of each declared name stand for these types, and the branches of
/// conditions are these: one for each class of which a statement gives permissions. What covers nothing has no rule: a statement whose
/// source or target is an attribute without members, or that gives no permission. Error: out of memory.
pub fn rules(
    alloc: Global,
    instances: &Instances,
    known: &Known,
    types: &[Numbers],
    classes: &[Class],
    given: &GivenPermissions,
    branches: &Branches,
    keyword: Keyword,
) -> Result<Rules, NoMemory>
    requires table { IsTableOf (map (row_in known.now) (items_in instances.now)) known.now.words.now }
    requires rows { AreOrderlyRows classes.now }
    requires nodes { IsStrictlySortedBy node_cmp given.now.nodes.items }
    requires written { says_as_written keyword ≡ true }
    requires plain { is_mapping keyword ≡ false }
    ensures { IfOk result (λ rules. ForNames known.now (items_in instances.now) types.now classes.now given.now (λ names.
        AreBranchesOf instances.now (enabled_in known.now) (names variants.Boolean) branches.now
        → AreRulesOf (CaseBy (items_in instances.now) (enabled_in known.now) keyword (spelled (names variants.Boolean)))
        (IsRuleOf (items_in instances.now) (enabled_in known.now) (names variants.Type_) classes.now (spelled (names variants.Boolean)))
        (rule_named branches.now.rows types.now) (item_at instances.now) (length (items_in instances.now)) rules)) }
{
    let mut rules = Vec::with_capacity(alloc, instances.len())?;
    let mut masks = Vec::new(alloc);
    for at in 0..instances.len() {
        let words = known.words.row(at);
        push_in_branch(
            alloc, instances, &mut rules, &mut masks, at, words, known, types, classes, given,
            branches, keyword,
        )?;
    }
    Ok(Rules::of(rules))
}

/// Adds the rules of the statement at a place, as `push_rules` does, in the branch in which it is; none where a word of its condition
/// names no boolean.
fn push_in_branch(
    alloc: Global,
    instances: &Instances,
    out: &mut Vec<NamedRule>,
    masks: &mut Vec<(ClassId, u32)>,
    at: usize,
    words: &[Meaning],
    known: &Known,
    types: &[Numbers],
    classes: &[Class],
    given: &GivenPermissions,
    branches: &Branches,
    keyword: Keyword,
) -> Result<(), NoMemory>
    requires within { at < length (items_in instances.now) }
    requires rows { AreOrderlyRows classes.now }
    requires nodes { IsStrictlySortedBy node_cmp given.now.nodes.items }
    requires written { says_as_written keyword ≡ true }
    requires plain { is_mapping keyword ≡ false }
    ensures { OnOk result (ForNames known.now (items_in instances.now) types.now classes.now given.now (λ names.
        AreBranchesOf instances.now (enabled_in known.now) (names variants.Boolean) branches.now
        → words.now ≡ row_in known.now (item_at instances.now at)
        → AreBehind (CaseBy (items_in instances.now) (enabled_in known.now) keyword (spelled (names variants.Boolean)))
        (IsRuleOf (items_in instances.now) (enabled_in known.now) (names variants.Type_) classes.now (spelled (names variants.Boolean)))
        (rule_named branches.now.rows types.now) (item_at instances.now at) at out.old.items out.new.items)) }
{
    // Most statements are of other keywords, and are asked for no branch.
    if !same_keyword(instances.statement_there(at).keyword, keyword) {
        return Ok(());
    }
    let Some(branch) = branch_number(instances, branches, at)? else {
        return Ok(());
    };
    push_rules(
        alloc, instances, out, masks, at, words, known, types, classes, given, branch, keyword,
    )?;
    Ok(())
}
