//! The constraints of one statement. One of whose words stands for a list costs a step more for each part of what it says.

ghost use Rattle.std.specs.Prelude.{◌≡◌, ◌⊎◌, ◌<◌, ◌↔◌, ℕ, List, IfOk, IsTrue, OnOk, false, length, map, true};
ghost use Rattle.std.specs.List.Sorted.{IsStrictlySortedBy};
ghost use Rattle.cil_syntax.specs.declared.kind.Keyword.TheVariants as keywords;
ghost use Rattle.cil_syntax.specs.declared.term.Word.{Word as AWord};
ghost use Rattle.cil_syntax.specs.Said.{args_of};
ghost use Rattle.cil_syntax.specs.Scopes.{ScopedWord};
ghost use Rattle.cil_macros.specs.Item.{Item};
ghost use Rattle.cil_macros.proofs.FormLemmas.{all_across};
ghost use Rattle.cil_macros.specs.Items.{item_at, items_in, says_lists};
ghost use Rattle.cil_macros.specs.ListTerms.{AreAlike};
ghost use Rattle.cil_mls.specs.OrderFaults.{Switches};
ghost use Rattle.cil_classes.specs.known.Known.{enabled_in, row_in};
ghost use Rattle.cil_classes.specs.NodeOrder.{node_cmp};
ghost use Rattle.cil_classes.specs.Row.{AreOrderlyRows};
ghost use Rattle.cil_constraints.specs.ForNames.{ForNames};
ghost use Rattle.cil_constraints.specs.Compiled.{IsConstraintOf};
ghost use Rattle.cil_constraints.specs.Stated.{AddsConstraints, AreBehind, CaseBy, IsMadeIf};

use crate::copies::push_each;
use crate::depth::is_shallow;
use crate::mask::Constraint;
use crate::push::{Standing, push_said};
use crate::step::Step;
use cil_base::NoMemory;
use cil_classes::{
    Class, ClassId, GivenPermissions, Known, Meaning, behind, push_perms, same_keyword,
};
use cil_macros::Instances;
use cil_syntax::{Keyword, Statement, Term};
use std::alloc::Global;

/// Adds the constraints of the statement at a place, if it is an enabled constraint, by what its words mean: one for each class of which
/// it gives permissions. One of levels counts where levels are on. The masks and the steps are room for those of the statement.
pub fn push_constraints(
    alloc: Global,
    instances: &Instances,
    out: &mut Vec<Constraint>,
    masks: &mut Vec<(ClassId, u32)>,
    steps: &mut Vec<Step>,
    at: usize,
    words: &[Meaning],
    known: &Known,
    sets: &Standing,
    classes: &[Class],
    given: &GivenPermissions,
    levels_on: bool,
) -> Result<(), NoMemory>
    requires within { at < length (items_in instances.now) }
    requires rows { AreOrderlyRows classes.now }
    requires nodes { IsStrictlySortedBy node_cmp given.now.nodes.items }
    ensures { OnOk result ((xs : List Item) → ((levels_on ≡ true) ↔ Switches xs (enabled_in known.now) true)
        → ForNames known.now xs sets.now classes.now given.now (λ names.
        words.now ≡ row_in known.now (item_at instances.now at)
        → AreBehind (CaseBy xs (enabled_in known.now)) (IsConstraintOf xs (enabled_in known.now) names classes.now) (item_at instances.now at) out.old.items out.new.items)) }
{
    let statement = instances.statement_there(at);
    if !is_constraining(statement.keyword, levels_on) {
        return Ok(());
    }
    if !known.is_enabled(instances, at) {
        return Ok(());
    }
    if instances.may_have_list(at) {
        push_listed(
            alloc, instances, out, masks, steps, at, words, known, sets, classes, given,
        )?;
        return Ok(());
    }
    push_stated(
        alloc, out, masks, steps, statement, words, known, sets, classes, given,
    )?;
    Ok(())
}

/// Whether a statement with this first word is a constraint, where levels are on or off.
fn is_constraining(keyword: Keyword, levels_on: bool) -> bool
    ensures { IsTrue result ↔ ((keyword ≡ keywords.Constrain) ⊎ ((keyword ≡ keywords.MlsConstrain) × (levels_on ≡ true))) }
{
    if same_keyword(keyword, Keyword::Constrain) {
        return true;
    }
    if !levels_on {
        return false;
    }
    same_keyword(keyword, Keyword::MlsConstrain)
}

/// Adds the constraints of the enabled statement at a place in which a list may be put in for a word: those of what it says, as a statement.
fn push_listed(
    alloc: Global,
    instances: &Instances,
    out: &mut Vec<Constraint>,
    masks: &mut Vec<(ClassId, u32)>,
    steps: &mut Vec<Step>,
    at: usize,
    words: &[Meaning],
    known: &Known,
    sets: &Standing,
    classes: &[Class],
    given: &GivenPermissions,
) -> Result<(), NoMemory>
    requires within { at < length (items_in instances.now) }
    requires lists { says_lists (item_at instances.now at).keyword ≡ true }
    requires rows { AreOrderlyRows classes.now }
    requires nodes { IsStrictlySortedBy node_cmp given.now.nodes.items }
    ensures { OnOk result (AddsConstraints known.now sets.now classes.now given.now (item_at instances.now at) words.now out.old.items out.new.items) }
{
    let statement = instances.statement_there(at);
    let said = Statement {
        keyword: statement.keyword,
        at: statement.at,
        under: statement.under,
        args: instances.terms(alloc, at)?,
    };
    push_stated(
        alloc, out, masks, steps, &said, words, known, sets, classes, given,
    )?;
    Ok(())
}

/// Adds the constraints of an enabled statement that says what this one says, or what stands in its place.
fn push_stated(
    alloc: Global,
    out: &mut Vec<Constraint>,
    masks: &mut Vec<(ClassId, u32)>,
    steps: &mut Vec<Step>,
    statement: &Statement,
    words: &[Meaning],
    known: &Known,
    sets: &Standing,
    classes: &[Class],
    given: &GivenPermissions,
) -> Result<(), NoMemory>
    requires rows { AreOrderlyRows classes.now }
    requires nodes { IsStrictlySortedBy node_cmp given.now.nodes.items }
    ensures { OnOk result ((x : Item) (f : AWord → ScopedWord) → AreAlike (all_across f (args_of statement.now)) x.args
        → AddsConstraints known.now sets.now classes.now given.now x words.now out.old.items out.new.items) }
{
    let parts = statement.args.as_slice();
    if parts.len() != 2 {
        return Ok(());
    }
    let class_permission = &parts[0];
    let term = &parts[1];
    let module = statement.at.module;
    let of_term = behind(words, class_permission, module);
    let made = make_steps(alloc, steps, sets, term, module, of_term)?;
    if !made {
        return Ok(());
    }
    masks.clear();
    push_perms(
        alloc,
        masks,
        known,
        classes,
        given,
        class_permission,
        module,
        words,
    )?;
    push_each(alloc, out, masks.as_slice(), steps.as_slice())?;
    Ok(())
}

/// Makes the steps of what a term asks for, in place of others, and answers whether it asks for something. Texts nest 128 deep, so what is
/// written has fewer levels than 128. Of lists that are arguments this is not known here, so levels are counted, and an expression of more
/// than 128 is answered as out of memory.
fn make_steps(
    alloc: Global,
    steps: &mut Vec<Step>,
    sets: &Standing,
    term: &Term,
    module: u64,
    words: &[Meaning],
) -> Result<bool, NoMemory>
    ensures { IfOk result (λ is. IsMadeIf is sets.now «module» term.now words.now steps.new.items) }
{
    steps.clear();
    let Some(_) = push_said(alloc, steps, sets, term, module, words)? else {
        return Ok(false);
    };
    if !is_shallow(steps.as_slice()) {
        return Err(NoMemory);
    }
    Ok(true)
}
