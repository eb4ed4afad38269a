//! The faults of forbidden rules: one for each neverallow statement and allow statement that cover something together.

ghost use Rattle.std.specs.Prelude.{◌≡◌, ◌↔◌, ◌⊎◌, ◌<◌, Contains, OnOk, length, map};
ghost use Rattle.std.specs.List.Sorted.{IsStrictlySortedBy};
ghost use Rattle.cil_faults.specs.declared.fault.Fault.{Fault as AFault};
ghost use Rattle.cil_faults.specs.Refusal.{Answers};
ghost use Rattle.cil_syntax.specs.declared.kind.Keyword.TheVariants as keywords;
ghost use Rattle.cil_syntax.specs.declared.kind.Kind.TheVariants as variants;
ghost use Rattle.cil_macros.specs.Items.{item_at, items_in};
ghost use Rattle.cil_index.specs.known.Known.{enabled_in, row_in};
ghost use Rattle.cil_index.specs.names.Rows.{IsTableOf};
ghost use Rattle.cil_index.specs.classes.NodeOrder.{node_cmp};
ghost use Rattle.cil_index.specs.classes.Row.{AreOrderlyRows};
ghost use Rattle.cil_index.specs.rules.ForNames.{ForNames};
ghost use Rattle.cil_index.specs.rules.Records.{CaseBy, IsRuleOf, ignored};
ghost use Rattle.cil_neverallow.specs.NeverFaults.{NeverFault};
ghost use Rattle.cil_neverallow.specs.Stated.{AreStatements, Stated, stated_of};
ghost use Rattle.cil_neverallow.specs.Violations.{AreAlways, AreAmong, IsOne, IsPair, IsViolation};

use crate::index::{index_of, may_meet};
use crate::overlap::least;
use crate::permissions::permissions_of;
use crate::statements::{Part, Statements, statements_of};
use crate::told::push_told;
use cil_base::{Bytes, NoMemory};
use cil_faults::{Failure, Fault, refuse};
use cil_index::{Class, GivenPermissions, Known, Sections};
use cil_macros::Instances;
use cil_sets::Numbers;
use cil_syntax::Keyword;
use std::alloc::Global;

/// What numbers stand for.
#[derive(Clone, Copy)]
pub struct View<'s> {
    /// For each declared name the numbers of the types for which its words stand.
    pub sets: &'s [Numbers],
    /// The qualified names of the types, in byte order: a type stands at its number.
    pub types: &'s [Bytes],
    /// The classes, in byte order of their names: a class stands at its number.
    pub classes: &'s [Class],
}

/// Refuses rules that the policy forbids itself: each enabled neverallow statement with each enabled allow statement that covers something
/// which it covers too, whatever branches of booleanifs they are in. Each two of them are one fault, which names the least of what both cover,
/// by source, then target, then class, then permission. (CIL Reference Guide, "neverallow".)
///
/// The cost: with no neverallow statement, a step for each instance. Else the rules of each allow statement are made once more, one statement
/// after another in the same room, and those of statements that allow something which is forbidden of their class are kept and sorted. A
/// neverallow statement of one type a side then costs a question to their index for each of its classes, if none of them meets it; any other
/// costs a comparison with each of them, and so do 10,000 of them with 100,000 such statements 1,000,000,000.
///
/// Errors: the faults, 65 each; or out of memory.
pub fn violations(
    alloc: Global,
    instances: &Instances,
    known: &Known,
    view: &View,
    given: &GivenPermissions,
) -> Result<(), Failure>
    requires table { IsTableOf (map (row_in known.now) (items_in instances.now)) known.now.words.now }
    requires rows { AreOrderlyRows view.now.classes.now }
    requires nodes { IsStrictlySortedBy node_cmp given.now.nodes.items }
    ensures { ForNames known.now (items_in instances.now) view.now.sets.now view.now.classes.now given.now (λ names.
        names variants.Type_ ≡ view.now.types.now → Answers (λ done. Unit {0}) (NeverFault (items_in instances.now) (enabled_in known.now)) result) }
{
    let forbidden = statements_of(
        alloc,
        instances,
        &[],
        known,
        view.sets,
        view.classes,
        given,
        Keyword::NeverAllow,
    )?;
    if forbidden.len() == 0 {
        return Ok(());
    }
    check(alloc, instances, known, view, given, &forbidden)
}

/// Refuses what these neverallow statements forbid. Of the allow statements only those are kept that allow something which is forbidden of its
/// class: in most policies few.
fn check(
    alloc: Global,
    instances: &Instances,
    known: &Known,
    view: &View,
    given: &GivenPermissions,
    forbidden: &Statements,
) -> Result<(), Failure>
    requires table { IsTableOf (map (row_in known.now) (items_in instances.now)) known.now.words.now }
    requires rows { AreOrderlyRows view.now.classes.now }
    requires nodes { IsStrictlySortedBy node_cmp given.now.nodes.items }
    requires forbidden { (st : Stated) → Contains forbidden.now st → st.place < length (items_in instances.now) }
    ensures { ForNames known.now (items_in instances.now) view.now.sets.now view.now.classes.now given.now (λ names. names variants.Type_ ≡ view.now.types.now
        → AreStatements (CaseBy (items_in instances.now) (enabled_in known.now) keywords.NeverAllow ignored)
        (IsRuleOf (items_in instances.now) (enabled_in known.now) (names variants.Type_) view.now.classes.now ignored) view.now.sets.now (item_at instances.now) (length (items_in instances.now)) forbidden.now
        → Answers (λ done. Unit {0}) (NeverFault (items_in instances.now) (enabled_in known.now)) result) }
{
    let masks = permissions_of(alloc, forbidden.all_rules(), view.classes.len())?;
    let allowed = statements_of(
        alloc,
        instances,
        masks.as_slice(),
        known,
        view.sets,
        view.classes,
        given,
        Keyword::Allow,
    )?;
    compare(alloc, instances, view, forbidden, &allowed)
}

/// Refuses what statements forbid and others allow: each is compared with each.
fn compare(
    alloc: Global,
    instances: &Instances,
    view: &View,
    forbidden: &Statements,
    allowed: &Statements,
) -> Result<(), Failure>
    requires forbidden { (st : Stated) → Contains forbidden.now st → st.place < length (items_in instances.now) }
    requires allowed { (st : Stated) → Contains allowed.now st → st.place < length (items_in instances.now) }
    ensures { Answers (λ done. Unit {0}) (IsViolation (item_at instances.now) view.now forbidden.now allowed.now) result }
{
    let index = index_of(alloc, view, allowed)?;
    let mut faults = Vec::new(alloc);
    for number in 0..forbidden.len() {
        let statement = forbidden.get(number);
        push_one(
            alloc,
            instances,
            &mut faults,
            view,
            &index,
            &statement,
            allowed,
        )?;
    }
    refuse(faults)
}

/// Reports the faults of one neverallow statement, where these are the rules of all allow statements.
fn push_one(
    alloc: Global,
    instances: &Instances,
    faults: &mut Vec<Fault>,
    view: &View,
    index: &Sections,
    statement: &Part,
    allowed: &Statements,
) -> Result<(), NoMemory>
    requires index { AreAmong view.now allowed.now index.now.allow }
    requires always { AreAlways index.now.allow }
    requires statement { statement.now.place < length (items_in instances.now) }
    requires allowed { (st : Stated) → Contains allowed.now st → st.place < length (items_in instances.now) }
    ensures { OnOk result ((f : AFault) → Contains faults.new.items f
        ↔ (Contains faults.old.items f ⊎ IsOne (item_at instances.now) view.now (stated_of statement.now) allowed.now f)) }
{
    if !may_meet(view.sets, index, statement.rules) {
        return Ok(());
    }
    push_pairs(alloc, instances, faults, view, statement, allowed)?;
    Ok(())
}

/// Reports the faults of one neverallow statement.
fn push_pairs(
    alloc: Global,
    instances: &Instances,
    faults: &mut Vec<Fault>,
    view: &View,
    statement: &Part,
    allowed: &Statements,
) -> Result<(), NoMemory>
    requires statement { statement.now.place < length (items_in instances.now) }
    requires allowed { (st : Stated) → Contains allowed.now st → st.place < length (items_in instances.now) }
    ensures { OnOk result ((f : AFault) → Contains faults.new.items f
        ↔ (Contains faults.old.items f ⊎ IsOne (item_at instances.now) view.now (stated_of statement.now) allowed.now f)) }
{
    for number in 0..allowed.len() {
        let other = allowed.get(number);
        push_pair(alloc, instances, faults, view, statement, &other)?;
    }
    Ok(())
}

/// Reports a neverallow statement and an allow statement, if they cover something together.
fn push_pair(
    alloc: Global,
    instances: &Instances,
    faults: &mut Vec<Fault>,
    view: &View,
    statement: &Part,
    other: &Part,
) -> Result<(), NoMemory>
    requires statement { statement.now.place < length (items_in instances.now) }
    requires other { other.now.place < length (items_in instances.now) }
    ensures { OnOk result ((f : AFault) → Contains faults.new.items f
        ↔ (Contains faults.old.items f ⊎ IsPair (item_at instances.now) view.now (stated_of statement.now) (stated_of other.now) f)) }
{
    let Some(overlap) = least(view.sets, statement.rules, other.rules) else {
        return Ok(());
    };
    push_told(
        alloc,
        instances,
        faults,
        view,
        statement.place,
        other.place,
        &overlap,
    )?;
    Ok(())
}
