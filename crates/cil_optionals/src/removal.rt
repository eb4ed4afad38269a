//! The greatest set of optionals by removal: an optional for which there is a reason is taken out, until there is none. It costs
//! a pass over the words of all optionals for each round, and there may be as many rounds as optionals.

ghost use Rattle.std.specs.Prelude.{◌≡◌, IfOk, MatchOption, OnOk, length, Some, true, map, set, false};
ghost use Rattle.std.specs.List.{list_all};
ghost use Rattle.cil_names.specs.Entries.{is_in};
ghost use Rattle.cil_optionals.specs.Certificate.{left_out};
ghost use Rattle.cil_optionals.specs.Parts.{IsShown, Part, asked_at, lacks, names_one, parts_in};
ghost use Rattle.cil_optionals.specs.Removals.{IsPassed, IsReasonNow, IsTaken, IsTurned, IsWellAt};
ghost use Rattle.cil_optionals.specs.declared.reason.Reason.TheVariants.{ParentOut};

use crate::chosen::Chosen;
use crate::declared::names_one;
use crate::parts::Parts;
use crate::reason::Reason;
use cil_base::{NoMemory, short};
use cil_names::{Entry, OptSet, is_set};
use std::alloc::Global;

/// The greatest set, by passes over all statements until one takes nothing out.
pub fn by_removal(alloc: Global, parts: &Parts, entries: &[Entry]) -> Result<Chosen, NoMemory>
    ensures { IfOk result (λ c. IsShown (parts_in parts.now) entries.now (is_in c.enabled) c.reasons.items) }
{
    let mut left = optionals_of(alloc, parts)?;
    let mut reasons = Vec::new(alloc);
    let mut taken = true;
    while taken {
        taken = pass(parts, entries, &mut left, &mut reasons)?;
    }
    Ok(Chosen {
        enabled: OptSet::of(left),
        reasons,
    })
}

/// A flag for each statement: whether it is an optional.
pub(crate) fn optionals_of(alloc: Global, parts: &Parts) -> Result<Vec<bool>, NoMemory>
    ensures { IfOk result (λ left. left.items ≡ map (λ (p : Part). p.optional) (parts_in parts.now)) }
{
    let mut left = Vec::new(alloc);
    for at in 0..parts.len() {
        left.push(parts.is_optional(at))?;
    }
    Ok(left)
}

/// Judges all statements, each by what is left when its turn comes. It returns whether an optional was taken out.
fn pass(
    parts: &Parts,
    entries: &[Entry],
    left: &mut Vec<bool>,
    reasons: &mut Vec<Reason>,
) -> Result<bool, NoMemory>
    requires { IsTaken (parts_in parts.now) entries.now left.old.items reasons.old.items }
    ensures steps { OnOk result (IsTaken (parts_in parts.now) entries.now left.new.items reasons.new.items) }
    ensures passed { IfOk result (λ taken. IsPassed (parts_in parts.now) entries.now (length (parts_in parts.now)) left.old.items left.new.items taken) }
{
    let mut taken = false;
    for at in 0..parts.len() {
        let out = turn(parts, entries, left, reasons, at)?;
        taken |= out;
    }
    Ok(taken)
}

/// Judges the statement at a place, and takes out an optional if the statement is a reason to. It returns whether it did.
fn turn(
    parts: &Parts,
    entries: &[Entry],
    left: &mut Vec<bool>,
    reasons: &mut Vec<Reason>,
    at: usize,
) -> Result<bool, NoMemory>
    requires { IsTaken (parts_in parts.now) entries.now left.old.items reasons.old.items }
    ensures steps { OnOk result (IsTaken (parts_in parts.now) entries.now left.new.items reasons.new.items) }
    ensures turned { IfOk result (λ taken. IsTurned (parts_in parts.now) entries.now at left.old.items left.new.items taken) }
{
    let Some(reason) = judged(parts, entries, left.as_slice(), at)? else {
        return Ok(false);
    };
    reasons.push(reason)?;
    left[reason.left_out() as usize] = false;
    Ok(true)
}

/// The reason to take out an optional that the statement at a place gives; none where all is well with it.
fn judged(
    parts: &Parts,
    entries: &[Entry],
    left: &[bool],
    at: usize,
) -> Result<Option<Reason>, NoMemory>
    ensures { IfOk result (λ r. MatchOption r (IsWellAt (parts_in parts.now) entries.now left.now at) (IsReasonNow (parts_in parts.now) entries.now left.now)) }
{
    let Some(optional) = parts.inside(at) else {
        return Ok(None);
    };
    if !is_set(left, optional) {
        return parent_out(left, at);
    }
    let Some(word) = first_lacking(parts, at, entries, left) else {
        return Ok(None);
    };
    Ok(Some(Reason::Missing {
        optional: short(optional)?,
        instance: short(at)?,
        word: short(word)?,
    }))
}

/// The reason to take out the statement at a place, if it is an optional that is left. That round it is out.
fn parent_out(left: &[bool], at: usize) -> Result<Option<Reason>, NoMemory>
    ensures { IfOk result (λ r. MatchOption r (is_in left.now at ≡ false) (λ reason. (reason ≡ ParentOut at) × (is_in left.now at ≡ true))) }
{
    if !is_set(left, at) {
        return Ok(None);
    }
    Ok(Some(Reason::ParentOut {
        optional: short(at)?,
    }))
}

/// The number of the first word of a statement that names nothing.
fn first_lacking(parts: &Parts, at: usize, entries: &[Entry], left: &[bool]) -> Option<usize>
    ensures { MatchOption result (list_all (names_one entries.now (is_in left.now)) (asked_at (parts_in parts.now) at) ≡ true)
        (λ j. lacks (names_one entries.now (is_in left.now)) (asked_at (parts_in parts.now) at) j ≡ true) }
{
    for word in 0..parts.count(at) {
        if !names_one(entries, left, parts.word(at, word)) {
            return Some(word);
        }
    }
    None
}
