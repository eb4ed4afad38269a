//! The reason that is told of each optional that is left out: of those that hold when its turn comes, the first. The order of the
//! optionals stays. It costs a pass over the words of the optionals that are left out.

ghost use Rattle.std.specs.Prelude.{◌≡◌, ◌+◌, ℕ, IfOk, MatchOption, None, OnOk, get_or, length, replicate, suc, take, true};
ghost use Rattle.std.specs.List.{list_all};
ghost use Rattle.cil_names.specs.Entries.{is_in};
ghost use Rattle.cil_optionals.specs.FirstParts.{AreFirstIn, AreFirstWords, AreTold, GoesAt, IsTold};
ghost use Rattle.cil_optionals.specs.Parts.{IsShown, asked_at, lacks, parts_in};
ghost use Rattle.cil_optionals.specs.Times.{names_after as named_after};

use crate::checking::Check;
use crate::chosen::Chosen;
use crate::parts::Parts;
use crate::reason::Reason;
use crate::times::{entry_times, names_after, time_of, times_of};
use cil_base::{NoMemory, short};
use cil_names::Entry;
use std::alloc::Global;

/// For each optional that a right choice leaves out the first reason, in the order of its reasons. Error: out of memory.
pub fn first_reasons(
    alloc: Global,
    parts: &Parts,
    entries: &[Entry],
    chosen: &Chosen,
) -> Result<Vec<Reason>, NoMemory>
    requires { IsShown (parts_in parts.now) entries.now (is_in chosen.now.enabled) chosen.now.reasons.items }
    ensures shown { IfOk result (λ told. IsShown (parts_in parts.now) entries.now (is_in chosen.now.enabled) told.items) }
    ensures first { IfOk result (λ told. AreFirstIn (parts_in parts.now) entries.now told.items) }
{
    let reasons = chosen.reasons.as_slice();
    let times = times_of(alloc, parts, reasons)?;
    let entries = entry_times(alloc, entries, times.as_slice(), reasons.len() + 1)?;
    let check = Check {
        parts,
        times: times.as_slice(),
        entries: entries.as_slice(),
    };
    let words = first_words(alloc, &check, reasons.len())?;
    let told = told_for(alloc, &check, words.as_slice(), reasons)?;
    Ok(told)
}

/// For each optional that one of so many steps takes out, the first of its words that names nothing when its turn comes. It goes
/// through all statements from the last to the first.
fn first_words(alloc: Global, check: &Check, steps: usize) -> Result<Vec<Option<Reason>>, NoMemory>
    ensures { IfOk result (λ words. AreFirstWords (parts_in check.now.parts.now) check.now.times.now check.now.entries.now steps 0 words.items) }
{
    let mut words = none_noted(alloc, check.times.len())?;
    let mut at = check.parts.len();
    while at > 0 {
        at -= 1;
        note(&mut words, check, steps, at)?;
    }
    Ok(words)
}

/// Nothing, so many times.
fn none_noted(alloc: Global, count: usize) -> Result<Vec<Option<Reason>>, NoMemory>
    ensures { IfOk result (λ words. words.items ≡ replicate count None) }
{
    Ok(vec![in alloc; None; count]?)
}

/// Notes the first word that names nothing of the statement at a place, for its optional, in place of what is noted there.
fn note(
    words: &mut Vec<Option<Reason>>,
    check: &Check,
    steps: usize,
    at: usize,
) -> Result<(), NoMemory>
    requires { length words.old.items ≡ length check.now.times.now }
    ensures noted { OnOk result (AreFirstWords (parts_in check.now.parts.now) check.now.times.now check.now.entries.now steps (suc at) words.old.items
        → AreFirstWords (parts_in check.now.parts.now) check.now.times.now check.now.entries.now steps at words.new.items) }
    ensures len { OnOk result (length words.new.items ≡ length words.old.items) }
{
    let Some(optional) = check.parts.inside(at) else {
        return Ok(());
    };
    let Some(step) = step_of(check.times, steps, optional) else {
        return Ok(());
    };
    let Some(word) = first_lacking(check, step, at) else {
        return Ok(());
    };
    let reason = Reason::Missing {
        optional: short(optional)?,
        instance: short(at)?,
        word: short(word)?,
    };
    words[optional] = Some(reason);
    Ok(())
}

/// Which of so many steps takes out this optional, counted from 0.
fn step_of(times: &[usize], steps: usize, optional: usize) -> Option<usize>
    ensures { MatchOption result ((t : ℕ) → GoesAt times.now steps optional t → ⊥) (GoesAt times.now steps optional) }
{
    let time = time_of(times, optional);
    if time == 0 || time > steps {
        return None;
    }
    Some(time - 1)
}

/// The number of the first word of a statement that names nothing after so many steps.
fn first_lacking(check: &Check, steps: usize, at: usize) -> Option<usize>
    ensures { MatchOption result (list_all (named_after check.now.entries.now steps) (asked_at (parts_in check.now.parts.now) at) ≡ true)
        (λ j. (lacks (named_after check.now.entries.now steps) (asked_at (parts_in check.now.parts.now) at) j ≡ true)
        × (list_all (named_after check.now.entries.now steps) (take j (asked_at (parts_in check.now.parts.now) at)) ≡ true)) }
{
    for word in 0..check.parts.count(at) {
        if !names_after(check.entries, steps, check.parts.word(at, word)) {
            return Some(word);
        }
    }
    None
}

/// For each of some reasons, one for each step, the first reason of its optional.
fn told_for(
    alloc: Global,
    check: &Check,
    words: &[Option<Reason>],
    reasons: &[Reason],
) -> Result<Vec<Reason>, NoMemory>
    requires { AreFirstWords (parts_in check.now.parts.now) check.now.times.now check.now.entries.now (length reasons.now) 0 words.now }
    ensures { IfOk result (λ told. AreTold (parts_in check.now.parts.now) check.now.times.now check.now.entries.now (length reasons.now) (length reasons.now) reasons.now told.items) }
{
    let mut told = Vec::new(alloc);
    for step in 0..reasons.len() {
        told.push(first_reason(check, words, reasons.len(), step, &reasons[step]))?;
    }
    Ok(told)
}

/// The first reason of the optional that a reason takes out by one of so many steps.
fn first_reason(
    check: &Check,
    words: &[Option<Reason>],
    steps: usize,
    step: usize,
    reason: &Reason,
) -> Reason
    requires { AreFirstWords (parts_in check.now.parts.now) check.now.times.now check.now.entries.now steps 0 words.now }
    ensures { IsTold (parts_in check.now.parts.now) check.now.times.now check.now.entries.now steps step reason.now result }
{
    let optional = reason.left_out();
    if check.parent_is_out(step, optional as usize) {
        return Reason::ParentOut { optional };
    }
    match noted(words, optional as usize) {
        Some(word) => word,
        None => *reason,
    }
}

/// What is noted for an optional.
fn noted(words: &[Option<Reason>], optional: usize) -> Option<Reason>
    ensures { result ≡ get_or words.now optional None }
{
    match words.get(optional) {
        Some(word) => *word,
        None => None,
    }
}
