//! For how many steps each optional and each declared name is there, while the optionals of some reasons are taken out one by one.
//! An optional that stays is there for one step more than there are reasons, and what is no optional for none.

ghost use Rattle.std.specs.Prelude.{◌≡◌, ◌<◌, ℕ, IfOk, cond, get_or, ltb, map, max};
ghost use Rattle.std.specs.List.{list_all, list_any};
ghost use Rattle.cil_names.specs.Entries.{is_declared_in};
ghost use Rattle.cil_optionals.specs.Times.{AreEntryTimes, AreTimes, after, names_after, noted};
ghost use Rattle.cil_optionals.specs.Parts.{Part, is_optional_part, parts_in};

use crate::parts::Parts;
use crate::reason::Reason;
use cil_base::NoMemory;
use cil_names::Entry;
use std::alloc::Global;

/// For how many steps each optional is left.
pub fn times_of(alloc: Global, parts: &Parts, reasons: &[Reason]) -> Result<Vec<usize>, NoMemory>
    ensures { IfOk result (λ times. AreTimes (parts_in parts.now) reasons.now times.items) }
{
    let top = reasons.len() + 1;
    let mut times = times_at_start(alloc, parts, top)?;
    for step in 0..reasons.len() {
        note(&mut times, reasons[step].left_out() as usize, step + 1, top);
    }
    Ok(times)
}

/// For how many steps each is there where none is taken out.
fn times_at_start(alloc: Global, parts: &Parts, top: usize) -> Result<Vec<usize>, NoMemory>
    ensures { IfOk result (λ times. times.items ≡ map (λ (p : Part). cond p.optional top 0) (parts_in parts.now)) }
{
    let mut times = Vec::new(alloc);
    for at in 0..parts.len() {
        times.push(time_at_start(parts, at, top))?;
    }
    Ok(times)
}

fn time_at_start(parts: &Parts, at: usize, top: usize) -> usize
    ensures { result ≡ cond (is_optional_part (parts_in parts.now) at) top 0 }
{
    if parts.is_optional(at) { top } else { 0 }
}

/// Notes the time at which an optional is taken out; that of one that is out already, or is no optional, stays.
fn note(times: &mut Vec<usize>, optional: usize, time: usize, top: usize)
    requires { 0 < top }
    ensures { times.new.items ≡ noted optional time top times.old.items }
{
    if time_of(times.as_slice(), optional) != top {
        return;
    }
    times[optional] = time;
}

/// The time of this number; 0 where there is none.
pub fn time_of(times: &[usize], number: usize) -> usize
    ensures { result ≡ get_or times.now number 0 }
{
    match times.get(number) {
        Some(time) => *time,
        None => 0,
    }
}

/// Whether what has this number is there after so many steps.
pub fn is_after(times: &[usize], steps: usize, number: usize) -> bool
    ensures { result ≡ after times.now steps number }
{
    steps < time_of(times, number)
}

/// Whether one of these is there after so many steps.
pub fn names_after(times: &[usize], steps: usize, candidates: &[u32]) -> bool
    ensures { result ≡ names_after times.now steps candidates.now }
{
    candidates
        .iter()
        .any(|number| is_after(times, steps, *number as usize))
}

/// For how many steps each entry is declared, but no more than `top`. It costs a step for each optional of each round.
pub fn entry_times(
    alloc: Global,
    entries: &[Entry],
    times: &[usize],
    top: usize,
) -> Result<Vec<usize>, NoMemory>
    ensures { IfOk result (λ all. AreEntryTimes entries.now times.now top all.items) }
{
    let mut all = Vec::new(alloc);
    for entry in entries {
        all.push(entry_time(entry, times, top))?;
    }
    Ok(all)
}

fn entry_time(entry: &Entry, times: &[usize], top: usize) -> usize
    ensures { (k : ℕ) → k < top → ltb k result ≡ is_declared_in (after times.now k) entry.now }
{
    if entry.always {
        return top;
    }
    latest(entry.rounds.as_slice(), times, top)
}

/// The time of the round that is there longest.
fn latest(rounds: &[Vec<usize>], times: &[usize], top: usize) -> usize
    ensures { (k : ℕ) → k < top → ltb k result ≡ list_any (λ r. list_all (after times.now k) r.items) rounds.now }
{
    let mut most = 0;
    for round in rounds {
        most = later(most, earliest(round.as_slice(), times, top));
    }
    most
}

fn later(one: usize, other: usize) -> usize
    ensures { result ≡ max one other }
{
    if one < other { other } else { one }
}

/// The time of the optional of a round that is out first.
fn earliest(round: &[usize], times: &[usize], top: usize) -> usize
    ensures { (k : ℕ) → k < top → ltb k result ≡ list_all (after times.now k) round.now }
{
    let mut least = top;
    for optional in round {
        least = least.min(time_of(times, *optional));
    }
    least
}
