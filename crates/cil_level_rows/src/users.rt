//! The ranges of users, by the numbers of the users.

ghost use Rattle.std.specs.Prelude.{◌≡◌, ℕ, IfOk, None, Some, get_or, length, map};
ghost use Rattle.cil_level_rows.specs.KeptRanges.{AreAllKept, AreKept, AreKeptWhere};

use crate::words::ranges_have_words;
use cil_base::NoMemory;
use cil_known::Known;
use cil_mls::Range;
use cil_syntax::Kind;
use std::alloc::Global;

/// For each of so many users, by its number, its range, where these are the ranges of declared names; none where levels are off. It
/// costs a step for each declared name. Errors: out of memory, which is also the answer where levels are on and a user has no range:
/// there is no such user.
pub fn range_rows(
    alloc: Global,
    known: &Known,
    ranges: &[Option<Range>],
    count: usize,
    are_on: bool,
) -> Result<Vec<Range>, NoMemory>
    ensures { IfOk result (λ rows. AreKeptWhere known.now ranges.now are_on count rows.items) }
{
    if !are_on {
        return Ok(Vec::new(alloc));
    }
    let rows = all_ranges(alloc, known, ranges, count)?;
    Ok(rows)
}

/// The same where levels are on.
fn all_ranges(
    alloc: Global,
    known: &Known,
    ranges: &[Option<Range>],
    count: usize,
) -> Result<Vec<Range>, NoMemory>
    ensures { IfOk result (λ rows. AreAllKept known.now ranges.now count rows.items) }
{
    let kept = kept_ranges(alloc, known, ranges, count)?;
    let rows = all_there(alloc, kept.as_slice())?;
    // What is known of ranges: their sets have words.
    ranges_have_words(rows.as_slice());
    Ok(rows)
}

/// The ranges of users by their numbers, which are below a count. Error: out of memory.
fn kept_ranges(
    alloc: Global,
    known: &Known,
    ranges: &[Option<Range>],
    count: usize,
) -> Result<Vec<Option<Range>>, NoMemory>
    ensures len { IfOk result (λ kept. length kept.items ≡ count) }
    ensures kept { IfOk result (λ kept. AreKept known.now ranges.now kept.items) }
{
    let mut kept = no_ranges(alloc, count)?;
    for d in 0..known.lookup.names.entries().len() {
        keep_at(known, ranges, d, &mut kept);
    }
    Ok(kept)
}

/// No range for each of so many users. Error: out of memory.
fn no_ranges(alloc: Global, count: usize) -> Result<Vec<Option<Range>>, NoMemory>
    ensures len { IfOk result (λ kept. length kept.items ≡ count) }
    ensures none { IfOk result (λ kept. (n : ℕ) → get_or kept.items n None ≡ None) }
{
    let mut kept = Vec::new(alloc);
    while kept.len() < count {
        kept.push(None)?;
    }
    Ok(kept)
}

/// Keeps the range of one declared name, if it is a user.
fn keep_at(known: &Known, ranges: &[Option<Range>], d: usize, kept: &mut Vec<Option<Range>>)
    ensures len { length kept.new.items ≡ length kept.old.items }
    ensures kept { AreKept known.now ranges.now kept.old.items → AreKept known.now ranges.now kept.new.items }
{
    let Some(entry) = known.lookup.names.entries().get(d) else {
        return;
    };
    if !entry.is_declared_as(Kind::User, known.lookup.enabled) {
        return;
    }
    let number = number_at(known.numbers, d);
    if number >= kept.len() {
        return;
    }
    kept[number] = range_at(ranges, d);
}

/// The number at a place; 0 where there is none.
fn number_at(numbers: &[usize], place: usize) -> usize
    ensures { result ≡ get_or numbers.now place 0 }
{
    match numbers.get(place) {
        Some(number) => *number,
        None => 0,
    }
}

/// The range at a place.
fn range_at(ranges: &[Option<Range>], place: usize) -> Option<Range>
    ensures { result ≡ get_or ranges.now place None }
{
    match ranges.get(place) {
        Some(range) => *range,
        None => None,
    }
}

/// These ranges, of which each is there. Errors: out of memory, which is also the answer where one is not.
fn all_there(alloc: Global, kept: &[Option<Range>]) -> Result<Vec<Range>, NoMemory>
    ensures { IfOk result (λ rows. map Some rows.items ≡ kept.now) }
{
    let mut rows = Vec::new(alloc);
    for one in kept {
        let Some(range) = *one else {
            return Err(NoMemory);
        };
        rows.push(range)?;
    }
    Ok(rows)
}
