//! How many look-ups the choice of optionals takes, by what it leaves out. It costs a step for each statement, each optional round
//! a declaration, and each entry that a word in an optional could name.

ghost use Rattle.std.specs.Prelude.{◌≡◌, ◌+◌, ◌<◌, IfOk, count_by, length, slice_get, sum_by};
ghost use Rattle.std.specs.Option.{option_map_or};
ghost use Rattle.cil_macros.specs.Items.{item_at, items_in};
ghost use Rattle.cil_names.specs.Entries.{is_in};
ghost use Rattle.cil_optionals.specs.Counts.{declares as declares_item, is_lost as is_lost_item};
ghost use Rattle.cil_optionals.specs.PartCounts.{AreLookups, lost_among, lost_inside, lost_of};
ghost use Rattle.cil_optionals.specs.Parts.{asked_at, parts_in};

use crate::parts::Parts;
use cil_base::NoMemory;
use cil_macros::Instances;
use cil_names::{Entry, OptSet, flags_of, is_set};
use std::alloc::Global;

/// How many look-ups it takes to choose these optionals: one for each declaring statement that is left out, and one for each word
/// in an optional with each entry that it could name and that is not declared. Error: out of memory.
pub fn lookups_of(
    alloc: Global,
    instances: &Instances,
    parts: &Parts,
    entries: &[Entry],
    enabled: &OptSet,
) -> Result<usize, NoMemory>
    ensures { IfOk result (λ n. AreLookups (items_in instances.now) (parts_in parts.now) entries.now (is_in enabled.now) n) }
{
    let declared = flags_of(alloc, entries, enabled.as_slice())?;
    let statements = lost_statements(instances, enabled)?;
    let candidates = lost_candidates(parts, declared.as_slice())?;
    let lookups = sum(statements, candidates)?;
    Ok(lookups)
}

/// How many declaring statements are left out.
fn lost_statements(instances: &Instances, enabled: &OptSet) -> Result<usize, NoMemory>
    ensures { IfOk result (λ n. n ≡ count_by (is_lost_item (is_in enabled.now)) (items_in instances.now)) }
{
    let mut count = 0;
    for at in 0..instances.len() {
        if is_lost(instances, enabled, at) {
            count = sum(count, 1)?;
        }
    }
    Ok(count)
}

/// Whether the statement at a place declares something and is left out.
fn is_lost(instances: &Instances, enabled: &OptSet, at: usize) -> bool
    requires { at < length (items_in instances.now) }
    ensures { result ≡ is_lost_item (is_in enabled.now) (item_at instances.now at) }
{
    declares(instances, at) && !enabled.has_round(instances, at)
}

/// Whether the statement at a place declares something.
fn declares(instances: &Instances, at: usize) -> bool
    requires { at < length (items_in instances.now) }
    ensures { result ≡ declares_item (item_at instances.now at) }
{
    let statement = instances.statement_there(at);
    let Some(_kind) = statement.keyword.declares() else {
        return false;
    };
    let Some(_name) = statement.declared_name() else {
        return false;
    };
    true
}

/// How many entries that are not declared the words in optionals could name, each word by itself.
fn lost_candidates(parts: &Parts, declared: &[bool]) -> Result<usize, NoMemory>
    ensures { IfOk result (λ n. n ≡ sum_by (lost_inside declared.now) (parts_in parts.now)) }
{
    let mut count = 0;
    for at in 0..parts.len() {
        let more = lost_at(parts, at, declared)?;
        count = sum(count, more)?;
    }
    Ok(count)
}

/// The same of the words of one statement; none if it is in no optional.
fn lost_at(parts: &Parts, at: usize, declared: &[bool]) -> Result<usize, NoMemory>
    ensures { IfOk result (λ n. n ≡ option_map_or (lost_inside declared.now) (slice_get (parts_in parts.now) at) 0) }
{
    if parts.inside(at).is_none() {
        return Ok(0);
    }
    lost_words(parts, at, declared)
}

/// The same of the words of one statement, wherever it is.
fn lost_words(parts: &Parts, at: usize, declared: &[bool]) -> Result<usize, NoMemory>
    ensures { IfOk result (λ n. n ≡ lost_among declared.now (asked_at (parts_in parts.now) at)) }
{
    let mut count = 0;
    for word in 0..parts.count(at) {
        let lost = lost_entries(parts.word(at, word), declared)?;
        count = sum(count, lost)?;
    }
    Ok(count)
}

/// How many of these entries are not declared.
fn lost_entries(candidates: &[u32], declared: &[bool]) -> Result<usize, NoMemory>
    ensures { IfOk result (λ n. n ≡ lost_of declared.now candidates.now) }
{
    let mut count = 0;
    for entry in candidates {
        if !is_set(declared, *entry as usize) {
            count = sum(count, 1)?;
        }
    }
    Ok(count)
}

/// The sum. Out of memory where it does not fit: what is counted is in memory.
fn sum(one: usize, other: usize) -> Result<usize, NoMemory>
    ensures { IfOk result (λ both. both ≡ one + other) }
{
    let Some(both) = one.checked_add(other) else {
        return Err(NoMemory);
    };
    Ok(both)
}
