//! Which entries are declared, where some optionals are enabled.

ghost use Rattle.std.specs.Prelude.{◌≡◌, IfOk, find, map};
ghost use Rattle.std.specs.List.{list_all, list_any};
ghost use Rattle.cil_names.specs.Entries.{is_declared_at, is_declared_in, is_in, listed};

use crate::entry::Entry;
use crate::opt_set::are_set;
use cil_base::NoMemory;
use std::alloc::Global;

/// For each entry whether it is declared where these optionals are enabled. It costs a step for each statement that
/// declares an entry.
pub fn flags_of(alloc: Global, entries: &[Entry], enabled: &[bool]) -> Result<Vec<bool>, NoMemory>
    ensures { IfOk result (λ flags. flags.items ≡ map (is_declared_in (is_in enabled.now)) entries.now) }
{
    let mut flags = Vec::new(alloc);
    for entry in entries {
        flags.push(is_declared(enabled, entry))?;
    }
    Ok(flags)
}

/// The number, where its entry is declared.
pub fn where_declared(enabled: &[bool], entries: &[Entry], named: Option<usize>) -> Option<usize>
    ensures { result ≡ find (is_declared_at (is_in enabled.now) entries.now) (listed named) }
{
    let Some(d) = named else {
        return None;
    };
    let Some(entry) = entries.get(d) else {
        return None;
    };
    if !is_declared(enabled, entry) {
        return None;
    }
    Some(d)
}

/// Whether an entry is declared where these optionals are enabled. It costs a step for each statement that declares it,
/// until one is enabled.
pub fn is_declared(enabled: &[bool], entry: &Entry) -> bool
    ensures { result ≡ is_declared_in (is_in enabled.now) entry.now }
{
    if entry.always {
        return true;
    }
    has_one(enabled, entry.rounds.as_slice())
}

/// Whether one of these rounds is in the set.
fn has_one(enabled: &[bool], rounds: &[Vec<usize>]) -> bool
    ensures { result ≡ list_any (λ r. list_all (is_in enabled.now) r.items) rounds.now }
{
    for round in rounds {
        if are_set(enabled, round.as_slice()) {
            return true;
        }
    }
    false
}
