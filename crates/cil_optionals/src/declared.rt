//! Whether a word names something where some optionals are in force.

ghost use Rattle.std.specs.Prelude.{◌≡◌};
ghost use Rattle.cil_names.specs.Entries.{is_declared_at, is_in};
ghost use Rattle.cil_optionals.specs.Parts.{names_one as names_one_of};

use cil_names::{Entry, is_declared};

/// Whether one of these entries is declared.
pub fn names_one(entries: &[Entry], flags: &[bool], candidates: &[u32]) -> bool
    ensures { result ≡ names_one_of entries.now (is_in flags.now) candidates.now }
{
    candidates
        .iter()
        .any(|number| is_declared_at(entries, flags, *number as usize))
}

/// Whether the entry of this number is declared.
fn is_declared_at(entries: &[Entry], flags: &[bool], number: usize) -> bool
    ensures { result ≡ is_declared_at (is_in flags.now) entries.now number }
{
    match entries.get(number) {
        Some(entry) => is_declared(flags, entry),
        None => false,
    }
}
