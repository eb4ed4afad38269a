//! What levels are read by.

ghost use Rattle.std.specs.Prelude.{◌≡◌, ℕ};
ghost use Rattle.cil_ranges.specs.Reading.{meant};

use cil_mls::{Evaluator, Level, Range};

/// What levels that are written out are read by.
#[derive(Clone, Copy)]
pub struct Scale<'s> {
    /// What expressions over categories are evaluated by.
    pub categories: Evaluator<'s>,
    /// For each declared name, by its entry, the place of the sensitivity for which it stands.
    pub sensitivities: &'s [Option<u16>],
}

/// The same, and the named levels.
#[derive(Clone, Copy)]
pub struct Named<'s> {
    /// What levels that are written out are read by.
    pub scale: Scale<'s>,
    /// For each declared name, by its entry, the level that it names.
    pub levels: &'s [Option<Level>],
}

/// The same, and the named ranges.
#[derive(Clone, Copy)]
pub struct Ranged<'s> {
    /// What levels are read by.
    pub named: Named<'s>,
    /// For each declared name, by its entry, the range that it names.
    pub ranges: &'s [Option<Range>],
}

/// What a word of this meaning stands for, where a table has it for each declared name.
pub fn meant<T: Copy>(table: &[Option<T>], meaning: Option<usize>) -> Option<T>
    ensures { result ≡ meant table.now meaning }
{
    let entry = meaning?;
    match table.get(entry) {
        Some(there) => *there,
        None => None,
    }
}
