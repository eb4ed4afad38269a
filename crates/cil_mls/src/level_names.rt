//! The names that texts of levels may use, and what these texts mean.

ghost use Rattle.std.specs.Prelude.{◌≡◌, ◌↔◌, IsTrue, MatchOption};
ghost use Rattle.cil_mls.specs.declared.level.Level as a_level;
ghost use Rattle.cil_mls.specs.declared.level.Range as a_range;
ghost use Rattle.cil_mls.specs.Names.{AreNames, IsLevelOf, IsRangeOf};

use crate::categories::MOST_CATEGORIES;
use crate::level::{Level, Range};
use crate::named::{Named, are_below, rise};
use crate::texts::{level_in, range_in};
use std::marker::Model;

/// How many sensitivities a policy may have.
pub const MOST_SENSITIVITIES: usize = 256;

/// The names of sensitivities and of categories, aliases among them, each with the place for which it stands. Contracts see two
/// lists, which rise in byte order of the names. Places of sensitivities are below 256, and those of categories below 1,024.
#[derive(Debug, Drop)]
pub struct LevelNames {
    sensitivities: Vec<Named>,
    categories: Vec<Named>,
}

impl Model for LevelNames {
    ghost use Rattle.cil_mls.specs.Names.{AreNames, NamesOfLevels};

    ghost Value = { NamesOfLevels };

    ghost view = { λ a. record { sensitivities = a.sensitivities.items; categories = a.categories.items } };

    ghost invariant = { λ a. AreNames 256 a.sensitivities.items × AreNames 1024 a.categories.items };
}

impl LevelNames {
    /// These names, without a copy. None if a list does not rise in byte order of its names, as where a name is there twice, or if a
    /// place is too large. It costs a step for each name.
    pub fn of(sensitivities: Vec<Named>, categories: Vec<Named>) -> Option<LevelNames>
        ensures { MatchOption result (AreNames 256 sensitivities.items × AreNames 1024 categories.items → ⊥) (λ names. names ≡ record { sensitivities = sensitivities.items; categories = categories.items }) }
    {
        if !are_names(&sensitivities, MOST_SENSITIVITIES) {
            return None;
        }
        if !are_names(&categories, MOST_CATEGORIES) {
            return None;
        }
        Some(LevelNames {
            sensitivities,
            categories,
        })
    }

    /// The names of sensitivities.
    pub fn sensitivities(&self) -> &[Named]
        ensures names { result.now ≡ self.now.sensitivities }
        ensures rising { AreNames 256 result.now }
    {
        self.sensitivities.as_slice()
    }

    /// The names of categories.
    pub fn categories(&self) -> &[Named]
        ensures names { result.now ≡ self.now.categories }
        ensures rising { AreNames 1024 result.now }
    {
        self.categories.as_slice()
    }

    /// The level that a text is. The SELinux Notebook, "Multi-Level Security and Multi-Category Security": the name of a
    /// sensitivity, as `s0`, or that name, a colon and items between commas, as `s0:c1,c3.c5`. An item is the name of a category, or
    /// two with a dot between them, which stand for all categories from the first to the second. Items may be in any order and may
    /// have a category more than once. None if the text has another form, if a name is not there, or if the second category of an
    /// item is before the first. It takes no memory, and costs two searches by halving for each item.
    pub fn parse_level(&self, text: &[u8]) -> Option<Level>
        ensures { MatchOption result ((l : a_level.Level) → IsLevelOf self.now text.now l → ⊥) (IsLevelOf self.now text.now) }
    {
        level_in(self.sensitivities(), self.categories(), text)
    }

    /// The range that a text is: two levels with a hyphen between them, as `s0-s1:c0`, or one level, which is both the low and the
    /// high one. A text is parted at its first hyphen, so no name with one can be written. None if the text has another form. That the
    /// high level dominates the low one is not asked. It takes no memory, and costs what `parse_level` costs for both.
    pub fn parse_range(&self, text: &[u8]) -> Option<Range>
        ensures { MatchOption result ((r : a_range.Range) → IsRangeOf self.now text.now r → ⊥) (IsRangeOf self.now text.now) }
    {
        range_in(self.sensitivities(), self.categories(), text)
    }
}

/// Whether names rise, and their places are below a count.
fn are_names(names: &[Named], count: usize) -> bool
    ensures { IsTrue result ↔ AreNames count names.now }
{
    rise(names) && are_below(names, count)
}
