//! Levels and ranges.

ghost use Rattle.std.specs.Prelude.{◌≡◌, ◌↔◌, IsTrue};
ghost use Rattle.cil_mls.specs.Dominance.{Dominates, no_level};

use crate::categories::Categories;

/// A level: a sensitivity and a set of categories.
#[derive(Clone, Copy, Debug, PartialEq, Eq, Hash)]
pub struct Level {
    /// The place of the sensitivity in the one order of all, from the lowest on.
    pub sensitivity: u16,
    /// The categories.
    pub categories: Categories,
}

/// A range of levels, as of a user or in a context. That its high level dominates the low one is not said here.
#[derive(Clone, Copy, Debug, PartialEq, Eq, Hash)]
pub struct Range {
    /// The low level: of a process the current one.
    pub low: Level,
    /// The high level: of a process its clearance.
    pub high: Level,
}

impl Level {
    /// The level of every context of a policy whose levels are off: the lowest sensitivity, and no category.
    pub fn none() -> Level
        ensures { result ≡ no_level }
    {
        Level {
            sensitivity: 0,
            categories: Categories { words: [0; 16] },
        }
    }

    /// Whether this level dominates the other. The SELinux Notebook, "Multi-Level Security and Multi-Category Security": its
    /// sensitivity is not lower, and it has all categories of the other. So each level dominates itself, and of two levels it may be
    /// that neither dominates the other. It costs a step for each of 16 words.
    pub fn dominates(&self, other: &Level) -> bool
        ensures { IsTrue result ↔ Dominates self.now other.now }
    {
        other.sensitivity <= self.sensitivity && self.categories.include(&other.categories)
    }
}
