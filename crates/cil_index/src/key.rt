//! By what a rule is found: its heading, its class, and what stands for its other side.

ghost use Rattle.std.specs.Prelude.{◌≡◌, ◌≤◌, ◌+◌, refl};
ghost use Rattle.std.specs.Cmp.{eq_by_cmp_equiv, partial_equiv_from_equiv, partial_order_from_total};
ghost use Rattle.std.specs.Ordering.{as_partial_cmp, eq_by_cmp};
ghost use Rattle.cil_index.specs.Entries.{aim_of, alone_key, beyond, entry_cmp, entry_total, in_class, itself, last_class, set_key, several};

use std::cmp::Ordering;

/// An aim has a target, or the sources, in so many of its values, and a class in the ten bits above them.
pub const TARGETS: u32 = 1 << 22;

/// The target of a rule from several types to themselves. It is the last, so that a search for two types ends before it.
pub const ITSELF: u32 = TARGETS - 1;

/// The target that stands for a set for whose number an aim has no room.
pub const BEYOND: u32 = ITSELF - 1;

/// From here on stand the targets that are not one type: a set by its number behind this one.
pub const SEVERAL: u32 = 1 << 21;

/// As this one stand the classes behind it too.
const LAST_CLASS: u32 = (1 << 10) - 1;

/// As this one stand the types behind it too.
const LAST_TYPE: u32 = SEVERAL - 1;

/// A rule while the index is made.
#[derive(Clone, Copy, Debug)]
pub struct Entry {
    /// The part in which it stands, by its heading and its class.
    pub part: u32,
    /// Its class and what stands for its other side as one number: a search compares them in one step.
    pub aim: u32,
    /// Where the rule stands in the order of the table.
    pub place: u32,
}

// Policies have hundreds of thousands of rules.
const _: () = prove!(size_of::<Entry>() <= 12);

/// What stands in an aim for a class: its number, where there is room for it.
pub fn class_key(class: usize) -> u32
    ensures key { result ≡ in_class class }
    ensures room { result ≤ last_class }
{
    if class < LAST_CLASS as usize {
        class as u32
    } else {
        LAST_CLASS
    }
}

/// What stands in an aim for one type alone.
pub fn type_key(number: usize) -> u32
    ensures { result ≡ alone_key number }
{
    if number < LAST_TYPE as usize {
        number as u32
    } else {
        LAST_TYPE
    }
}

/// What stands in an aim for a set of several types, or of none.
pub fn set_key(set: u32) -> u32
    ensures { result ≡ set_key set }
{
    if set < BEYOND - SEVERAL {
        SEVERAL + set
    } else {
        BEYOND
    }
}

/// How many sets stand in aims by their numbers, of those below a number.
pub fn small_sets(first_large: usize) -> u32
    ensures below { result ≤ first_large }
    ensures room { several + result ≤ beyond }
{
    if first_large < (BEYOND - SEVERAL) as usize {
        first_large as u32
    } else {
        BEYOND - SEVERAL
    }
}

/// A class and what stands for a set as one number.
pub fn aim(class: u32, target: u32) -> u32
    requires class { class ≤ last_class }
    requires target { target ≤ itself }
    ensures { result ≡ aim_of class target }
{
    class * TARGETS + target
}

impl PartialEq for Entry {
    ghost eq = { eq_by_cmp entry_cmp };

    ghost laws = { partial_equiv_from_equiv (eq_by_cmp_equiv entry_total) };

    fn eq(&self, other: &Entry) -> bool {
        self.cmp(other) == Ordering::Equal
    }
}

impl Eq for Entry {
    ghost laws = { eq_by_cmp_equiv entry_total };
}

impl PartialOrd for Entry {
    ghost partial_cmp = { as_partial_cmp entry_cmp };

    ghost laws = { partial_order_from_total entry_total };

    fn partial_cmp(&self, other: &Entry) -> Option<Ordering> {
        Some(self.cmp(other))
    }
}

impl Ord for Entry {
    ghost cmp = { entry_cmp };

    ghost total = { entry_total };

    ghost matches_partial_cmp = { λ a b. refl };

    ghost matches_eq = { λ a b. refl };

    /// By part, then by aim.
    fn cmp(&self, other: &Entry) -> Ordering {
        self.part.cmp(&other.part).then(self.aim.cmp(&other.aim))
    }
}
