//! What is asked, and what is searched for.

ghost use Rattle.std.specs.Prelude.{◌≡◌, ◌≤◌, ◌⊎◌};
ghost use Rattle.cil_index.specs.declared.asked.Step.TheVariants as steps;
ghost use Rattle.cil_index.specs.Entries.{beyond, itself};
ghost use Rattle.cil_index.specs.Found.{AreAims, IsStep, turned};
ghost use Rattle.cil_index.specs.Memberships.{AreFilters, HasBit};

use crate::key::{BEYOND, ITSELF, SEVERAL, aim, class_key, small_sets, type_key};
use crate::memberships::{Memberships, WORDS, has_bit};
use crate::record::Record;
use crate::sets::Sets;
use cil_rules::Branch;

/// The rules that are searched, by their records, which stand in the order of the index.
#[derive(Clone, Copy)]
pub struct Searched<'s> {
    pub branches: &'s [Branch],
    pub sets: &'s Sets,
    pub memberships: &'s Memberships,
    pub records: &'s [Record],
}

/// What is asked: a pair of types and a class.
#[derive(Clone, Copy)]
pub struct Asked {
    pub source: usize,
    pub target: usize,
    pub class: usize,
}

impl Asked {
    /// The same with each type in the place of the other.
    pub fn turned(&self) -> Asked
        ensures { result ≡ turned self.now }
    {
        Asked {
            source: self.target,
            target: self.source,
            class: self.class,
        }
    }
}

/// What is searched for among the aims under a heading: the class with the target alone, and from the first to the last those with a target that is not
/// one type. Among these the small sets come first, and the filter has a bit for each that has the target, by what 512 leaves of its number; behind them are
/// the sets that are asked for every type; and a source itself is the last, which is left out where it is not the target. Where the heading is the target,
/// what is asked is turned: the source is searched for.
#[derive(Clone, Copy)]
pub struct Aims {
    pub alone: u32,
    pub several: u32,
    pub small: u32,
    pub last: u32,
    pub filter: [u64; WORDS],
}

/// What a search among the aims of several types does at an aim.
#[derive(Clone, Copy)]
pub enum Step {
    /// It reads the rule, whose other side may have the type.
    Read,
    /// It passes the aim, which cannot lead to what is asked.
    Pass,
    /// It ends: no aim from here on leads to what is asked.
    End,
}

impl Aims {
    /// What a search does at an aim. It costs some comparisons, and reads no set: for most aims one comparison and one bit.
    pub fn step(&self, aim: u32) -> Step
        ensures { IsStep self.now aim result }
    {
        let number = aim.wrapping_sub(self.several);
        if number < self.small {
            return filtered(&self.filter, number);
        }
        if aim > self.last {
            return Step::End;
        }
        if aim < self.several {
            return Step::Pass;
        }
        Step::Read
    }
}

/// What a search does at a small set.
fn filtered(filter: &[u64; WORDS], number: u32) -> Step
    ensures { result ≡ steps.Read ⊎ ((result ≡ steps.Pass) × (HasBit filter.now number → ⊥)) }
{
    if has_bit(filter, number) {
        Step::Read
    } else {
        Step::Pass
    }
}

/// What is searched for.
pub fn aims_of(memberships: &Memberships, asked: &Asked) -> Aims
    requires { AreFilters memberships.now.lists.items memberships.now.filters.items }
    ensures { AreAims memberships.now asked.now result }
{
    let class = class_key(asked.class);
    Aims {
        alone: aim(class, type_key(asked.target)),
        several: aim(class, SEVERAL),
        small: small_sets(memberships.first_large),
        last: aim(class, last_key(asked)),
        filter: memberships.filter(asked.target),
    }
}

/// What stands for the last target that is searched for.
fn last_key(asked: &Asked) -> u32
    ensures low { beyond ≤ result }
    ensures high { result ≤ itself }
    ensures own { asked.now.source ≡ asked.now.target → result ≡ itself }
{
    if asked.source == asked.target {
        ITSELF
    } else {
        BEYOND
    }
}
