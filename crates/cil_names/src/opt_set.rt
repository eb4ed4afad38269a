//! Sets of optionals, by their numbers.

ghost use Rattle.std.specs.Prelude.{◌≡◌};
ghost use Rattle.std.specs.List.{list_all};
ghost use Rattle.cil_macros.specs.Item.{is_enabled};
ghost use Rattle.cil_macros.specs.Items.{item_at};
ghost use Rattle.cil_names.specs.Entries.{is_in};

use cil_macros::Instances;
use std::marker::Model;

/// A set of optionals: a flag for each number, and a number without one is not in it. Contracts see it as these flags.
#[derive(Debug, Drop)]
pub struct OptSet {
    flags: Vec<bool>,
}

impl Model for OptSet {
    ghost use Rattle.std.specs.Prelude.{List, Bool};

    ghost Value = { List Bool };

    ghost view = { λ a. a.flags.items };
}

impl OptSet {
    /// The set of the optionals whose flags are true.
    pub fn of(flags: Vec<bool>) -> OptSet
        ensures { result ≡ flags.items }
    {
        OptSet { flags }
    }

    /// The flags.
    pub fn as_slice(&self) -> &[bool]
        ensures { result.now ≡ self.now }
    {
        self.flags.as_slice()
    }

    /// Whether an optional is in the set.
    pub fn has(&self, optional: usize) -> bool
        ensures { result ≡ is_in self.now optional }
    {
        is_set(self.flags.as_slice(), optional)
    }

    /// Whether all optionals round the statement at a place are in the set. It costs a step for each of them.
    pub fn has_round(&self, instances: &Instances, at: usize) -> bool
        ensures { result ≡ is_enabled (is_in self.now) (item_at instances.now at) }
    {
        let mut place = at;
        while let Some(optional) = instances.innermost(place) {
            if !self.has(optional) {
                return false;
            }
            place = optional;
        }
        true
    }
}

/// Whether the flag of an optional is true; a number without a flag has none.
pub fn is_set(flags: &[bool], optional: usize) -> bool
    ensures { result ≡ is_in flags.now optional }
{
    match flags.get(optional) {
        Some(flag) => *flag,
        None => false,
    }
}

/// Whether the flags of all of these optionals are true.
pub fn are_set(flags: &[bool], round: &[usize]) -> bool
    ensures { result ≡ list_all (is_in flags.now) round.now }
{
    round.iter().all(|optional| is_set(flags, *optional))
}
