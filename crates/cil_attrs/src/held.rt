//! What each declared name holds.

ghost use Rattle.std.specs.Prelude.{◌≡◌};
ghost use Rattle.cil_attrs.specs.Evaluated.{is_held};

use crate::evaluator::Held;
use std::marker::Model;

/// What each declared name holds, where all sets are made: an item its number, an alias or an attribute its members.
#[derive(Drop)]
pub struct Members {
    held: Vec<Held>,
}

impl Model for Members {
    ghost use Rattle.std.specs.Prelude.{List};
    ghost use Rattle.cil_attrs.specs.declared.evaluator.Held.{Held as AHeld};

    ghost Value = { List AHeld };

    ghost view = { λ a. a.held.items };
}

impl Members {
    ghost use Rattle.std.specs.Prelude.{◌≡◌};
    ghost use Rattle.cil_attrs.specs.Made.{held_at};

    /// These, by the numbers of entries.
    pub fn of(held: Vec<Held>) -> Members
        ensures { result ≡ held.items }
    {
        Members { held }
    }

    /// What each declared name holds, by the number of its entry.
    pub fn held(&self) -> &[Held]
        ensures { result.now ≡ self.now }
    {
        self.held.as_slice()
    }

    /// Whether a declared name holds an item, both by their numbers: the attribute has it, or the alias or the name is it. It costs
    /// a search by halving, and no memory.
    pub fn has(&self, entry: usize, item: usize) -> bool
        ensures { result ≡ held_at self.now entry item }
    {
        match self.held.get(entry) {
            Some(held) => holds(held, item),
            None => false,
        }
    }
}

fn holds(held: &Held, item: usize) -> bool
    ensures { result ≡ is_held item held.now }
{
    match held {
        Held::Nothing => false,
        Held::Item(number) => *number == item,
        Held::Set(members) => members.contains(item),
    }
}
