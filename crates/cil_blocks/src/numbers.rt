//! Numbers of which many in front are 0.

ghost use Rattle.std.specs.Prelude.{◌≡◌};

use cil_base::{NoMemory, short};
use std::alloc::Global;
use std::marker::Model;

/// A list of numbers, in four bytes each. Those in front that are 0 take no memory. Contracts see the list.
#[derive(Debug, Drop)]
pub struct Numbers {
    zeros: usize,
    others: Vec<u32>,
}

impl Model for Numbers {
    ghost use Rattle.std.specs.Prelude.{List, ℕ};
    ghost use Rattle.cil_blocks.specs.Numbers.{behind_zeros};

    ghost Value = { List ℕ };

    ghost view = { λ a. behind_zeros a.zeros a.others.items };
}

impl Numbers {
    ghost use Rattle.std.specs.Prelude.{◌≡◌, ◌++◌, ◌∷◌, [], OnErr, OnOk, slice_get};

    /// No numbers.
    pub fn new(alloc: Global) -> Numbers
        ensures { result ≡ [] }
    {
        Numbers {
            zeros: 0,
            others: Vec::new(alloc),
        }
    }

    /// The number at a place.
    pub fn get(&self, place: usize) -> Option<usize>
        ensures { result ≡ slice_get self.now place }
    {
        match place.checked_sub(self.zeros) {
            None => Some(0),
            Some(rest) => match self.others.get(rest) {
                None => None,
                Some(number) => Some(*number as usize),
            },
        }
    }

    /// Puts a number behind the others. Error: out of memory, also for a number from 4,294,967,296 on.
    pub fn push(&mut self, number: usize) -> Result<(), NoMemory>
        ensures pushed { OnOk result (self.new ≡ self.old ++ number ∷ []) }
        ensures same { OnErr result (self.new ≡ self.old) }
    {
        if number == 0 && self.others.is_empty() && self.zeros < usize::MAX {
            self.zeros += 1;
            return Ok(());
        }
        let number = short(number)?;
        self.others.push(number)?;
        Ok(())
    }
}
