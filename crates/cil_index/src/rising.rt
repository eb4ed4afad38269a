//! Rising numbers in four bytes each.

ghost use Rattle.std.specs.Prelude.{◌≡◌, ◌≤◌, ◌↔◌, ◌∷◌, ◌++◌, [], ℕ, Contains, IsTrue, OnOk};

use cil_base::NoMemory;
use std::alloc::Global;
use std::marker::Model;

/// Rising numbers. Contracts see them as their list.
#[derive(Debug, Drop)]
pub struct Rising {
    numbers: Vec<u32>,
}

impl Model for Rising {
    ghost use Rattle.std.specs.Prelude.{List, ℕ};
    ghost use Rattle.cil_index.specs.Rising.{AreRising};

    ghost Value = { List ℕ };

    ghost view = { λ a. a.numbers.items };

    ghost invariant = { λ a. AreRising a.numbers.items };
}

impl Rising {
    /// No numbers.
    pub fn new(alloc: Global) -> Rising
        ensures { result ≡ [] }
    {
        Rising {
            numbers: Vec::new(alloc),
        }
    }

    /// The numbers.
    pub fn as_slice(&self) -> &[u32]
        ensures { result.now ≡ self.now }
    {
        self.numbers.as_slice()
    }

    /// Adds a number that is not below those that are there. Errors: out of memory.
    pub fn push(&mut self, number: u32) -> Result<(), NoMemory>
        requires { (n : ℕ) → Contains self.now n → n ≤ number }
        ensures { OnOk result (self.new ≡ self.old ++ number ∷ []) }
    {
        self.numbers.push(number)?;
        Ok(())
    }

    /// Whether a number is there. It costs a search by halving.
    pub fn has(&self, number: u32) -> bool
        ensures { IsTrue result ↔ Contains self.now number }
    {
        let numbers = self.numbers.as_slice();
        match numbers.binary_search(&number) {
            Ok(_) => true,
            Err(_) => false,
        }
    }
}
