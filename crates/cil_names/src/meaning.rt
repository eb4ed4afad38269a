//! What a word means.

use cil_base::NoMemory;
use std::marker::Model;

/// How many entries can be told apart.
const MOST: usize = 4_294_967_295;

/// What a word means: the number of an entry, or nothing. Contracts see it as an option.
#[derive(Debug, Drop)]
pub struct Meaning {
    /// The number of the entry, plus 1; 0 where the word means nothing.
    next: u32,
}

// Policies have millions of words.
const _: () = prove!(size_of::<Meaning>() <= 4);

impl Model for Meaning {
    ghost use Rattle.std.specs.Prelude.{Option, ℕ};
    ghost use Rattle.cil_names.specs.Meanings.{before};

    ghost Value = { Option ℕ };

    ghost view = { λ a. before a.next };
}

impl Meaning {
    ghost use Rattle.std.specs.Prelude.{◌≡◌, IfOk, Some};

    /// The number of the entry that the word names, if it names one.
    pub fn entry(&self) -> Option<usize>
        ensures { result ≡ self.now }
    {
        if self.next == 0 {
            None
        } else {
            Some(self.next as usize - 1)
        }
    }

    /// The entry of this number, or nothing. A table has room for the numbers below 4,294,967,295; beyond them it is out of
    /// memory.
    pub fn of(entry: Option<usize>) -> Result<Meaning, NoMemory>
        ensures { IfOk result (λ meaning. meaning ≡ entry) }
    {
        match entry {
            None => Ok(Meaning { next: 0 }),
            Some(d) => Self::next(d),
        }
    }

    /// The entry of this number.
    fn next(d: usize) -> Result<Meaning, NoMemory>
        ensures { IfOk result (λ meaning. meaning ≡ Some d) }
    {
        if d >= MOST {
            return Err(NoMemory);
        }
        Ok(Meaning { next: d as u32 + 1 })
    }
}
