//! Which booleans are on.

ghost use Rattle.std.specs.Prelude.{◌≡◌, ◌↔◌, ◌<◌, ◌≤◌, ℕ, IsTrue, length, true};
ghost use Rattle.cil_conditions.specs.Bits.{IsOn, IsSetTo, is_on};

use std::marker::Model;

/// How many booleans a policy may have.
pub const MOST_BOOLEANS: u32 = 4096;

/// For each boolean whether it is on. Contracts see the words of its bits.
#[derive(Debug, Drop)]
pub struct Settings {
    words: [u64; 64],
}

impl Model for Settings {
    ghost use Rattle.std.specs.Prelude.{List, ℕ};

    ghost Value = { List ℕ };

    ghost view = { λ a. a.words };
}

impl Settings {
    /// All booleans are off.
    pub fn all_off() -> Settings
        ensures { (n : ℕ) → IsOn result n → ⊥ }
    {
        Settings { words: [0; 64] }
    }

    /// The boolean of each number is on where the value at that place is true, and all others are off. There are at most 4,096 values.
    pub fn of(values: &[bool]) -> Settings
        requires { length values.now ≤ 4096 }
        ensures { IsSetTo values.now (length values.now) result }
    {
        let mut settings = Settings::all_off();
        for place in 0..values.len() {
            settings.set(place as u32, values[place]);
        }
        settings
    }

    /// Whether the boolean of a number is on; none of 4,096 or more is.
    pub fn get(&self, number: u32) -> bool
        ensures { IsTrue result ↔ IsOn self.now number }
    {
        match self.words.get(number as usize / 64) {
            Some(word) => word & (1 << (number % 64)) != 0,
            None => false,
        }
    }

    /// Turns the boolean of a number below 4,096 on or off.
    pub fn set(&mut self, number: u32, value: bool)
        requires { number < 4096 }
        ensures same { IsOn self.new number ↔ (value ≡ true) }
        ensures others { (n : ℕ) → (n ≡ number → ⊥) → IsOn self.new n ↔ IsOn self.old n }
    {
        let place = number as usize / 64;
        let bit = 1 << (number % 64);
        let word = self.words[place];
        self.words[place] = if value { word | bit } else { word & !bit };
    }

    /// The same as `get`, as conditions ask it.
    pub(crate) fn is_on(&self, number: u32) -> bool
        ensures { result ≡ is_on self.now number }
    {
        self.get(number)
    }
}
