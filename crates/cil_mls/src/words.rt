//! Words of 64 bits, as parts of a set of categories.

ghost use Rattle.std.specs.Prelude.{◌*◌, ◌+◌, ◌≡◌, ◌↔◌, ◌<◌, ◌≤◌, IsTrue, fold, ℕ};
ghost use Rattle.std.specs.Int.{bit_at};
ghost use Rattle.cil_mls.specs.Hashed.{hashed_word};

use std::hash::Hasher;

/// Whether a word has all bits of another.
pub fn covers(word: u64, other: u64) -> bool
    ensures { IsTrue result ↔ ((k : ℕ) → k < 64 → bit_at other k ≡ 1 → bit_at word k ≡ 1) }
{
    word | other == word
}

/// Where a number is among the 64 numbers of the word at a place: 0 if it is before them, and 64 if it is behind.
pub fn bit_in(number: usize, at: usize) -> u32
    requires { at < 16 }
    ensures bound { result ≤ 64 }
    ensures less { (k : ℕ) → k < 64 → (number ≤ at * 64 + k) ↔ (result ≤ k) }
{
    number.saturating_sub(at * 64).min(64) as u32
}

/// The word with the bits from the first one to the one before the end.
pub fn bits_between(first: u32, end: u32) -> u64
    requires { end ≤ 64 }
    ensures { (k : ℕ) → k < 64 → (bit_at result k ≡ 1) ↔ ((first ≤ k) × (k < end)) }
{
    if first >= end {
        return 0;
    }
    (u64::MAX << first) & (u64::MAX >> (64 - end))
}

/// Writes the place and the bits of a word to a hasher, and nothing of a word that is 0.
pub fn hash_word<H: Hasher>(state: &mut H, at: usize, word: u64)
    requires { at < 16 }
    ensures { state.new ≡ fold H.write state.old (hashed_word at word) }
{
    if word == 0 {
        return;
    }
    state.write_u8(at as u8);
    state.write_u64(word);
}
