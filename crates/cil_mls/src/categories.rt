//! Sets of categories.

ghost use Rattle.std.specs.Prelude.{not, ◌≡◌, ◌↔◌, ◌<◌, ◌≤◌, ℕ, IsTrue, true, false, ◌||◌, ◌&&◌, ltb};
ghost use Rattle.std.specs.Cmp.Rules.{hashing};
ghost use Rattle.std.proofs.Common.{rules};
ghost use Rattle.cil_mls.specs.Bits.{differ, in_words, is_between};
ghost use Rattle.cil_mls.specs.Hashed.{hashed};

use crate::words::{bit_in, bits_between, covers, hash_word};
use std::hash::{Hash, Hasher};

/// How many categories a policy may have.
pub const MOST_CATEGORIES: usize = 1024;

/// A set of categories, each by its place in the one order of all: a number below 1,024. Bit `c % 64` of the word `c / 64` says
/// whether `c` is in it. No operation takes memory, and each costs a step for each of the 16 words at most.
#[derive(Clone, Copy, Debug, PartialEq, Eq)]
pub struct Categories {
    /// The words, those of the lowest categories first.
    pub words: [u64; 16],
}

impl Categories {
    /// No category.
    pub fn none() -> Categories
        ensures { (c : ℕ) → in_words result.words c ≡ false }
    {
        Categories { words: [0; 16] }
    }

    /// The categories below `count`, which is 1,024 at most. CIL Reference Guide, "Expressions": `all`.
    pub fn first(count: usize) -> Categories
        requires { count ≤ 1024 }
        ensures { (c : ℕ) → c < 1024 → in_words result.words c ≡ ltb c count }
    {
        let mut all = Categories::none();
        if count > 0 {
            all.add_between(0, count - 1);
        }
        all
    }

    /// Whether a category, a number below 1,024, is in the set.
    pub fn has(&self, category: usize) -> bool
        requires { category < 1024 }
        ensures { result ≡ in_words self.now.words category }
    {
        (self.words[category / 64] >> (category % 64)) & 1 == 1
    }

    /// Whether all categories of the other set are in this one.
    pub fn include(&self, other: &Categories) -> bool
        ensures { IsTrue result ↔ ((c : ℕ) → c < 1024 → in_words other.now.words c ≡ true → in_words self.now.words c ≡ true) }
    {
        for at in 0..16 {
            if !covers(self.words[at], other.words[at]) {
                return false;
            }
        }
        true
    }

    /// Adds the categories from `first` to `last`, a number below 1,024; none if `last` is before `first`. CIL Reference Guide,
    /// "Expressions": `range`.
    pub fn add_between(&mut self, first: usize, last: usize)
        requires { last < 1024 }
        ensures { (c : ℕ) → c < 1024 → in_words self.new.words c ≡ (in_words self.old.words c || is_between first last c) }
    {
        for at in 0..16 {
            let word = bits_between(bit_in(first, at), bit_in(last + 1, at));
            self.words[at] = self.words[at] | word;
        }
    }

    /// What one of both sets has: `or`.
    pub fn union(&self, other: &Categories) -> Categories
        ensures { (c : ℕ) → c < 1024 → in_words result.words c ≡ (in_words self.now.words c || in_words other.now.words c) }
    {
        let mut words = [0; 16];
        for at in 0..16 {
            words[at] = self.words[at] | other.words[at];
        }
        Categories { words }
    }

    /// What both sets have: `and`.
    pub fn common(&self, other: &Categories) -> Categories
        ensures { (c : ℕ) → c < 1024 → in_words result.words c ≡ (in_words self.now.words c && in_words other.now.words c) }
    {
        let mut words = [0; 16];
        for at in 0..16 {
            words[at] = self.words[at] & other.words[at];
        }
        Categories { words }
    }

    /// What just one of both sets has: `xor`.
    pub fn apart(&self, other: &Categories) -> Categories
        ensures { (c : ℕ) → c < 1024 → in_words result.words c ≡ differ (in_words self.now.words c) (in_words other.now.words c) }
    {
        let mut words = [0; 16];
        for at in 0..16 {
            words[at] = self.words[at] ^ other.words[at];
        }
        Categories { words }
    }

    /// The categories below `count`, which is 1,024 at most, that are not in the set: `not`.
    pub fn others(&self, count: usize) -> Categories
        requires { count ≤ 1024 }
        ensures { (c : ℕ) → c < 1024 → in_words result.words c ≡ (ltb c count && not (in_words self.now.words c)) }
    {
        let all = Categories::first(count);
        all.apart(&self.common(&all))
    }
}

impl Hash for Categories {
    ghost hash_input = { λ set. hashed 0 set.words };

    ghost respects_eq = { Prim.search (hashing, rules) };

    /// Writes the place and the bits of each word that is not 0, and then an end. So sets that differ write different things, and
    /// most sets write little.
    fn hash<H: Hasher>(&self, state: &mut H) {
        for at in 0..16 {
            hash_word(state, at, self.words[at]);
        }
        state.write_u8(16);
    }
}
