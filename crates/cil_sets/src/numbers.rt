//! Sets of numbers, and what they answer.

ghost use Rattle.std.specs.Prelude.{◌≡◌, ◌⊎◌, ◌↔◌, ◌<◌, ◌≤◌, [], ◌∷◌, Contains, IfOk, IsTrue, MatchOption, OnErr, OnOk, length, refl, ℕ};
ghost use Rattle.std.specs.Cmp.{eq_by_cmp_equiv, partial_equiv_from_equiv, partial_order_from_total};
ghost use Rattle.std.specs.Ordering.{as_partial_cmp, eq_by_cmp};
ghost use Rattle.std.specs.Ordering.{nat_cmp};
ghost use Rattle.cil_base.specs.Lists.{Lists};
ghost use Rattle.cil_sets.specs.Joined.{IsJoined};
ghost use Rattle.cil_sets.specs.Answers.{IsLeastCommon, IsNextFrom, set_cmp, set_total};

use crate::common::lowest_common;
use crate::difference::first_difference;
use crate::join::{behind, join, word_there};
use crate::part::{Joining, Part};
use crate::place::{from_block, raise};
use crate::walk::{first_member, full, push_members};
use cil_base::NoMemory;
use std::alloc::Global;
use std::cmp::Ordering;
use std::marker::Model;

/// The numbers of a set are below this one; a larger one is answered as out of memory.
const MOST: usize = 4_294_967_296;

/// A set of numbers below 2^32. Contracts see it as the rising list of its members. It takes 16 bytes for each block of 64 numbers
/// that it has some of, and nothing for the others: 16 KB at most where its numbers are below 65,536. Sets are equal if they have
/// the same members.
#[derive(Debug, Drop)]
pub struct Numbers {
    parts: Vec<Part>,
}

impl Model for Numbers {
    ghost use Rattle.std.specs.Prelude.{List, ℕ};
    ghost use Rattle.cil_sets.specs.Kept.{AreParts, members};

    ghost Value = { List ℕ };

    ghost view = { λ a. members a.parts.items };

    ghost invariant = { λ a. AreParts a.parts.items };
}

impl Numbers {
    /// The empty set.
    pub fn new(alloc: Global) -> Numbers
        ensures { result ≡ [] }
    {
        Numbers {
            parts: Vec::new(alloc),
        }
    }

    /// What two sets have together. Both stay as they are. It costs a step for each block of both. Errors: out of memory.
    pub fn joined(&self, alloc: Global, how: Joining, other: &Numbers) -> Result<Numbers, NoMemory>
        ensures { IfOk result (Lists nat_cmp (λ v. IsJoined how (Contains self.now v) (Contains other.now v))) }
    {
        let parts = join(alloc, how, self.parts.as_slice(), other.parts.as_slice())?;
        Ok(Numbers { parts })
    }

    /// The same set once more. It costs a step for each block. Errors: out of memory.
    pub fn try_clone(&self, alloc: Global) -> Result<Numbers, NoMemory>
        ensures { IfOk result (λ set. set ≡ self.now) }
    {
        let parts = Vec::from_slice(alloc, self.parts.as_slice())?;
        Ok(Numbers { parts })
    }

    /// Adds a number. It costs a search by halving, and a move of the words behind if its block had no member. Errors: out of
    /// memory, which is also the answer to a number of 2^32 or more. Then the set is unchanged.
    pub fn add(&mut self, number: usize) -> Result<(), NoMemory>
        ensures added { OnOk result (Lists nat_cmp (λ v. Contains self.old v ⊎ (v ≡ number)) self.new) }
        ensures err { OnErr result (self.new ≡ self.old) }
    {
        if number >= MOST {
            return Err(NoMemory);
        }
        raise(&mut self.parts, number / 64, 1u64 << (number % 64))?;
        Ok(())
    }

    /// Whether a number is a member; no number of 2^32 or more is. It costs a search by halving.
    pub fn contains(&self, number: usize) -> bool
        ensures { IsTrue result ↔ Contains self.now number }
    {
        let block = number / 64;
        let word = word_there(from_block(self.parts.as_slice(), block), block);
        (word >> (number % 64)) & 1 == 1
    }

    /// Whether it has no members.
    pub fn is_empty(&self) -> bool
        ensures { IsTrue result ↔ (self.now ≡ []) }
    {
        self.parts.is_empty()
    }

    /// All numbers below `end`. It costs a step for each block. Errors: out of memory, which is also the answer if `end` is 2^32 or
    /// more.
    pub fn below(alloc: Global, end: usize) -> Result<Numbers, NoMemory>
        ensures { IfOk result (Lists nat_cmp (λ v. v < end)) }
    {
        if end >= MOST {
            return Err(NoMemory);
        }
        let parts = full(alloc, end)?;
        Ok(Numbers { parts })
    }

    /// The least member from `start` on, itself among those that are asked; none if all are below. It costs a search by halving.
    pub fn next_from(&self, start: usize) -> Option<usize>
        ensures { MatchOption result ((v : ℕ) → Contains self.now v → start ≤ v → ⊥) (IsNextFrom self.now start) }
    {
        let block = start / 64;
        let rest = from_block(self.parts.as_slice(), block);
        let word = word_there(rest, block) & (u64::MAX << (start % 64));
        if word != 0 {
            return Some(block * 64 + word.trailing_zeros() as usize);
        }
        first_member(behind(rest, block))
    }

    /// The least member that another set has too; none if they have none in common. It costs a step for each block of both up to
    /// there.
    pub fn least_common(&self, other: &Numbers) -> Option<usize>
        ensures { MatchOption result ((v : ℕ) → Contains self.now v → Contains other.now v → ⊥) (IsLeastCommon self.now other.now) }
    {
        lowest_common(self.parts.as_slice(), other.parts.as_slice())
    }

    /// The members, in rising order. It costs a step for each number of its blocks. Errors: out of memory.
    pub fn to_vec(&self, alloc: Global) -> Result<Vec<usize>, NoMemory>
        ensures { IfOk result (λ v. v.items ≡ self.now) }
    {
        let mut all = Vec::new(alloc);
        for part in self.parts.as_slice() {
            push_members(&mut all, *part)?;
        }
        Ok(all)
    }

    /// How many members there are. It costs a step for each block.
    pub fn len(&self) -> usize
        ensures { result ≡ length self.now }
    {
        let mut count = 0;
        for part in self.parts.as_slice() {
            count += part.word.count_ones() as usize;
        }
        count
    }
}

impl PartialEq for Numbers {
    ghost eq = { eq_by_cmp set_cmp };

    ghost laws = { partial_equiv_from_equiv (eq_by_cmp_equiv set_total) };

    fn eq(&self, other: &Numbers) -> bool {
        self.cmp(other) == Ordering::Equal
    }
}

impl Eq for Numbers {
    ghost laws = { eq_by_cmp_equiv set_total };
}

impl PartialOrd for Numbers {
    ghost partial_cmp = { as_partial_cmp set_cmp };

    ghost laws = { partial_order_from_total set_total };

    fn partial_cmp(&self, other: &Numbers) -> Option<Ordering> {
        Some(self.cmp(other))
    }
}

impl Ord for Numbers {
    ghost cmp = { set_cmp };

    ghost total = { set_total };

    ghost matches_partial_cmp = { λ a b. refl };

    ghost matches_eq = { λ a b. refl };

    /// A set with fewer members comes first, and of two with as many the one with the least member that the other lacks. That is the
    /// byte order of what is written of a set: how many members, and then each. It costs a step for each block of both.
    fn cmp(&self, other: &Numbers) -> Ordering {
        let fewer = self.len().cmp(&other.len());
        fewer.then(first_difference(self.parts.as_slice(), other.parts.as_slice()))
    }
}
