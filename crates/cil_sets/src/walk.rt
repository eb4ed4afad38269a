//! What goes over the blocks of a set: its members in order, the first of them, and all numbers below one.

ghost use Rattle.std.specs.Prelude.{◌≡◌, ◌+◌, ◌*◌, ◌/◌, ◌^◌, ◌<◌, ◌≤◌, ◌++◌, [], Contains, IfOk, MatchOption, OnOk, ℕ};
ghost use Rattle.cil_sets.specs.Answers.{IsNextFrom};
ghost use Rattle.cil_sets.specs.Kept.{AreFrom, AreParts, members, members_in, numbers_from, word_of};
ghost use Rattle.cil_sets.specs.Walk.{full_word};

use crate::join::put;
use crate::part::Part;
use cil_base::NoMemory;
use std::alloc::Global;

/// The least member of what begins with some block.
pub fn first_member(parts: &[Part]) -> Option<usize>
    requires { (low : ℕ) × AreFrom low parts.now }
    ensures { MatchOption result (parts.now ≡ []) (IsNextFrom (members parts.now) 0) }
{
    match parts.first() {
        Some(part) => Some(part.block * 64 + part.word.trailing_zeros() as usize),
        None => None,
    }
}

/// Adds the members in one block.
pub fn push_members(all: &mut Vec<usize>, part: Part) -> Result<(), NoMemory>
    requires { part.block < 2 ^ 26 }
    ensures { OnOk result (all.new.items ≡ all.old.items ++ members_in part) }
{
    let base = part.block * 64;
    let mut word = part.word;
    for i in 0..64usize {
        if word % 2 == 1 {
            all.push(base + i)?;
        }
        word /= 2;
    }
    Ok(())
}

/// The parts of the set of all numbers below one.
pub fn full(alloc: Global, end: usize) -> Result<Vec<Part>, NoMemory>
    requires { end < 2 ^ 32 }
    ensures parts { IfOk result (λ v. AreParts v.items) }
    ensures words { IfOk result (λ v. (b : ℕ) → word_of v.items b ≡ full_word end b) }
{
    let mut parts = Vec::new(alloc);
    for block in 0..end / 64 + 1 {
        put(&mut parts, block, word_below(end, block))?;
    }
    Ok(parts)
}

/// The numbers of a block that are below a number.
fn word_below(end: usize, block: usize) -> u64
    ensures { result ≡ full_word end block }
{
    if block < end / 64 {
        return u64::MAX;
    }
    if block > end / 64 {
        return 0;
    }
    (1u64 << (end % 64)) - 1
}
