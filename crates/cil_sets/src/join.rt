//! Two sets joined block by block, in one walk over both.

ghost use Rattle.std.specs.Prelude.{◌≡◌, ◌<◌, ◌≤◌, ◌⊎◌, ◌+◌, ◌++◌, ◌^◌, ℕ, List, [], ◌∷◌, IfOk, MatchOption, OnOk, IsTrue, ◌↔◌, length};
ghost use Rattle.cil_sets.specs.Joined.{word_by};
ghost use Rattle.cil_sets.specs.Kept.{AreFrom, AreParts, word_of};
ghost use Rattle.cil_sets.specs.Walk.{Begins, IsNext, part_with};

use crate::part::{Joining, Part};
use cil_base::NoMemory;
use std::alloc::Global;

/// The parts of the joined set.
pub fn join(
    alloc: Global,
    how: Joining,
    first: &[Part],
    second: &[Part],
) -> Result<Vec<Part>, NoMemory>
    requires first { AreParts first.now }
    requires second { AreParts second.now }
    ensures parts { IfOk result (λ v. AreParts v.items) }
    ensures words { IfOk result (λ v. (b : ℕ) → word_of v.items b ≡ word_by how (word_of first.now b) (word_of second.now b)) }
{
    let mut joined = Vec::new(alloc);
    let mut left = first;
    let mut right = second;
    while let Some(block) = next_block(left, right) {
        let word = how.word(word_there(left, block), word_there(right, block));
        put(&mut joined, block, word)?;
        left = behind(left, block);
        right = behind(right, block);
    }
    Ok(joined)
}

/// The lowest block of which there is a part in one of two lists.
pub fn next_block(left: &[Part], right: &[Part]) -> Option<usize>
    requires left { (low : ℕ) × AreFrom low left.now }
    requires right { (low : ℕ) × AreFrom low right.now }
    ensures { MatchOption result ((left.now ≡ []) × (right.now ≡ [])) (IsNext left.now right.now) }
{
    let Some(one) = first_block(left) else {
        return first_block(right);
    };
    let Some(other) = first_block(right) else {
        return Some(one);
    };
    if one <= other {
        return Some(one);
    }
    Some(other)
}

/// The block of the first part.
fn first_block(parts: &[Part]) -> Option<usize>
    ensures { MatchOption result (parts.now ≡ []) (Begins parts.now) }
{
    match parts.first() {
        Some(part) => Some(part.block),
        None => None,
    }
}

/// The word of a block before which no part is left.
pub fn word_there(parts: &[Part], block: usize) -> u64
    requires { AreFrom block parts.now }
    ensures { result ≡ word_of parts.now block }
{
    if !begins(parts, block) {
        return 0;
    }
    parts[0].word
}

/// The parts behind a block before which no part is left.
pub fn behind(parts: &[Part], block: usize) -> &[Part]
    requires { AreFrom block parts.now }
    ensures parts { AreFrom (block + 1) result.now }
    ensures words { (b : ℕ) → block < b → word_of result.now b ≡ word_of parts.now b }
    ensures fewer { length result.now ≤ length parts.now }
    ensures one_fewer { Begins parts.now block → length result.now < length parts.now }
{
    if !begins(parts, block) {
        return parts;
    }
    &parts[1..]
}

/// Whether the first part is of a block.
pub fn begins(parts: &[Part], block: usize) -> bool
    ensures { IsTrue result ↔ Begins parts.now block }
{
    match parts.first() {
        Some(part) => part.block == block,
        None => false,
    }
}

/// Puts the word of a block behind those of lower blocks, if it is not 0.
pub fn put(parts: &mut Vec<Part>, block: usize, word: u64) -> Result<(), NoMemory>
    ensures { OnOk result (parts.new.items ≡ parts.old.items ++ part_with block word) }
{
    if word != 0 {
        parts.push(Part { block, word })?;
    }
    Ok(())
}
