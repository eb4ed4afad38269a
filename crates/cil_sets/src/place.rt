//! Places of blocks among the parts of a set: found by halving.

ghost use Rattle.std.specs.Prelude.{◌≡◌, ◌<◌, ◌≤◌, ◌++◌, ◌∷◌, OnErr, OnOk, bit_or, length, ℕ, ◌^◌};
ghost use Rattle.std.specs.List.Sorted.{IsPartitionPoint};
ghost use Rattle.cil_sets.specs.Kept.{AreFrom, AreParts, word_of};
ghost use Rattle.cil_sets.specs.Walk.{IsRaised};

use crate::join::begins;
use crate::part::Part;
use cil_base::NoMemory;

/// The place of the first part of a block or a later one.
fn place_of(parts: &[Part], block: usize) -> usize
    requires { AreParts parts.now }
    ensures bound { result ≤ length parts.now }
    ensures parts { IsPartitionPoint (λ p. p.block < block) (λ p. block ≤ p.block) parts.now result }
{
    parts.partition_point(|part| part.block < block)
}

/// The parts of a block and of later ones.
pub fn from_block(parts: &[Part], block: usize) -> &[Part]
    requires { AreParts parts.now }
    ensures parts { AreFrom block result.now }
    ensures words { (b : ℕ) → block ≤ b → word_of result.now b ≡ word_of parts.now b }
{
    &parts[place_of(parts, block)..]
}

/// Adds numbers to those of a block. It costs a search by halving, and a move of the later parts if there is none of the block.
/// Errors: out of memory, and then nothing has changed.
pub fn raise(parts: &mut Vec<Part>, block: usize, word: u64) -> Result<(), NoMemory>
    requires parts { AreParts parts.old.items }
    requires block { block < 2 ^ 26 }
    requires some { 0 < word }
    ensures raised { OnOk result (IsRaised parts.old.items block word parts.new.items) }
    ensures err { OnErr result (parts.new.items ≡ parts.old.items) }
{
    let place = place_of(parts.as_slice(), block);
    if begins(&parts[place..], block) {
        parts[place].word |= word;
        return Ok(());
    }
    parts.insert(place, Part { block, word })?;
    Ok(())
}
