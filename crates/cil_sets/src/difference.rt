//! The least number that just one of two sets has.

ghost use Rattle.std.specs.Prelude.{◌≡◌, length};
ghost use Rattle.cil_base.specs.Lists.{text_cmp};
ghost use Rattle.cil_sets.specs.Kept.{AreParts, members};
ghost use Rattle.cil_sets.specs.Walk.{Decides};

use crate::join::{behind, next_block, word_there};
use crate::part::Part;
use std::cmp::Ordering;

/// Which of two sets with as many members comes first: the one that has the least number which the other lacks.
pub fn first_difference(first: &[Part], second: &[Part]) -> Ordering
    requires first { AreParts first.now }
    requires second { AreParts second.now }
    ensures { length (members first.now) ≡ length (members second.now) → result ≡ text_cmp (members first.now) (members second.now) }
{
    let mut left = first;
    let mut right = second;
    while let Some(block) = next_block(left, right) {
        let one = word_there(left, block);
        let other = word_there(right, block);
        if one != other {
            return which_first(one, other);
        }
        left = behind(left, block);
        right = behind(right, block);
    }
    Ordering::Equal
}

/// Which of two words has the lowest bit that the other lacks.
fn which_first(one: u64, other: u64) -> Ordering
    requires { one ≡ other → ⊥ }
    ensures { Decides one other result }
{
    let bit = (one ^ other).trailing_zeros();
    if (one >> bit) & 1 == 1 {
        return Ordering::Less;
    }
    Ordering::Greater
}
