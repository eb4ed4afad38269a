//! Sets of categories at the front of bytes.

ghost use Rattle.std.specs.Prelude.{◌≡◌, ℕ, ◌<◌, ◌||◌, ◌==◌};
ghost use Rattle.cil_mls.specs.Bits.{AreWords, in_words};
ghost use Rattle.cil_format.specs.Takes.{Takes};
ghost use Rattle.cil_label_bytes.specs.Sets as sets;

use cil_format::{TableError, rising_at};
use cil_mls::Categories;
use std::alloc::Global;

/// A set of categories, of which there are so many, and the bytes behind it. Errors: the first fault, or out of memory.
pub fn categories_below(
    alloc: Global,
    bytes: &[u8],
    count: usize,
) -> Result<(Categories, &[u8]), TableError>
    ensures { Takes (λ x. (x.0, x.1.now)) result ((sets.categories_below count).read bytes.now) }
{
    let (numbers, rest) = rising_at(alloc, bytes, count)?;
    Ok((words_of(&numbers), rest))
}

/// The set of some categories. Numbers from 1,024 on are left out.
fn words_of(numbers: &[u16]) -> Categories
    ensures { result ≡ sets.words_of numbers.now }
{
    let mut set = Categories::none();
    for number in numbers {
        put_in(&mut set, *number as usize);
    }
    // What is known of the set: it is 16 words.
    are_words(set);
    set
}

/// Adds a category to a set, if it is below 1,024.
fn put_in(set: &mut Categories, number: usize)
    ensures { (c : ℕ) → c < 1024 → in_words set.new.words c ≡ (in_words set.old.words c || (number == c)) }
{
    if number < 1024 {
        set.add_between(number, number);
    }
}

/// What is known of each set of categories: it is 16 words, of which each fits into 64 bits.
fn are_words(categories: Categories)
    ensures { AreWords categories.words }
{}
