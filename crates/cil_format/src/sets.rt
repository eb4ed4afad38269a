//! Sets of numbers at the front of bytes.

ghost use Rattle.std.specs.Prelude.{◌≡◌};
ghost use Rattle.cil_format.specs.Fields.{rises, set, small};
ghost use Rattle.cil_format.specs.Format.{many};
ghost use Rattle.cil_format.specs.Takes.{Takes};

use crate::fault::{TableError, TableFault};
use crate::fields::{small_at, u16_at};
use std::alloc::Global;

/// So many numbers below a limit.
fn numbers_at(
    alloc: Global,
    bytes: &[u8],
    count: usize,
    limit: usize,
) -> Result<(Vec<u16>, &[u8]), TableError>
    ensures { Takes (λ x. (x.0.items, x.1.now)) result ((many (small limit) count).read bytes.now) }
{
    // No more room than the bytes that are there can fill.
    let mut numbers = Vec::with_capacity(alloc, count.min(bytes.len() / 2))?;
    let mut rest = bytes;
    for _ in 0..count {
        let (number, after) = small_at(rest, limit)?;
        numbers.push(number)?;
        rest = after;
    }
    Ok((numbers, rest))
}

/// Whether each number is above the one before it.
fn are_rising(numbers: &[u16]) -> bool
    ensures { result ≡ rises numbers.now }
{
    for at in 1..numbers.len() {
        if numbers[at - 1] >= numbers[at] {
            return false;
        }
    }
    true
}

/// A set of numbers below a limit, rising.
pub fn rising_at(alloc: Global, bytes: &[u8], limit: usize) -> Result<(Vec<u16>, &[u8]), TableError>
    ensures { Takes (λ x. (x.0.items, x.1.now)) result ((set limit).read bytes.now) }
{
    let (count, rest) = u16_at(bytes)?;
    if (count as usize) > limit {
        return Err(TableError::Fault(TableFault::OutOfRange));
    }
    let (numbers, rest) = numbers_at(alloc, rest, count as usize, limit)?;
    if are_rising(numbers.as_slice()) {
        return Ok((numbers, rest));
    }
    Err(TableError::Fault(TableFault::NotCanonical))
}
