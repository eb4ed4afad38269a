//! Sets of numbers, read and written.

ghost use Rattle.std.specs.Prelude.{◌≡◌, ◌<◌, ◌^◌, ◌++◌, IfOk, IsTrue, OnOk, length, true};
ghost use Rattle.cil_format.specs.Fields.{rises, set};
ghost use Rattle.cil_format.specs.Takes.{Takes};

use crate::fault::TableError;
use crate::sets::rising_at;
use cil_base::NoMemory;
use cil_sets::Numbers;
use std::alloc::Global;

/// The set of these rising numbers. Errors: out of memory.
fn numbers_of(alloc: Global, rising: &[u16]) -> Result<Numbers, NoMemory>
    requires { rises rising.now ≡ true }
    ensures { IfOk result (λ numbers. numbers ≡ rising.now) }
{
    let mut numbers = Numbers::new(alloc);
    for number in rising {
        numbers.add(*number as usize)?;
    }
    Ok(numbers)
}

/// A set of numbers below a limit. Errors: the first fault, or out of memory.
pub fn set_at(alloc: Global, bytes: &[u8], limit: usize) -> Result<(Numbers, &[u8]), TableError>
    ensures { Takes (λ x. (x.0, x.1.now)) result ((set limit).read bytes.now) }
{
    let (rising, rest) = rising_at(alloc, bytes, limit)?;
    Ok((numbers_of(alloc, &rising)?, rest))
}
