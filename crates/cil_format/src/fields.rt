//! Numbers and texts at the front of bytes. Each function answers what stands there and the bytes behind it, or the first fault.

ghost use Rattle.std.specs.Prelude.{◌≡◌, ◌^◌};
ghost use Rattle.std.specs.Int.{w8, w16, w32};
ghost use Rattle.cil_format.specs.Fields as fields;
ghost use Rattle.cil_format.specs.Format.{number, run};
ghost use Rattle.cil_format.specs.Takes.{Takes};

use crate::fault::{TableError, TableFault};

/// A byte.
pub fn u8_at(bytes: &[u8]) -> Result<(u8, &[u8]), TableError>
    ensures { Takes (λ x. (x.0, x.1.now)) result ((number w8 (2 ^ 8)).read bytes.now) }
{
    if bytes.len() < 1 {
        return Err(TableError::Fault(TableFault::Short));
    }
    let (front, rest) = bytes.split_at(1);
    Ok((front[0], rest))
}

/// A number of two bytes, the higher one first.
pub fn u16_at(bytes: &[u8]) -> Result<(u16, &[u8]), TableError>
    ensures { Takes (λ x. (x.0, x.1.now)) result ((number w16 (2 ^ 16)).read bytes.now) }
{
    if bytes.len() < 2 {
        return Err(TableError::Fault(TableFault::Short));
    }
    let (front, rest) = bytes.split_at(2);
    Ok((u16::from_be_bytes([front[0], front[1]]), rest))
}

/// A number of four bytes, the highest one first.
pub fn u32_at(bytes: &[u8]) -> Result<(u32, &[u8]), TableError>
    ensures { Takes (λ x. (x.0, x.1.now)) result ((number w32 (2 ^ 32)).read bytes.now) }
{
    if bytes.len() < 4 {
        return Err(TableError::Fault(TableFault::Short));
    }
    let (front, rest) = bytes.split_at(4);
    let number = u32::from_be_bytes([front[0], front[1], front[2], front[3]]);
    Ok((number, rest))
}

/// So many bytes.
pub fn run_at(bytes: &[u8], count: usize) -> Result<(&[u8], &[u8]), TableError>
    ensures { Takes (λ x. (x.0.now, x.1.now)) result ((run count).read bytes.now) }
{
    if bytes.len() < count {
        return Err(TableError::Fault(TableFault::Short));
    }
    Ok(bytes.split_at(count))
}

/// A byte below a limit.
pub fn byte_below(bytes: &[u8], limit: u8) -> Result<(u8, &[u8]), TableError>
    ensures { Takes (λ x. (x.0, x.1.now)) result ((fields.byte_below limit).read bytes.now) }
{
    let (number, rest) = u8_at(bytes)?;
    if number < limit {
        return Ok((number, rest));
    }
    Err(TableError::Fault(TableFault::OutOfRange))
}

/// What stands behind this byte; another byte is this fault.
pub fn this_byte(bytes: &[u8], byte: u8, fault: TableFault) -> Result<&[u8], TableError>
    ensures { Takes (λ x. (byte, x.now)) result ((fields.this_byte fault byte).read bytes.now) }
{
    let (found, rest) = u8_at(bytes)?;
    if found == byte {
        return Ok(rest);
    }
    Err(TableError::Fault(fault))
}

/// A number of two bytes that is below a limit.
pub fn small_at(bytes: &[u8], limit: usize) -> Result<(u16, &[u8]), TableError>
    ensures { Takes (λ x. (x.0, x.1.now)) result ((fields.small limit).read bytes.now) }
{
    let (number, rest) = u16_at(bytes)?;
    if (number as usize) < limit {
        return Ok((number, rest));
    }
    Err(TableError::Fault(TableFault::OutOfRange))
}

/// A text: how many bytes it has, and these.
pub fn text_at(bytes: &[u8]) -> Result<(&[u8], &[u8]), TableError>
    ensures { Takes (λ x. (x.0.now, x.1.now)) result (fields.text.read bytes.now) }
{
    let (length, rest) = u32_at(bytes)?;
    run_at(rest, length as usize)
}
