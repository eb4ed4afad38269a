//! Masks of permissions at the front of bytes.

ghost use Rattle.std.specs.Prelude.{◌≡◌, ◌^◌, get_or, nat_lt};
ghost use Rattle.cil_format.specs.Fields as fields;
ghost use Rattle.cil_format.specs.Takes.{Takes};

use crate::fault::{TableError, TableFault};
use crate::fields::u32_at;

/// How many permissions a class has.
fn width_of(widths: &[usize], class: usize) -> usize
    ensures { result ≡ get_or widths.now class 0 }
{
    match widths.get(class) {
        Some(width) => *width,
        None => 0,
    }
}

/// Whether a mask has no bit past so many permissions.
fn is_within(mask: u32, width: usize) -> bool
    ensures { result ≡ nat_lt mask (2 ^ width) }
{
    if width < 32 {
        return (mask as u64) < (1u64 << width);
    }
    true
}

/// Permissions of a class, where each class has so many: bit i is the i-th of the class.
pub fn mask_at<'a>(
    bytes: &'a [u8],
    widths: &[usize],
    class: usize,
) -> Result<(u32, &'a [u8]), TableError>
    ensures { Takes (λ x. (x.0, x.1.now)) result ((fields.mask widths.now class).read bytes.now) }
{
    let (mask, rest) = u32_at(bytes)?;
    if is_within(mask, width_of(widths, class)) {
        return Ok((mask, rest));
    }
    Err(TableError::Fault(TableFault::OutOfRange))
}
