//! The bytes of numbers, texts and sets of numbers, put behind those that are there.

ghost use Rattle.std.specs.Prelude.{◌≡◌, ◌++◌, ℕ, OnOk};
ghost use Rattle.std.specs.Int.{w8, w16, w32, to_be_bytes};
ghost use Rattle.std.specs.List.{flat_map};
ghost use Rattle.cil_format.specs.Fields.{set, text};

use cil_base::NoMemory;
use cil_sets::Numbers;
use std::alloc::Global;

/// A number in one byte. Of a larger number the lowest byte, but no format has one here. Errors: out of memory.
pub fn put_byte(out: &mut Vec<u8>, number: usize) -> Result<(), NoMemory>
    ensures { OnOk result (out.new.items ≡ out.old.items ++ to_be_bytes w8 number) }
{
    let bytes = number.to_be_bytes();
    out.push(bytes[7])?;
    Ok(())
}

/// A number in two bytes, the higher one first. Of a larger number the lower two bytes, but no format has one here. Errors: out of
/// memory.
pub fn put_small(out: &mut Vec<u8>, number: usize) -> Result<(), NoMemory>
    ensures { OnOk result (out.new.items ≡ out.old.items ++ to_be_bytes w16 number) }
{
    let bytes = number.to_be_bytes();
    out.extend_from_slice(&[bytes[6], bytes[7]])?;
    Ok(())
}

/// A count in four bytes, the highest one first. Of a larger count the lower four bytes, but no format has one here. Errors: out of
/// memory.
pub fn put_count(out: &mut Vec<u8>, count: usize) -> Result<(), NoMemory>
    ensures { OnOk result (out.new.items ≡ out.old.items ++ to_be_bytes w32 count) }
{
    let bytes = count.to_be_bytes();
    out.extend_from_slice(&[bytes[4], bytes[5], bytes[6], bytes[7]])?;
    Ok(())
}

/// A text: how many bytes it has, and these. Errors: out of memory.
pub fn put_text(out: &mut Vec<u8>, bytes: &[u8]) -> Result<(), NoMemory>
    ensures { OnOk result (out.new.items ≡ out.old.items ++ text.spell bytes.now) }
{
    put_count(out, bytes.len())?;
    out.extend_from_slice(bytes)?;
    Ok(())
}

/// A set of numbers: how many there are, and these. Errors: out of memory.
pub fn put_set(alloc: Global, out: &mut Vec<u8>, numbers: &Numbers) -> Result<(), NoMemory>
    ensures { (limit : ℕ) → OnOk result (out.new.items ≡ out.old.items ++ (set limit).spell numbers.now) }
{
    let rising = numbers.to_vec(alloc)?;
    put_small(out, rising.len())?;
    put_numbers(out, &rising)
}

/// Numbers of two bytes.
fn put_numbers(out: &mut Vec<u8>, numbers: &[usize]) -> Result<(), NoMemory>
    ensures { OnOk result (out.new.items ≡ out.old.items ++ flat_map (to_be_bytes w16) numbers.now) }
{
    for number in numbers {
        put_small(out, *number)?;
    }
    Ok(())
}
