//! Numbers that are kept in four bytes.

ghost use Rattle.std.specs.Prelude.{◌≡◌, IfOk};

use crate::memory::NoMemory;

/// A number in four bytes, as tables keep places and counts. Beyond 4,294,967,295 it is out of memory: no table has room for
/// more.
pub fn short(number: usize) -> Result<u32, NoMemory>
    ensures { IfOk result (λ same. same ≡ number) }
{
    if number > u32::MAX as usize {
        return Err(NoMemory);
    }
    Ok(number as u32)
}
