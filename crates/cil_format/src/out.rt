//! Where the bytes of tables go.

ghost use Rattle.std.specs.Prelude.{◌≡◌, ◌++◌, ℕ, List, OnOk};
ghost use Rattle.std.specs.Int.{w32, to_be_bytes};

use crate::put::put_count;
use cil_base::NoMemory;

/// What takes bytes piece by piece: it keeps them, or what it wants to know of them.
pub trait Out: Drop {
    /// It was given these bytes.
    ghost holds: { Self → List ℕ → Type 0 };

    /// Gives it the next bytes. Errors: out of memory.
    fn put(&mut self, bytes: &[u8]) -> Result<(), NoMemory>
        ensures { (before : List ℕ) → holds self.old before → OnOk result (holds self.new (before ++ bytes.now)) };
}

impl Out for Vec<u8> {
    ghost holds = { λ out bytes. out.items ≡ bytes };

    fn put(&mut self, bytes: &[u8]) -> Result<(), NoMemory> {
        self.extend_from_slice(bytes)?;
        Ok(())
    }
}

/// Puts a count of four bytes where bytes go. What the buffer held is lost. Errors: out of memory.
pub fn give_count<O: Out>(out: &mut O, buffer: &mut Vec<u8>, count: usize) -> Result<(), NoMemory>
    ensures { (before : List ℕ) → O.holds out.old before → OnOk result (O.holds out.new (before ++ to_be_bytes w32 count)) }
{
    buffer.clear();
    put_count(buffer, count)?;
    out.put(buffer)
}
