//! What tables are told by: the length and the digest of their bytes.

ghost use Rattle.std.specs.Prelude.{◌≡◌, IfOk, length, [], ℕ, List};
ghost use Rattle.sha2.specs.Hashers.{Holds256};
ghost use Rattle.cil_table_bytes.specs.Layout.{layout};
ghost use Rattle.cil_table_bytes.specs.Measured.{measured};

use crate::writing::put_tables;
use cil_base::NoMemory;
use cil_format::Out;
use cil_tables::Tables;
use sha2::{Digest, Sha256};
use std::alloc::Global;

/// What tables are told by: hosts with equal tables tell the same. This project's profile.
#[derive(Clone, Copy, Debug, PartialEq, Eq)]
pub struct Measured {
    /// How many bytes the tables have.
    pub length: u64,
    /// The SHA-256 digest of these bytes.
    pub digest: [u8; 32],
}

/// Where bytes go that are only measured: it keeps none of them.
#[derive(Drop)]
struct Running {
    hasher: Sha256,
    length: u64,
}

impl Out for Running {
    ghost holds = { λ out bytes. Holds256 out.hasher bytes × (out.length ≡ length bytes) };

    fn put(&mut self, bytes: &[u8]) -> Result<(), NoMemory> {
        let Some(length) = self.length.checked_add(bytes.len() as u64) else {
            return Err(NoMemory);
        };
        self.hasher.update(bytes);
        self.length = length;
        Ok(())
    }
}

impl Running {
    /// No bytes.
    fn new() -> Running
        ensures { Holds256 result.hasher [] × (result.length ≡ 0) }
    {
        Running {
            hasher: Sha256::new(),
            length: 0,
        }
    }

    /// What the bytes are told by.
    fn finish(self) -> Measured
        ensures { (bytes : List ℕ) → Holds256 self.hasher bytes → self.length ≡ length bytes → result ≡ measured bytes }
    {
        let digest = self.hasher.finalize();
        Measured {
            length: self.length,
            digest,
        }
    }
}

/// The length and the digest of the bytes of tables, which are laid out piece by piece and not kept. It costs what `encode` costs and the digest, and takes
/// room for sections 1 to 10 and the longest piece after them. Errors: out of memory, or more bytes than a number of 64 bits can say.
pub fn measure(alloc: Global, tables: &Tables) -> Result<Measured, NoMemory>
    ensures { IfOk result (λ told. told ≡ measured (layout tables.now)) }
{
    let mut out = Running::new();
    put_tables(alloc, &mut out, tables)?;
    Ok(out.finish())
}
