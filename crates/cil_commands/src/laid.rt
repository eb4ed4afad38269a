//! What modules compile to, laid out with its reply, so that nothing after that needs memory.

ghost use Rattle.std.specs.Prelude.{◌≡◌, length, option_map, ℕ, List};
ghost use Rattle.sha2.specs.Sha256.{sha256};
ghost use Rattle.cil_commands.specs.Laid.{IsLaid, end_of_laid, reply_of, tables_of};
ghost use Rattle.cil_commands.specs.Told.{IsOrderly, Says, end_of};
ghost use Rattle.cil_faults.specs.declared.failure.Failure.TheVariants.{Faults};
ghost use Rattle.cil_server.specs.tables.Agrees.{Compiles};
ghost use Rattle.cil_server.specs.tables.CompileRefusal.{CompileFails};

use crate::reply::Reply;
use cil_base::NoMemory;
use cil_faults::{Failure, FaultList, render};
use cil_modset::ModuleSet;
use cil_server::{Loaded, Tables, compile, encode};
use sha2::{Digest, Sha256};
use std::alloc::Global;

/// What modules compile to, laid out.
#[derive(Drop)]
pub enum Laid {
    /// The bytes of their tables, and what these are told by.
    Accepted(Loaded, Vec<u8>),
    /// How many faults they have, and the lines of these.
    Refused(usize, Vec<u8>),
    /// Out of memory.
    NoMemory,
}

impl Laid {
    /// The bytes of the tables, where the modules are accepted.
    pub fn tables(&self) -> Option<&[u8]>
        ensures { option_map (λ bytes. bytes.now) result ≡ tables_of self.now }
    {
        match self {
            Laid::Accepted(_, bytes) => Some(bytes.as_slice()),
            _ => None,
        }
    }

    /// The reply of LOAD.
    pub fn reply(&self) -> Reply<'_>
        ensures says { (bytes : List ℕ) → Says result bytes → bytes ≡ reply_of self.now }
        ensures ends { end_of result ≡ end_of_laid self.now }
        ensures orderly { IsOrderly result }
    {
        match self {
            Laid::Accepted(loaded, _) => Reply::Loaded(*loaded),
            Laid::Refused(count, lines) => Reply::Faults(*count, lines.as_slice()),
            Laid::NoMemory => Reply::NoMemory,
        }
    }
}

/// Compiles modules, and lays out the bytes of their tables, or the lines of their faults. It costs what `compile`, `encode` and the
/// digest of the bytes cost.
pub fn laid_out(alloc: Global, modules: &ModuleSet) -> Laid
    ensures { IsLaid modules.now result }
{
    match compile(alloc, modules) {
        Ok(compiled) => accepted(alloc, &compiled.tables),
        Err(Failure::Faults(faults)) => refused(alloc, &faults),
        Err(Failure::NoMemory) => Laid::NoMemory,
    }
}

/// The bytes of tables.
fn accepted(alloc: Global, tables: &Tables) -> Laid
    ensures { (modules : List (List ℕ)) → Compiles modules tables.now → IsLaid modules result }
{
    match encode(alloc, tables) {
        Ok(bytes) => Laid::Accepted(told(bytes.as_slice()), bytes),
        Err(NoMemory) => Laid::NoMemory,
    }
}

/// What tables are told by whose bytes these are.
fn told(bytes: &[u8]) -> Loaded
    ensures { result ≡ record { length = length bytes.now; digest = sha256 bytes.now } }
{
    Loaded {
        length: bytes.len() as u64,
        digest: Sha256::digest(bytes),
    }
}

/// The lines of faults.
fn refused(alloc: Global, faults: &FaultList) -> Laid
    ensures { (modules : List (List ℕ)) → CompileFails modules (Faults faults.now) → IsLaid modules result }
{
    match render(alloc, faults) {
        Ok(lines) => Laid::Refused(faults.len(), lines),
        Err(NoMemory) => Laid::NoMemory,
    }
}
