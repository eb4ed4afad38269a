//! The listing of a host: a line for each module.

ghost use Rattle.std.specs.Prelude.{◌≡◌, IfOk, map};
ghost use Rattle.cil_host.specs.Listed.{line_of};

use cil_base::NoMemory;
use cil_modset::ModuleSet;
use std::alloc::Global;

/// A module in the listing of a host.
#[derive(Clone, Copy, Debug, PartialEq, Eq)]
pub struct ListLine {
    /// The SHA-256 digest of the text.
    pub digest: [u8; 32],
    /// The length of the text in bytes.
    pub length: u64,
}

/// The lines of some modules. Error: out of memory.
pub(crate) fn lines_of(alloc: Global, modules: &ModuleSet) -> Result<Vec<ListLine>, NoMemory>
    ensures { IfOk result (λ lines. lines.items ≡ map line_of modules.now) }
{
    let mut lines = Vec::new(alloc);
    for number in 0..modules.len() {
        let length = modules.get(number).len() as u64;
        let digest = modules.digest(number);
        lines.push(ListLine { digest, length })?;
    }
    Ok(lines)
}
