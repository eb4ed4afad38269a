//! The texts of the files, as modules.

ghost use Rattle.std.specs.Prelude.{◌≡◌, IfOk, length};
ghost use Rattle.cil_locate.specs.Readings.{Adds, AreAllRead, AreReadings, AreTexts, IsReading};

use crate::file::File;
use cil_base::NoMemory;
use cil_modset::ModuleSet;
use cil_sexpr::{ReadError, ReadFault};
use std::alloc::Global;

/// What came of the files.
#[derive(Drop)]
pub(crate) struct Readings {
    /// The texts that can be read.
    pub(crate) modules: ModuleSet,
    /// For each file the first fault of its text, where it has one.
    pub(crate) faults: Vec<Option<ReadFault>>,
}

/// Reads the texts of all files, one after another. Errors: out of memory.
pub(crate) fn read_all(alloc: Global, files: &[File<'_>]) -> Result<Readings, NoMemory>
    ensures many { IfOk result (λ r. length r.faults.items ≡ length files.now) }
    ensures readings { IfOk result (λ r. AreReadings files.now r.faults.items) }
    ensures texts { IfOk result (λ r. AreAllRead r.faults.items → AreTexts files.now r.modules) }
{
    let mut readings = Readings {
        modules: ModuleSet::new(alloc),
        faults: Vec::new(alloc),
    };
    for file in files {
        let fault = install(alloc, &mut readings.modules, file)?;
        readings.faults.push(fault)?;
    }
    // What is known of every set of modules.
    readings.modules.len();
    Ok(readings)
}

/// Adds the text of a file to the modules, or answers its first fault. Errors: out of memory.
fn install(
    alloc: Global,
    modules: &mut ModuleSet,
    file: &File<'_>,
) -> Result<Option<ReadFault>, NoMemory>
    ensures reading { IfOk result (IsReading file.now) }
    ensures adds { IfOk result (λ reading. Adds file.now.text reading modules.old modules.new) }
{
    // What is known of every set of modules.
    modules.len();
    match modules.install(alloc, file.text()) {
        Ok(_) => Ok(None),
        Err(ReadError::Fault(fault)) => Ok(Some(fault)),
        Err(ReadError::NoMemory) => Err(NoMemory),
    }
}
