//! The modules of some files.

ghost use Rattle.std.specs.Prelude.{◌≡◌, ℕ, [], IfErr, IfOk, OnErr, OnOk};
ghost use Rattle.cil_modset.specs.Modules.{AreModules};
ghost use Rattle.cilhost.specs.Reading.{Adds, HasJust, IsDueAt, StopsAt};

use crate::error::Error;
use crate::session::LONGEST;
use crate::system::System;
use cil_modset::ModuleSet;
use std::alloc::Global;

/// Just the modules of the files, each read and installed before the next, from the left.
pub(crate) fn modules_of<'a, Y: System>(
    alloc: Global,
    files: &[&'a str],
    system: &mut Y,
) -> Result<ModuleSet, Error<'a>>
    ensures installed { IfOk result (HasJust (Y.holds system.old) files.now) }
    ensures sound { OnOk result (Y.failure system.new ≡ Y.failure system.old) }
    ensures due { IfErr result (λ error. (place : ℕ)
        × StopsAt (Y.holds system.old) (Y.failure system.old) (Y.failure system.new) files.now place error) }
    ensures unwritten { Y.written system.new ≡ Y.written system.old }
{
    let mut modules = ModuleSet::new(alloc);
    add_all(alloc, &mut modules, files, system)?;
    Ok(modules)
}

/// Adds the modules of the files to a set without modules.
fn add_all<'a, Y: System>(
    alloc: Global,
    modules: &mut ModuleSet,
    files: &[&'a str],
    system: &mut Y,
) -> Result<(), Error<'a>>
    requires { modules.old ≡ [] }
    ensures installed { OnOk result (HasJust (Y.holds system.old) files.now modules.new) }
    ensures sound { OnOk result (Y.failure system.new ≡ Y.failure system.old) }
    ensures due { IfErr result (λ error. (place : ℕ)
        × StopsAt (Y.holds system.old) (Y.failure system.old) (Y.failure system.new) files.now place error) }
    ensures unwritten { Y.written system.new ≡ Y.written system.old }
{
    for file in files {
        add(alloc, modules, file, system)?;
    }
    Ok(())
}

/// Reads a file and adds it.
fn add<'a, Y: System>(
    alloc: Global,
    modules: &mut ModuleSet,
    file: &'a str,
    system: &mut Y,
) -> Result<(), Error<'a>>
    ensures adds { OnOk result (Adds (Y.holds system.old file.now) modules.old modules.new) }
    ensures modules { AreModules modules.old → AreModules modules.new }
    ensures due { IfErr result (IsDueAt (Y.holds system.old file.now) (Y.failure system.old) (Y.failure system.new) file.entry) }
    ensures sound { OnOk result (Y.failure system.new ≡ Y.failure system.old) }
    ensures stays { Y.holds system.new ≡ Y.holds system.old }
    ensures unwritten { Y.written system.new ≡ Y.written system.old }
{
    let text = match system.read(alloc, file, LONGEST) {
        Ok(text) => text,
        Err(error) => return Err(Error::failed(file, error)),
    };
    match modules.install(alloc, text.as_slice()) {
        Ok(_) => Ok(()),
        Err(error) => Err(Error::refused(file, error)),
    }
}
