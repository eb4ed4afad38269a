//! The subcommand `locate`: where the faults of some files are.

ghost use Rattle.std.specs.Prelude.{◌≡◌, ◌<◌, ◌+◌, ◌⊎◌, ◌∷◌, [], IfErr, IfOk, OnOk};
ghost use Rattle.cil_commands.specs.server.Devices.{most_failures};
ghost use Rattle.cilhost.specs.Located.{AreFiles, IsFileOf, IsLocate, IsUnread, located_status};
ghost use Rattle.cilhost.specs.Reading.{HasFailed};

use crate::error::{Error, STREAMS};
use crate::session::LONGEST;
use crate::status::Status;
use crate::system::System;
use cil_commands::Sink;
use cil_locate::{File, Located, locate};
use std::alloc::Global;
use std::io::Write;

/// Reads all files, and writes each of their faults at its place; where there is none and optionals are asked for, why each
/// optional that is left out is. A file that cannot be opened or read ends it before anything is written. Returns the status to
/// end with.
pub fn run_locate<Y: System, W: Sink, E: Write>(
    alloc: Global,
    names: &[&str],
    optionals: bool,
    system: &mut Y,
    output: &mut W,
    messages: &mut E,
) -> Status
    requires { W.failed output.old < most_failures }
    ensures locate { IsLocate (Y.holds system.old) (Y.failure system.old) (Y.failure system.new) names.now optionals output.old output.new
        (record { bytes = W.contents output.old; failures = W.failed output.old }) (record { bytes = W.contents output.new; failures = W.failed output.new }) result }
    ensures failed { result ≡ Status.Failed → HasFailed (Y.failure system.new) ⊎ (W.failed output.new ≡ W.failed output.old + 1) }
{
    match read_files(alloc, names, system) {
        Ok(files) => {
            let located = locate(alloc, files.as_slice(), optionals, output);
            status_after(located, names.len(), messages)
        }
        Err(error) => error.report(messages),
    }
}

/// The files of these names, read from the left.
fn read_files<'a, Y: System>(
    alloc: Global,
    names: &[&'a str],
    system: &mut Y,
) -> Result<Vec<File<'a>>, Error<'a>>
    ensures files { IfOk result (λ files. AreFiles (Y.holds system.old) names.now files.items) }
    ensures sound { OnOk result (Y.failure system.new ≡ Y.failure system.old) }
    ensures due { IfErr result (IsUnread (Y.failure system.old) (Y.failure system.new) names.now) }
{
    let mut files = Vec::with_capacity(alloc, names.len())?;
    for name in names {
        files.push(read_file(alloc, name, system)?)?;
    }
    Ok(files)
}

/// Reads a file.
fn read_file<'a, Y: System>(
    alloc: Global,
    name: &'a str,
    system: &mut Y,
) -> Result<File<'a>, Error<'a>>
    ensures file { IfOk result (IsFileOf (Y.holds system.old) name.entry) }
    ensures stays { Y.holds system.new ≡ Y.holds system.old }
    ensures sound { OnOk result (Y.failure system.new ≡ Y.failure system.old) }
    ensures due { IfErr result (IsUnread (Y.failure system.old) (Y.failure system.new) (name.entry ∷ [])) }
{
    match system.read(alloc, name, LONGEST) {
        Ok(text) => Ok(File::new(name, text)),
        Err(error) => Err(Error::failed(name, error)),
    }
}

/// The status after a search for faults with this end in so many files, and its line where it has one.
fn status_after<E: Write>(located: Located, total: usize, messages: &mut E) -> Status
    ensures { result ≡ located_status located }
{
    match located {
        Located::Accepted => Status::Done,
        Located::Faults { faults, files } => {
            count(faults, files, total, messages);
            Status::Refused
        }
        Located::NoMemory => Error::NoMemory.report(messages),
        Located::WriteFailed => Error::Failed(STREAMS).report(messages),
    }
}

/// Says how many faults there are. If that cannot be written, nothing else changes.
fn count<E: Write>(faults: usize, files: usize, total: usize, messages: &mut E) {
    let fault = if faults == 1 { "fault" } else { "faults" };
    let file = if total == 1 { "file" } else { "files" };
    let _ = writeln!(
        messages,
        "cilhost: {faults} {fault} in {files} of {total} {file}"
    );
}
