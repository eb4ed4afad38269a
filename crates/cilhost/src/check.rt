//! The subcommand `check`: a host that is given files, and then loads them.

ghost use Rattle.std.specs.Prelude.{◌≡◌, ◌<◌, ◌+◌, ◌⊎◌};
ghost use Rattle.cil_commands.specs.server.Devices.{most_failures};
ghost use Rattle.cilhost.specs.Checks.{HasFaults, IsCheck, load_status};
ghost use Rattle.cilhost.specs.Reading.{HasFailed, HasRefused};

use crate::capacity::CAPACITY;
use crate::error::{Error, STREAMS};
use crate::session::prepared;
use crate::status::Status;
use crate::system::System;
use cil_commands::{LoadEnd, Sink, load};
use std::alloc::Global;
use std::io::Write;

/// Installs the files from the left, each read and installed before the next, then loads them and writes the reply of LOAD. A file
/// that is refused, or cannot be opened or read, ends the check before anything is loaded. Returns the status to end with.
pub fn run_check<Y: System, W: Sink, E: Write>(
    alloc: Global,
    files: &[&str],
    system: &mut Y,
    output: &mut W,
    messages: &mut E,
) -> Status
    requires { W.failed output.old < most_failures }
    ensures check { IsCheck (Y.holds system.old) (Y.failure system.old) (Y.failure system.new) files.now output.old output.new
        (record { bytes = W.contents output.old; failures = W.failed output.old }) (record { bytes = W.contents output.new; failures = W.failed output.new }) result }
    ensures failed { result ≡ Status.Failed → HasFailed (Y.failure system.new) ⊎ (W.failed output.new ≡ W.failed output.old + 1) }
    ensures refused { result ≡ Status.Refused → HasRefused (Y.holds system.old) files.now ⊎ HasFaults (Y.holds system.old) files.now }
{
    match prepared(alloc, CAPACITY, files, system) {
        Ok(mut host) => {
            let end = load(alloc, &mut host, output);
            status_after(end, messages)
        }
        Err(error) => error.report(messages),
    }
}

/// The status after a load with this end, and its line where it has one.
fn status_after<E: Write>(end: LoadEnd, messages: &mut E) -> Status
    ensures { result ≡ load_status end }
{
    match end {
        LoadEnd::Loaded => Status::Done,
        LoadEnd::Refused => Status::Refused,
        LoadEnd::NoMemory => Error::NoMemory.report(messages),
        LoadEnd::WriteFailed => Error::Failed(STREAMS).report(messages),
    }
}
