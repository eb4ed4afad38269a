//! The subcommand `decide`: a query of the tables of a file.

ghost use Rattle.std.specs.Prelude.{◌≡◌, ◌<◌, IfErr, IfOk, OnOk};
ghost use Rattle.cil_commands.specs.server.Devices.{most_failures};
ghost use Rattle.cilhost.specs.Decides.{AreBytesOf, IsDecide, IsUnread};

use crate::ended::finish;
use crate::error::Error;
use crate::status::Status;
use crate::system::System;
use cil_commands::{Sink, ask};
use std::alloc::Global;
use std::io::Write;

/// How many bytes a file of tables may have.
const LONGEST_TABLES: usize = 1_073_741_824;

/// A query: a source, a target and a class, each by its text.
#[derive(Clone, Copy)]
pub struct Query<'a> {
    pub source: &'a str,
    pub target: &'a str,
    pub class: &'a str,
}

/// Reads the tables of a file, and writes what they reply to a query where each boolean has its default: the reply of AV, or the first fault of
/// bytes that are no tables. A file that cannot be opened or read, or is too long, ends it before anything is written. Returns the status to
/// end with.
pub fn run_decide<Y: System, W: Sink, E: Write>(
    alloc: Global,
    path: &str,
    query: Query<'_>,
    system: &mut Y,
    output: &mut W,
    messages: &mut E,
) -> Status
    requires { W.failed output.old < most_failures }
    ensures decide { IsDecide (Y.holds system.old) (Y.failure system.old) (Y.failure system.new) path.entry query.entry.source.now query.entry.target.now query.entry.class.now output.old output.new
        (record { bytes = W.contents output.old; failures = W.failed output.old }) (record { bytes = W.contents output.new; failures = W.failed output.new }) result }
    ensures unwritten { Y.written system.new ≡ Y.written system.old }
{
    match bytes_of(alloc, path, system) {
        Ok(bytes) => {
            let source = query.source.as_bytes();
            let target = query.target.as_bytes();
            let class = query.class.as_bytes();
            finish(
                ask(alloc, bytes.as_slice(), source, target, class, output),
                messages,
            )
        }
        Err(error) => error.report(messages),
    }
}

/// All bytes of a file of tables.
fn bytes_of<'a, Y: System>(
    alloc: Global,
    path: &'a str,
    system: &mut Y,
) -> Result<Vec<u8>, Error<'a>>
    ensures bytes { IfOk result (λ bytes. AreBytesOf (Y.holds system.old path.now) bytes.items) }
    ensures sound { OnOk result (Y.failure system.new ≡ Y.failure system.old) }
    ensures due { IfErr result (IsUnread (Y.holds system.old path.now) (Y.failure system.old) (Y.failure system.new) path.entry) }
    ensures unwritten { Y.written system.new ≡ Y.written system.old }
{
    let bytes = match system.read(alloc, path, LONGEST_TABLES as u64 + 1) {
        Ok(bytes) => bytes,
        Err(error) => return Err(Error::failed(path, error)),
    };
    if bytes.len() > LONGEST_TABLES {
        return Err(Error::Failed(path));
    }
    Ok(bytes)
}
