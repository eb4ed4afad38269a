//! The subcommand `compile`: the tables of some files, written to a file.

ghost use Rattle.std.specs.Prelude.{◌≡◌, ◌<◌, ℕ, List, [], IfErr, OnErr, OnOk};
ghost use Rattle.std.specs.Borrow.{Bor};
ghost use Rattle.cil_commands.specs.Laid.{IsLaid, tables_of};
ghost use Rattle.cil_commands.specs.server.Devices.{most_failures};
ghost use Rattle.cilhost.specs.Compiles.{IsCompile, IsUnwritten};
ghost use Rattle.cilhost.specs.Reading.{HasJust, Known};
ghost use Rattle.cilhost.specs.Written.{with_bytes};

use crate::ended::finish;
use crate::error::Error;
use crate::modules::modules_of;
use crate::status::Status;
use crate::system::System;
use cil_base::NoMemory;
use cil_commands::{Laid, Sink, laid_out, new_chunk, tell};
use cil_modset::ModuleSet;
use std::alloc::Global;
use std::io::Write;

/// Installs the files from the left, each read and installed before the next, and compiles them. Where the policy is accepted, the bytes of
/// its tables are then written to the file `out`. Last the reply of LOAD is written. A file that is refused, or cannot be opened or read,
/// ends it before the policy is compiled, and tables that cannot be written end it before the reply. Returns the status to end with.
pub fn run_compile<Y: System, W: Sink, E: Write>(
    alloc: Global,
    out: &str,
    files: &[&str],
    system: &mut Y,
    output: &mut W,
    messages: &mut E,
) -> Status
    requires { W.failed output.old < most_failures }
    ensures { IsCompile (Y.holds system.old) (Y.failure system.old) (Y.failure system.new) files.now out.entry (Y.written system.old) (Y.written system.new) output.old output.new
        (record { bytes = W.contents output.old; failures = W.failed output.old }) (record { bytes = W.contents output.new; failures = W.failed output.new }) result }
{
    match modules_of(alloc, files, system) {
        Ok(modules) => compile_all(alloc, out, &modules, system, output, messages),
        Err(error) => error.report(messages),
    }
}

/// Compiles modules, writes their tables, and then the reply.
fn compile_all<Y: System, W: Sink, E: Write>(
    alloc: Global,
    out: &str,
    modules: &ModuleSet,
    system: &mut Y,
    output: &mut W,
    messages: &mut E,
) -> Status
    requires { W.failed output.old < most_failures }
    ensures { (holds : List ℕ → Known) (files : List (Bor (List ℕ))) → HasJust holds files modules.now
        → IsCompile holds (Y.failure system.old) (Y.failure system.new) files out.entry (Y.written system.old) (Y.written system.new) output.old output.new
        (record { bytes = W.contents output.old; failures = W.failed output.old }) (record { bytes = W.contents output.new; failures = W.failed output.new }) result }
{
    match new_chunk(alloc) {
        Ok(chunk) => {
            let laid = laid_out(alloc, modules);
            write_all(out, &laid, chunk, system, output, messages)
        }
        Err(NoMemory) => Error::NoMemory.report(messages),
    }
}

/// Writes the tables that were laid out, where there are some, and then the reply, with memory for the buffer.
fn write_all<Y: System, W: Sink, E: Write>(
    out: &str,
    laid: &Laid,
    chunk: Vec<u8>,
    system: &mut Y,
    output: &mut W,
    messages: &mut E,
) -> Status
    requires empty { chunk.items ≡ [] }
    requires sound { W.failed output.old < most_failures }
    ensures { (holds : List ℕ → Known) (files : List (Bor (List ℕ))) (modules : List (List ℕ)) → HasJust holds files modules → IsLaid modules laid.now
        → IsCompile holds (Y.failure system.old) (Y.failure system.new) files out.entry (Y.written system.old) (Y.written system.new) output.old output.new
        (record { bytes = W.contents output.old; failures = W.failed output.old }) (record { bytes = W.contents output.new; failures = W.failed output.new }) result }
{
    match write_tables(out, laid, system) {
        Ok(()) => finish(tell(laid.reply(), chunk, output), messages),
        Err(error) => error.report(messages),
    }
}

/// Writes the tables that were laid out, where there are some.
fn write_tables<'a, Y: System>(out: &'a str, laid: &Laid, system: &mut Y) -> Result<(), Error<'a>>
    ensures written { OnOk result (Y.written system.new ≡ with_bytes out.now (tables_of laid.now) (Y.written system.old)) }
    ensures unwritten { OnErr result (Y.written system.new ≡ Y.written system.old) }
    ensures sound { OnOk result (Y.failure system.new ≡ Y.failure system.old) }
    ensures due { IfErr result (IsUnwritten (Y.failure system.old) (Y.failure system.new) out.entry (tables_of laid.now)) }
{
    let Some(tables) = laid.tables() else {
        return Ok(());
    };
    match system.write(out, tables) {
        Ok(()) => Ok(()),
        Err(error) => Err(Error::failed(out, error)),
    }
}
