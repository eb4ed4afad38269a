//! All that is wrong with some files, written at its places.

ghost use Rattle.std.specs.Prelude.{◌≡◌, ◌+◌, ◌<◌, ℕ, List, [], Some, false};
ghost use Rattle.cil_server.specs.Devices.{most_failures};
ghost use Rattle.cil_server.specs.Streams.{Tells};
ghost use Rattle.cil_locate.specs.Found.{IsFound, IsLocated, failures_of, found_text};

use crate::file::File;
use crate::found::{Found, found_in};
use crate::notes::put_notes;
use crate::telling::{put_faults, put_readings};
use cil_base::NoMemory;
use cil_server::{Output, Sink, new_chunk};
use std::alloc::Global;

/// How a search for faults ended.
#[derive(Clone, Copy, Debug, PartialEq, Eq)]
pub enum Located {
    /// The files are modules, and their policy has no fault.
    Accepted,
    /// So many faults were written, of so many files.
    Faults {
        /// How many faults there are.
        faults: usize,
        /// How many files have one. A fault of the whole policy is of no file.
        files: usize,
    },
    /// There was no memory. Nothing was written.
    NoMemory,
    /// A call of the writer failed. The first part of what was to be written may be out.
    WriteFailed,
}

/// Writes each fault of some files, with the line of the text where it is: why a file cannot be read as a text, or where all can
/// be read, the faults of the policy that they are, in the order of the files and of their places. Where there is none, and
/// optionals are asked for, a line for each optional that is left out. A fault of a text that several files have is told of the first.
///
/// It goes through each text once. Beside what a load takes, it takes a copy of the texts and 24 bytes for each fault.
pub fn locate<W: Sink>(
    alloc: Global,
    files: &[File<'_>],
    optionals: bool,
    writer: &mut W,
) -> Located
    requires writer { W.failed writer.old < most_failures }
    ensures located { (before : List ℕ) → W.contents writer.old ≡ Some before → IsLocated files.now optionals before (W.contents writer.new) result }
    ensures failed { W.failed writer.new ≡ W.failed writer.old + failures_of result }
{
    let Ok(chunk) = new_chunk(alloc) else {
        return Located::NoMemory;
    };
    match found_in(alloc, files) {
        Ok(found) => write_found(files, optionals, &found, writer, chunk),
        Err(NoMemory) => Located::NoMemory,
    }
}

/// Writes what was found.
fn write_found<W: Sink>(
    files: &[File<'_>],
    optionals: bool,
    found: &Found,
    writer: &mut W,
    chunk: Vec<u8>,
) -> Located
    requires writer { W.failed writer.old < most_failures }
    requires chunk { chunk.items ≡ [] }
    requires found { IsFound files.now found.now }
    ensures located { (before : List ℕ) → W.contents writer.old ≡ Some before → IsLocated files.now optionals before (W.contents writer.new) result }
    ensures failed { W.failed writer.new ≡ W.failed writer.old + failures_of result }
{
    let mut output = Output::new(writer, chunk);
    let end = finish(&mut output, files, optionals, found);
    let writer = output.into_writer();
    // No effect at run time. The proof reads here what is left of the writer.
    let _ = &*writer;
    end
}

/// Writes what was found, and all that waits.
fn finish<W: Sink>(
    output: &mut Output<'_, W>,
    files: &[File<'_>],
    optionals: bool,
    found: &Found,
) -> Located
    requires sound { output.old.has_failed ≡ false }
    requires found { IsFound files.now found.now }
    ensures located { (before : List ℕ) → output.old.written ≡ Some before → output.old.waiting ≡ [] → IsLocated files.now optionals before output.new.written result }
    ensures failed { output.new.failures ≡ output.old.failures + failures_of result }
    ensures writer { output.new.writer ≡ output.old.writer }
{
    put_found(output, files, optionals, found);
    output.flush();
    if output.has_failed() {
        return Located::WriteFailed;
    }
    found.end()
}

/// Writes what was found, through a buffer.
fn put_found<W: Sink>(
    output: &mut Output<'_, W>,
    files: &[File<'_>],
    optionals: bool,
    found: &Found,
)
    requires { IsFound files.now found.now }
    ensures { Tells output.old output.new (found_text files.now optionals found.now) }
{
    match found {
        Found::Unreadable(faults) => put_readings(output, files, faults.as_slice()),
        Found::Refused(faults, order) => {
            put_faults(output, files, faults.as_slice(), order.as_slice());
        }
        Found::Accepted(compiled, order) => {
            if optionals {
                put_notes(output, files, compiled.reasons.as_slice(), order.as_slice());
            }
        }
    }
}
