//! A session: requests from a reader, replies to a writer.

ghost use Rattle.std.specs.Prelude.{◌≡◌, ◌<◌, ◌≤◌, ◌+◌, ℕ, List, length, suc, IfOk, Some, false};
ghost use Rattle.cil_server.specs.Asked.{longest_line};
ghost use Rattle.cil_server.specs.Devices.{most_failures};
ghost use Rattle.cil_server.specs.Session.{Serves, reader_failures, writer_failures};
ghost use Rattle.cil_server.specs.Streams.{Tells, buffer_size, unread};
ghost use Rattle.cil_server.specs.Turns.{Goes, IsEndedAt, IsFinishedRun, IsRun, IsTurnedAt, Turns, turn_losses};
ghost use Rattle.cil_server.specs.declared.served.Served.{Served};
ghost use Rattle.cil_server.specs.Views.{HasSizes};

use crate::devices::{Sink, Source};
use crate::input::{self, Input};
use crate::line::read_line;
use crate::output::{self, Output};
use crate::replies::put_refused;
use crate::served::Served;
use crate::streams::{LineTaken, Streams};
use crate::turn::Turn;
use cil_base::NoMemory;
use cil_host::Host;
use std::alloc::Global;
use std::hash::BuildHasher;

/// How many requests a session may have.
const MOST_REQUESTS: u32 = 1_000_000;

/// How many bytes a line may have, without its newline.
const LONGEST_LINE: usize = 4096;

/// The memory of a session, all taken before the first byte is read.
#[derive(Drop)]
struct Buffers {
    input: Vec<u8>,
    /// One byte more than a line may have.
    line: Vec<u8>,
    output: Vec<u8>,
}

/// A session without its host.
#[derive(Drop)]
struct Session<'r, 'w, R: Source, W: Sink> {
    streams: Streams<'r, 'w, R, W>,
    line: Vec<u8>,
}

/// Reads requests from a reader and writes the reply to each, until a request, the end of the input or a failed call ends the
/// session. It runs at most 1,000,000 requests. The host is left as those requests leave it.
///
/// After the first call of the reader or the writer that fails, neither is called again and no request is started. The reader is
/// asked for more bytes only when all replies so far are written and the buffer holds no whole request, so the other side may wait
/// for each reply before it sends more. At most 65,536 bytes are read beyond the last request, or a part of the next one.
///
/// Returns how the session ended: `Fault(0)` if there is no memory for its buffers, and then nothing was read or written.
pub fn serve<S: BuildHasher + Drop, R: Source, W: Sink>(
    alloc: Global,
    host: &mut Host<S>,
    reader: &mut R,
    writer: &mut W,
) -> Served
    requires reader { R.failed reader.old < most_failures }
    requires writer { W.failed writer.old < most_failures }
    // Exactly one call failed if the result names the reader or the writer, and none otherwise.
    ensures reader_failed { R.failed reader.new ≡ R.failed reader.old + reader_failures result }
    ensures writer_failed { W.failed writer.new ≡ W.failed writer.old + writer_failures result }
    ensures untouched { result ≡ Served.Fault 0 → (host.new ≡ host.old) × (reader.new ≡ reader.old) × (writer.new ≡ writer.old) }
    ensures serves { (input before : List ℕ) → R.rest reader.old ≡ Some input → W.contents writer.old ≡ Some before
        → Serves input before (R.rest reader.new) host.old host.new (W.contents writer.new) result }
{
    match new_buffers(alloc) {
        Ok(buffers) => serve_with(alloc, host, reader, writer, buffers),
        Err(NoMemory) => Served::Fault(0),
    }
}

/// Serves a session with the memory for it.
fn serve_with<S: BuildHasher + Drop, R: Source, W: Sink>(
    alloc: Global,
    host: &mut Host<S>,
    reader: &mut R,
    writer: &mut W,
    buffers: Buffers,
) -> Served
    requires reader { R.failed reader.old < most_failures }
    requires writer { W.failed writer.old < most_failures }
    requires sizes { HasSizes buffers }
    ensures reader_failed { R.failed reader.new ≡ R.failed reader.old + reader_failures result }
    ensures writer_failed { W.failed writer.new ≡ W.failed writer.old + writer_failures result }
    ensures some_fault { result ≡ Served.Fault 0 → ⊥ }
    ensures serves { (input before : List ℕ) → R.rest reader.old ≡ Some input → W.contents writer.old ≡ Some before
        → Serves input before (R.rest reader.new) host.old host.new (W.contents writer.new) result }
{
    let mut session = Session {
        streams: Streams {
            input: Input::new(reader, buffers.input),
            output: Output::new(writer, buffers.output),
        },
        line: buffers.line,
    };
    let served = session.finish(alloc, host);
    let (reader, writer) = session.into_devices();
    // No effect at run time. The proof reads here what the session left of both.
    let _ = &*reader;
    let _ = &*writer;
    served
}

fn new_buffers(alloc: Global) -> Result<Buffers, NoMemory>
    ensures { IfOk result HasSizes }
{
    Ok(Buffers {
        input: input::new_chunk(alloc)?,
        line: vec![in alloc; 0; LONGEST_LINE + 1]?,
        output: output::new_chunk(alloc)?,
    })
}

impl<'r, 'w, R: Source, W: Sink> Session<'r, 'w, R, W> {
    /// Gives the reader and the writer back, without what is in the buffers.
    fn into_devices(self) -> (&'r mut R, &'w mut W)
        ensures few { length self.entry.streams.input.buffered ≤ buffer_size }
        ensures reader { result.0.ghost_name ≡ self.entry.streams.input.reader }
        ensures left { R.rest result.0.now ≡ self.entry.streams.input.left }
        ensures reader_failed { R.failed result.0.now ≡ self.entry.streams.input.failures }
        ensures writer { result.1.ghost_name ≡ self.entry.streams.output.writer }
        ensures written { W.contents result.1.now ≡ self.entry.streams.output.written }
        ensures writer_failed { W.failed result.1.now ≡ self.entry.streams.output.failures }
    {
        let Streams { input, output } = self.streams;
        (input.into_reader(), output.into_writer())
    }

    /// Runs all requests of the session, and writes the replies that still wait.
    fn finish<S: BuildHasher + Drop>(&mut self, alloc: Global, host: &mut Host<S>) -> Served
        requires room { length self.old.line.items ≡ suc longest_line }
        requires reader { self.old.streams.input.failures < most_failures }
        requires writer { self.old.streams.output.has_failed ≡ false }
        ensures reader { self.new.streams.input.reader ≡ self.old.streams.input.reader }
        ensures writer { self.new.streams.output.writer ≡ self.old.streams.output.writer }
        ensures reader_failed { self.new.streams.input.failures ≡ self.old.streams.input.failures + reader_failures result }
        ensures writer_failed { self.new.streams.output.failures ≡ self.old.streams.output.failures + writer_failures result }
        ensures some_fault { result ≡ Served.Fault 0 → ⊥ }
        ensures serves { IsFinishedRun self.old.streams.input self.old.streams.output host.old self.new.streams.input self.new.streams.output host.new result }
    {
        let served = self.run(alloc, host);
        let output = &mut self.streams.output;
        output.flush();
        if output.has_failed() {
            return Served::WriteFailed;
        }
        served
    }

    /// Runs all requests of the session.
    fn run<S: BuildHasher + Drop>(&mut self, alloc: Global, host: &mut Host<S>) -> Served
        requires room { length self.old.line.items ≡ suc longest_line }
        requires reader { self.old.streams.input.failures < most_failures }
        requires writer { self.old.streams.output.has_failed ≡ false }
        ensures runs { (bytes : List ℕ) → unread self.old.streams.input ≡ Some bytes → length self.old.streams.output.waiting ≤ buffer_size → IsRun bytes self.new.streams.input host.old host.new
            self.old.streams.output self.new.streams.output result }
        ensures goes { Goes self.old.streams.input self.old.streams.output self.new.streams.input self.new.streams.output (reader_failures result) }
        ensures at { IsEndedAt result self.new.streams.input self.new.streams.output }
    {
        for _count in 0..MOST_REQUESTS {
            match self.next_turn(alloc, host) {
                Turn::Next => {}
                Turn::Ended(served) => return served,
            }
            if self.streams.output.has_failed() {
                return Served::WriteFailed;
            }
        }
        put_refused(&mut self.streams.output, 85);
        Served::Fault(85)
    }

    /// Reads the next line and answers it.
    fn next_turn<S: BuildHasher + Drop>(&mut self, alloc: Global, host: &mut Host<S>) -> Turn
        requires room { length self.old.line.items ≡ suc longest_line }
        requires reader { self.old.streams.input.failures < most_failures }
        requires writer { self.old.streams.output.has_failed ≡ false }
        ensures room { length self.new.line.items ≡ suc longest_line }
        ensures turn { Turns (unread self.old.streams.input) (unread self.new.streams.input) host.old host.new
            (Tells self.old.streams.output self.new.streams.output) result }
        ensures goes { Goes self.old.streams.input self.old.streams.output self.new.streams.input self.new.streams.output (turn_losses result) }
        ensures at { IsTurnedAt result self.new.streams.input self.new.streams.output }
    {
        match self.streams.take_line(&mut self.line) {
            LineTaken::Whole(count) => {
                let line = read_line(&self.line[..count]);
                self.streams.answer(alloc, host, line)
            }
            LineTaken::End => Turn::Ended(Served::End),
            LineTaken::TooLong => self.streams.refuse(82),
            LineTaken::Cut => self.streams.refuse(83),
            LineTaken::Failed(broken) => Turn::Ended(broken.ending()),
        }
    }
}
