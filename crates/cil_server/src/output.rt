//! Bytes to a writer, given by the buffer.

ghost use Rattle.std.specs.Prelude.{◌≡◌, ◌<◌, ◌≤◌, [], false, length, IfOk};
ghost use Rattle.cil_server.specs.Devices.{most_failures};
ghost use Rattle.cil_server.specs.Streams.{Tells, buffer_size};
ghost use Rattle.cil_server.specs.Given.{Gives, GivesCounted};

use crate::devices::Sink;
use cil_base::NoMemory;
use std::alloc::Global;
use std::marker::Model;

/// How many bytes wait at most.
const CHUNK: usize = 65_536;

/// A buffer in front of a writer, through which the bytes of a reply go. Once the writer has failed, nothing more is written.
///
/// Contracts see the bytes that wait, those that are written, and whether the writer has failed (`OutputState` of `specs/Streams.antt`);
/// `Tells` says there what it is to write some bytes through it.
#[derive(Drop)]
pub struct Output<'a, W: Sink> {
    writer: &'a mut W,
    bytes: Vec<u8>,
    failed: bool,
}

impl<'a, W: Sink> Model for Output<'a, W> {
    ghost use Rattle.std.specs.Prelude.{◌≡◌, ◌<◌, ◌≤◌, length, false};
    ghost use Rattle.cil_server.specs.Devices.{most_failures};
    ghost use Rattle.cil_server.specs.Streams.{OutputState, buffer_size};

    ghost Value = { OutputState };

    ghost view = { λ a. record { written = W.contents a.writer.now; waiting = a.bytes.items; has_failed = a.failed; failures = W.failed a.writer.now; writer = a.writer.ghost_name } };

    ghost invariant = { λ a. (length a.bytes.items ≤ buffer_size) × (a.failed ≡ false → W.failed a.writer.now < most_failures) };
}

/// The memory of an `Output`: room for the bytes that wait. Fails out of memory.
pub fn new_chunk(alloc: Global) -> Result<Vec<u8>, NoMemory>
    ensures { IfOk result (λ chunk. chunk.items ≡ []) }
{
    Ok(Vec::with_capacity(alloc, CHUNK)?)
}

impl<'a, W: Sink> Output<'a, W> {
    /// A buffer with this memory, in front of a writer. Nothing waits yet.
    pub fn new(writer: &'a mut W, chunk: Vec<u8>) -> Output<'a, W>
        requires empty { chunk.items ≡ [] }
        requires sound { W.failed writer.old < most_failures }
        ensures written { result.written ≡ W.contents writer.old }
        ensures waiting { result.waiting ≡ [] }
        ensures sound { result.has_failed ≡ false }
        ensures failures { result.failures ≡ W.failed writer.old }
        ensures writer { result.writer ≡ writer.entry.ghost_name }
    {
        Output {
            writer,
            bytes: chunk,
            failed: false,
        }
    }

    /// Gives the writer back. The bytes that wait are lost: call `flush` first.
    pub fn into_writer(self) -> &'a mut W
        ensures writer { result.ghost_name ≡ self.entry.writer }
        ensures written { W.contents result.now ≡ self.entry.written }
        ensures failures { W.failed result.now ≡ self.entry.failures }
    {
        self.writer
    }

    /// Whether a call of the writer has failed. From then on all bytes are lost.
    pub fn has_failed(&self) -> bool
        ensures failed { result ≡ self.now.has_failed }
        ensures few { length self.now.waiting ≤ buffer_size }
    {
        self.failed
    }

    /// Tells some bytes. It takes no memory beside that of the buffer: what does not fit is written at once.
    pub fn put(&mut self, bytes: &[u8])
        ensures { Tells self.old self.new bytes.now }
    {
        if bytes.len() > CHUNK.saturating_sub(self.bytes.len()) {
            self.write_through(bytes);
        } else if self.bytes.extend_from_slice(bytes).is_err() {
            self.write_through(bytes);
        }
    }

    fn write_through(&mut self, bytes: &[u8])
        ensures { Tells self.old self.new bytes.now }
    {
        self.flush();
        if self.failed {
            return;
        }
        if !write_all(self.writer, bytes) {
            self.failed = true;
        }
    }

    /// Writes all that waits.
    pub fn flush(&mut self)
        ensures told { Tells self.old self.new [] }
        ensures none { self.new.waiting ≡ [] }
        ensures idle { self.old.waiting ≡ [] → self.new ≡ self.old }
    {
        if self.failed {
            self.bytes.clear();
            return;
        }
        self.failed = !write_all(self.writer, self.bytes.as_slice());
        self.bytes.clear();
    }
}

/// Writes all of some bytes, and answers whether it did. An interrupted call is a failed one.
fn write_all<W: Sink>(writer: &mut W, bytes: &[u8]) -> bool
    requires { W.failed writer.old < most_failures }
    ensures gives { Gives (W.contents writer.old) (W.contents writer.new) bytes.now result }
    ensures counts { GivesCounted (W.failed writer.old) (W.failed writer.new) result }
    ensures idle { length bytes.now ≡ 0 → writer.new ≡ writer.old }
{
    let mut written = 0;
    while written < bytes.len() {
        match writer.push(&bytes[written..]) {
            Ok(0) => return false,
            Ok(count) => written += count,
            Err(_) => return false,
        }
    }
    true
}
