//! Bytes from a reader, taken by the buffer.

ghost use Rattle.std.specs.Prelude.{◌≡◌, ◌<◌, ◌≤◌, ◌+◌, ℕ, [], length, drop, OnErr, OnOk, IfOk};
ghost use Rattle.std.specs.Io.KnownBytes.{Keeps};
ghost use Rattle.cil_server.specs.Devices.{most_failures};
ghost use Rattle.cil_server.specs.Streams.{buffer_size, unread};
ghost use Rattle.cil_server.specs.Taken.{CountsFill, Fills};

use crate::devices::Source;
use cil_base::NoMemory;
use std::alloc::Global;
use std::io;
use std::marker::Model;

/// How many bytes are taken from the reader at once.
const CHUNK: usize = 65_536;

/// A reader's next bytes. Contracts see those that are taken and not yet read, and those that the reader has left.
#[derive(Drop)]
pub(crate) struct Input<'a, R: Source> {
    reader: &'a mut R,
    bytes: Vec<u8>,
    start: usize,
    end: usize,
}

impl<'a, R: Source> Model for Input<'a, R> {
    ghost use Rattle.std.specs.Prelude.{slice_range, ◌≡◌, ◌≤◌, length};
    ghost use Rattle.cil_server.specs.Streams.{InputState, buffer_size};

    ghost Value = { InputState };

    ghost view = { λ a. record { buffered = slice_range a.bytes.items a.start a.end; left = R.rest a.reader.now; failures = R.failed a.reader.now; reader = a.reader.ghost_name } };

    ghost invariant = { λ a. (a.start ≤ a.end) × (a.end ≤ length a.bytes.items) × (length a.bytes.items ≡ buffer_size) };
}

/// Room for the bytes that are taken from a reader at once.
pub(crate) fn new_chunk(alloc: Global) -> Result<Vec<u8>, NoMemory>
    ensures { IfOk result (λ chunk. length chunk.items ≡ buffer_size) }
{
    Ok(vec![in alloc; 0; CHUNK]?)
}

impl<'a, R: Source> Input<'a, R> {
    pub(crate) fn new(reader: &'a mut R, chunk: Vec<u8>) -> Input<'a, R>
        requires { length chunk.items ≡ buffer_size }
        ensures buffered { result.buffered ≡ [] }
        ensures left { result.left ≡ R.rest reader.old }
        ensures failures { result.failures ≡ R.failed reader.old }
        ensures reader { result.reader ≡ reader.entry.ghost_name }
    {
        Input {
            reader,
            bytes: chunk,
            start: 0,
            end: 0,
        }
    }

    /// Gives the reader back. The bytes in the buffer are lost.
    pub(crate) fn into_reader(self) -> &'a mut R
        ensures few { length self.entry.buffered ≤ buffer_size }
        ensures reader { result.ghost_name ≡ self.entry.reader }
        ensures left { R.rest result.now ≡ self.entry.left }
        ensures failures { R.failed result.now ≡ self.entry.failures }
    {
        self.reader
    }

    /// The bytes that are taken and not yet read.
    pub(crate) fn as_slice(&self) -> &[u8]
        ensures { result.now ≡ self.now.buffered }
    {
        &self.bytes[self.start..self.end]
    }

    /// Takes bytes from the reader, and returns whether there were any: at the end of the input there are none.
    pub(crate) fn pull(&mut self) -> io::Result<bool>
        requires empty { self.old.buffered ≡ [] }
        requires sound { self.old.failures < most_failures }
        ensures keeps { Keeps (unread self.old) (unread self.new) }
        ensures fills { IfOk result (Fills self.new.buffered (unread self.new)) }
        ensures failed { OnErr result (self.new.buffered ≡ []) }
        ensures counts { CountsFill result self.old.failures self.new.failures }
        ensures reader { self.new.reader ≡ self.old.reader }
    {
        self.start = 0;
        self.end = 0;
        let count = self.reader.pull(self.bytes.as_mut_slice())?;
        self.end = count;
        if count == 0 {
            return Ok(false);
        }
        Ok(true)
    }

    /// Drops this many bytes from the front of the buffer.
    pub(crate) fn skip(&mut self, count: usize)
        requires { count ≤ length self.old.buffered }
        ensures buffered { self.new.buffered ≡ drop count self.old.buffered }
        ensures left { self.new.left ≡ self.old.left }
        ensures failures { self.new.failures ≡ self.old.failures }
        ensures reader { self.new.reader ≡ self.old.reader }
    {
        self.start += count;
    }
}
