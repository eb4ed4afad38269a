//! What a session reads from and writes to.

ghost use Rattle.std.specs.Prelude.{◌≡◌, ◌<◌, ℕ, List, Option};
ghost use Rattle.std.specs.Io.{ReadsAtMost, WritesAtMost};
ghost use Rattle.std.specs.Io.KnownBytes.{ReadConsumes};
ghost use Rattle.cil_server.specs.Devices.{CountsPull, CountsPush, IsLost, PushAppends, most_failures};

use std::io::{self, Read, Write};

/// Where requests come from: a reader that counts its failed calls.
pub trait Source {
    // The bytes that pulls will give from here on, where they are known.
    ghost rest: { Self → Option (List ℕ) };

    // How many pulls have failed.
    ghost failed: { Self → ℕ };

    /// Moves bytes into the buffer as `Read::read` does. Every error counts as a failed call, an interruption too.
    fn pull(&mut self, buffer: &mut [u8]) -> io::Result<usize>
        requires { failed self.old < most_failures }
        ensures bound { ReadsAtMost result buffer.new }
        ensures bytes { ReadConsumes (rest self.old) (rest self.new) result buffer.new }
        ensures counts { CountsPull result (failed self.old) (failed self.new) };

    /// How many pulls have failed.
    fn failed(&self) -> u64
        ensures { result ≡ failed self.now };
}

/// Where replies go: a writer that counts its failed calls.
pub trait Sink {
    // The bytes that the sink has, where they are known.
    ghost contents: { Self → Option (List ℕ) };

    // How many pushes have failed.
    ghost failed: { Self → ℕ };

    /// Moves bytes as `Write::write` does, and passes them on at once. A call fails if it returns an error, an interruption too,
    /// or if it takes none of some bytes. After an error some of the first bytes may be written.
    fn push(&mut self, bytes: &[u8]) -> io::Result<usize>
        requires { failed self.old < most_failures }
        ensures bound { WritesAtMost result bytes.now }
        ensures bytes { PushAppends (contents self.old) (contents self.new) result bytes.now }
        ensures counts { CountsPush result bytes.now (failed self.old) (failed self.new) };

    /// How many pushes have failed.
    fn failed(&self) -> u64
        ensures { result ≡ failed self.now };
}

/// A reader or a writer, with the number of its calls that have failed.
#[derive(Drop)]
pub struct Counted<T> {
    inner: T,
    failed: u64,
}

impl<T> Counted<T> {
    /// Counts from 0.
    pub fn new(inner: T) -> Counted<T>
        ensures inner { result.inner ≡ inner }
        ensures failed { result.failed ≡ 0 }
    {
        Counted { inner, failed: 0 }
    }

    /// The reader or the writer.
    pub fn into_inner(self) -> T
        ensures { result ≡ self.inner }
    {
        self.inner
    }
}

impl<T: Read> Source for Counted<T> {
    ghost rest = { λ a. T.remaining a.inner };

    ghost failed = { λ a. a.failed };

    fn pull(&mut self, buffer: &mut [u8]) -> io::Result<usize> {
        let pulled = self.inner.read(buffer);
        if pulled.is_err() {
            self.failed += 1;
        }
        pulled
    }

    fn failed(&self) -> u64 {
        self.failed
    }
}

impl<T: Write> Sink for Counted<T> {
    ghost contents = { λ a. T.contents a.inner };

    ghost failed = { λ a. a.failed };

    fn push(&mut self, bytes: &[u8]) -> io::Result<usize> {
        let pushed = pushed(&mut self.inner, bytes);
        if is_lost(&pushed, bytes) {
            self.failed += 1;
        }
        pushed
    }

    fn failed(&self) -> u64 {
        self.failed
    }
}

/// Writes some of the bytes, and flushes the writer.
fn pushed<T: Write>(writer: &mut T, bytes: &[u8]) -> io::Result<usize>
    ensures bound { WritesAtMost result bytes.now }
    ensures bytes { PushAppends (T.contents writer.old) (T.contents writer.new) result bytes.now }
{
    let count = writer.write(bytes)?;
    match writer.flush() {
        Ok(()) => Ok(count),
        Err(error) => Err(error),
    }
}

/// Whether a call of a writer has failed.
fn is_lost(pushed: &io::Result<usize>, bytes: &[u8]) -> bool
    ensures { IsLost result pushed.now bytes.now }
{
    match pushed {
        Ok(count) => *count == 0 && !bytes.is_empty(),
        Err(_) => true,
    }
}
