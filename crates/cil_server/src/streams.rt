//! The input and the output of a session. All replies are written before each read.

ghost use Rattle.std.specs.Prelude.{◌≡◌, ◌<◌, ◌≤◌, ◌++◌, ℕ, suc, [], false, length, IfSome, IsSomeAnd};
ghost use Rattle.cil_server.specs.Asked.{longest_line};
ghost use Rattle.cil_server.specs.Devices.{most_failures};
ghost use Rattle.std.specs.Io.KnownBytes.{Keeps};
ghost use Rattle.cil_server.specs.Streams.{unread};
ghost use Rattle.cil_server.specs.Taken.{Fills, FillsOr, IsBodyTaken, IsLineTaken, Moves, Takes, body_failure, byte_failure, ending_of, failure_of, line_failure};

use crate::devices::{Sink, Source};
use crate::input::Input;
use crate::output::Output;
use crate::served::Served;
use std::alloc::Global;

/// The input and the output of a session.
#[derive(Drop)]
pub(crate) struct Streams<'r, 'w, R: Source, W: Sink> {
    pub(crate) input: Input<'r, R>,
    pub(crate) output: Output<'w, W>,
}

/// Which stream has failed.
#[derive(Clone, Copy)]
pub(crate) enum Broken {
    Reader,
    Writer,
}

impl Broken {
    /// How the session ends.
    pub(crate) fn ending(self) -> Served
        ensures { result ≡ ending_of self }
    {
        match self {
            Broken::Reader => Served::ReadFailed,
            Broken::Writer => Served::WriteFailed,
        }
    }
}

/// One byte, or why there is none.
#[derive(Clone, Copy)]
pub(crate) enum Taken {
    Byte(u8),
    /// The input ends here.
    End,
    Failed(Broken),
}

/// A line, or why there is none.
#[derive(Clone, Copy)]
pub(crate) enum LineTaken {
    /// A line, of this many bytes.
    Whole(usize),
    /// The input ends here.
    End,
    /// More bytes without a newline than a line may have.
    TooLong,
    /// The input ends in a line.
    Cut,
    Failed(Broken),
}

/// A body, or why there is none.
#[derive(Drop)]
pub(crate) enum Body {
    Whole(Vec<u8>),
    /// There is no memory to hold it; its bytes are read.
    Dropped,
    /// The input ends in it.
    Cut,
    Failed(Broken),
}

impl<'r, 'w, R: Source, W: Sink> Streams<'r, 'w, R, W> {
    /// Makes sure that the buffer has bytes, and returns whether it has: at the end of the input there are none. All replies are
    /// written before the reader is asked, since the other side may wait for them before it sends more.
    fn fill(&mut self) -> Result<bool, Broken>
        requires reader { self.old.input.failures < most_failures }
        requires writer { self.old.output.has_failed ≡ false }
        ensures keeps { Keeps (unread self.old.input) (unread self.new.input) }
        ensures fills { FillsOr self.new.input.buffered (unread self.new.input) result }
        ensures moves { Moves self.old.input self.old.output self.new.input self.new.output (failure_of result) }
    {
        if !self.input.as_slice().is_empty() {
            return Ok(true);
        }
        self.output.flush();
        if self.output.has_failed() {
            return Err(Broken::Writer);
        }
        match self.input.pull() {
            Ok(is_filled) => Ok(is_filled),
            Err(_) => Err(Broken::Reader),
        }
    }

    fn next(&mut self) -> Taken
        requires reader { self.old.input.failures < most_failures }
        requires writer { self.old.output.has_failed ≡ false }
        ensures takes { Takes (unread self.old.input) (unread self.new.input) result }
        ensures moves { Moves self.old.input self.old.output self.new.input self.new.output (byte_failure result) }
    {
        match self.fill() {
            Ok(true) => {
                let byte = self.input.as_slice()[0];
                self.input.skip(1);
                Taken::Byte(byte)
            }
            Ok(false) => Taken::End,
            Err(broken) => Taken::Failed(broken),
        }
    }

    /// Reads a line into a buffer with room for one byte more than the longest line.
    pub(crate) fn take_line(&mut self, line: &mut Vec<u8>) -> LineTaken
        requires room { length line.old.items ≡ suc longest_line }
        requires reader { self.old.input.failures < most_failures }
        requires writer { self.old.output.has_failed ≡ false }
        ensures len { length line.new.items ≡ length line.old.items }
        ensures line { IsLineTaken (unread self.old.input) (unread self.new.input) line.new.items result }
        ensures moves { Moves self.old.input self.old.output self.new.input self.new.output (line_failure result) }
    {
        for filled in 0..line.len() {
            match self.next() {
                Taken::Byte(b'\n') => return LineTaken::Whole(filled),
                Taken::Byte(byte) => line[filled] = byte,
                Taken::End if filled == 0 => return LineTaken::End,
                Taken::End => return LineTaken::Cut,
                Taken::Failed(broken) => return LineTaken::Failed(broken),
            }
        }
        LineTaken::TooLong
    }

    /// Reads a body of this many bytes.
    pub(crate) fn take_body(&mut self, alloc: Global, count: usize) -> Body
        requires reader { self.old.input.failures < most_failures }
        requires writer { self.old.output.has_failed ≡ false }
        ensures body { IsBodyTaken (unread self.old.input) (unread self.new.input) count result }
        ensures moves { Moves self.old.input self.old.output self.new.input self.new.output (body_failure result) }
    {
        let mut held = Vec::with_capacity(alloc, count).ok();
        let mut left = count;
        while left > 0 {
            match self.fill() {
                Ok(true) => {
                    let part = self.input.as_slice();
                    let part = &part[..part.len().min(left)];
                    let size = part.len();
                    held = extended(held, part);
                    self.input.skip(size);
                    left -= size;
                }
                Ok(false) => return Body::Cut,
                Err(broken) => return Body::Failed(broken),
            }
        }
        match held {
            Some(body) => Body::Whole(body),
            None => Body::Dropped,
        }
    }
}

/// The bytes with some more, or nothing where there is no memory for them.
fn extended(held: Option<Vec<u8>>, more: &[u8]) -> Option<Vec<u8>>
    ensures { IfSome result (λ body. IsSomeAnd held (λ before. body.items ≡ before.items ++ more.now)) }
{
    let mut body = held?;
    match body.extend_from_slice(more) {
        Ok(()) => Some(body),
        Err(_) => None,
    }
}
