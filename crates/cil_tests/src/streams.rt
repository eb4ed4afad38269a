//! Readers and writers that move few bytes at a time, that wait for each other, and that fail.

ghost use Rattle.std.specs.Prelude.{◌<◌};
ghost use Rattle.cil_server.specs.Devices.{most_failures};

use crate::hosts::{Hashers, new_host};
use cil_server::{Counted, Host, Served, Sink, Source, serve};
use std::alloc::Global;
use std::cell::Cell;
use std::io;
use std::io::{Read, Write};
use std::test::Fail;

/// A reader that gives at most so many bytes a call. Behind so many calls one fails, and those after it go on.
#[derive(Drop)]
struct Failing<'a> {
    bytes: &'a [u8],
    step: usize,
    calls: usize,
}

impl Read for Failing<'_> {
    fn read(&mut self, buffer: &mut [u8]) -> io::Result<usize> {
        if self.calls == 0 {
            self.calls = usize::MAX;
            return Err(io::Error::from(io::ErrorKind::Interrupted));
        }
        self.calls -= 1;
        let count = self.bytes.len().min(self.step).min(buffer.len());
        buffer[..count].copy_from_slice(&self.bytes[..count]);
        self.bytes = &self.bytes[count..];
        Ok(count)
    }
}

/// The same of a writer, whose call fails by an error or by taking nothing, or whose flush fails. It may tell what was flushed.
#[derive(Drop)]
struct Closing<'a> {
    taken: Vec<u8>,
    step: usize,
    calls: usize,
    takes_nothing: bool,
    is_stuck: bool,
    out: Option<&'a Cell<usize>>,
}

impl Write for Closing<'_> {
    fn write(&mut self, bytes: &[u8]) -> io::Result<usize> {
        if self.calls == 0 {
            self.calls = usize::MAX;
            return match self.takes_nothing {
                true => Ok(0),
                false => Err(io::Error::from(io::ErrorKind::BrokenPipe)),
            };
        }
        self.calls -= 1;
        let part = &bytes[..bytes.len().min(self.step)];
        match self.taken.extend_from_slice(part) {
            Ok(()) => Ok(part.len()),
            Err(_) => Err(io::Error::from(io::ErrorKind::OutOfMemory)),
        }
    }

    fn flush(&mut self) -> io::Result<()> {
        if self.is_stuck {
            return Err(io::Error::from(io::ErrorKind::BrokenPipe));
        }
        if let Some(out) = self.out {
            out.set(self.taken.len());
        }
        Ok(())
    }
}

/// 28 bytes: a request ends behind the first 5 and the first 23, and the session behind all.
const INPUT: &[u8] = b"LIST\nINSTALL 8\n(type a)QUIT\n";
/// 15 bytes: a reply ends behind the first 5 and the first 12.
const OUTPUT: &[u8] = b"OK 0\nOK new\nOK\n";

fn make_failing(step: usize, calls: usize) -> Failing<'static> {
    let bytes = INPUT;
    Failing { bytes, step, calls }
}

fn make_closing<'a>(alloc: Global, step: usize, calls: usize, nothing: bool) -> Closing<'a> {
    Closing {
        taken: Vec::new(alloc),
        step,
        calls,
        takes_nothing: nothing,
        is_stuck: false,
        out: None,
    }
}

/// How a session ends, and how many modules the host has then.
fn serve_on<R: Source, W: Sink>(
    alloc: Global,
    host: &mut Host<Hashers>,
    reader: &mut R,
    writer: &mut W,
) -> (Served, usize)
    requires reader { R.failed reader.old < most_failures }
    requires writer { W.failed writer.old < most_failures }
{
    let served = serve(alloc, &mut *host, reader, writer);
    match host.list(alloc) {
        Ok(lines) => (served, lines.len()),
        Err(_) => (served, 99),
    }
}

fn serve_new<R: Source, W: Sink>(alloc: Global, reader: &mut R, writer: &mut W) -> (Served, usize)
    requires reader { R.failed reader.old < most_failures }
    requires writer { W.failed writer.old < most_failures }
{
    match new_host(alloc) {
        Some(mut host) => serve_on(alloc, &mut host, reader, writer),
        None => (Served::Fault(0), 99),
    }
}

/// Whether a session ends as it has to whose reader gives one byte a call, of the first of the input, and then fails.
fn fails_to_read(alloc: Global, given: usize) -> bool {
    let (replied, modules, ending, fails) = match given {
        0..5 => (0, 0, Served::ReadFailed, 1),
        5..23 => (5, 0, Served::ReadFailed, 1),
        23..28 => (12, 1, Served::ReadFailed, 1),
        _ => (15, 1, Served::Quit, 0),
    };
    let mut reader = Counted::new(make_failing(1, given));
    let mut writer = Counted::new(Vec::new(alloc));
    let (served, found) = serve_new(alloc, &mut reader, &mut writer);
    let written = writer.into_inner();
    served == ending
        && found == modules
        && Source::failed(&reader) == fails
        && written.as_slice() == &OUTPUT[..replied]
}

#[test]
fn a_reader_may_fail_at_each_call(rt: HostRuntime) {
    for given in 0..30usize {
        assert!(rt; fails_to_read(rt.alloc(), given), "behind {given} bytes");
    }
}

/// Whether a session ends as it has to whose reader gives this many bytes a call, and whose writer takes one a call and then fails.
fn fails_to_write(alloc: Global, step: usize, taken: usize, takes_nothing: bool) -> bool {
    let (ending, fails) = match taken {
        0..15 => (Served::WriteFailed, 1),
        _ => (Served::Quit, 0),
    };
    // Byte by byte, each reply is written before the next request is read; where all come at once, behind the last.
    let (read, modules) = match (step, taken) {
        (1, 0..5) => (5, 0),
        (1, 5..12) => (23, 1),
        _ => (28, 1),
    };
    let mut reader = Counted::new(make_failing(step, 28));
    let mut writer = Counted::new(make_closing(alloc, 1, taken, takes_nothing));
    let (served, found) = serve_new(alloc, &mut reader, &mut writer);
    let failed = Sink::failed(&writer);
    let written = writer.into_inner();
    served == ending
        && found == modules
        && failed == fails
        && reader.into_inner().bytes.len() == 28 - read
        && written.taken.as_slice() == &OUTPUT[..taken.min(15)]
}

#[test]
fn a_writer_may_fail_at_each_call(rt: HostRuntime) {
    for taken in 0..17usize {
        for &(step, nothing) in &[(1usize, false), (1, true), (100, false), (100, true)] {
            let fails = fails_to_write(rt.alloc(), step, taken, nothing);
            assert!(rt; fails, "behind {taken} bytes, {step} a read, {nothing}");
        }
    }
}

/// A reader that sends a part when this many bytes are flushed, and fails where it is asked before, or behind the last.
#[derive(Drop)]
struct Asking<'a> {
    parts: &'a [(usize, &'a [u8])],
    out: &'a Cell<usize>,
}

impl Read for Asking<'_> {
    fn read(&mut self, buffer: &mut [u8]) -> io::Result<usize> {
        let [(out, part), rest @ ..] = self.parts else {
            return Err(io::Error::from(io::ErrorKind::WouldBlock));
        };
        if self.out.get() != *out || part.len() > buffer.len() {
            return Err(io::Error::from(io::ErrorKind::WouldBlock));
        }
        buffer[..part.len()].copy_from_slice(part);
        self.parts = rest;
        Ok(part.len())
    }
}

/// What comes in by a call, behind as many bytes of replies as have to be out before it.
type Part = (usize, &'static [u8]);

/// What comes in call by call, all replies, how the session ends, and how many modules the host has then.
const ASKED: &[(&[Part], &[u8], Served, usize)] = &[
    // Each reply is out before more is read: behind a whole request, within a line, within a body, behind a body.
    (
        &[
            (0, b"LIST\n"),
            (5, b"LIST\nLI"),
            (10, b"ST\nINSTALL 8\n(typ"),
            (15, b"e a)"),
            (22, b"INSTALL 8\n"),
            (22, b"(type a)"),
            (31, b"AV x\nQUIT\n"),
        ],
        b"OK 0\nOK 0\nOK 0\nOK new\nOK known\nERR 81\nOK\n",
        Served::Quit,
        1,
    ),
    // Nothing is asked for behind QUIT, though more could come.
    (&[(0, b"QUIT\n")], b"OK\n", Served::Quit, 0),
    (&[(0, b"QUIT\nLIST\n")], b"OK\n", Served::Quit, 0),
    // An empty part is the end of the input: nothing is asked for behind it.
    (&[(0, b"LIST\n"), (5, b"")], b"OK 0\n", Served::End, 0),
    (&[(0, b"")], b"", Served::End, 0),
    // A request that is cut changes nothing: in a line, in a body, and before one. A body that is too long is not asked for.
    (&[(0, b"LIST\nLI"), (5, b"")], b"OK 0\nERR 83\n", CUT, 0),
    (&[(0, b"LIST"), (0, b"")], b"ERR 83\n", CUT, 0),
    (&[(0, b"INSTALL 10\n(typ"), (0, b"")], b"ERR 83\n", CUT, 0),
    (&[(0, b"INSTALL 1\n"), (0, b"")], b"ERR 83\n", CUT, 0),
    (&[(0, b"INSTALL 67108865\n")], b"ERR 84\n", LONG, 0),
];

const CUT: Served = Served::Fault(83);

const LONG: Served = Served::Fault(84);

/// Whether a session with a client that waits for its replies ends so, with all replies out.
fn answers_so(alloc: Global, parts: &[Part], output: &[u8], ending: (Served, usize)) -> bool {
    let out = Cell::new(0);
    let mut closing = make_closing(alloc, usize::MAX, usize::MAX, false);
    closing.out = Some(&out);
    let mut reader = Counted::new(Asking { parts, out: &out });
    let mut writer = Counted::new(closing);
    let (served, found) = serve_new(alloc, &mut reader, &mut writer);
    let written = writer.into_inner();
    (served, found) == ending && out.get() == output.len() && written.taken.as_slice() == output
}

#[test]
fn each_reply_is_out_before_more_is_asked_for(rt: HostRuntime) {
    for &(parts, output, served, modules) in ASKED {
        let is_so = answers_so(rt.alloc(), parts, output, (served, modules));
        assert!(rt; is_so, "{output:?}");
    }
}

/// Whether the writer fails in a long reply, and the request that came with it is not begun.
fn stops_in_a_long_reply(alloc: Global, host: &mut Host<Hashers>) -> bool {
    let mut reader = Counted::new(b"EXPORT\nINSTALL 8\n(type a)QUIT\n".as_slice());
    let mut writer = Counted::new(make_closing(alloc, 10, 3, false));
    let ending = serve_on(alloc, host, &mut reader, &mut writer);
    let written = writer.into_inner();
    let want = b"OK 70021\nCILB\x01\0\0\0\0\0\0\0\x01\0\0\0\0\0\x01\x11".as_slice();
    ending == (Served::WriteFailed, 1) && written.taken.as_slice() == want
}

/// Whether a host keeps a text of so many spaces.
fn keeps_spaces(alloc: Global, host: &mut Host<Hashers>, count: usize) -> bool {
    match vec![in alloc; b' '; count] {
        Ok(text) => host.install(alloc, text.as_slice()).is_ok(),
        Err(_) => false,
    }
}

#[test]
fn no_request_is_begun_once_the_writer_has_failed(rt: HostRuntime) -> Result<(), Fail> {
    let mut host = new_host(rt.alloc()).ok_or("no host")?;
    let is_so = keeps_spaces(rt.alloc(), &mut host, 70_000)
        && stops_in_a_long_reply(rt.alloc(), &mut host);
    assert!(rt; is_so);
    Ok(())
}

#[test]
fn a_failed_flush_is_a_failed_write(rt: HostRuntime) {
    let mut stuck = make_closing(rt.alloc(), 100, 9, false);
    stuck.is_stuck = true;
    let mut reader = Counted::new(b"LIST\nQUIT\n".as_slice());
    let mut writer = Counted::new(stuck);
    let ending = serve_new(rt.alloc(), &mut reader, &mut writer);
    let failed = Sink::failed(&writer);
    let written = writer.into_inner();
    assert!(rt; ending == (Served::WriteFailed, 0) && failed == 1 && written.calls == 8);
}
