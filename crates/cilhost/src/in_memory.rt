//! Files, streams and whole runs in memory, for the tests.

ghost use Rattle.std.specs.Prelude.{◌≡◌, ◌≤◌, ◌∷◌, ◌++◌, [], IfOk, OnErr, OnOk, Some, find, map, option_map};
ghost use Rattle.std.specs.Str.{bytes_eq};

use crate::capacity::CAPACITY;
use crate::check::run_check;
use crate::compile::run_compile;
use crate::decide::{Query, run_decide};
use crate::locate::run_locate;
use crate::program::{Streams, run};
use crate::session::run_session;
use crate::status::Status;
use crate::system::{System, note, start_of};
use cil_base::{Bytes, NoMemory};
use cil_commands::Counted;
use std::alloc::{AllocError, Global};
use std::hash::{BuildHasherDefault, DefaultHasher};
use std::io::{self, ErrorKind, Read, Write};

/// A reader in memory, which may fail where its bytes end.
#[derive(Drop)]
pub struct MemoryReader<'a> {
    pub rest: &'a [u8],
    pub fails: Option<ErrorKind>,
}

impl Read for MemoryReader<'_> {
    ghost remaining = { λ r. Some r.rest.now };

    fn read(&mut self, buf: &mut [u8]) -> io::Result<usize> {
        match self.fails {
            Some(kind) if self.rest.is_empty() => Err(io::Error::from(kind)),
            _ => self.rest.read(buf),
        }
    }
}

/// A system in memory, with files whose bytes are known: the name of each, its bytes, and the error that reading it gives where they end.
#[derive(Clone, Copy)]
pub struct MemorySystem<'a> {
    pub files: &'a [(&'a str, &'a [u8], Option<ErrorKind>)],
    pub no_hasher: Option<ErrorKind>,
    pub failure: Option<ErrorKind>,
}

impl System for MemorySystem<'_> {
    ghost holds = { λ s name. option_map (λ f. f.1.now) (find (λ f. bytes_eq f.0.now name) s.files.now) };

    ghost failure = { λ s. s.failure };

    type Hasher = BuildHasherDefault<DefaultHasher>;

    fn read(&mut self, alloc: Global, name: &str, limit: u64) -> io::Result<Vec<u8>> {
        let text = match file_named(self.files, name) {
            Some((_, bytes, fails)) => start_of(
                alloc,
                MemoryReader {
                    rest: *bytes,
                    fails: *fails,
                },
                limit,
            ),
            None => Err(io::Error::from(ErrorKind::NotFound)),
        };
        note(&mut self.failure, &text);
        text
    }

    fn write(&mut self, _name: &str, _bytes: &[u8]) -> io::Result<()> {
        let done = Err(io::Error::from(ErrorKind::PermissionDenied));
        note(&mut self.failure, &done);
        done
    }

    fn hasher(&mut self) -> io::Result<BuildHasherDefault<DefaultHasher>> {
        let hasher = match self.no_hasher {
            Some(kind) => Err(io::Error::from(kind)),
            None => Ok(BuildHasherDefault::new()),
        };
        note(&mut self.failure, &hasher);
        hasher
    }
}

/// A file that was written whole.
#[derive(Drop)]
pub struct WrittenFile {
    name: Bytes,
    bytes: Bytes,
}

impl WrittenFile {
    /// Whether it has just this name and these bytes.
    pub fn is(&self, name: &str, bytes: &[u8]) -> bool {
        self.name.as_slice() == name.as_bytes() && self.bytes.as_slice() == bytes
    }
}

/// A system in memory that keeps what is written: the files that it reads, and the error that writing a file gives, if it gives one.
#[derive(Drop)]
pub struct KeepingSystem<'a> {
    pub alloc: Global,
    pub files: MemorySystem<'a>,
    pub written: Vec<WrittenFile>,
    pub fails: Option<ErrorKind>,
}

impl System for KeepingSystem<'_> {
    ghost holds = { λ s name. option_map (λ f. f.1.now) (find (λ f. bytes_eq f.0.now name) s.files.files.now) };

    ghost written = { λ s. Some (map (λ f. (f.name, f.bytes)) s.written.items) };

    ghost failure = { λ s. s.files.failure };

    type Hasher = BuildHasherDefault<DefaultHasher>;

    fn read(&mut self, alloc: Global, name: &str, limit: u64) -> io::Result<Vec<u8>> {
        self.files.read(alloc, name, limit)
    }

    fn write(&mut self, name: &str, bytes: &[u8]) -> io::Result<()> {
        let done = match self.fails {
            Some(kind) => Err(io::Error::from(kind)),
            None => keep(self.alloc, &mut self.written, name, bytes),
        };
        note(&mut self.files.failure, &done);
        done
    }

    fn hasher(&mut self) -> io::Result<BuildHasherDefault<DefaultHasher>> {
        self.files.hasher()
    }
}

/// Keeps one file more.
fn keep(alloc: Global, written: &mut Vec<WrittenFile>, name: &str, bytes: &[u8]) -> io::Result<()>
    ensures whole { OnOk result (written.new.items ≡ written.old.items ++ record { name = name.now; bytes = bytes.now } ∷ []) }
    ensures part { OnErr result (written.new.items ≡ written.old.items) }
{
    match copied(alloc, name, bytes) {
        Ok(file) => match written.push(file) {
            Ok(()) => Ok(()),
            Err(_) => Err(io::Error::from(ErrorKind::OutOfMemory)),
        },
        Err(NoMemory) => Err(io::Error::from(ErrorKind::OutOfMemory)),
    }
}

/// A file with a copy of this name and these bytes.
fn copied(alloc: Global, name: &str, bytes: &[u8]) -> Result<WrittenFile, NoMemory>
    ensures { IfOk result (λ file. file ≡ record { name = name.now; bytes = bytes.now }) }
{
    let name = Bytes::copy_of(alloc, name.as_bytes())?;
    let bytes = Bytes::copy_of(alloc, bytes)?;
    Ok(WrittenFile { name, bytes })
}

/// The first file of a name.
fn file_named<'a>(
    files: &'a [(&'a str, &'a [u8], Option<ErrorKind>)],
    name: &str,
) -> Option<&'a (&'a str, &'a [u8], Option<ErrorKind>)>
    ensures { option_map (λ f. f.now) result ≡ find (λ f. bytes_eq f.0.now name.now) files.now }
{
    files.iter().find(|file| file.0 == name)
}

/// An output that always fails.
#[derive(Drop)]
pub struct Closed;

impl Write for Closed {
    fn write(&mut self, _buf: &[u8]) -> io::Result<usize> {
        Err(io::Error::from(ErrorKind::BrokenPipe))
    }

    fn flush(&mut self) -> io::Result<()> {
        Ok(())
    }
}

/// Files that are modules, one of which has a fault without the others, and files that are no modules.
pub const FILLED: MemorySystem<'static> = MemorySystem {
    files: &[
        ("good.cil", b"(type a)", None),
        ("faulty.cil", b"(role r)(roletype r a)", None),
        ("bad.cil", b"(type b))", None),
        ("worse.cil", b"(type c", None),
        ("empty.cil", b"", None),
        ("cut.cil", b"(type a)", Some(ErrorKind::ConnectionReset)),
        ("large.cil", b"(type a)", Some(ErrorKind::OutOfMemory)),
    ],
    no_hasher: None,
    failure: None,
};

/// What a run leaves: its status, its output and its messages.
#[derive(Drop)]
pub struct Left {
    pub status: Status,
    pub output: Vec<u8>,
    pub messages: Vec<u8>,
}

impl Left {
    /// Whether a run left just this.
    pub fn is(&self, status: Status, output: &str, messages: &str) -> bool {
        self.status == status
            && self.output.as_slice() == output.as_bytes()
            && self.messages.as_slice() == messages.as_bytes()
    }
}

/// What a run left in its streams.
fn what_is_left(
    status: Status,
    streams: Streams<Counted<&[u8]>, Counted<Vec<u8>>, Vec<u8>>,
) -> Left {
    let Streams {
        input: _,
        output,
        messages,
    } = streams;
    Left {
        status,
        output: output.into_inner(),
        messages,
    }
}

/// A session over files and an input in memory, with a cache of the usual size.
pub fn session(alloc: Global, system: MemorySystem<'_>, files: &[&str], input: &[u8]) -> Left {
    cached_session(alloc, CAPACITY, system, files, input)
}

/// A session whose cache may hold so many decisions.
pub fn cached_session(
    alloc: Global,
    capacity: usize,
    mut system: MemorySystem<'_>,
    files: &[&str],
    input: &[u8],
) -> Left
    requires least { 1 ≤ capacity }
    requires most { capacity ≤ 65536 }
{
    let mut streams = Streams {
        input: Counted::new(input),
        output: Counted::new(Vec::new(alloc)),
        messages: Vec::new(alloc),
    };
    let status = run_session(alloc, capacity, files, &mut system, &mut streams);
    what_is_left(status, streams)
}

/// A search for the faults of files in memory.
pub fn located(alloc: Global, mut system: MemorySystem<'_>, files: &[&str]) -> Left {
    let mut output = Counted::new(Vec::new(alloc));
    let mut messages = Vec::new(alloc);
    let status = run_locate(alloc, files, false, &mut system, &mut output, &mut messages);
    Left {
        status,
        output: output.into_inner(),
        messages,
    }
}

/// A check of files in memory.
pub fn check(alloc: Global, mut system: MemorySystem<'_>, files: &[&str]) -> Left {
    let mut output = Counted::new(Vec::new(alloc));
    let mut messages = Vec::new(alloc);
    let status = run_check(alloc, files, &mut system, &mut output, &mut messages);
    Left {
        status,
        output: output.into_inner(),
        messages,
    }
}

/// Files in memory, of which none is written yet.
pub fn keeping<'a>(alloc: Global, files: MemorySystem<'a>) -> KeepingSystem<'a> {
    KeepingSystem {
        alloc,
        files,
        written: Vec::new(alloc),
        fails: None,
    }
}

/// A compilation of files in memory to the file `t`.
pub fn compile(alloc: Global, system: &mut KeepingSystem<'_>, files: &[&str]) -> Left {
    let mut output = Counted::new(Vec::new(alloc));
    let mut messages = Vec::new(alloc);
    let status = run_compile(alloc, "t", files, system, &mut output, &mut messages);
    Left {
        status,
        output: output.into_inner(),
        messages,
    }
}

/// A query of the file `t` in memory.
pub fn decide(alloc: Global, mut system: MemorySystem<'_>, query: Query<'_>) -> Left {
    let mut output = Counted::new(Vec::new(alloc));
    let mut messages = Vec::new(alloc);
    let status = run_decide(alloc, "t", query, &mut system, &mut output, &mut messages);
    Left {
        status,
        output: output.into_inner(),
        messages,
    }
}

/// The program over some words behind its name, with the files above and no input.
pub fn program(alloc: Global, words: &[&str]) -> Result<Left, AllocError> {
    let mut all = Vec::new(alloc);
    all.push(String::from_str(alloc, "cilhost")?)?;
    for word in words {
        all.push(String::from_str(alloc, word)?)?;
    }
    let mut system = FILLED;
    let mut streams = Streams {
        input: Counted::new(b"".as_slice()),
        output: Counted::new(Vec::new(alloc)),
        messages: Vec::new(alloc),
    };
    let status = run(alloc, all.as_slice(), &mut system, &mut streams);
    Ok(what_is_left(status, streams))
}
