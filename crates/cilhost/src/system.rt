//! What a command needs of the system beside its streams.

ghost use Rattle.std.specs.Prelude.{◌≡◌, ℕ, List, Option, None, Some, IfErr, IfOk, IfSome, OnErr, OnOk, take};
ghost use Rattle.std.specs.IoError.{error_kind};
ghost use Rattle.cilhost.specs.Reading.{Failure, Known};
ghost use Rattle.cilhost.specs.Written.{Written, with_file};

use std::alloc::Global;
use std::fs;
use std::hash::{BuildHasher, RandomState};
use std::io::{self, ErrorKind, Read};
use std::random::RandomSource;
use std::rt::Files;

/// What a command needs of the system: files by their names, and what the host's cache hashes with.
pub trait System {
    /// The bytes of the file of this name, where they are known.
    ghost holds: { Self → List ℕ → Known } = { λ _ _. None };

    /// The files that were written whole, where that is known.
    ghost written: { Self → Written } = { λ _. None };

    /// The kind of the error of the last call that failed.
    ghost failure: { Self → Failure };

    /// What the host's cache of decisions hashes with.
    type Hasher: BuildHasher + Drop;

    /// Reads a file: its first bytes up to a limit, or all of them.
    fn read(&mut self, alloc: Global, name: &str, limit: u64) -> io::Result<Vec<u8>>
        ensures bytes { IfOk result (λ text. IfSome (holds self.old name.now) (λ bytes. text.items ≡ take limit bytes)) }
        ensures stays { holds self.new ≡ holds self.old }
        ensures unwritten { written self.new ≡ written self.old }
        ensures sound { OnOk result (failure self.new ≡ failure self.old) }
        ensures failed { IfErr result (λ error. failure self.new ≡ Some (error_kind error)) };

    /// Writes a file, in place of one of this name that there may be. After an error it is not known what the file holds.
    fn write(&mut self, name: &str, bytes: &[u8]) -> io::Result<()>
        ensures whole { OnOk result (written self.new ≡ with_file name.now bytes.now (written self.old)) }
        ensures part { OnErr result (written self.new ≡ written self.old) }
        ensures sound { OnOk result (failure self.new ≡ failure self.old) }
        ensures failed { IfErr result (λ error. failure self.new ≡ Some (error_kind error)) };

    /// Makes what the host's cache hashes with.
    fn hasher(&mut self) -> io::Result<Self::Hasher>
        ensures stays { holds self.new ≡ holds self.old }
        ensures unwritten { written self.new ≡ written self.old }
        ensures sound { OnOk result (failure self.new ≡ failure self.old) }
        ensures failed { IfErr result (λ error. failure self.new ≡ Some (error_kind error)) };
}

/// The machine that the program runs on: its files, and a hasher with random keys, so that nobody can choose
/// queries that all fall into one place of the host's cache.
#[derive(Drop)]
pub struct Machine<'a, R> {
    rt: &'a R,
    failure: Option<ErrorKind>,
}

impl<'a, R> Machine<'a, R> {
    /// The machine of this runtime.
    pub fn new(rt: &'a R) -> Machine<'a, R>
        ensures { result.failure ≡ None }
    {
        Machine { rt, failure: None }
    }
}

impl<R: Files + RandomSource> System for Machine<'_, R> {
    ghost failure = { λ s. s.failure };

    type Hasher = RandomState;

    fn read(&mut self, alloc: Global, name: &str, limit: u64) -> io::Result<Vec<u8>> {
        let text = read_file(self.rt, alloc, name, limit);
        note(&mut self.failure, &text);
        text
    }

    fn write(&mut self, name: &str, bytes: &[u8]) -> io::Result<()> {
        let done = fs::write(self.rt, name, bytes);
        note(&mut self.failure, &done);
        done
    }

    fn hasher(&mut self) -> io::Result<RandomState> {
        let hasher = RandomState::new(self.rt);
        note(&mut self.failure, &hasher);
        hasher
    }
}

/// Notes the kind of the error where a call has failed.
pub fn note<T>(failure: &mut Option<ErrorKind>, outcome: &io::Result<T>)
    ensures sound { OnOk outcome.now (failure.new ≡ failure.old) }
    ensures failed { IfErr outcome.now (λ error. failure.new ≡ Some (error_kind error)) }
{
    if let Err(error) = outcome {
        *failure = Some(error.kind());
    }
}

/// Reads a file of the machine, up to a limit.
fn read_file<R: Files>(rt: &R, alloc: Global, name: &str, limit: u64) -> io::Result<Vec<u8>> {
    let file = fs::open(rt, name)?;
    start_of(alloc, file, limit)
}

/// Reads the first bytes of a reader up to a limit, or all of them.
pub fn start_of<F: Read + Drop>(alloc: Global, reader: F, limit: u64) -> io::Result<Vec<u8>>
    ensures { IfOk result (λ text. IfSome (F.remaining reader) (λ bytes. text.items ≡ take limit bytes)) }
{
    let mut start = reader.take(limit);
    let mut text = Vec::new(alloc);
    start.read_to_end(&mut text)?;
    Ok(text)
}
