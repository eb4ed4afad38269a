//! The program over its words and its streams.

ghost use Rattle.std.specs.Prelude.{◌≡◌, ◌≢◌, ◌⊎◌, ◌<◌, ℕ, List, Option, Some, IfErr, codes, map, option_map, string_bytes};
ghost use Rattle.clap.specs.Matches.{first_value, found_of};
ghost use Rattle.clap.specs.Words.{kind_of};
ghost use Rattle.cil_commands.specs.server.Devices.{most_failures};
ghost use Rattle.cilhost.specs.Answered.{HasAnswered};
ghost use Rattle.cilhost.specs.Arguments.{AskForCheck, AskForCompile, AskForDecide, AskForSession, AsksForCache, HasNoCapacity, HasWords};
ghost use Rattle.cilhost.specs.Checks.{RunsCheck};
ghost use Rattle.cilhost.specs.Compiles.{IsCompile, RunsCompile};
ghost use Rattle.cilhost.specs.Decides.{IsDecide, RunsDecide};
ghost use Rattle.cilhost.specs.Ends.{HasServedNothing, answer_to, error_status};
ghost use Rattle.cilhost.specs.Sessions.{IsSession, RunsSession};
ghost use Rattle.std.specs.Borrow.{Bor};

use crate::arguments::{
    CACHE, CHECK, CLASS, COMPILE, DECIDE, FILE, LOCATE, OPTIONALS, OUT, SESSION, SOURCE, TABLES,
    TARGET, matches,
};
use crate::capacity::{capacity_of, refuse};
use crate::check::run_check;
use crate::compile::run_compile;
use crate::decide::{Query, run_decide};
use crate::error::{Error, STREAMS};
use crate::locate::run_locate;
use crate::session::run_session;
use crate::status::Status;
use crate::system::System;
use cil_commands::{Sink, Source};
use clap::ArgMatches;
use clap::error::ErrorKind;
use std::alloc::Global;
use std::io::Write;

/// The streams of a program.
#[derive(Drop)]
pub struct Streams<R, W, E> {
    /// The standard input.
    pub input: R,
    /// The standard output.
    pub output: W,
    /// The standard error.
    pub messages: E,
}

/// Does what the words ask for, of which the first is the program's name.
pub fn run<Y: System, R: Source, W: Sink, E: Write>(
    alloc: Global,
    words: &[String],
    system: &mut Y,
    streams: &mut Streams<R, W, E>,
) -> Status
    requires reader { R.failed streams.old.input < most_failures }
    requires writer { W.failed streams.old.output < most_failures }
    // A session that is asked for by its name, with or without a number behind `--cache`, over files whose names do not begin with `-`.
    ensures session { (size : Option (List ℕ)) (capacity : ℕ) (names : List (List ℕ)) → AskForSession (map string_bytes words.now) size names → AsksForCache size capacity
        → RunsSession (Y.holds system.old) (Y.failure system.old) (Y.failure system.new) names
        (record { bytes = R.rest streams.old.input; failures = R.failed streams.old.input }) (record { bytes = R.rest streams.new.input; failures = R.failed streams.new.input })
        (record { bytes = W.contents streams.old.output; failures = W.failed streams.old.output }) (record { bytes = W.contents streams.new.output; failures = W.failed streams.new.output }) result }
    // One that is asked for with another word behind `--cache`: nothing is read or written.
    ensures size { (size : Option (List ℕ)) (names : List (List ℕ)) → AskForSession (map string_bytes words.now) size names → HasNoCapacity size
        → ((result ≡ Status.Usage) ⊎ (result ≡ Status.NoMemory)) × (system.new ≡ system.old) × HasServedNothing streams.old streams.new }
    // A check that is asked for by its name, over such files.
    ensures check { (names : List (List ℕ)) → AskForCheck (map string_bytes words.now) names
        → RunsCheck (Y.holds system.old) (Y.failure system.old) (Y.failure system.new) names streams.old.output streams.new.output
        (record { bytes = W.contents streams.old.output; failures = W.failed streams.old.output }) (record { bytes = W.contents streams.new.output; failures = W.failed streams.new.output }) result
        × (streams.new.input ≡ streams.old.input) }
    // A compilation that is asked for by its name, over such files, to a file of such a name.
    ensures compile { (out : List ℕ) (names : List (List ℕ)) → AskForCompile (map string_bytes words.now) out names
        → RunsCompile (Y.holds system.old) (Y.failure system.old) (Y.failure system.new) out names (Y.written system.old) (Y.written system.new) streams.old.output streams.new.output
        (record { bytes = W.contents streams.old.output; failures = W.failed streams.old.output }) (record { bytes = W.contents streams.new.output; failures = W.failed streams.new.output }) result
        × (streams.new.input ≡ streams.old.input) }
    // A query of tables that is asked for by its name, of a file of such a name, with such words.
    ensures decide { (path source target class_name : List ℕ) → AskForDecide (map string_bytes words.now) path source target class_name
        → RunsDecide (Y.holds system.old) (Y.failure system.old) (Y.failure system.new) path source target class_name streams.old.output streams.new.output
        (record { bytes = W.contents streams.old.output; failures = W.failed streams.old.output }) (record { bytes = W.contents streams.new.output; failures = W.failed streams.new.output }) result
        × (streams.new.input ≡ streams.old.input) }
    // Where the status is that of a refusal, nothing was read or written, or a subcommand other than a session has replied.
    ensures unserved { result ≡ Status.Refused → HasServedNothing streams.old streams.new
        ⊎ ((streams.new.input ≡ streams.old.input) × HasAnswered (Y.holds system.old) (Y.failure system.old) (Y.failure system.new) (Y.written system.old) (Y.written system.new)
        (record { bytes = W.contents streams.old.output; failures = W.failed streams.old.output }) (record { bytes = W.contents streams.new.output; failures = W.failed streams.new.output }) result) }
    // The input is read by a session alone.
    ensures only { (streams.new.input ≡ streams.old.input)
        ⊎ ((files : List (Bor (List ℕ))) × IsSession (Y.holds system.old) (Y.failure system.old) (Y.failure system.new) files
        (record { bytes = R.rest streams.old.input; failures = R.failed streams.old.input }) (record { bytes = R.rest streams.new.input; failures = R.failed streams.new.input })
        (record { bytes = W.contents streams.old.output; failures = W.failed streams.old.output }) (record { bytes = W.contents streams.new.output; failures = W.failed streams.new.output }) result) }
{
    let matches = match matches(alloc, words) {
        Ok(matches) => matches,
        Err(error) => return answer(alloc, error, streams),
    };
    let Some((name, arguments)) = matches.subcommand() else {
        return Status::Usage;
    };
    let files = arguments.get_strs(FILE).unwrap_or(&[]);
    if name == SESSION {
        return sized_session(alloc, arguments.get_str(CACHE), files, system, streams);
    }
    if name == CHECK {
        return run_check(
            alloc,
            files,
            system,
            &mut streams.output,
            &mut streams.messages,
        );
    }
    other_command(alloc, name, arguments, files, system, streams)
}

/// A subcommand that is neither a session nor a check, with its arguments and its files. Returns the status to end with.
fn other_command<Y: System, R, W: Sink, E: Write>(
    alloc: Global,
    name: &str,
    arguments: &ArgMatches<'_>,
    files: &[&str],
    system: &mut Y,
    streams: &mut Streams<R, W, E>,
) -> Status
    requires { W.failed streams.old.output < most_failures }
    ensures compile { (out : List ℕ) → name.now ≡ codes "compile" → first_value (found_of arguments.now) (codes "out") ≡ Some out
        → (word : Bor (List ℕ)) × (word.now ≡ out) × IsCompile (Y.holds system.old) (Y.failure system.old) (Y.failure system.new) files.now word (Y.written system.old) (Y.written system.new) streams.old.output streams.new.output
        (record { bytes = W.contents streams.old.output; failures = W.failed streams.old.output }) (record { bytes = W.contents streams.new.output; failures = W.failed streams.new.output }) result }
    ensures decide { (path source target class_name : List ℕ) → name.now ≡ codes "decide" → HasWords (found_of arguments.now) path source target class_name
        → (word : Bor (List ℕ)) × (word.now ≡ path) × IsDecide (Y.holds system.old) (Y.failure system.old) (Y.failure system.new) word source target class_name streams.old.output streams.new.output
        (record { bytes = W.contents streams.old.output; failures = W.failed streams.old.output }) (record { bytes = W.contents streams.new.output; failures = W.failed streams.new.output }) result }
    ensures unserved { result ≡ Status.Refused → (streams.new.output ≡ streams.old.output)
        ⊎ HasAnswered (Y.holds system.old) (Y.failure system.old) (Y.failure system.new) (Y.written system.old) (Y.written system.new)
        (record { bytes = W.contents streams.old.output; failures = W.failed streams.old.output }) (record { bytes = W.contents streams.new.output; failures = W.failed streams.new.output }) result }
    ensures unread { streams.new.input ≡ streams.old.input }
{
    if name == LOCATE {
        let optionals = arguments.get_flag(OPTIONALS);
        return run_locate(
            alloc,
            files,
            optionals,
            system,
            &mut streams.output,
            &mut streams.messages,
        );
    }
    if name == COMPILE {
        let out = arguments.get_str(OUT).unwrap_or("");
        return run_compile(
            alloc,
            out,
            files,
            system,
            &mut streams.output,
            &mut streams.messages,
        );
    }
    if name == DECIDE {
        let path = arguments.get_str(TABLES).unwrap_or("");
        return run_decide(
            alloc,
            path,
            query_of(arguments),
            system,
            &mut streams.output,
            &mut streams.messages,
        );
    }
    Status::Usage
}

/// The query in the arguments.
fn query_of<'a>(arguments: &ArgMatches<'a>) -> Query<'a>
    ensures { (path source target class_name : List ℕ) → HasWords (found_of arguments.now) path source target class_name
        → (result.source.now ≡ source) × (result.target.now ≡ target) × (result.class.now ≡ class_name) }
{
    Query {
        source: arguments.get_str(SOURCE).unwrap_or(""),
        target: arguments.get_str(TARGET).unwrap_or(""),
        class: arguments.get_str(CLASS).unwrap_or(""),
    }
}

/// A session with the word behind `--cache`, where there is one. Returns the status to end with.
fn sized_session<Y: System, R: Source, W: Sink, E: Write>(
    alloc: Global,
    size: Option<&str>,
    files: &[&str],
    system: &mut Y,
    streams: &mut Streams<R, W, E>,
) -> Status
    requires reader { R.failed streams.old.input < most_failures }
    requires writer { W.failed streams.old.output < most_failures }
    ensures session { (capacity : ℕ) → AsksForCache (option_map (λ word. word.now) size.entry) capacity
        → IsSession (Y.holds system.old) (Y.failure system.old) (Y.failure system.new) files.now
        (record { bytes = R.rest streams.old.input; failures = R.failed streams.old.input }) (record { bytes = R.rest streams.new.input; failures = R.failed streams.new.input })
        (record { bytes = W.contents streams.old.output; failures = W.failed streams.old.output }) (record { bytes = W.contents streams.new.output; failures = W.failed streams.new.output }) result }
    ensures size { HasNoCapacity (option_map (λ word. word.now) size.entry)
        → (result ≡ Status.Usage) × (system.new ≡ system.old) × HasServedNothing streams.old streams.new }
    ensures unserved { result ≡ Status.Refused → HasServedNothing streams.old streams.new }
    ensures only { (streams.new.input ≡ streams.old.input)
        ⊎ IsSession (Y.holds system.old) (Y.failure system.old) (Y.failure system.new) files.now
        (record { bytes = R.rest streams.old.input; failures = R.failed streams.old.input }) (record { bytes = R.rest streams.new.input; failures = R.failed streams.new.input })
        (record { bytes = W.contents streams.old.output; failures = W.failed streams.old.output }) (record { bytes = W.contents streams.new.output; failures = W.failed streams.new.output }) result }
{
    match capacity_of(size) {
        Some(capacity) => run_session(alloc, capacity, files, system, streams),
        None => refuse(size, &mut streams.messages),
    }
}

/// Prints the help or the version that was asked for, or what is wrong with the words.
fn answer<R, W: Sink, E: Write>(
    alloc: Global,
    error: clap::Error,
    streams: &mut Streams<R, W, E>,
) -> Status
    requires { W.failed streams.old.output < most_failures }
    // What was asked for may not be printed.
    ensures status { (result ≡ answer_to (kind_of error)) ⊎ ((answer_to (kind_of error) ≡ Status.Done)
        × ((result ≡ Status.Failed) ⊎ (result ≡ Status.NoMemory))) }
    ensures unread { streams.new.input ≡ streams.old.input }
    ensures unwritten { answer_to (kind_of error) ≢ Status.Done → streams.new.output ≡ streams.old.output }
{
    if error.kind() == ErrorKind::OutOfMemory {
        return Error::NoMemory.report(&mut streams.messages);
    }
    if error.use_stderr() {
        let _ = write!(streams.messages, "{error}");
        return Status::Usage;
    }
    match print(alloc, &error, &mut streams.output) {
        Ok(()) => Status::Done,
        Err(error) => error.report(&mut streams.messages),
    }
}

/// Prints the text of an error.
fn print<W: Sink>(alloc: Global, error: &clap::Error, output: &mut W) -> Result<(), Error<'static>>
    requires { W.failed output.old < most_failures }
    ensures { IfErr result (λ error. (error_status error ≡ Status.Failed) ⊎ (error_status error ≡ Status.NoMemory)) }
{
    let mut text = Vec::new(alloc);
    if let Err(error) = write!(text, "{error}") {
        return Err(Error::failed(STREAMS, error));
    }
    if put_all(text.as_slice(), output) {
        Ok(())
    } else {
        Err(Error::Failed(STREAMS))
    }
}

/// Writes all of the bytes. Returns whether it could.
fn put_all<W: Sink>(bytes: &[u8], output: &mut W) -> bool
    requires { W.failed output.old < most_failures }
{
    let mut left = bytes;
    while !left.is_empty() {
        match output.push(left) {
            Ok(0) | Err(_) => return false,
            Ok(count) => left = &left[count..],
        }
    }
    true
}
