//! The program over files and streams in memory, and over the machine.

ghost use Rattle.std.specs.Prelude.{◌≤◌};

use crate::capacity::CAPACITY;
use crate::in_memory::{Closed, FILLED, MemoryReader, MemorySystem, cached_session, session};
use crate::program::Streams;
use crate::session::{end, run_session};
use crate::status::Status;
use crate::system::Machine;
use cil_commands::{Counted, Served};
use cil_sexpr::LONGEST_TEXT;
use std::alloc::Global;
use std::io::ErrorKind;

/// A module with a class, a user, a role, two types and a rule: 123 bytes.
const FIRST: &[u8] =
    b"(class file (open read))(user u)(role r)(type a)(type b)(userrole u r)(roletype r a)(roletype r b)(allow a b (file (read)))";

/// Files, an input, the status that they end with, the output and the messages.
const WORKED: &[(&[&str], &[u8], Status, &str, &str)] = &[
    (
        &[],
        b"INSTALL 123\n(class file (open read))(user u)(role r)(type a)(type b)(userrole u r)(roletype r a)(roletype r b)(allow a b (file (read)))\
        LOAD\nAV u:r:a u:r:b file\nQUIT\n",
        Status::Done,
        "OK new\nOK 159 d45931ea9f06a9ced7e809682adb159f8b38c8e71f6a219ba0a5eab997e73225\nOK read - open,read\nOK\n",
        "",
    ),
    (
        &["first.cil"],
        b"LOAD\nAV u:r:a u:r:b file\n",
        Status::Done,
        "OK 159 d45931ea9f06a9ced7e809682adb159f8b38c8e71f6a219ba0a5eab997e73225\nOK read - open,read\n",
        "",
    ),
    (
        &[],
        b"AV u:r:a u:r:a file\nLOAD\nAV u:r:a u:r:a file\n",
        Status::Done,
        "ERR 71\nOK 86 077bf34cffcc8078b3391eebf0d4fa8a755e355d5f86554603a8350c72314d99\nERR 72 1\n",
        "",
    ),
    (&[], b"INSTALL 10\n(typ", Status::Usage, "ERR 83\n", ""),
];

#[test]
fn sessions_answer_as_worked(rt: HostRuntime) {
    let system = MemorySystem {
        files: &[("first.cil", FIRST, None)],
        ..FILLED
    };
    for &(names, input, status, output, messages) in WORKED {
        let left = session(rt.alloc(), system, names, input);
        assert!(rt; left.is(status, output, messages), "{output:?}");
    }
}

/// The first policy, and a boolean that turns a rule on: 188 bytes.
const SWITCHED: &[u8] =
    b"(class file (open read))(user u)(role r)(type a)(type b)(userrole u r)(roletype r a)(roletype r b)(allow a b (file (read)))\
    (boolean bo false)(booleanif bo (true (allow b a (file (open)))))";

/// Queries that come again, while the boolean is turned and after a load, and their replies.
const ASKED_AGAIN: &[u8] =
    b"LOAD\nAV u:r:b u:r:a file\nAV u:r:b u:r:a file\nSET bo true\nAV u:r:b u:r:a file\nAV u:r:a u:r:b file\n\
    SET bo false\nAV u:r:b u:r:a file\nSET bo true\nAV u:r:b u:r:a file\nLOAD\nAV u:r:b u:r:a file\n";

const ANSWERED_AGAIN: &str =
    "OK 185 f4a020cc4c3fe5e43fe3a26cdd5a2c1da3123d58898808d6969102be7e958cd9\nOK - - open,read\nOK - - open,read\nOK\n\
    OK open - open,read\nOK read - open,read\nOK\nOK - - open,read\nOK\nOK open - open,read\n\
    OK 185 f4a020cc4c3fe5e43fe3a26cdd5a2c1da3123d58898808d6969102be7e958cd9\nOK - - open,read\n";

/// Whether they are replied to so with a cache of this size.
fn answers_again(alloc: Global, capacity: usize) -> bool
    requires least { 1 ≤ capacity }
    requires most { capacity ≤ 65536 }
{
    let system = MemorySystem {
        files: &[("switched.cil", SWITCHED, None)],
        ..FILLED
    };
    cached_session(alloc, capacity, system, &["switched.cil"], ASKED_AGAIN).is(
        Status::Done,
        ANSWERED_AGAIN,
        "",
    )
}

#[test]
fn a_cache_of_any_size_changes_no_answer(rt: HostRuntime) {
    assert!(rt; answers_again(rt.alloc(), 1));
    assert!(rt; answers_again(rt.alloc(), 2));
    assert!(rt; answers_again(rt.alloc(), CAPACITY));
    assert!(rt; answers_again(rt.alloc(), 65_536));
}

/// Files, and the status and the messages that they end with.
const INSTALLED: &[(&[&str], Status, &str)] = &[
    (&[], Status::Done, ""),
    (&["good.cil"], Status::Done, ""),
    (&["good.cil", "empty.cil", "good.cil"], Status::Done, ""),
    (
        &["bad.cil"],
        Status::Refused,
        "cilhost: bad.cil: refused 3 8\n",
    ),
    (&["none.cil"], Status::Failed, "cilhost: none.cil: failed\n"),
    (&["cut.cil"], Status::Failed, "cilhost: cut.cil: failed\n"),
    (&["large.cil"], Status::NoMemory, "cilhost: no memory\n"),
    (
        &["bad.cil", "none.cil"],
        Status::Refused,
        "cilhost: bad.cil: refused 3 8\n",
    ),
    (
        &["good.cil", "none.cil", "bad.cil"],
        Status::Failed,
        "cilhost: none.cil: failed\n",
    ),
    (
        &["worse.cil", "bad.cil"],
        Status::Refused,
        "cilhost: worse.cil: refused 2 7\n",
    ),
    (
        &["cut.cil", "none.cil"],
        Status::Failed,
        "cilhost: cut.cil: failed\n",
    ),
];

#[test]
fn each_file_is_installed_or_ends_the_program(rt: HostRuntime) {
    for &(files, status, messages) in INSTALLED {
        let left = session(rt.alloc(), FILLED, files, b"");
        assert!(rt; left.is(status, "", messages), "{files:?}");
    }
}

const TOO_LONG: &str = "cilhost: long.cil: refused 1 4194304\n";

/// Whether a session over one file of so many blanks ends so.
fn ends_over(alloc: Global, size: usize, status: Status, messages: &str) -> bool {
    let Ok(blanks) = vec![in alloc; b' '; size] else {
        return false;
    };
    let files = [("long.cil", blanks.as_slice(), None)];
    let system = MemorySystem {
        files: &files,
        ..FILLED
    };
    session(alloc, system, &["long.cil"], b"").is(status, "", messages)
}

#[test]
fn the_limit_of_a_file_holds_to_the_byte(rt: HostRuntime) {
    let alloc = rt.alloc();
    assert!(rt; ends_over(alloc, LONGEST_TEXT, Status::Done, ""));
    assert!(rt; ends_over(alloc, LONGEST_TEXT + 1, Status::Refused, TOO_LONG));
    assert!(rt; ends_over(alloc, 5_000_000, Status::Refused, TOO_LONG));
}

#[test]
fn without_a_hasher_nothing_is_installed(rt: HostRuntime) {
    for &(kind, status, messages) in &[
        (
            ErrorKind::Unsupported,
            Status::Failed,
            "cilhost: -: failed\n",
        ),
        (
            ErrorKind::OutOfMemory,
            Status::NoMemory,
            "cilhost: no memory\n",
        ),
    ] {
        let system = MemorySystem {
            no_hasher: Some(kind),
            ..FILLED
        };
        let left = session(rt.alloc(), system, &["bad.cil"], b"");
        assert!(rt; left.is(status, "", messages), "{messages}");
    }
}

/// Whether the end of a session has this status and this message.
fn ends(alloc: Global, served: Served, status: Status, want: &str) -> bool {
    let mut messages = Vec::new(alloc);
    end(served, &mut messages) == status && messages.as_slice() == want.as_bytes()
}

#[test]
fn a_session_that_fails_says_so(rt: HostRuntime) {
    for &(served, status, want) in &[
        (Served::Quit, Status::Done, ""),
        (Served::End, Status::Done, ""),
        (Served::Fault(0), Status::NoMemory, "cilhost: no memory\n"),
        (Served::Fault(82), Status::Usage, ""),
        (Served::Fault(85), Status::Usage, ""),
        (Served::ReadFailed, Status::Failed, "cilhost: -: failed\n"),
        (Served::WriteFailed, Status::Failed, "cilhost: -: failed\n"),
    ] {
        assert!(rt; ends(rt.alloc(), served, status, want), "{served:?}");
    }
}

#[test]
fn a_message_that_cannot_be_written_changes_no_status(rt: HostRuntime) {
    let mut streams = Streams {
        input: Counted::new(b"".as_slice()),
        output: Counted::new(Closed),
        messages: Closed,
    };
    let mut system = FILLED;
    let status = run_session(
        rt.alloc(),
        CAPACITY,
        &["bad.cil"],
        &mut system,
        &mut streams,
    );
    assert!(rt; status == Status::Refused);
}

#[test]
fn the_machine_has_no_such_file(rt: HostRuntime) {
    let mut streams = Streams {
        input: Counted::new(b"".as_slice()),
        output: Counted::new(Vec::new(rt.alloc())),
        messages: Vec::new(rt.alloc()),
    };
    let mut machine = Machine::new(&rt);
    let files = ["there/is/none.cil"];
    let status = run_session(rt.alloc(), CAPACITY, &files, &mut machine, &mut streams);
    assert!(rt; status == Status::Failed);
    assert!(rt; streams.messages.as_slice() == b"cilhost: there/is/none.cil: failed\n".as_slice());
}

#[test]
fn an_input_that_fails_ends_the_session(rt: HostRuntime) {
    let mut streams = Streams {
        input: Counted::new(MemoryReader {
            rest: b"LIST\nLI",
            fails: Some(ErrorKind::ConnectionReset),
        }),
        output: Counted::new(Vec::new(rt.alloc())),
        messages: Vec::new(rt.alloc()),
    };
    let mut system = FILLED;
    let status = run_session(rt.alloc(), CAPACITY, &[], &mut system, &mut streams);
    assert!(rt; status == Status::Failed);
    assert!(rt; streams.messages.as_slice() == b"cilhost: -: failed\n".as_slice());
}

#[test]
fn an_output_that_fails_ends_the_session(rt: HostRuntime) {
    let mut streams = Streams {
        input: Counted::new(b"LIST\nQUIT\n".as_slice()),
        output: Counted::new(Closed),
        messages: Vec::new(rt.alloc()),
    };
    let mut system = FILLED;
    let status = run_session(rt.alloc(), CAPACITY, &[], &mut system, &mut streams);
    assert!(rt; status == Status::Failed);
    assert!(rt; streams.messages.as_slice() == b"cilhost: -: failed\n".as_slice());
}

/// Passes with every growth allowed, and with any one of them refused: the session then says that there is no
/// memory, and one that is begun anew ends well.
#[test]
fn a_refused_growth_is_told(rt: HostRuntime) {
    let files = ["good.cil", "empty.cil"];
    let left = session(rt.alloc(), FILLED, &files, b"");
    if !left.is(Status::Done, "", "") {
        assert!(rt; left.is(Status::NoMemory, "", "cilhost: no memory\n"));
        assert!(rt; session(rt.alloc(), FILLED, &files, b"").is(Status::Done, "", ""));
    }
}
