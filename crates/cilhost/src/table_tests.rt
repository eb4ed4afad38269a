//! The program as it compiles files to tables, and as it asks these.

use crate::compile::run_compile;
use crate::decide::{Query, run_decide};
use crate::in_memory::{
    Closed, FILLED, KeepingSystem, Left, MemorySystem, compile, decide, keeping,
};
use crate::status::Status;
use cil_commands::Counted;
use std::alloc::{AllocError, Global};
use std::io::ErrorKind;
use std::test::Fail;

/// A module with a class, a user, a role, two types and a rule.
const FIRST: &[u8] =
    b"(class file (open read))(user u)(role r)(type a)(type b)(userrole u r)(roletype r a)(roletype r b)(allow a b (file (read)))";

/// Its tables, by the layout: 159 bytes.
const TABLES: &[u8] = b"CILT\x01\x00\
    \x00\x00\x00\x00\x00\x00\x00\x00\x00\x00\x00\x00\x00\x00\x00\x00\
    \x00\x00\x00\x01\x00\x00\x00\x01u\
    \x00\x00\x00\x02\x00\x00\x00\x08object_r\x00\x00\x00\x01r\
    \x00\x00\x00\x02\x00\x00\x00\x01a\x00\x00\x00\x01b\
    \x00\x00\x00\x00\
    \x00\x00\x00\x01\x00\x00\x00\x04file\x02\x00\x00\x00\x04open\x00\x00\x00\x04read\
    \x00\x00\x00\x00\
    \x00\x00\x00\x01\x00\x00\x00\x01\
    \x00\x00\x00\x02\x00\x01\x00\x00\x00\x01\x00\x01\
    \x00\x00\x00\x00\
    \x00\x00\x00\x01\x00\x00\x01\x00\x00\x00\x00\x01\x00\x01\x00\x00\x00\x00\x00\x02\
    \x00\x00\x00\x00\x00\x00\x00\x00\x00\x00\x00\x00";

/// The reply of LOAD to this module, and to `faulty.cil` alone.
const ACCEPTED: &str = "OK 159 d45931ea9f06a9ced7e809682adb159f8b38c8e71f6a219ba0a5eab997e73225\n";

const FAULTY: &str = "FAULTS 1\n41 0 20 . a\n";

/// The files of these tests.
const COMPILED: MemorySystem<'static> = MemorySystem {
    files: &[
        ("first.cil", FIRST, None),
        ("t", TABLES, None),
        ("faulty.cil", b"(role r)(roletype r a)", None),
        ("bad.cil", b"(type b))", None),
        ("large.cil", b"(type a)", Some(ErrorKind::OutOfMemory)),
    ],
    ..FILLED
};

/// Files that are compiled, the error of writing the tables, whether they are written, the status, the output and the messages.
const RUNS: &[(&[&str], Option<ErrorKind>, bool, Status, &str, &str)] = &[
    (&["first.cil"], None, true, Status::Done, ACCEPTED, ""),
    (
        &["first.cil", "first.cil"],
        None,
        true,
        Status::Done,
        ACCEPTED,
        "",
    ),
    (&["faulty.cil"], None, false, Status::Refused, FAULTY, ""),
    (
        &["first.cil", "bad.cil"],
        None,
        false,
        Status::Refused,
        "",
        "cilhost: bad.cil: refused 3 8\n",
    ),
    (
        &["first.cil", "none.cil"],
        None,
        false,
        Status::Failed,
        "",
        "cilhost: none.cil: failed\n",
    ),
    (
        &["large.cil"],
        None,
        false,
        Status::NoMemory,
        "",
        "cilhost: no memory\n",
    ),
    (
        &["first.cil"],
        Some(ErrorKind::PermissionDenied),
        false,
        Status::Failed,
        "",
        "cilhost: t: failed\n",
    ),
    (
        &["first.cil"],
        Some(ErrorKind::OutOfMemory),
        false,
        Status::NoMemory,
        "",
        "cilhost: no memory\n",
    ),
    (
        &["faulty.cil"],
        Some(ErrorKind::PermissionDenied),
        false,
        Status::Refused,
        FAULTY,
        "",
    ),
];

/// Whether the tables of the first module were written to `t` once, and nothing else; or nothing at all.
fn has_written(system: &KeepingSystem<'_>, is_written: bool) -> bool {
    match system.written.as_slice() {
        [file] => is_written && file.is("t", TABLES),
        files => !is_written && files.is_empty(),
    }
}

#[test]
fn tables_are_written_where_files_are_accepted(rt: HostRuntime) {
    for &(files, fails, is_written, status, output, messages) in RUNS {
        let mut system = keeping(rt.alloc(), COMPILED);
        system.fails = fails;
        let left = compile(rt.alloc(), &mut system, files);
        assert!(rt;
            left.is(status, output, messages) && has_written(&system, is_written),
            "{files:?}"
        );
    }
}

#[test]
fn a_compilation_whose_output_fails_says_so(rt: HostRuntime) {
    let mut system = keeping(rt.alloc(), COMPILED);
    let mut output = Counted::new(Closed);
    let mut messages = Vec::new(rt.alloc());
    let status = run_compile(
        rt.alloc(),
        "t",
        &["first.cil"],
        &mut system,
        &mut output,
        &mut messages,
    );
    assert!(rt; status == Status::Failed && has_written(&system, true));
    assert!(rt; messages.as_slice() == b"cilhost: -: failed\n".as_slice());
}

/// The first query of these tests.
const READ: Query<'static> = Query {
    source: "u:r:a",
    target: "u:r:b",
    class: "file",
};

/// Queries of the tables of the first module, with the status and the output.
const ASKED: &[(Query<'static>, Status, &str)] = &[
    (READ, Status::Done, "OK read - open,read\n"),
    (
        Query {
            source: "u:r:b",
            target: "u:r:a",
            class: "file",
        },
        Status::Done,
        "OK - - open,read\n",
    ),
    (
        Query {
            source: "u:r:c",
            target: "u:r",
            class: "dir",
        },
        Status::Refused,
        "ERR 72 1\n",
    ),
    (
        Query {
            source: "u:r:a",
            target: "u:r",
            class: "dir",
        },
        Status::Refused,
        "ERR 72 2\n",
    ),
    (
        Query {
            source: "u:r:a",
            target: "u:r:b",
            class: "dir",
        },
        Status::Refused,
        "ERR 73\n",
    ),
];

#[test]
fn tables_are_asked(rt: HostRuntime) {
    for &(query, status, output) in ASKED {
        let left = decide(rt.alloc(), COMPILED, query);
        assert!(rt; left.is(status, output, ""), "{output:?}");
    }
}

/// Bytes of the tables that are changed, each with its place, and the output of a query then: a wrong first byte, another layout, no such
/// number, and the records of both types exchanged.
const CHANGED: &[(&[(usize, u8)], &str)] = &[
    (&[], "OK read - open,read\n"),
    (&[(0, b'X')], "ERR 91\n"),
    (&[(4, 9)], "ERR 92\n"),
    (&[(5, 2)], "ERR 95\n"),
    (&[(60, b'b'), (65, b'a')], "ERR 94\n"),
];

/// What a query of other bytes in place of the tables leaves.
fn of_bytes(alloc: Global, bytes: &[u8]) -> Left {
    let system = MemorySystem {
        files: &[("t", bytes, None)],
        ..FILLED
    };
    decide(alloc, system, READ)
}

/// The output of a query of the tables with these changes.
fn after(alloc: Global, changes: &[(usize, u8)]) -> Result<Vec<u8>, AllocError> {
    let mut bytes = Vec::from_slice(alloc, TABLES)?;
    for &(place, byte) in changes {
        if let Some(old) = bytes.get_mut(place) {
            *old = byte;
        }
    }
    Ok(of_bytes(alloc, bytes.as_slice()).output)
}

#[test]
fn changed_tables_are_refused(rt: HostRuntime) -> Result<(), Fail> {
    for &(changes, output) in CHANGED {
        let got = after(rt.alloc(), changes)?;
        assert!(rt; got.as_slice() == output.as_bytes(), "{output:?}");
    }
    Ok(())
}

#[test]
fn tables_that_are_cut_or_followed_are_refused(rt: HostRuntime) -> Result<(), Fail> {
    let mut bytes = Vec::from_slice(rt.alloc(), TABLES)?;
    bytes.push(0)?;
    let followed = of_bytes(rt.alloc(), bytes.as_slice());
    assert!(rt; followed.is(Status::Refused, "ERR 96\n", ""));
    let cut = of_bytes(rt.alloc(), &TABLES[..158]);
    assert!(rt; cut.is(Status::Refused, "ERR 93\n", ""));
    let none = of_bytes(rt.alloc(), b"");
    assert!(rt; none.is(Status::Refused, "ERR 93\n", ""));
    Ok(())
}

#[test]
fn a_file_of_tables_that_fails_is_told(rt: HostRuntime) {
    let missing = decide(rt.alloc(), FILLED, READ);
    assert!(rt; missing.is(Status::Failed, "", "cilhost: t: failed\n"));
    let system = MemorySystem {
        files: &[("t", TABLES, Some(ErrorKind::OutOfMemory))],
        ..FILLED
    };
    let large = decide(rt.alloc(), system, READ);
    assert!(rt; large.is(Status::NoMemory, "", "cilhost: no memory\n"));
}

#[test]
fn a_query_whose_output_fails_says_so(rt: HostRuntime) {
    let mut system = COMPILED;
    let mut output = Counted::new(Closed);
    let mut messages = Vec::new(rt.alloc());
    let status = run_decide(
        rt.alloc(),
        "t",
        READ,
        &mut system,
        &mut output,
        &mut messages,
    );
    assert!(rt; status == Status::Failed);
    assert!(rt; messages.as_slice() == b"cilhost: -: failed\n".as_slice());
}

/// Whether a command had no memory: before its reply, in it, or for the output, which is in memory too.
fn lacks_memory(left: &Left) -> bool {
    left.is(Status::NoMemory, "", "cilhost: no memory\n")
        || left.is(Status::NoMemory, "ERR 0\n", "cilhost: no memory\n")
        || left.is(Status::Failed, "", "cilhost: -: failed\n")
}

/// Passes with every growth allowed, and with any one of them refused: the command then says that there is no memory, and one that is
/// begun anew ends well. Where no memory is told and no reply was begun, no table is written but whole.
#[test]
fn a_refused_growth_of_a_compilation_is_told(rt: HostRuntime) {
    let mut system = keeping(rt.alloc(), COMPILED);
    let left = compile(rt.alloc(), &mut system, &["first.cil"]);
    if !left.is(Status::Done, ACCEPTED, "") {
        assert!(rt; lacks_memory(&left));
        let mut again = keeping(rt.alloc(), COMPILED);
        let left = compile(rt.alloc(), &mut again, &["first.cil"]);
        assert!(rt; left.is(Status::Done, ACCEPTED, "") && has_written(&again, true));
    }
}

/// The same of a query.
#[test]
fn a_refused_growth_of_a_query_is_told(rt: HostRuntime) {
    let left = decide(rt.alloc(), COMPILED, READ);
    if !left.is(Status::Done, "OK read - open,read\n", "") {
        assert!(rt; lacks_memory(&left));
        let left = decide(rt.alloc(), COMPILED, READ);
        assert!(rt; left.is(Status::Done, "OK read - open,read\n", ""));
    }
}
