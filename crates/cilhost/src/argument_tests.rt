//! The program over its words.

use crate::in_memory::{Closed, FILLED, Left, program};
use crate::program::{Streams, run};
use crate::status::Status;
use cil_commands::Counted;
use std::test::Fail;

/// Whether a text has a part.
fn has(text: &[u8], part: &str) -> bool {
    let part = part.as_bytes();
    text.windows(part.len().max(1)).any(|window| window == part)
}

/// What is said of a word behind `--cache` that is no number from 1 to 65536.
const NO_SIZE: &str = "' for '--cache <N>': not a number from 1 to 65536\n";

/// Words that ask for nothing that there is, and a part of what is said of them.
const WRONG: &[(&[&str], &str)] = &[
    (&[], "Usage: cilhost <COMMAND>"),
    (&["serve"], "unrecognized subcommand 'serve'"),
    (&["a.cil"], "unrecognized subcommand 'a.cil'"),
    (
        &["--cache", "1", "session"],
        "unexpected argument '--cache'",
    ),
    (
        &["check", "--cache", "1", "good.cil"],
        "unexpected argument '--cache'",
    ),
    (&["session", "--cache", "0", "none.cil"], NO_SIZE),
    (&["session", "--cache", "65537"], NO_SIZE),
    (&["session", "--cache", "x"], NO_SIZE),
    (&["session", "--cache", ""], NO_SIZE),
    (&["session", "--cache", "01"], NO_SIZE),
    (&["session", "--cache", "+1"], NO_SIZE),
    (&["session", "--cache", "1 "], NO_SIZE),
    (&["session", "--cache", "18446744073709551617"], NO_SIZE),
    (&["session", "none.cil", "--cache=0"], NO_SIZE),
    (
        &["session", "--cache"],
        "a value is required for '--cache <N>' but none was supplied",
    ),
    (
        &["session", "--cache", "1", "--cache", "1"],
        "the argument '--cache <N>' cannot be used multiple times",
    ),
    (&["session", "good.cil", "-x"], "unexpected argument '-x'"),
    (
        &["check"],
        "the following required arguments were not provided",
    ),
    (&["check", "good.cil", "-x"], "unexpected argument '-x'"),
    (&["help", "serve"], "unrecognized subcommand 'serve'"),
    (
        &["compile", "good.cil"],
        "the following required arguments were not provided",
    ),
    (
        &["compile", "--out", "t"],
        "the following required arguments were not provided",
    ),
    (
        &["compile", "--out"],
        "a value is required for '--out <T>' but none was supplied",
    ),
    (
        &["decide", "u:r:a", "u:r:b", "file"],
        "the following required arguments were not provided",
    ),
    (
        &["decide", "--tables", "t", "u:r:a", "u:r:b"],
        "the following required arguments were not provided",
    ),
    (
        &["decide", "--tables", "t", "u:r:a", "u:r:b", "file", "read"],
        "unexpected argument 'read'",
    ),
];

/// Whether wrong words are reported on standard error, and nothing else.
fn are_refused(left: &Left, part: &str) -> bool {
    left.status == Status::Usage && left.output.is_empty() && has(left.messages.as_slice(), part)
}

#[test]
fn wrong_words_are_told_on_standard_error(rt: HostRuntime) -> Result<(), Fail> {
    for &(words, part) in WRONG {
        assert!(rt;
            are_refused(&program(rt.alloc(), words)?, part),
            "{words:?}"
        );
    }
    Ok(())
}

/// Words that ask for help or the version, and a part of it.
const HELP: &[(&[&str], &str)] = &[
    (&["--version"], "cilhost 0.1.0\n"),
    (&["-V"], "cilhost 0.1.0\n"),
    (&["-h"], "Usage: cilhost <COMMAND>"),
    (&["--help"], "Example:"),
    (
        &["--help"],
        "type, class, common, classcommon, role, user, roletype,",
    ),
    (
        &["--help"],
        "roleallow, constrain, allow, auditallow, dontaudit, neverallow, boolean and booleanif;",
    ),
    (&["help"], "Example:"),
    (
        &["session", "-h"],
        "Usage: cilhost session [OPTIONS] [FILE]...",
    ),
    (&["session", "-h"], "--cache <N>"),
    (&["session", "--help"], "OK LENGTH DIGEST"),
    (&["check", "--help"], "OK LENGTH DIGEST"),
    (&["session", "--help"], "AV source target class"),
    (
        &["session", "--help"],
        "32  a blockinherit that names no block",
    ),
    (
        &["session", "--help"],
        "41  a word outside optionals that names nothing",
    ),
    (
        &["session", "--help"],
        "22  a statement or form that cilhost does not support",
    ),
    (&["session", "--help"], "SET boolean value"),
    (&["session", "--help"], "`head -c PLACE FILE | wc -l`"),
    (&["help", "session"], "AV source target class"),
    (&["-h"], "check"),
    (&["check", "-h"], "Usage: cilhost check <FILE>..."),
    (&["locate", "-h"], "Usage: cilhost locate"),
    (&["check", "--help"], "1  the policy is refused"),
    (&["help", "check"], "cilhost check base.cil app.cil"),
    (
        &["compile", "-h"],
        "Usage: cilhost compile --out <T> <FILE>...",
    ),
    (
        &["compile", "--help"],
        "0  the policy is accepted, and T has its tables",
    ),
    (
        &["decide", "-h"],
        "Usage: cilhost decide --tables <PATH> <SOURCE> <TARGET> <CLASS>",
    ),
    (
        &["decide", "--help"],
        "91 to 96  PATH is not a compiled policy",
    ),
];

/// Whether help is on standard output, and nothing else.
fn is_helped(left: &Left, part: &str) -> bool {
    left.status == Status::Done && left.messages.is_empty() && has(left.output.as_slice(), part)
}

#[test]
fn help_that_was_asked_for_is_output(rt: HostRuntime) -> Result<(), Fail> {
    for &(words, part) in HELP {
        assert!(rt; is_helped(&program(rt.alloc(), words)?, part), "{words:?}");
    }
    Ok(())
}

/// Words that ask for a session, and the status and the messages that it ends with.
const SESSIONS: &[(&[&str], Status, &str)] = &[
    (&["session"], Status::Done, ""),
    (&["session", "good.cil"], Status::Done, ""),
    (&["session", "--cache", "1"], Status::Done, ""),
    (
        &["session", "--cache", "65536", "good.cil"],
        Status::Done,
        "",
    ),
    (
        &["session", "good.cil", "--cache=1", "none.cil"],
        Status::Failed,
        "cilhost: none.cil: failed\n",
    ),
    (
        &["session", "good.cil", "bad.cil"],
        Status::Refused,
        "cilhost: bad.cil: refused 3 8\n",
    ),
    (
        &["session", "none.cil", "bad.cil"],
        Status::Failed,
        "cilhost: none.cil: failed\n",
    ),
    (
        &["session", "--", "-x"],
        Status::Failed,
        "cilhost: -x: failed\n",
    ),
];

#[test]
fn a_session_is_asked_for_by_its_name(rt: HostRuntime) -> Result<(), Fail> {
    for &(words, status, messages) in SESSIONS {
        assert!(rt;
            program(rt.alloc(), words)?.is(status, "", messages),
            "{words:?}"
        );
    }
    Ok(())
}

/// Words that ask for a check, and the status, the output and the messages that it ends with.
const CHECKS: &[(&[&str], Status, &str, &str)] = &[
    (
        &["check", "good.cil"],
        Status::Done,
        "OK 91 a37b83bc61c77fff1ba94eb4a2dc93e4991225f4ace976982a39845441df5a01\n",
        "",
    ),
    (
        &["check", "faulty.cil"],
        Status::Refused,
        "FAULTS 1\n41 0 20 . a\n",
        "",
    ),
    (
        &["check", "good.cil", "bad.cil"],
        Status::Refused,
        "",
        "cilhost: bad.cil: refused 3 8\n",
    ),
    (
        &["check", "--", "-x"],
        Status::Failed,
        "",
        "cilhost: -x: failed\n",
    ),
];

#[test]
fn a_check_is_asked_for_by_its_name(rt: HostRuntime) -> Result<(), Fail> {
    for &(words, status, output, messages) in CHECKS {
        assert!(rt;
            program(rt.alloc(), words)?.is(status, output, messages),
            "{words:?}"
        );
    }
    Ok(())
}

/// Words that ask for tables, and the status, the output and the messages that it ends with. In these files nothing can be written.
const TABLES: &[(&[&str], Status, &str, &str)] = &[
    (
        &["compile", "--out", "t", "good.cil"],
        Status::Failed,
        "",
        "cilhost: t: failed\n",
    ),
    (
        &["compile", "faulty.cil", "--out=t"],
        Status::Refused,
        "FAULTS 1\n41 0 20 . a\n",
        "",
    ),
    (
        &["compile", "--out", "t", "good.cil", "bad.cil"],
        Status::Refused,
        "",
        "cilhost: bad.cil: refused 3 8\n",
    ),
    (
        &["decide", "--tables", "none.cil", "u:r:a", "u:r:b", "file"],
        Status::Failed,
        "",
        "cilhost: none.cil: failed\n",
    ),
    (
        &["decide", "--tables", "good.cil", "u:r:a", "u:r:b", "file"],
        Status::Refused,
        "ERR 91\n",
        "",
    ),
    (
        &["decide", "u:r:a", "u:r:b", "--tables=empty.cil", "file"],
        Status::Refused,
        "ERR 93\n",
        "",
    ),
];

#[test]
fn tables_are_asked_for_by_their_names(rt: HostRuntime) -> Result<(), Fail> {
    for &(words, status, output, messages) in TABLES {
        assert!(rt;
            program(rt.alloc(), words)?.is(status, output, messages),
            "{words:?}"
        );
    }
    Ok(())
}

#[test]
fn help_that_cannot_be_printed_is_a_failure(rt: HostRuntime) -> Result<(), Fail> {
    let alloc = rt.alloc();
    let words = [
        String::from_str(alloc, "cilhost")?,
        String::from_str(alloc, "--help")?,
    ];
    let mut system = FILLED;
    let mut streams = Streams {
        input: Counted::new(b"".as_slice()),
        output: Counted::new(Closed),
        messages: Vec::new(alloc),
    };
    let status = run(alloc, words.as_slice(), &mut system, &mut streams);
    assert!(rt; status == Status::Failed);
    assert!(rt; streams.messages.as_slice() == b"cilhost: -: failed\n".as_slice());
    Ok(())
}
