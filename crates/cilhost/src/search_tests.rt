//! The program as it checks files, and as it searches for their faults.

use crate::check::run_check;
use crate::in_memory::{Closed, FILLED, Left, check, located};
use crate::status::Status;
use cil_commands::Counted;

/// The reply of LOAD to `faulty.cil` alone, as docs/FAULTS.md has it.
const FAULTY: &str = "FAULTS 1\n41 0 20 . a\n";

/// The reply of LOAD to `good.cil`, and to both files, by the model of `model/`.
const GOOD: &str = "OK 91 a37b83bc61c77fff1ba94eb4a2dc93e4991225f4ace976982a39845441df5a01\n";

const BOTH: &str = "OK 100 b9ebdedf0b19acbcce8caa07442c9339be66e78577d0da721bb451efb867b6f7\n";

/// Files, and the status, the output and the messages of a check of them.
const CHECKED: &[(&[&str], Status, &str, &str)] = &[
    (&["good.cil"], Status::Done, GOOD, ""),
    (
        &["good.cil", "empty.cil", "good.cil"],
        Status::Done,
        GOOD,
        "",
    ),
    (&["faulty.cil"], Status::Refused, FAULTY, ""),
    (&["faulty.cil", "good.cil"], Status::Done, BOTH, ""),
    (&["good.cil", "faulty.cil"], Status::Done, BOTH, ""),
    (
        &["faulty.cil", "bad.cil"],
        Status::Refused,
        "",
        "cilhost: bad.cil: refused 3 8\n",
    ),
    (
        &["good.cil", "none.cil", "bad.cil"],
        Status::Failed,
        "",
        "cilhost: none.cil: failed\n",
    ),
    (&["large.cil"], Status::NoMemory, "", "cilhost: no memory\n"),
];

#[test]
fn a_check_prints_the_reply_of_load(rt: HostRuntime) {
    for &(files, status, output, messages) in CHECKED {
        let left = check(rt.alloc(), FILLED, files);
        assert!(rt; left.is(status, output, messages), "{files:?}");
    }
}

#[test]
fn a_check_whose_output_fails_says_so(rt: HostRuntime) {
    let mut output = Counted::new(Closed);
    let mut messages = Vec::new(rt.alloc());
    let mut system = FILLED;
    let status = run_check(
        rt.alloc(),
        &["good.cil"],
        &mut system,
        &mut output,
        &mut messages,
    );
    assert!(rt; status == Status::Failed);
    assert!(rt; messages.as_slice() == b"cilhost: -: failed\n".as_slice());
}

/// Whether a check had no memory: before its load, in it, or for the output, which is in memory too.
fn lacks_memory(left: &Left) -> bool {
    left.is(Status::NoMemory, "", "cilhost: no memory\n")
        || left.is(Status::NoMemory, "ERR 0\n", "cilhost: no memory\n")
        || left.is(Status::Failed, "", "cilhost: -: failed\n")
}

/// Passes with every growth allowed, and with any one of them refused: the check then says that there is no memory, and one that
/// is begun anew ends well.
#[test]
fn a_refused_growth_of_a_check_is_told(rt: HostRuntime) {
    let files = ["faulty.cil"];
    let left = check(rt.alloc(), FILLED, &files);
    if !left.is(Status::Refused, FAULTY, "") {
        assert!(rt; lacks_memory(&left));
        assert!(rt; check(rt.alloc(), FILLED, &files).is(Status::Refused, FAULTY, ""));
    }
}

/// What a search writes of `faulty.cil`.
const FAULTY_LINES: &str = "faulty.cil:1:21: 41: unresolved name: a
    1 | (role r)(roletype r a)
      |                     ^
";

/// What it writes of two files that cannot be read.
const UNREADABLE: &str = "worse.cil:1:8: 2: list that is not closed
    1 | (type c
      |        ^
bad.cil:1:9: 3: bracket that closes no list
    1 | (type b))
      |         ^
";

/// Files, and the status, the output and the messages of a search for their faults.
const SEARCHES: &[(&[&str], Status, &str, &str)] = &[
    (&["good.cil", "empty.cil"], Status::Done, "", ""),
    (
        &["faulty.cil"],
        Status::Refused,
        FAULTY_LINES,
        "cilhost: 1 fault in 1 of 1 file\n",
    ),
    (
        &["empty.cil", "faulty.cil"],
        Status::Refused,
        FAULTY_LINES,
        "cilhost: 1 fault in 1 of 2 files\n",
    ),
    (
        &["worse.cil", "faulty.cil", "bad.cil"],
        Status::Refused,
        UNREADABLE,
        "cilhost: 2 faults in 2 of 3 files\n",
    ),
    (
        &["bad.cil", "none.cil"],
        Status::Failed,
        "",
        "cilhost: none.cil: failed\n",
    ),
    (&["large.cil"], Status::NoMemory, "", "cilhost: no memory\n"),
];

#[test]
fn a_search_writes_each_fault_at_its_place(rt: HostRuntime) {
    for &(files, status, output, messages) in SEARCHES {
        let left = located(rt.alloc(), FILLED, files);
        assert!(rt; left.is(status, output, messages), "{files:?}");
    }
}

/// Whether a search had no memory: before it wrote, for the output, or for its message, of which it then wrote a front.
fn is_short(left: &Left, message: &str) -> bool {
    left.status == Status::NoMemory
        || left.status == Status::Failed
        || (left.status == Status::Refused
            && left.output.as_slice() == FAULTY_LINES.as_bytes()
            && message.as_bytes().starts_with(left.messages.as_slice()))
}

/// Passes with every growth allowed, and with any one of them refused: the search then says that there is no memory, and one that
/// is begun anew ends well.
#[test]
fn a_refused_growth_of_a_search_is_told(rt: HostRuntime) {
    let files = ["empty.cil", "faulty.cil"];
    let message = "cilhost: 1 fault in 1 of 2 files\n";
    let left = located(rt.alloc(), FILLED, &files);
    if !left.is(Status::Refused, FAULTY_LINES, message) {
        assert!(rt; is_short(&left, message));
        assert!(rt; located(rt.alloc(), FILLED, &files).is(Status::Refused, FAULTY_LINES, message));
    }
}
