//! Worked tables: their bytes are read and written once more, and bytes that are none are refused.

use crate::{TableError, decode, encode};
use std::alloc::Global;
use std::test::Fail;

/// The bytes of a table, part by part.
type Parts = &'static [&'static [u8]];

const HEAD: &[u8] = b"CILT\x01\x00";

const NONE: &[u8] = b"\x00\x00\x00\x00";

const ONE: &[u8] = b"\x00\x00\x00\x01";

const TWO: &[u8] = b"\x00\x00\x00\x02";

const OBJECT_ROLE: &[u8] = b"\x00\x00\x00\x08object_r";

const USER: &[u8] = b"\x00\x00\x00\x01u";

const ROLE: &[u8] = b"\x00\x00\x00\x01r";

const TYPE_A: &[u8] = b"\x00\x00\x00\x01a";

const TYPE_B: &[u8] = b"\x00\x00\x00\x01b";
/// A class `file` with the permissions `open` and `read`.
const CLASS: &[u8] = b"\x00\x00\x00\x04file\x02\x00\x00\x00\x04open\x00\x00\x00\x04read";
/// The user has the role.
const USER_ROLE: &[u8] = b"\x00\x00\x00\x01";
/// The role has both types.
const ROLE_TYPES: &[u8] = b"\x00\x01\x00\x00\x00\x01\x00\x01";
/// The one type may read files of the other.
const RULE: &[u8] = b"\x00\x00\x01\x00\x00\x00\x00\x01\x00\x01\x00\x00\x00\x00\x00\x02";

/// The table of no modules.
const EMPTY: Parts = &[
    HEAD,
    NONE,
    NONE,
    NONE,
    NONE,
    NONE,
    ONE,
    OBJECT_ROLE,
    NONE,
    NONE,
    NONE,
    NONE,
    NONE,
    NONE,
    NONE,
    NONE,
    NONE,
    NONE,
    NONE,
];

/// A user, a role, two types, a class and a rule.
const FIRST: Parts = &[
    HEAD,
    NONE,
    NONE,
    NONE,
    NONE,
    ONE,
    USER,
    TWO,
    OBJECT_ROLE,
    ROLE,
    TWO,
    TYPE_A,
    TYPE_B,
    NONE,
    ONE,
    CLASS,
    NONE,
    ONE,
    USER_ROLE,
    TWO,
    ROLE_TYPES,
    NONE,
    ONE,
    RULE,
    NONE,
    NONE,
    NONE,
];

/// The parts, one behind the other.
fn bytes_of(alloc: Global, parts: Parts) -> Result<Vec<u8>, Fail> {
    let mut bytes = Vec::new(alloc);
    for &part in parts {
        bytes.extend_from_slice(part)?;
    }
    Ok(bytes)
}

/// The bytes of the table that is read.
fn written_again(alloc: Global, bytes: &[u8]) -> Result<Vec<u8>, Fail> {
    let tables = decode(alloc, bytes)?;
    Ok(encode(alloc, &tables)?)
}

#[test]
fn worked_tables_are_read_and_written(rt: HostRuntime) -> Result<(), Fail> {
    let alloc = rt.alloc();
    for (parts, length) in [(EMPTY, 86), (FIRST, 159)] {
        let bytes = bytes_of(alloc, parts)?;
        assert_eq!(rt; bytes.len(), length);
        assert_eq!(rt; written_again(alloc, &bytes)?, bytes, "of {length} bytes");
    }
    Ok(())
}

/// The number of the fault for which bytes are refused; 0 if they are read.
fn code_of(alloc: Global, bytes: &[u8]) -> u32 {
    match decode(alloc, bytes) {
        Ok(_) => 0,
        Err(TableError::Fault(fault)) => fault.code(),
        Err(TableError::NoMemory) => 1,
    }
}

/// What is wrong with the bytes, these, and the number of the fault.
const REFUSED: &[(&str, Parts, u32)] = &[
    ("nothing", FIRST, 0),
    ("the first byte", &[b"XILT\x01\x00", NONE], 91),
    ("the layout", &[b"CILT\x09\x00", NONE], 92),
    ("the end of the header", &[b"CIL"], 93),
    (
        "the last byte",
        &[
            HEAD,
            NONE,
            NONE,
            NONE,
            NONE,
            NONE,
            ONE,
            OBJECT_ROLE,
            NONE,
            NONE,
            NONE,
            NONE,
            NONE,
            NONE,
            NONE,
            NONE,
            NONE,
            NONE,
            b"\x00\x00\x00",
        ],
        93,
    ),
    (
        "types that are exchanged",
        &[
            HEAD,
            NONE,
            NONE,
            NONE,
            NONE,
            NONE,
            ONE,
            OBJECT_ROLE,
            TWO,
            TYPE_B,
            TYPE_A,
            NONE,
        ],
        94,
    ),
    ("whether there are levels", &[b"CILT\x01\x02", NONE], 95),
    (
        "no role of objects",
        &[HEAD, NONE, NONE, NONE, NONE, NONE, ONE, ROLE, NONE],
        95,
    ),
    (
        "a byte behind the end",
        &[
            HEAD,
            NONE,
            NONE,
            NONE,
            NONE,
            NONE,
            ONE,
            OBJECT_ROLE,
            NONE,
            NONE,
            NONE,
            NONE,
            NONE,
            NONE,
            NONE,
            NONE,
            NONE,
            NONE,
            NONE,
            b"\x00",
        ],
        96,
    ),
];

#[test]
fn each_fault_is_told(rt: HostRuntime) -> Result<(), Fail> {
    let alloc = rt.alloc();
    for &(wrong, parts, code) in REFUSED {
        let bytes = bytes_of(alloc, parts)?;
        assert_eq!(rt; code_of(alloc, &bytes), code, "{wrong}");
    }
    Ok(())
}
