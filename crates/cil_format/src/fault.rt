//! Why bytes are no tables.

ghost use Rattle.std.specs.Prelude.{◌≡◌};
ghost use Rattle.cil_format.specs.declared.fault.TableError.TheVariants.{NoMemory};
ghost use Rattle.cil_format.specs.Codes.{code_of};

use std::alloc::{AllocError, AllocFailed};
use std::error::Error;
use std::fmt;

/// What is wrong with the bytes of a table: the first fault from the left. This project's profile.
#[derive(Clone, Copy, Debug, PartialEq, Eq)]
pub enum TableFault {
    /// 91: a wrong byte of the first four.
    BadMagic,
    /// 92: another layout.
    BadVersion,
    /// 93: the bytes end where one is wanted.
    Short,
    /// 94: not in the stated order, or a record that says nothing.
    NotCanonical,
    /// 95: a value that the layout does not have here.
    OutOfRange,
    /// 96: bytes after the end.
    Trailing,
}

impl TableFault {
    /// The number by which the fault is told.
    pub fn code(self) -> u32
        ensures { result ≡ code_of self }
    {
        match self {
            TableFault::BadMagic => 91,
            TableFault::BadVersion => 92,
            TableFault::Short => 93,
            TableFault::NotCanonical => 94,
            TableFault::OutOfRange => 95,
            TableFault::Trailing => 96,
        }
    }
}

/// Why there are no tables.
#[derive(Debug, Drop)]
pub enum TableError {
    /// The bytes are no tables: every host refuses them.
    Fault(TableFault),
    /// Out of memory: the same call may succeed later.
    NoMemory,
}

impl fmt::Display for TableError {
    fn fmt<W: fmt::Write>(&self, f: &mut fmt::Formatter<W>) -> fmt::Result {
        match self {
            TableError::Fault(fault) => write!(f, "table refused: {}", fault.code()),
            TableError::NoMemory => write!(f, "no memory"),
        }
    }
}

impl Error for TableError {}

impl From<AllocError> for TableError {
    ghost from_gives = { λ _ e. e ≡ NoMemory };

    fn from(_error: AllocError) -> TableError {
        TableError::NoMemory
    }
}

impl<T: Drop> From<AllocFailed<T>> for TableError {
    ghost from_gives = { λ _ e. e ≡ NoMemory };

    fn from(_error: AllocFailed<T>) -> TableError {
        TableError::NoMemory
    }
}

impl From<cil_base::NoMemory> for TableError {
    ghost from_gives = { λ _ e. e ≡ NoMemory };

    fn from(_error: cil_base::NoMemory) -> TableError {
        TableError::NoMemory
    }
}
