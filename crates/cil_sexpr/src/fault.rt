//! Why a text has no tree.

use std::alloc::{AllocError, AllocFailed};
use std::error::Error;
use std::fmt;

/// What is wrong with a text.
#[derive(Clone, Copy, Debug, PartialEq, Eq)]
pub enum ReadCode {
    /// The text is longer than 4,194,304 bytes.
    TooLong,
    /// The text ends inside a list.
    Unclosed,
    /// A `)` does not close a list.
    StrayClose,
    /// A string is not closed before the end of its line.
    OpenQuote,
    /// A byte outside strings and comments is neither a blank nor printable ASCII.
    BadByte,
    /// Lists are nested more than 128 deep.
    TooDeep,
    /// A word or a string is outside all lists.
    OutsideList,
}

impl ReadCode {
    ghost use Rattle.std.specs.Prelude.{◌≡◌};
    ghost use Rattle.cil_sexpr.specs.Faults.{number_of};

    /// The code of this cause in the replies of a host, from 1 to 7.
    pub fn number(self) -> u32
        ensures { result ≡ number_of self }
    {
        match self {
            ReadCode::TooLong => 1,
            ReadCode::Unclosed => 2,
            ReadCode::StrayClose => 3,
            ReadCode::OpenQuote => 4,
            ReadCode::BadByte => 5,
            ReadCode::TooDeep => 6,
            ReadCode::OutsideList => 7,
        }
    }
}

impl fmt::Display for ReadCode {
    fn fmt<W: fmt::Write>(&self, f: &mut fmt::Formatter<W>) -> fmt::Result {
        match self {
            ReadCode::TooLong => write!(f, "the text is too long"),
            ReadCode::Unclosed => write!(f, "a list is not closed"),
            ReadCode::StrayClose => write!(f, "`)` closes no list"),
            ReadCode::OpenQuote => write!(f, "a string is not closed on its line"),
            ReadCode::BadByte => write!(f, "a byte that is neither printed ASCII nor a blank"),
            ReadCode::TooDeep => write!(f, "lists are nested too deep"),
            ReadCode::OutsideList => write!(f, "a word or a string stands outside every list"),
        }
    }
}

/// The first fault of a text: the one at the lowest byte offset and, if several share it, the lowest code.
#[derive(Clone, Copy, Debug, PartialEq, Eq)]
pub struct ReadFault {
    /// What is wrong.
    pub code: ReadCode,
    /// The byte offset from the start of the text: at most 4,194,304.
    pub at: u64,
}

impl fmt::Display for ReadFault {
    fn fmt<W: fmt::Write>(&self, f: &mut fmt::Formatter<W>) -> fmt::Result {
        let code = self.code;
        let at = self.at;
        write!(f, "{code} at byte {at}")
    }
}

/// Why there is no tree.
#[derive(Clone, Copy, Debug, PartialEq, Eq)]
pub enum ReadError {
    /// The text is wrong: every machine rejects it.
    Fault(ReadFault),
    /// The machine is out of memory: the same call may succeed later.
    NoMemory,
}

impl fmt::Display for ReadError {
    fn fmt<W: fmt::Write>(&self, f: &mut fmt::Formatter<W>) -> fmt::Result {
        match self {
            ReadError::Fault(fault) => write!(f, "{fault}"),
            ReadError::NoMemory => write!(f, "no memory"),
        }
    }
}

impl Error for ReadError {}

impl From<AllocError> for ReadError {
    ghost use Rattle.std.specs.Prelude.{◌≡◌};
    ghost use Rattle.cil_sexpr.specs.declared.fault.ReadError.TheVariants.{NoMemory};

    ghost from_gives = { λ _ e. e ≡ NoMemory };

    fn from(_error: AllocError) -> ReadError {
        ReadError::NoMemory
    }
}

impl<T: Drop> From<AllocFailed<T>> for ReadError {
    ghost use Rattle.std.specs.Prelude.{◌≡◌};
    ghost use Rattle.cil_sexpr.specs.declared.fault.ReadError.TheVariants.{NoMemory};

    ghost from_gives = { λ _ e. e ≡ NoMemory };

    fn from(_error: AllocFailed<T>) -> ReadError {
        ReadError::NoMemory
    }
}
