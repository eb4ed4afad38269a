//! Why the program stops early, and the line that it then writes.

use crate::status::Status;
use cil_base::NoMemory;
use cil_sexpr::{ReadError, ReadFault};
use std::alloc::{AllocError, AllocFailed};
use std::io::{self, ErrorKind, Write};

/// The name in a message for the standard input and output.
pub const STREAMS: &str = "-";

/// Why the program stops early. Each has a line on standard error.
#[derive(Clone, Copy, Debug, thiserror::Error)]
pub enum Error<'a> {
    /// The arguments of the program are not text.
    #[error("the arguments cannot be read as text")]
    Arguments,
    /// This file is refused, for its first fault.
    #[error("{0}: refused {code} {at}", code = .1.code.number(), at = .1.at)]
    Refused(&'a str, ReadFault),
    /// This file cannot be opened or read; or a stream failed.
    #[error("{0}: failed")]
    Failed(&'a str),
    /// Out of memory.
    #[error("no memory")]
    NoMemory,
}

impl<'a> Error<'a> {
    ghost use Rattle.std.specs.Prelude.{◌≡◌};
    ghost use Rattle.std.specs.IoError.{error_kind};
    ghost use Rattle.cilhost.specs.Ends.{IsFailure, error_status, refusal};

    /// The error for a file that the host refuses.
    pub fn refused(file: &'a str, error: ReadError) -> Error<'a>
        ensures { result ≡ refusal file.entry error }
    {
        match error {
            ReadError::Fault(fault) => Error::Refused(file, fault),
            ReadError::NoMemory => Error::NoMemory,
        }
    }

    /// The error for a call of the system that fails at this file: out of memory, or a failure.
    pub fn failed(file: &'a str, error: io::Error) -> Error<'a>
        ensures { IsFailure (error_kind error) file.entry result }
    {
        if error.kind() == ErrorKind::OutOfMemory {
            Error::NoMemory
        } else {
            Error::Failed(file)
        }
    }

    /// The status that the program ends with.
    pub fn status(self) -> Status
        ensures { result ≡ error_status self.entry }
    {
        match self {
            Error::Arguments => Status::Usage,
            Error::Refused(_, _) => Status::Refused,
            Error::Failed(_) => Status::Failed,
            Error::NoMemory => Status::NoMemory,
        }
    }

    /// Writes the line, and returns the status. If the line cannot be written, the status is the same.
    pub fn report<E: Write>(self, messages: &mut E) -> Status
        ensures { result ≡ error_status self.entry }
    {
        let _ = writeln!(messages, "cilhost: {self}");
        self.status()
    }
}

impl From<AllocError> for Error<'_> {
    ghost use Rattle.std.specs.Prelude.{◌≡◌};
    ghost use Rattle.cilhost.specs.declared.error.Error.TheVariants.{NoMemory};

    ghost from_gives = { λ _ e. e ≡ NoMemory };

    fn from(_error: AllocError) -> Self {
        Error::NoMemory
    }
}

impl From<NoMemory> for Error<'_> {
    ghost use Rattle.std.specs.Prelude.{◌≡◌};
    ghost use Rattle.cilhost.specs.declared.error.Error.TheVariants.{NoMemory};

    ghost from_gives = { λ _ e. e ≡ NoMemory };

    fn from(_error: NoMemory) -> Self {
        Error::NoMemory
    }
}

impl<T: Drop> From<AllocFailed<T>> for Error<'_> {
    ghost use Rattle.std.specs.Prelude.{◌≡◌};
    ghost use Rattle.cilhost.specs.declared.error.Error.TheVariants.{NoMemory};

    ghost from_gives = { λ _ e. e ≡ NoMemory };

    fn from(_error: AllocFailed<T>) -> Self {
        Error::NoMemory
    }
}
