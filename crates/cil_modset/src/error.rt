//! Errors of the calls on sets of modules.

use cil_sexpr::{ReadError, ReadFault};
use std::alloc::{AllocError, AllocFailed};
use std::error::Error;
use std::fmt;

/// What is wrong with bytes that are not a bundle. The first fault from the left is reported; in one module it is
/// the first of `Short`, `NotRising` and `BadModule`.
#[derive(Clone, Copy, Debug, PartialEq, Eq)]
pub enum BundleFault {
    /// The bytes do not start with the five bytes of a bundle.
    BadMagic,
    /// The bytes end inside the header, or before the number of modules in the header is reached.
    Short,
    /// A module is not after the previous one in byte order.
    NotRising,
    /// A module is not a readable text.
    BadModule {
        /// The number of modules before it.
        index: u64,
        /// The first fault of its text.
        fault: ReadFault,
    },
    /// There are bytes after the last module.
    Trailing,
}

impl BundleFault {
    ghost use Rattle.std.specs.Prelude.{◌≡◌};
    ghost use Rattle.cil_modset.specs.Faults.{number_of};

    /// The code of this cause in the replies of a host, from 11 to 15.
    pub fn number(self) -> u32
        ensures { result ≡ number_of self }
    {
        match self {
            BundleFault::BadMagic => 11,
            BundleFault::Short => 12,
            BundleFault::NotRising => 13,
            BundleFault::BadModule { .. } => 14,
            BundleFault::Trailing => 15,
        }
    }
}

impl fmt::Display for BundleFault {
    fn fmt<W: fmt::Write>(&self, f: &mut fmt::Formatter<W>) -> fmt::Result {
        match self {
            BundleFault::BadMagic => write!(f, "the bytes do not begin as a bundle"),
            BundleFault::Short => write!(f, "the bundle is cut short"),
            BundleFault::NotRising => write!(f, "the modules do not rise in byte order"),
            BundleFault::BadModule { index, fault } => write!(f, "module {index}: {fault}"),
            BundleFault::Trailing => write!(f, "bytes follow the last module"),
        }
    }
}

/// Why bytes were not imported.
#[derive(Clone, Copy, Debug, PartialEq, Eq)]
pub enum BundleError {
    /// The bytes are wrong: every machine rejects them.
    Fault(BundleFault),
    /// The machine is out of memory: the same call may succeed later.
    NoMemory,
}

impl fmt::Display for BundleError {
    fn fmt<W: fmt::Write>(&self, f: &mut fmt::Formatter<W>) -> fmt::Result {
        match self {
            BundleError::Fault(fault) => write!(f, "{fault}"),
            BundleError::NoMemory => write!(f, "no memory"),
        }
    }
}

impl Error for BundleError {}

impl From<AllocError> for BundleError {
    ghost use Rattle.std.specs.Prelude.{◌≡◌};
    ghost use Rattle.cil_modset.specs.declared.error.BundleError.TheVariants.{NoMemory};

    ghost from_gives = { λ _ e. e ≡ NoMemory };

    fn from(_error: AllocError) -> BundleError {
        BundleError::NoMemory
    }
}

impl<T: Drop> From<AllocFailed<T>> for BundleError {
    ghost use Rattle.std.specs.Prelude.{◌≡◌};
    ghost use Rattle.cil_modset.specs.declared.error.BundleError.TheVariants.{NoMemory};

    ghost from_gives = { λ _ e. e ≡ NoMemory };

    fn from(_error: AllocFailed<T>) -> BundleError {
        BundleError::NoMemory
    }
}
