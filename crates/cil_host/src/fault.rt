//! Why a host has no answer.

use std::fmt;

/// Why a query has no answer, or a boolean is not set. The variants are in the order in which they are checked.
#[derive(Clone, Copy, Debug, PartialEq, Eq)]
pub enum QueryFault {
    /// No policy is loaded (71).
    NoPolicy,
    /// The source is not a valid context (72 1).
    BadSource,
    /// The target is not a valid context (72 2).
    BadTarget,
    /// There is no class of this name (73).
    NoClass,
    /// The class has no permission of this name (74).
    NoPermission,
    /// There is no boolean of this name (75).
    NoBoolean,
}

/// What keeps a host from its answer.
#[derive(Clone, Copy, Debug, PartialEq, Eq)]
pub enum HostError {
    /// The request is at fault, as that of a query.
    Query(QueryFault),
    /// The machine is at fault: the same call may succeed later.
    NoMemory,
}

impl From<cil_base::NoMemory> for HostError {
    ghost use Rattle.std.specs.Prelude.{◌≡◌};
    ghost use Rattle.cil_host.specs.declared.fault.HostError.TheVariants.{NoMemory};

    ghost from_gives = { λ _ e. e ≡ NoMemory };

    fn from(_error: cil_base::NoMemory) -> HostError {
        HostError::NoMemory
    }
}

impl QueryFault {
    ghost use Rattle.std.specs.Prelude.{◌≡◌};
    ghost use Rattle.cil_host.specs.Codes.{number_of};

    /// The code of this fault in the replies of a host, from 71 to 75. A bad source and a bad target have the same code.
    pub fn number(self) -> u32
        ensures { result ≡ number_of self }
    {
        match self {
            QueryFault::NoPolicy => 71,
            QueryFault::BadSource => 72,
            QueryFault::BadTarget => 72,
            QueryFault::NoClass => 73,
            QueryFault::NoPermission => 74,
            QueryFault::NoBoolean => 75,
        }
    }
}

impl fmt::Display for QueryFault {
    fn fmt<W: fmt::Write>(&self, f: &mut fmt::Formatter<W>) -> fmt::Result {
        match self {
            QueryFault::NoPolicy => write!(f, "no policy is loaded"),
            QueryFault::BadSource => write!(f, "the source is no valid context"),
            QueryFault::BadTarget => write!(f, "the target is no valid context"),
            QueryFault::NoClass => write!(f, "no class has this name"),
            QueryFault::NoPermission => write!(f, "the class has no such permission"),
            QueryFault::NoBoolean => write!(f, "no boolean has this name"),
        }
    }
}
