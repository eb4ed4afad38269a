//! The numbers that the program ends with.

use cil_commands::Served;

/// How the program ended.
#[derive(Clone, Copy, Debug, PartialEq, Eq)]
pub enum Status {
    /// All that was asked for was done.
    Done,
    /// A file is no module, or the policy of the files has faults.
    Refused,
    /// The arguments were wrong, or the requests came to be so wrong that the session ended.
    Usage,
    /// A file, the standard input or the standard output failed.
    Failed,
    /// There was no memory.
    NoMemory,
}

impl Status {
    ghost use Rattle.std.specs.Prelude.{◌≡◌};
    ghost use Rattle.cilhost.specs.Ends.{number_of, status_of};

    /// The number of this status, from 0 to 4.
    pub fn number(self) -> u8
        ensures { result ≡ number_of self }
    {
        match self {
            Status::Done => 0,
            Status::Refused => 1,
            Status::Usage => 2,
            Status::Failed => 3,
            Status::NoMemory => 4,
        }
    }

    /// The status after a session with this end.
    pub fn after(served: Served) -> Status
        ensures { result ≡ status_of served }
    {
        match served {
            Served::Quit | Served::End => Status::Done,
            Served::Fault(0) => Status::NoMemory,
            Served::Fault(_) => Status::Usage,
            Served::ReadFailed | Served::WriteFailed => Status::Failed,
        }
    }
}
