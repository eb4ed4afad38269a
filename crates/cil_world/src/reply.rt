//! What an event is answered.

use cil_base::Bytes;
use cil_host::{
    BundleError, BundleFault, Failure, FaultList, Installed, Loaded, QueryFault, ReadError,
    ReadFault,
};

/// What an event is answered.
#[derive(Debug, Drop)]
pub enum Reply {
    /// The text is among the modules now; whether it was new.
    Installed(Installed),
    /// The bundle of an export is kept; how many bytes it has.
    Exported(u64),
    /// The modules of a bundle are among those of the host now; how many were new.
    Added(u64),
    /// The policy is loaded: the length and the digest of its tables.
    Loaded(Loaded),
    /// A boolean is set, or a host has begun anew.
    Done,
    /// What is allowed and what is recorded: the names of permissions in byte order with commas between, or a hyphen where there are none.
    Decided {
        /// The permissions that are allowed.
        allowed: Bytes,
        /// The permissions whose use is recorded.
        auditallow: Bytes,
        /// The permissions whose denial is recorded.
        auditdeny: Bytes,
    },
    /// The text is not installed: its first fault.
    Unreadable(ReadFault),
    /// The bundle is not imported: its first fault. A bundle that a host has exported has none.
    BadBundle(BundleFault),
    /// The policy is not loaded: the faults of the modules.
    Faults(FaultList),
    /// There is no answer, or no boolean is set: the reason.
    Query(QueryFault),
    /// There is no such host, or no such export (81).
    NoSuch,
    /// Out of memory: nothing has changed.
    NoMemory,
}

impl Reply {
    ghost use Rattle.std.specs.Prelude.{◌≡◌};
    ghost use Rattle.cil_world.specs.Replies.{of_import, of_install, of_load, of_set};

    /// The reply to an installation.
    pub(crate) fn of_install(outcome: Result<Installed, ReadError>) -> Reply
        ensures { result ≡ of_install outcome }
    {
        match outcome {
            Ok(installed) => Reply::Installed(installed),
            Err(ReadError::Fault(fault)) => Reply::Unreadable(fault),
            Err(ReadError::NoMemory) => Reply::NoMemory,
        }
    }

    /// The reply to a delivery.
    pub(crate) fn of_import(outcome: Result<u64, BundleError>) -> Reply
        ensures { result ≡ of_import outcome }
    {
        match outcome {
            Ok(added) => Reply::Added(added),
            Err(BundleError::Fault(fault)) => Reply::BadBundle(fault),
            Err(BundleError::NoMemory) => Reply::NoMemory,
        }
    }

    /// The reply to a load.
    pub(crate) fn of_load(outcome: Result<Loaded, Failure>) -> Reply
        ensures { result ≡ of_load outcome }
    {
        match outcome {
            Ok(loaded) => Reply::Loaded(loaded),
            Err(Failure::Faults(faults)) => Reply::Faults(faults),
            Err(Failure::NoMemory) => Reply::NoMemory,
        }
    }

    /// The reply where a boolean is set.
    pub(crate) fn of_set(outcome: Result<(), QueryFault>) -> Reply
        ensures { result ≡ of_set outcome }
    {
        match outcome {
            Ok(()) => Reply::Done,
            Err(fault) => Reply::Query(fault),
        }
    }
}
