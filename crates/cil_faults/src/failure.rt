//! What a step answers in place of its value.

ghost use Rattle.std.specs.Prelude.{◌≡◌, Contains, Err};
ghost use Rattle.cil_faults.specs.Refusal.{Answers};

use crate::fault::Fault;
use crate::fault_list::FaultList;
use std::alloc::{AllocError, AllocFailed};

/// Why there is no value.
#[derive(Debug, Drop)]
pub enum Failure {
    /// The modules are at fault: every machine answers these faults.
    Faults(FaultList),
    /// The machine is at fault: the same call may succeed later.
    NoMemory,
}

/// Refuses with these faults, where there are some. It takes no memory; a sort is its cost. Errors: the faults.
pub fn refuse(faults: Vec<Fault>) -> Result<(), Failure>
    ensures told { Answers (λ done. Unit {0}) (Contains faults.items) result }
    ensures memory { result ≡ Err Failure.NoMemory → ⊥ }
{
    match FaultList::of(faults) {
        Some(list) => Err(Failure::Faults(list)),
        None => Ok(()),
    }
}

impl From<AllocError> for Failure {
    ghost use Rattle.std.specs.Prelude.{◌≡◌};
    ghost use Rattle.cil_faults.specs.declared.failure.Failure.TheVariants.{NoMemory};

    ghost from_gives = { λ _ e. e ≡ NoMemory };

    fn from(_error: AllocError) -> Failure {
        Failure::NoMemory
    }
}

impl<T: Drop> From<AllocFailed<T>> for Failure {
    ghost use Rattle.std.specs.Prelude.{◌≡◌};
    ghost use Rattle.cil_faults.specs.declared.failure.Failure.TheVariants.{NoMemory};

    ghost from_gives = { λ _ e. e ≡ NoMemory };

    fn from(_error: AllocFailed<T>) -> Failure {
        Failure::NoMemory
    }
}

impl From<cil_base::NoMemory> for Failure {
    ghost use Rattle.std.specs.Prelude.{◌≡◌};
    ghost use Rattle.cil_faults.specs.declared.failure.Failure.TheVariants.{NoMemory};

    ghost from_gives = { λ _ e. e ≡ NoMemory };

    fn from(_error: cil_base::NoMemory) -> Failure {
        Failure::NoMemory
    }
}
