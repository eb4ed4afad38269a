//! Two answers of one step: both values, or the faults of both.

ghost use Rattle.std.specs.Prelude.{Ok};
ghost use Rattle.cil_faults.specs.declared.failure.Failure.TheVariants.{Faults};
ghost use Rattle.cil_faults.specs.Both.{AreJoined, FailsWith, IsBoth};

use crate::failure::Failure;
use crate::fault_list::FaultList;

/// Two values.
#[derive(Drop)]
pub struct Both<A, B> {
    /// The one.
    pub first: A,
    /// The other.
    pub second: B,
}

/// Both values, where there are both. Errors: the faults of the one and of the other together, or out of memory.
pub fn together<A: Drop, B: Drop>(
    first: Result<A, Failure>,
    second: Result<B, Failure>,
) -> Result<Both<A, B>, Failure>
    ensures { IsBoth first second result }
{
    match first {
        Ok(first) => with_first(first, second),
        Err(failure) => Err(with_failure(failure, second)),
    }
}

fn with_first<A: Drop, B: Drop>(first: A, second: Result<B, Failure>) -> Result<Both<A, B>, Failure>
    ensures { IsBoth (Ok first) second result }
{
    match second {
        Ok(second) => Ok(Both { first, second }),
        Err(failure) => Err(failure),
    }
}

fn with_failure<B: Drop>(failure: Failure, second: Result<B, Failure>) -> Failure
    ensures { FailsWith failure second result }
{
    match second {
        Ok(_) => failure,
        Err(other) => joined(failure, other),
    }
}

/// The faults of both.
fn joined(first: Failure, second: Failure) -> Failure
    ensures { AreJoined first second result }
{
    match first {
        Failure::Faults(faults) => with_faults(faults, second),
        Failure::NoMemory => Failure::NoMemory,
    }
}

fn with_faults(faults: FaultList, second: Failure) -> Failure
    ensures { AreJoined (Faults faults) second result }
{
    match second {
        Failure::Faults(more) => match faults.join(more) {
            Ok(all) => Failure::Faults(all),
            Err(_) => Failure::NoMemory,
        },
        Failure::NoMemory => Failure::NoMemory,
    }
}
