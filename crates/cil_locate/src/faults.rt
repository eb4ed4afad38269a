//! Where the faults of a policy are told.

ghost use Rattle.std.specs.Prelude.{◌≡◌, ◌++◌, ◌∷◌, [], IfOk, OnOk, length, map, slice_index};
ghost use Rattle.cil_locate.specs.Located.{is_of_policy, key_of};
ghost use Rattle.cil_locate.specs.Order.{AreInOrder};

use crate::told::{Told, in_order};
use cil_base::NoMemory;
use cil_faults::{Fault, FaultCode};
use std::alloc::Global;

/// The faults in the order of the files and of their places, by the files of the modules. Errors: out of memory.
pub(crate) fn order_of_faults(
    alloc: Global,
    origins: &[usize],
    faults: &[Fault],
) -> Result<Vec<Told>, NoMemory>
    ensures { IfOk result (λ told. AreInOrder (map (key_of origins.now) faults.now) told.items) }
{
    let mut told = Vec::with_capacity(alloc, faults.len())?;
    for fault in faults {
        push_told(&mut told, origin_of_fault(origins, fault), fault.at)?;
    }
    Ok(in_order(told))
}

/// The file that a fault is told of; 0 for the policy.
fn origin_of_fault(origins: &[usize], fault: &Fault) -> usize
    ensures { result ≡ (key_of origins.now fault.now).origin }
{
    if is_of_policy(fault.code) {
        0
    } else {
        origin_of(origins, fault.module)
    }
}

/// The file of a module, as `origins_of` gives it; 0 for a module that there is not.
pub(crate) fn origin_of(origins: &[usize], number: u64) -> usize
    ensures { result ≡ slice_index origins.now number }
{
    match origins.get(number as usize) {
        Some(origin) => *origin,
        None => 0,
    }
}

/// Puts one more at the end, with the next number. Errors: out of memory.
pub(crate) fn push_told(told: &mut Vec<Told>, origin: usize, at: u64) -> Result<(), NoMemory>
    ensures { OnOk result (told.new.items ≡ told.old.items ++ record { origin = origin; at = at; number = length told.old.items } ∷ []) }
{
    let number = told.len();
    told.push(Told { origin, at, number })?;
    Ok(())
}

/// Whether faults of this kind are of the whole policy, and have no place.
fn is_of_policy(code: FaultCode) -> bool
    ensures { result ≡ is_of_policy code }
{
    matches!(
        code,
        FaultCode::ExpansionLimit
            | FaultCode::SensitivityOrder
            | FaultCode::CategoryOrder
            | FaultCode::MlsTwice
            | FaultCode::TooMany
    )
}
