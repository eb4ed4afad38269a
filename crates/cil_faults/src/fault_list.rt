//! The faults of a step, as every layer hands them up.

ghost use Rattle.std.specs.Prelude.{◌≡◌, ◌⊎◌, ◌<◌, ◌↔◌, [], length, Contains, IfSome, IfOk, IsNone, slice_get, Some};
ghost use Rattle.cil_faults.specs.Fails.{AreFaults};

use crate::fault::Fault;
use cil_base::NoMemory;
use std::marker::Model;

/// Some faults, one at least: sorted by code, module, place, namespace and word, each once. So a set of faults
/// has one list. Contracts see it as that list.
#[derive(Debug, Drop)]
pub struct FaultList {
    faults: Vec<Fault>,
}

impl Model for FaultList {
    ghost use Rattle.std.specs.Prelude.{List, Contains};
    ghost use Rattle.cil_faults.specs.declared.fault.Fault.{Fault};
    ghost use Rattle.cil_faults.specs.Fails.{AreFaults};

    ghost Value = { List Fault };

    ghost view = { λ list. list.faults.items };

    ghost invariant = { λ list. AreFaults (Contains list.faults.items) list.faults.items };
}

impl FaultList {
    /// The list of these faults, or nothing where there are none. It takes no memory; a sort is its cost.
    pub fn of(faults: Vec<Fault>) -> Option<FaultList>
        ensures faults { IfSome result (AreFaults (Contains faults.items)) }
        ensures none { IsNone result ↔ (faults.items ≡ []) }
    {
        if faults.is_empty() {
            return None;
        }
        Some(listed(faults))
    }

    /// The list of the faults of both lists. Errors: out of memory.
    pub fn join(self, other: FaultList) -> Result<FaultList, NoMemory>
        ensures { IfOk result (AreFaults (λ f. Contains self f ⊎ Contains other f)) }
    {
        let FaultList { mut faults } = self;
        let FaultList { faults: mut more } = other;
        faults.append(&mut more)?;
        Ok(listed(faults))
    }

    /// How many faults there are: one at least.
    pub fn len(&self) -> usize
        ensures len { result ≡ length self.now }
        ensures some { 0 < result }
    {
        self.faults.len()
    }

    /// The faults, in order.
    pub fn as_slice(&self) -> &[Fault]
        ensures faults { result.now ≡ self.now }
        ensures list { AreFaults (Contains self.now) self.now }
    {
        self.faults.as_slice()
    }
}

/// The list of some faults.
fn listed(mut faults: Vec<Fault>) -> FaultList
    requires { 0 < length faults.items }
    ensures { AreFaults (Contains faults.items) result }
{
    faults.sort_unstable();
    faults.dedup();
    FaultList { faults }
}
