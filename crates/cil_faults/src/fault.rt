//! One fault, as it is printed in one line.

ghost use Rattle.std.specs.Prelude.{◌≡◌, ◌++◌, ◌∷◌, [], IfOk, OnOk, refl};
ghost use Rattle.std.specs.Cmp.{eq_by_cmp_equiv, partial_equiv_from_equiv, partial_order_from_total};
ghost use Rattle.std.proofs.lemmas.Cmp.{nat_list_cmp_total};
ghost use Rattle.cil_base.specs.Lists.{text_cmp};
ghost use Rattle.std.specs.Ordering.{as_partial_cmp, eq_by_cmp};
ghost use Rattle.cil_faults.specs.FaultOrder.{fault_cmp, fault_total};
ghost use Rattle.cil_faults.specs.Reported.{global_fault, spelled_fault};

use crate::code::FaultCode;
use crate::spot::Spot;
use cil_base::{Bytes, NoMemory};
use std::alloc::Global;
use std::cmp::Ordering;

/// A fault of a policy: what is wrong, and where. Faults are compared by their fields in this order, the cause
/// by its number, so the order does not depend on how a fault was found.
#[derive(Debug, Drop)]
pub struct Fault {
    /// What is wrong.
    pub code: FaultCode,
    /// The number of the module, counted from 0 in the byte order of the texts.
    pub module: u64,
    /// Where in the module, as a number of bytes from its start.
    pub at: u64,
    /// The namespace, its names joined by dots. The global namespace is empty.
    pub space: Bytes,
    /// The word that is at fault. It is empty where none is named.
    pub word: Bytes,
}

/// Adds a fault of the global namespace to the end of a list. Errors: out of memory.
pub fn push_fault(
    alloc: Global,
    faults: &mut Vec<Fault>,
    code: FaultCode,
    at: Spot,
    word: &[u8],
) -> Result<(), NoMemory>
    ensures { OnOk result (faults.new.items ≡ faults.old.items ++ global_fault code at word.now ∷ []) }
{
    let space = Bytes::from_vec(Vec::new(alloc));
    push_fault_in(alloc, faults, code, at, space, word)?;
    Ok(())
}

/// Adds a fault of the namespace that is spelled so to the end of a list. Errors: out of memory.
pub fn push_fault_in(
    alloc: Global,
    faults: &mut Vec<Fault>,
    code: FaultCode,
    at: Spot,
    space: Bytes,
    word: &[u8],
) -> Result<(), NoMemory>
    ensures { OnOk result (faults.new.items ≡ faults.old.items ++ spelled_fault code at space word.now ∷ []) }
{
    let word = Bytes::copy_of(alloc, word)?;
    faults.push(Fault {
        code,
        module: at.module,
        at: at.at,
        space,
        word,
    })?;
    Ok(())
}

impl PartialEq for Fault {
    ghost eq = { eq_by_cmp fault_cmp };

    ghost laws = { partial_equiv_from_equiv (eq_by_cmp_equiv fault_total) };

    fn eq(&self, other: &Fault) -> bool {
        self.cmp(other) == Ordering::Equal
    }
}

impl Eq for Fault {
    ghost laws = { eq_by_cmp_equiv fault_total };
}

impl PartialOrd for Fault {
    ghost partial_cmp = { as_partial_cmp fault_cmp };

    ghost laws = { partial_order_from_total fault_total };

    fn partial_cmp(&self, other: &Fault) -> Option<Ordering> {
        Some(self.cmp(other))
    }
}

impl Ord for Fault {
    ghost cmp = { fault_cmp };

    ghost total = { fault_total };

    ghost matches_partial_cmp = { λ a b. refl };

    ghost matches_eq = { λ a b. refl };

    fn cmp(&self, other: &Fault) -> Ordering {
        self.code
            .number()
            .cmp(&other.code.number())
            .then(self.module.cmp(&other.module))
            .then(self.at.cmp(&other.at))
            .then(self.space.as_slice().cmp(other.space.as_slice()))
            .then(self.word.as_slice().cmp(other.word.as_slice()))
    }
}
