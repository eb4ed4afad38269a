//! Faults of a whole policy, which have no place: a number that is too large, or an order that is not one.

ghost use Rattle.std.specs.Prelude.{◌≡◌, ◌≤◌, IfOk, List, [], length};
ghost use Rattle.cil_base.specs.Lists.{Lists, text_cmp};
ghost use Rattle.cil_faults.specs.Fails.{AreFaults};
ghost use Rattle.cil_faults.specs.Refusal.{Answers, Fails};
ghost use Rattle.cil_faults.specs.Reported.{global_fault};
ghost use Rattle.cil_attrs.specs.macros.Item.{Item, OptSet};
ghost use Rattle.cil_syntax.specs.declared.kind.Kind as kinds;
ghost use Rattle.cil_attrs.specs.names.Declarations.{nowhere};
ghost use Rattle.cil_attrs.specs.SetFaults.{IsItemName};
ghost use Rattle.cil_mls.specs.PolicyFaults.{IsOrdered, IsOver};

use cil_attrs::Limit;
use cil_base::{Bytes, NoMemory};
use cil_faults::{Failure, FaultCode, FaultList, Spot, push_fault};
use std::alloc::Global;

/// Refuses more items of a kind than a policy may have, where these are the names of all. Errors: that fault, or out of memory.
pub(crate) fn check_limit(alloc: Global, names: &[Bytes], limit: Limit) -> Result<(), Failure>
    ensures { (xs : List Item) (s : OptSet) (kind : kinds.Kind) → Lists text_cmp (IsItemName xs s kind) names.now
        → Answers (λ done. length names.now ≤ limit.most) (IsOver xs s kind limit.most limit.word.now) result }
{
    if names.len() <= limit.most {
        return Ok(());
    }
    Err(policy_fault(alloc, FaultCode::TooMany, limit.word))
}

/// The order that there is. Errors: the fault of this cause, where there is none; or out of memory.
pub(crate) fn ordered(
    alloc: Global,
    order: Option<Vec<usize>>,
    code: FaultCode,
) -> Result<Vec<usize>, Failure>
    ensures { IsOrdered code order result }
{
    match order {
        Some(row) => Ok(row),
        None => Err(policy_fault(alloc, code, &[])),
    }
}

/// The refusal with one fault of the whole policy, or for want of memory.
pub(crate) fn policy_fault(alloc: Global, code: FaultCode, word: &[u8]) -> Failure
    ensures { Fails (λ f. f ≡ global_fault code nowhere word.now) result }
{
    match one_fault(alloc, code, word) {
        Ok(list) => Failure::Faults(list),
        Err(_) => Failure::NoMemory,
    }
}

fn one_fault(alloc: Global, code: FaultCode, word: &[u8]) -> Result<FaultList, NoMemory>
    ensures { IfOk result (AreFaults (λ f. f ≡ global_fault code nowhere word.now)) }
{
    let mut faults = Vec::new(alloc);
    push_fault(alloc, &mut faults, code, Spot { module: 0, at: 0 }, word)?;
    match FaultList::of(faults) {
        Some(list) => Ok(list),
        None => unreachable!(),
    }
}
