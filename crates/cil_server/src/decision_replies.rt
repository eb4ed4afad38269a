//! The reply to a query: the names of permissions.

ghost use Rattle.std.specs.Prelude.{◌<◌, ℕ, List, MatchOption};
ghost use Rattle.std.specs.List.Sorted.{IsStrictlySortedBy};
ghost use Rattle.cil_base.specs.Lists.{text_cmp};
ghost use Rattle.cil_server.specs.Masks.{IsListed, TellsMasks, TellsNames};
ghost use Rattle.cil_server.specs.Streams.{Tells};
ghost use Rattle.cil_server.specs.Turns.{TellsDecision, TellsName};

use crate::devices::Sink;
use crate::output::Output;
use cil_base::Bytes;
use cil_host::{Decision, Host};
use std::hash::BuildHasher;

/// A decision on a class of the loaded policy, by the names of its permissions.
pub(crate) fn put_decision<S: BuildHasher + Drop, W: Sink>(
    output: &mut Output<'_, W>,
    host: &Host<S>,
    class: &[u8],
    decision: Decision,
)
    ensures { TellsDecision host.now class.now decision (Tells output.old output.new) }
{
    put_masks(output, host.permissions(class), decision);
}

/// A decision on a class whose permissions have these names, in byte order: each stands at its bit of the masks. It takes no memory.
pub fn put_masks<W: Sink>(output: &mut Output<'_, W>, names: &[Bytes], decision: Decision)
    ensures { IsStrictlySortedBy text_cmp names.now → TellsMasks names.now decision (Tells output.old output.new) }
{
    output.put(b"OK ");
    put_names(output, names, decision.allowed);
    output.put(b" ");
    put_names(output, names, decision.auditallow);
    output.put(b" ");
    put_names(output, names, decision.auditdeny);
    output.put(b"\n");
}

/// The names of the permissions of a mask, with commas between; a hyphen where there is none.
fn put_names<W: Sink>(output: &mut Output<'_, W>, names: &[Bytes], mask: u32)
    ensures { IsStrictlySortedBy text_cmp names.now → TellsNames names.now mask (Tells output.old output.new) }
{
    let mut is_first = true;
    for bit in 0..u32::BITS {
        let name = named(names, mask, bit);
        is_first = put_name(output, is_first, name);
    }
    if is_first {
        output.put(b"-");
    }
}

/// A name that there may be, with a comma before it unless it is the first. Answers whether the next one is the first.
fn put_name<W: Sink>(output: &mut Output<'_, W>, is_first: bool, name: Option<&[u8]>) -> bool
    ensures { TellsName is_first (Tells output.old output.new) name.entry result }
{
    match name {
        None => is_first,
        Some(name) => {
            if is_first {
                output.put(name);
                return false;
            }
            output.put(b",");
            output.put(name);
            false
        }
    }
}

/// The name of a bit, where it is set in a mask.
fn named(names: &[Bytes], mask: u32, bit: u32) -> Option<&[u8]>
    requires { bit < 32 }
    ensures { MatchOption result ((name : List ℕ) → IsListed names.now mask bit name → ⊥) (λ name. IsListed names.now mask bit name.now) }
{
    if (mask >> bit) & 1 == 1 {
        let name = names.get(bit as usize)?;
        Some(name.as_slice())
    } else {
        None
    }
}
