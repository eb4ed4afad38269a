//! The names of permissions, as a reply has them.

ghost use Rattle.std.specs.Prelude.{◌<◌, ◌≡◌, ◌++◌, ℕ, List, IfOk, OnOk, MatchOption};
ghost use Rattle.cil_host.specs.Machine.{State};
ghost use Rattle.cil_host.specs.Permissions.{AreNamesOf};
ghost use Rattle.cil_world.specs.Masks.{IsListed, Spells, behind_comma};

use cil_base::{Bytes, NoMemory};
use std::alloc::Global;

/// The names of the permissions of a mask, with commas between; a hyphen where there are none. Error: out of memory.
pub(crate) fn spelled(alloc: Global, names: &[Bytes], mask: u32) -> Result<Bytes, NoMemory>
    ensures { (h : State) (class_ : List ℕ) → AreNamesOf h class_ names.now → IfOk result (Spells h class_ mask) }
{
    let mut text = Vec::new(alloc);
    let mut is_first = true;
    for bit in 0..u32::BITS {
        if let Some(name) = named(names, mask, bit) {
            push_name(&mut text, is_first, name)?;
            is_first = false;
        }
    }
    if is_first {
        text.push(b'-')?;
    }
    Ok(Bytes::from_vec(text))
}

/// Adds a name, with a comma before it unless it is the first. Error: out of memory.
fn push_name(text: &mut Vec<u8>, is_first: bool, name: &[u8]) -> Result<(), NoMemory>
    ensures { OnOk result (text.new.items ≡ text.old.items ++ behind_comma is_first name.now) }
{
    if !is_first {
        text.push(b',')?;
    }
    text.extend_from_slice(name)?;
    Ok(())
}

/// The name of a bit, where it is set in a mask.
fn named(names: &[Bytes], mask: u32, bit: u32) -> Option<&[u8]>
    requires { bit < 32 }
    ensures { MatchOption result ((name : List ℕ) → IsListed names.now mask bit name → ⊥) (λ name. IsListed names.now mask bit name.now) }
{
    if (mask >> bit) & 1 == 1 {
        let name = names.get(bit as usize)?;
        Some(name.as_slice())
    } else {
        None
    }
}
