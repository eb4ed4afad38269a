//! Changes of role: which permissions would make one that no `roleallow` lets.

ghost use Rattle.std.specs.Prelude.{◌≡◌, ◌↔◌, ◌≤◌, ℕ, IsBitSet, IsTrue, length};
ghost use Rattle.std.specs.List.Sorted.{IsStrictlySortedBy};
ghost use Rattle.cil_base.specs.Lists.{text_cmp};
ghost use Rattle.cil_tables.specs.classes.Row.{IsOrderlyClass};
ghost use Rattle.cil_decide.specs.Changes.{BarsRow, IsMaskOf, IsNotLet, IsTransitionBit};
ghost use Rattle.cil_tables.specs.Meaning.{process};

use cil_base::{Bytes, number_of};
use cil_tables::{Class, Link, Links};

/// The permissions of a class that would change the role of a process from one to another to which it may not change: `transition` and
/// `dyntransition` of the global class `process`, where the roles differ and no enabled `roleallow` has the two. (CIL Reference
/// Guide, "roleallow"; The SELinux Notebook, "Role-Based Access Control".) It takes no memory, and for any other class it costs one
/// comparison.
pub(crate) fn barred(row: &Class, role_allows: &Links, source: usize, target: usize) -> u32
    requires { IsOrderlyClass row.now }
    ensures { (bit : ℕ) → IsBitSet result bit ↔ BarsRow role_allows.now row.now source target bit }
{
    if !is_process(row.name.as_slice()) {
        return 0;
    }
    if !is_not_let(role_allows, source, target) {
        return 0;
    }
    transitions(row.permissions.as_slice())
}

/// Whether this is the name of the class of processes.
fn is_process(name: &[u8]) -> bool
    ensures { IsTrue result ↔ (name.now ≡ process) }
{
    name == b"process".as_slice()
}

/// Whether roles differ and the one may not change to the other.
fn is_not_let(role_allows: &Links, source: usize, target: usize) -> bool
    ensures { IsTrue result ↔ IsNotLet role_allows.now source target }
{
    source != target
        && !role_allows.has(Link {
            holder: source,
            held: target,
        })
}

/// The mask of the permissions by which a process gets another context.
fn transitions(permissions: &[Bytes]) -> u32
    requires rising { IsStrictlySortedBy text_cmp permissions.now }
    requires few { length permissions.now ≤ 32 }
    ensures { (bit : ℕ) → IsBitSet result bit ↔ IsTransitionBit permissions.now bit }
{
    mask_of(permissions, b"transition") | mask_of(permissions, b"dyntransition")
}

/// The mask of one permission; no bit where the class lacks it.
fn mask_of(permissions: &[Bytes], name: &[u8]) -> u32
    requires rising { IsStrictlySortedBy text_cmp permissions.now }
    requires few { length permissions.now ≤ 32 }
    ensures { IsMaskOf permissions.now name.now result }
{
    match number_of(permissions, name) {
        Some(number) => 1u32 << number,
        None => 0,
    }
}
