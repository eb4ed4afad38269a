//! The permissions of commons, added to those of the classes that share them.

ghost use Rattle.std.specs.Prelude.{◌≡◌, ◌<◌, ◌++◌, Contains, IfOk, OnOk, length};
ghost use Rattle.std.specs.Global.{Vec as Vector};
ghost use Rattle.std.specs.List.Sorted.{IsStrictlySortedBy};
ghost use Rattle.cil_base.specs.Lists.{Lists, text_cmp};
ghost use Rattle.cil_base.specs.declared.bytes.Bytes.{Bytes as Text};
ghost use Rattle.cil_names.specs.Shared.{AreApart, HaveCommons, IsAddedTo};

use crate::shared::Shared;
use cil_base::NoMemory;
use cil_syntax::Bytes;
use std::alloc::Global;
use std::mem;

/// Adds the permissions of commons to those of the classes that share them. Each costs a copy of the names of its common, and a
/// sort of all names of its class.
pub fn with_commons(
    alloc: Global,
    lists: Vec<Vec<Bytes>>,
    shared: &[Shared],
) -> Result<Vec<Vec<Bytes>>, NoMemory>
    requires rising { (v : Vector Text) → Contains lists.items v → IsStrictlySortedBy text_cmp v.items }
    requires apart { AreApart (length lists.items) shared.now }
    ensures { IfOk result (λ all. HaveCommons lists.items shared.now all.items) }
{
    let mut all = lists;
    for one in shared {
        add_common(alloc, &mut all, one)?;
    }
    Ok(all)
}

/// Adds the permissions of a common to those of a class.
fn add_common(alloc: Global, lists: &mut Vec<Vec<Bytes>>, one: &Shared) -> Result<(), NoMemory>
    requires class { one.now.class < length lists.now.items }
    requires common { one.now.common < length lists.now.items }
    requires apart { one.now.common ≡ one.now.class → ⊥ }
    ensures { OnOk result (IsAddedTo one.now lists.old.items lists.new.items) }
{
    let listed = mem::replace(&mut lists[one.class], Vec::new(alloc));
    let joined = with_names(alloc, listed, lists[one.common].as_slice())?;
    lists[one.class] = joined;
    Ok(())
}

/// Some names and others, in byte order, each once.
fn with_names(alloc: Global, mut names: Vec<Bytes>, more: &[Bytes]) -> Result<Vec<Bytes>, NoMemory>
    ensures { IfOk result (λ all. Lists text_cmp (Contains (names.items ++ more.now)) all.items) }
{
    push_copies(alloc, &mut names, more)?;
    names.sort_unstable();
    names.dedup();
    Ok(names)
}

/// Adds copies of some names.
fn push_copies(alloc: Global, names: &mut Vec<Bytes>, more: &[Bytes]) -> Result<(), NoMemory>
    ensures { OnOk result (names.new.items ≡ names.old.items ++ more.now) }
{
    for name in more {
        names.push(Bytes::copy_of(alloc, name.as_slice())?)?;
    }
    Ok(())
}
