//! The walk over all that stands. Each statement is an entry for each chain through which it came; an entry takes two
//! numbers, and no word, place or scope is copied. A walk costs a step for each entry, and stops one body after the limit.

ghost use Rattle.std.specs.Prelude.{◌≡◌, ◌≤◌, ◌++◌, IfNone, IfOk, IfSome, List, OnOk, length, map};
ghost use Rattle.cil_base.specs.Lists.{Lists};
ghost use Rattle.cil_syntax.specs.Written.{Written};
ghost use Rattle.cil_blocks.specs.Contents.{Stands, standing_cmp};
ghost use Rattle.cil_blocks.specs.Entries.{IsWalkable, IsWithin, opened_by, parts_at, standings_of, stepped};
ghost use Rattle.cil_blocks.specs.InheritFaults.{IsOver};

use crate::entry::Entry;
use crate::parts::Parts;
use cil_base::NoMemory;
use std::alloc::Global;

/// All that stands, by the number of statements through which it came and then by these; or nothing where that is more
/// than the limit.
pub fn walk(
    alloc: Global,
    parts: &Parts,
    opened: &[Option<usize>],
    limit: usize,
) -> Result<Option<Vec<Entry>>, NoMemory>
    ensures all { IfOk result (λ o. IfSome o (λ v. (ws : List Written) → IsWalkable ws parts.now opened.now → Lists standing_cmp (Stands ws) (standings_of ws v.items))) }
    ensures few { IfOk result (λ o. IfSome o (λ v. length v.items ≤ limit)) }
    ensures many { IfOk result (λ o. IfNone o ((ws : List Written) → IsWalkable ws parts.now opened.now → IsOver standing_cmp (Stands ws) limit)) }
{
    let mut entries = Vec::with_capacity(alloc, parts.inside.len())?;
    push_all(&mut entries, parts.tops.as_slice(), None)?;
    let mut at = 0;
    while at < entries.len() {
        if entries.len() > limit {
            return Ok(None);
        }
        let statement = entries[at].statement as usize;
        push_all(&mut entries, opened_by(parts, opened, statement), Some(at))?;
        at += 1;
    }
    Ok(Some(entries))
}

/// Puts those that one opens behind the others.
fn push_all(
    entries: &mut Vec<Entry>,
    numbers: &[usize],
    opener: Option<usize>,
) -> Result<(), NoMemory>
    requires { IsWithin opener (length entries.old.items) }
    ensures { OnOk result ((ws : List Written) → standings_of ws entries.new.items ≡ standings_of ws entries.old.items ++ map (stepped ws (standings_of ws entries.old.items) opener) numbers.now) }
{
    for number in numbers {
        entries.push(Entry::of(*number, opener)?)?;
    }
    Ok(())
}

/// What a statement opens where it stands.
fn opened_by<'p>(parts: &'p Parts, opened: &[Option<usize>], statement: usize) -> &'p [usize]
    ensures { result.now ≡ opened_by parts.now opened.now statement }
{
    match opened.get(statement) {
        None => &[],
        Some(number) => match number {
            None => &[],
            Some(other) => parts_at(parts, *other),
        },
    }
}

/// The statements directly in one.
pub fn parts_at(parts: &Parts, statement: usize) -> &[usize]
    ensures { result.now ≡ parts_at parts.now statement }
{
    match parts.inside.get(statement) {
        None => &[],
        Some(numbers) => numbers.as_slice(),
    }
}
