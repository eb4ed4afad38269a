//! The innermost optional round each statement that is placed. One pass finds them all; statements before the first optional
//! take no memory.

ghost use Rattle.std.specs.Prelude.{◌≡◌, ◌+◌, ◌<◌, ◌≤◌, IfOk, IfSome, List, MatchOption, Some, length, slice_get};
ghost use Rattle.cil_base.specs.Lists.{Lists};
ghost use Rattle.cil_blocks.specs.Places.{AreStandings, entries_in};
ghost use Rattle.cil_macros.specs.Calls.{IsPlaced, placed_cmp};
ghost use Rattle.cil_macros.specs.Macros.{all_standing};
ghost use Rattle.cil_macros.specs.Nesting.{AreInnermost, IsOpenedThere, IsOutside, innermost_in, innermost_rank};
ghost use Rattle.cil_macros.specs.Placed.{Placed};
ghost use Rattle.cil_macros.specs.Walks.{AreBrought, placed_in, written_in};

use crate::chain::{Brought, statement_at};
use crate::nearest::opener_of;
use cil_base::NoMemory;
use cil_blocks::Spaces;
use cil_blocks::names::is_optional_at;
use cil_blocks::numbers::Numbers;
use std::alloc::Global;

/// For each place one more than the number of the innermost optional round the statement there; 0 where it is in none.
pub fn innermost_of(alloc: Global, spaces: &Spaces, brought: &Brought) -> Result<Numbers, NoMemory>
    requires standings { AreStandings spaces.now }
    requires brought { AreBrought spaces.now brought.now }
    requires placed { Lists placed_cmp (IsPlaced (written_in spaces.now) (all_standing spaces.now)) (placed_in spaces.now brought.now.entries.items) }
    ensures { IfOk result (AreInnermost (placed_in spaces.now brought.now.entries.items) (length (placed_in spaces.now brought.now.entries.items))) }
{
    let mut numbers = Numbers::new(alloc);
    for at in 0..spaces.entries().len() + brought.entries.len() {
        let number = next_number(spaces, brought, &numbers, at);
        numbers.push(number)?;
    }
    Ok(numbers)
}

/// That of the next place, by those before it.
fn next_number(spaces: &Spaces, brought: &Brought, numbers: &Numbers, at: usize) -> usize
    requires standings { AreStandings spaces.now }
    requires brought { AreBrought spaces.now brought.now }
    requires placed { Lists placed_cmp (IsPlaced (written_in spaces.now) (all_standing spaces.now)) (placed_in spaces.now brought.now.entries.items) }
    requires within { at < length (entries_in spaces.now) + length brought.now.entries.items }
    requires before { AreInnermost (placed_in spaces.now brought.now.entries.items) at numbers.now }
    ensures value { (p : Placed) → slice_get (placed_in spaces.now brought.now.entries.items) at ≡ Some p → result ≡ innermost_rank (placed_in spaces.now brought.now.entries.items) p }
    ensures lower { result ≤ at }
{
    let Some(opener) = opener_at(spaces, brought, at) else {
        return 0;
    };
    let number = statement_at(spaces.entries(), brought.entries.as_slice(), opener);
    if is_optional_at(spaces.statements(), number) {
        return opener + 1;
    }
    match numbers.get(opener) {
        None => 0,
        Some(number) => number,
    }
}

/// The place of what opened the statement at a place; none at the top of a module.
pub fn opener_at(spaces: &Spaces, brought: &Brought, at: usize) -> Option<usize>
    requires brought { AreBrought spaces.now brought.now }
    requires within { at < length (entries_in spaces.now) + length brought.now.entries.items }
    ensures { MatchOption result (IsOutside (placed_in spaces.now brought.now.entries.items) at) (IsOpenedThere (written_in spaces.now) (placed_in spaces.now brought.now.entries.items) at) }
{
    let entries = spaces.entries();
    if at < entries.len() {
        return opener_of(entries, at);
    }
    let called = brought.entries[at - entries.len()];
    Some(called.opener)
}

/// The number of the innermost optional round the statement at a place.
pub fn innermost_at(numbers: &Numbers, at: usize) -> Option<usize>
    ensures value { (ps : List Placed) → AreInnermost ps (length ps) numbers.now → result ≡ innermost_in ps (slice_get ps at) }
    ensures lower { (ps : List Placed) → AreInnermost ps (length ps) numbers.now → IfSome result (λ optional. optional < at) }
{
    let number = numbers.get(at)?;
    number.checked_sub(1)
}
