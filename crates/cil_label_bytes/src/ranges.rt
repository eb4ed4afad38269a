//! Levels and ranges at the front of bytes.

ghost use Rattle.std.specs.Prelude.{◌≡◌};
ghost use Rattle.cil_mls.specs.Dominance as dominance;
ghost use Rattle.cil_format.specs.Takes.{Takes};
ghost use Rattle.cil_label_bytes.specs.Layout as layout;

use crate::sets::categories_below;
use cil_format::{TableError, TableFault, small_at};
use cil_mls::{Categories, Level, Range};
use std::alloc::Global;

/// What levels may name: how many categories there are, and which of them each sensitivity permits.
#[derive(Clone, Copy, Drop)]
pub struct Bounds<'p> {
    /// How many categories there are.
    pub categories: usize,
    /// What each sensitivity permits, in their order.
    pub permitted: &'p [Categories],
}

/// A range, and the bytes behind it. Errors: the first fault, or out of memory.
pub fn range_at<'a>(
    alloc: Global,
    bounds: &Bounds,
    bytes: &'a [u8],
) -> Result<(Range, &'a [u8]), TableError>
    ensures { Takes (λ x. (x.0, x.1.now)) result ((layout.range bounds.now.categories bounds.now.permitted.now).read bytes.now) }
{
    let (low, rest) = level_at(alloc, bounds, bytes)?;
    let (high, rest) = level_at(alloc, bounds, rest)?;
    if dominates(&high, &low) {
        return Ok((Range { low, high }, rest));
    }
    Err(TableError::Fault(TableFault::OutOfRange))
}

/// A level, and the bytes behind it. Errors: the first fault, or out of memory.
fn level_at<'a>(
    alloc: Global,
    bounds: &Bounds,
    bytes: &'a [u8],
) -> Result<(Level, &'a [u8]), TableError>
    ensures { Takes (λ x. (x.0, x.1.now)) result ((layout.level bounds.now.categories bounds.now.permitted.now).read bytes.now) }
{
    let (sensitivity, rest) = small_at(bytes, bounds.permitted.len())?;
    let (categories, rest) = categories_below(alloc, rest, bounds.categories)?;
    if permits(bounds.permitted, sensitivity as usize, &categories) {
        return Ok((
            Level {
                sensitivity,
                categories,
            },
            rest,
        ));
    }
    Err(TableError::Fault(TableFault::OutOfRange))
}

/// Whether the sensitivity at a place permits all these categories. A place of no sensitivity permits none.
fn permits(permitted: &[Categories], place: usize, set: &Categories) -> bool
    ensures { result ≡ layout.permits permitted.now place set.now }
{
    let Some(all) = permitted.get(place) else {
        return Categories::none().include(set);
    };
    all.include(set)
}

/// Whether a level dominates another.
fn dominates(high: &Level, low: &Level) -> bool
    ensures { result ≡ dominance.dominates high.now low.now }
{
    high.dominates(low)
}
