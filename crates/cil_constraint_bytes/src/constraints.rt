//! Constraints at the front of bytes.

ghost use Rattle.std.specs.Prelude.{◌≡◌, ◌^◌, nat_le};
ghost use Rattle.cil_format.specs.Fields.{below};
ghost use Rattle.cil_format.specs.Takes.{Takes};
ghost use Rattle.cil_constraint_bytes.specs.Bounds.{limits_of};
ghost use Rattle.cil_constraint_bytes.specs.Layout.{any_constraint, constraint, constraints};

use crate::bounds::Bounds;
use crate::steps::expression_at;
use cil_constraints::Constraint;
use cil_format::{Section, TableError, TableFault, is_below, mask_at, section_at, small_at};
use std::alloc::Global;

/// A constraint, whatever its mask.
fn any_constraint_at<'a>(
    alloc: Global,
    bounds: &Bounds,
    bytes: &'a [u8],
) -> Result<(Constraint, &'a [u8]), TableError>
    ensures { Takes (λ x. (x.0, x.1.now)) result ((any_constraint (limits_of bounds.now)).read bytes.now) }
{
    let (class, rest) = small_at(bytes, bounds.widths.len())?;
    let class = class as usize;
    let (mask, rest) = mask_at(rest, bounds.widths, class)?;
    let (expr, rest) = expression_at(alloc, bounds, rest)?;
    Ok((Constraint { class, mask, expr }, rest))
}

/// The constraint at the front of the bytes, and the bytes behind it. It costs a step for each byte. Errors: the first fault, or out
/// of memory.
pub fn constraint_at<'a>(
    alloc: Global,
    bounds: &Bounds,
    bytes: &'a [u8],
) -> Result<(Constraint, &'a [u8]), TableError>
    ensures { Takes (λ x. (x.0, x.1.now)) result ((constraint (limits_of bounds.now)).read bytes.now) }
{
    let (constraint, rest) = any_constraint_at(alloc, bounds, bytes)?;
    if constraint.mask == 0 {
        return Err(TableError::Fault(TableFault::NotCanonical));
    }
    Ok((constraint, rest))
}

impl<'b> Section for Bounds<'b> {
    type Record = Constraint;

    ghost format = { λ bounds. constraint (limits_of bounds) };

    ghost less = { below };

    fn read<'a>(
        &self,
        alloc: Global,
        bytes: &'a [u8],
    ) -> Result<(Constraint, &'a [u8]), TableError> {
        constraint_at(alloc, self, bytes)
    }

    fn is_after(last: &[u8], next: &[u8]) -> bool
        ensures { result ≡ below last.now next.now }
    {
        is_below(last, next)
    }
}

/// The section of constraints at the front of the bytes, and the bytes behind it. Errors: the first fault, or out of memory.
pub fn constraints_at<'a>(
    alloc: Global,
    bounds: &Bounds,
    bytes: &'a [u8],
) -> Result<(Vec<Constraint>, &'a [u8]), TableError>
    ensures { Takes (λ x. (x.0.items, x.1.now)) result ((constraints (limits_of bounds.now)).read bytes.now) }
{
    section_at(alloc, bounds, bytes, 4_294_967_295)
}
