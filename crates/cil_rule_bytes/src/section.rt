//! Sections of rules at the front of bytes.

ghost use Rattle.std.specs.Prelude.{◌≡◌};
ghost use Rattle.cil_format.specs.Fields.{below};
ghost use Rattle.cil_format.specs.Takes.{Takes};
ghost use Rattle.cil_rule_bytes.specs.Bounds.{limits_of};
ghost use Rattle.cil_rule_bytes.specs.Layout.{rule, rules};

use crate::bounds::Bounds;
use crate::rule::{ReadRule, rule_at};
use cil_format::{Section, TableError, is_below, section_at};
use std::alloc::Global;

/// Rules are read by their bounds, and are in the order of their bytes.
impl<'b> Section for Bounds<'b> {
    type Record = ReadRule;

    ghost format = { λ bounds. rule (limits_of bounds) };

    ghost less = { below };

    fn read<'a>(&self, alloc: Global, bytes: &'a [u8]) -> Result<(ReadRule, &'a [u8]), TableError> {
        rule_at(alloc, self, bytes)
    }

    fn is_after(last: &[u8], next: &[u8]) -> bool
        ensures { result ≡ below last.now next.now }
    {
        is_below(last, next)
    }
}

/// A section of rules at the front of bytes, and the bytes behind it. Errors: the first fault, or out of memory.
pub fn rules_at<'a>(
    alloc: Global,
    bounds: &Bounds,
    bytes: &'a [u8],
) -> Result<(Vec<ReadRule>, &'a [u8]), TableError>
    ensures { Takes (λ x. (x.0.items, x.1.now)) result ((rules (limits_of bounds.now)).read bytes.now) }
{
    section_at(alloc, bounds, bytes, u32::MAX)
}
