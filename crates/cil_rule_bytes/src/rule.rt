//! Rules at the front of bytes.

ghost use Rattle.std.specs.Prelude.{◌≡◌};
ghost use Rattle.cil_format.specs.Takes.{Takes};
ghost use Rattle.cil_rule_bytes.specs.Bounds.{limits_of};
ghost use Rattle.cil_rule_bytes.specs.Layout.{any_rule, on_class, reaches_some, rule, rules, says_some, target};
ghost use Rattle.cil_rule_bytes.specs.Records.{target_of};

use crate::bounds::Bounds;
use crate::conditions::branch_at;
use cil_conditions::Branch;
use cil_format::{TableError, TableFault, mask_at, set_at, small_at, u8_at};
use cil_sets::Numbers;
use std::alloc::Global;
use std::marker::Model;

/// What a rule reaches.
#[derive(Debug, Drop)]
pub enum ReadTarget {
    /// These types.
    Types(Numbers),
    /// The source type itself.
    Itself,
}

/// A rule as it was read, with its branch and its sets. Contracts see it as a rule.
#[derive(Debug, Drop)]
pub struct ReadRule {
    pub(crate) branch: Option<Branch>,
    pub(crate) source: Numbers,
    pub(crate) target: ReadTarget,
    pub(crate) class: u16,
    pub(crate) mask: u32,
}

impl Model for ReadRule {
    ghost use Rattle.cil_index.specs.rules.Rule.{Rule};
    ghost use Rattle.cil_rule_bytes.specs.Records.{target_of};

    ghost Value = { Rule };

    ghost view = { λ a. record { branch = a.branch; source = a.source; target = target_of a.target; class = a.class; mask = a.mask } };
}

/// What a rule reaches, of so many types.
fn target_at(alloc: Global, bytes: &[u8], types: usize) -> Result<(ReadTarget, &[u8]), TableError>
    ensures { Takes (λ x. (target_of x.0, x.1.now)) result ((target types).read bytes.now) }
{
    let (tag, rest) = u8_at(bytes)?;
    match tag {
        0 => {
            let (numbers, rest) = set_at(alloc, rest, types)?;
            Ok((ReadTarget::Types(numbers), rest))
        }
        1 => Ok((ReadTarget::Itself, rest)),
        _ => Err(TableError::Fault(TableFault::OutOfRange)),
    }
}

/// A class, and permissions of it.
fn on_class_at<'a>(bytes: &'a [u8], widths: &[usize]) -> Result<((u16, u32), &'a [u8]), TableError>
    ensures { Takes (λ x. ((x.0.0, x.0.1), x.1.now)) result ((on_class widths.now).read bytes.now) }
{
    let (class, rest) = small_at(bytes, widths.len())?;
    let (mask, rest) = mask_at(rest, widths, class as usize)?;
    Ok(((class, mask), rest))
}

/// A rule, whatever it says.
fn any_rule_at<'a>(
    alloc: Global,
    bytes: &'a [u8],
    bounds: &Bounds,
) -> Result<(ReadRule, &'a [u8]), TableError>
    ensures { Takes (λ x. (x.0, x.1.now)) result ((any_rule (limits_of bounds.now)).read bytes.now) }
{
    let (branch, rest) = branch_at(alloc, bytes, bounds.booleans)?;
    let (source, rest) = set_at(alloc, rest, bounds.types)?;
    let (target, rest) = target_at(alloc, rest, bounds.types)?;
    let ((class, mask), rest) = on_class_at(rest, bounds.widths)?;
    let rule = ReadRule {
        branch,
        source,
        target,
        class,
        mask,
    };
    Ok((rule, rest))
}

/// Whether a target has types.
fn is_target(target: &ReadTarget) -> bool
    ensures { result ≡ reaches_some (target_of target.now) }
{
    match target {
        ReadTarget::Types(numbers) => !numbers.is_empty(),
        ReadTarget::Itself => true,
    }
}

impl ReadRule {
    /// Whether it is of some types, on some, and has some permissions.
    fn is_some(&self) -> bool
        ensures { result ≡ says_some self.now }
    {
        if self.source.is_empty() {
            return false;
        }
        is_target(&self.target) && 0 < self.mask
    }
}

/// The rule at the front of bytes, and the bytes behind it. Errors: the first fault, which is 94 at the end of a rule that says nothing, or out
/// of memory.
pub fn rule_at<'a>(
    alloc: Global,
    bounds: &Bounds,
    bytes: &'a [u8],
) -> Result<(ReadRule, &'a [u8]), TableError>
    ensures { Takes (λ x. (x.0, x.1.now)) result ((rule (limits_of bounds.now)).read bytes.now) }
{
    let (rule, rest) = any_rule_at(alloc, bytes, bounds)?;
    if rule.is_some() {
        return Ok((rule, rest));
    }
    Err(TableError::Fault(TableFault::NotCanonical))
}
