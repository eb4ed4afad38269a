//! Expressions at the front of bytes, as steps.

ghost use Rattle.std.specs.Prelude.{◌≡◌, ◌++◌, ◌∷◌, []};
ghost use Rattle.cil_constraint_bytes.specs.Bounds.{limits_of};
ghost use Rattle.cil_constraint_bytes.specs.Layout.{expression, member, pair, tree};
ghost use Rattle.cil_constraint_bytes.specs.Pushes.{Pushes, PushesTwo};
ghost use Rattle.cil_format.specs.Takes.{Takes};

use crate::bounds::{Bounds, members, variables};
use crate::bytes::{equality_by, operations, pair_step, part_by, second_at, side_by};
use cil_constraints::{Expr, Step};
use cil_format::{TableError, TableFault, byte_below, set_at, u8_at};
use std::alloc::Global;

/// An expression of at most 128 levels. It costs a step for each byte. Errors: the first fault, or out of memory.
pub(crate) fn expression_at<'a>(
    alloc: Global,
    bounds: &Bounds,
    bytes: &'a [u8],
) -> Result<(Expr, &'a [u8]), TableError>
    ensures { Takes (λ x. (x.0, x.1.now)) result ((expression (limits_of bounds.now)).read bytes.now) }
{
    let mut steps = Vec::new(alloc);
    let rest = push_tree(alloc, bounds, &mut steps, bytes, 128)?;
    Ok((Expr::from_vec(steps), rest))
}

/// Two expressions, one behind the other.
#[cycle(steps)]
fn push_two<'a>(
    alloc: Global,
    bounds: &Bounds,
    steps: &mut Vec<Step>,
    bytes: &'a [u8],
    levels: u32,
) -> Result<&'a [u8], TableError>
    ensures { PushesTwo (tree (limits_of bounds.now) levels) bytes.now steps.old.items steps.new.items result }
{
    let rest = push_tree(alloc, bounds, steps, bytes, levels)?;
    let rest = push_tree(alloc, bounds, steps, rest, levels)?;
    Ok(rest)
}

/// An expression of so many levels at most. It calls itself for each operand, as deep as operators nest.
#[cycle(steps)]
#[tactic(auto, unfolding(crate::specs::Layout::tree))]
fn push_tree<'a>(
    alloc: Global,
    bounds: &Bounds,
    steps: &mut Vec<Step>,
    bytes: &'a [u8],
    levels: u32,
) -> Result<&'a [u8], TableError>
    ensures { Pushes (tree (limits_of bounds.now) levels) bytes.now steps.old.items steps.new.items result }
{
    if levels == 0 {
        return Err(TableError::Fault(TableFault::OutOfRange));
    }
    let (tag, rest) = u8_at(bytes)?;
    match tag {
        2 => {
            steps.push(Step::Not)?;
            push_tree(alloc, bounds, steps, rest, levels - 1)
        }
        3 => {
            steps.push(Step::And)?;
            push_two(alloc, bounds, steps, rest, levels - 1)
        }
        4 => {
            steps.push(Step::Or)?;
            push_two(alloc, bounds, steps, rest, levels - 1)
        }
        16 => push_pair(bounds, steps, rest),
        17 => push_member(alloc, bounds, steps, rest),
        _ => Err(TableError::Fault(TableFault::OutOfRange)),
    }
}

/// What is said of two variables.
fn push_pair<'a>(
    bounds: &Bounds,
    steps: &mut Vec<Step>,
    bytes: &'a [u8],
) -> Result<&'a [u8], TableError>
    ensures { Pushes (pair (limits_of bounds.now)) bytes.now steps.old.items steps.new.items result }
{
    let (first, rest) = byte_below(bytes, variables(bounds))?;
    let (second, rest) = second_at(rest, first)?;
    let (op, rest) = byte_below(rest, operations(first))?;
    steps.push(pair_step(first, second, op))?;
    Ok(rest)
}

/// What is said of a variable and a set.
fn push_member<'a>(
    alloc: Global,
    bounds: &Bounds,
    steps: &mut Vec<Step>,
    bytes: &'a [u8],
) -> Result<&'a [u8], TableError>
    ensures { Pushes (member (limits_of bounds.now)) bytes.now steps.old.items steps.new.items result }
{
    let (variable, rest) = byte_below(bytes, 6)?;
    let (op, rest) = byte_below(rest, 2)?;
    let (numbers, rest) = set_at(alloc, rest, members(bounds, variable))?;
    let step = Step::Inside(
        part_by(variable),
        side_by(variable),
        equality_by(op),
        numbers,
    );
    steps.push(step)?;
    Ok(rest)
}
