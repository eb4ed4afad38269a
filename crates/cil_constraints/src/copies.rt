//! Copies of expressions: each constraint of a statement has its own.

ghost use Rattle.std.specs.Prelude.{◌≡◌, ◌++◌, ◌∷◌, [], IfOk, OnOk, map};
ghost use Rattle.cil_constraints.specs.Expressions.{IsExpression};
ghost use Rattle.cil_constraints.specs.Stated.{constraint_with};

use crate::expr::Expr;
use crate::mask::Constraint;
use crate::step::Step;
use cil_base::NoMemory;
use cil_classes::ClassId;
use std::alloc::Global;

/// Adds a constraint for each of these masks, which asks for the expression of these steps. It costs a copy of the steps for each.
pub(crate) fn push_each(
    alloc: Global,
    out: &mut Vec<Constraint>,
    masks: &[(ClassId, u32)],
    steps: &[Step],
) -> Result<(), NoMemory>
    requires { IsExpression steps.now }
    ensures { OnOk result (out.new.items ≡ out.old.items ++ map (constraint_with steps.now) masks.now) }
{
    for one in masks {
        push_one(alloc, out, one, steps)?;
    }
    Ok(())
}

/// Adds the constraint of one mask.
fn push_one(
    alloc: Global,
    out: &mut Vec<Constraint>,
    one: &(ClassId, u32),
    steps: &[Step],
) -> Result<(), NoMemory>
    requires { IsExpression steps.now }
    ensures { OnOk result (out.new.items ≡ out.old.items ++ constraint_with steps.now one.now ∷ []) }
{
    let expr = expression_of(alloc, steps)?;
    out.push(Constraint {
        class: one.0.number,
        mask: one.1,
        expr,
    })?;
    Ok(())
}

/// The expression of a copy of these steps.
fn expression_of(alloc: Global, steps: &[Step]) -> Result<Expr, NoMemory>
    requires { IsExpression steps.now }
    ensures { IfOk result (λ expr. expr ≡ steps.now) }
{
    let copy = copies_of(alloc, steps)?;
    Ok(Expr::from_vec(copy))
}

/// A copy of these steps.
pub(crate) fn copies_of(alloc: Global, steps: &[Step]) -> Result<Vec<Step>, NoMemory>
    ensures { IfOk result (λ copies. copies.items ≡ steps.now) }
{
    let mut copies = Vec::with_capacity(alloc, steps.len())?;
    for step in steps {
        push_copy(alloc, &mut copies, step)?;
    }
    Ok(copies)
}

/// Adds a copy of a step.
fn push_copy(alloc: Global, copies: &mut Vec<Step>, step: &Step) -> Result<(), NoMemory>
    ensures { OnOk result (copies.new.items ≡ copies.old.items ++ step.now ∷ []) }
{
    copies.push(copy_of(alloc, step)?)?;
    Ok(())
}

/// A copy of a step.
fn copy_of(alloc: Global, step: &Step) -> Result<Step, NoMemory>
    ensures { IfOk result (λ copy. copy ≡ step.now) }
{
    match step {
        Step::Not => Ok(Step::Not),
        Step::And => Ok(Step::And),
        Step::Or => Ok(Step::Or),
        Step::Compared(part, equality) => Ok(Step::Compared(*part, *equality)),
        Step::Ranked(pair, relation) => Ok(Step::Ranked(*pair, *relation)),
        Step::Inside(part, side, equality, set) => Ok(Step::Inside(
            *part,
            *side,
            *equality,
            set.try_clone(alloc)?,
        )),
    }
}
