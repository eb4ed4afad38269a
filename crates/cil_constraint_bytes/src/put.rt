//! The bytes of constraints, put behind those that are there.

ghost use Rattle.std.specs.Prelude.{◌≡◌, ◌++◌, ℕ, List, OnOk};
ghost use Rattle.std.specs.List.{flat_map};
ghost use Rattle.cil_constraint_bytes.specs.Layout.{Limits, constraint as layout, constraints as section};
ghost use Rattle.cil_constraint_bytes.specs.Spelled.{step_bytes};

use crate::bytes::{equality_byte, first_byte, relation_byte, second_byte, variable_byte};
use cil_base::NoMemory;
use cil_constraints::{Constraint, Side, Step};
use cil_format::{Out, give_count, put_set, put_small};
use std::alloc::Global;

/// The section of constraints: how many there are, and these, put one by one where bytes go. It costs a step for each byte, and room for the bytes
/// of one constraint. Errors: out of memory.
pub fn put_constraints<O: Out>(
    alloc: Global,
    out: &mut O,
    constraints: &[Constraint],
) -> Result<(), NoMemory>
    ensures { (limits : Limits) (before : List ℕ) → O.holds out.old before → OnOk result (O.holds out.new (before ++ (section limits).spell constraints.now)) }
{
    let mut buffer = Vec::new(alloc);
    give_count(out, &mut buffer, constraints.len())?;
    for constraint in constraints {
        give_constraint(alloc, out, &mut buffer, constraint)?;
    }
    Ok(())
}

/// A constraint, put where bytes go. What the buffer held is lost.
fn give_constraint<O: Out>(
    alloc: Global,
    out: &mut O,
    buffer: &mut Vec<u8>,
    constraint: &Constraint,
) -> Result<(), NoMemory>
    ensures { (limits : Limits) (before : List ℕ) → O.holds out.old before → OnOk result (O.holds out.new (before ++ (layout limits).spell constraint.now)) }
{
    buffer.clear();
    put_constraint(alloc, buffer, constraint)?;
    out.put(buffer)
}

/// A constraint: its class, its mask and its steps. It costs a step for each byte. Errors: out of memory.
fn put_constraint(alloc: Global, out: &mut Vec<u8>, constraint: &Constraint) -> Result<(), NoMemory>
    ensures { (limits : Limits) → OnOk result (out.new.items ≡ out.old.items ++ (layout limits).spell constraint.now) }
{
    put_small(out, constraint.class)?;
    put_bytes(out, &constraint.mask.to_be_bytes())?;
    put_steps(alloc, out, constraint.expr.as_slice())
}

/// Steps, one behind the other.
fn put_steps(alloc: Global, out: &mut Vec<u8>, steps: &[Step]) -> Result<(), NoMemory>
    ensures { OnOk result (out.new.items ≡ out.old.items ++ flat_map step_bytes steps.now) }
{
    for step in steps {
        put_step(alloc, out, step)?;
    }
    Ok(())
}

/// A step: its tag, and what follows it up to the next step.
fn put_step(alloc: Global, out: &mut Vec<u8>, step: &Step) -> Result<(), NoMemory>
    ensures { OnOk result (out.new.items ≡ out.old.items ++ step_bytes step.now) }
{
    match step {
        Step::Not => put_bytes(out, &[2]),
        Step::And => put_bytes(out, &[3]),
        Step::Or => put_bytes(out, &[4]),
        Step::Compared(part, equality) => {
            let first = variable_byte(*part, Side::Source);
            let second = variable_byte(*part, Side::Target);
            put_bytes(out, &[16, first, second, equality_byte(*equality)])
        }
        Step::Ranked(pair, relation) => {
            let op = relation_byte(*relation);
            put_bytes(out, &[16, first_byte(*pair), second_byte(*pair), op])
        }
        Step::Inside(part, side, equality, numbers) => {
            let variable = variable_byte(*part, *side);
            put_bytes(out, &[17, variable, equality_byte(*equality)])?;
            put_set(alloc, out, numbers)
        }
    }
}

/// Bytes as they are.
fn put_bytes(out: &mut Vec<u8>, bytes: &[u8]) -> Result<(), NoMemory>
    ensures { OnOk result (out.new.items ≡ out.old.items ++ bytes.now) }
{
    out.extend_from_slice(bytes)?;
    Ok(())
}
