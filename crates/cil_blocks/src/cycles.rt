//! The blockinherits that lie on a cycle: whose target leads back to the body in which they stand. A target leads to what
//! is in it and to the targets of the blockinherits in it, and so on.
//!
//! Without a cycle the cost is linear in the number of statements and targets. Where there is one, all cycles are found at
//! once, as those of a graph: n log n steps, and some 170 bytes for each statement and target.

ghost use Rattle.std.specs.Prelude.{◌≡◌, ◌↔◌, IfOk, IsTrue, get_or, true, false};
ghost use Rattle.cil_syntax.specs.Program.{IsNested, program_of};
ghost use Rattle.cil_blocks.specs.Entries.{AreParts};
ghost use Rattle.cil_blocks.specs.Named.{AreAllTargets};
ghost use Rattle.cil_blocks.specs.Steps.{AreFlags, AreOnCycles, HasTarget, HaveWayBack, StayBelow};

use crate::graph::cycles_of_steps;
use crate::levels::{Steps, all_fall};
use crate::parts::Parts;
use crate::targets::Targets;
use cil_base::NoMemory;
use cil_syntax::Statement;
use std::alloc::Global;

/// The numbers of the blockinherits that lie on a cycle: whose target leads back to the body in which they stand.
pub fn cycles_of(
    alloc: Global,
    statements: &[Statement],
    parts: &Parts,
    targets: &Targets,
) -> Result<Vec<usize>, NoMemory>
    requires nested { IsNested statements.now }
    requires parts { AreParts (program_of statements.now) parts.now }
    requires targets { AreAllTargets (program_of statements.now) targets.now }
    ensures { IfOk result (λ found. AreOnCycles (program_of statements.now) found.items) }
{
    let steps = Steps {
        count: statements.len(),
        parts,
        targets,
    };
    let no_cycle = all_fall(alloc, statements, &steps)?;
    if no_cycle {
        return Ok(Vec::new(alloc));
    }
    let found = coming_back(alloc, &steps)?;
    Ok(found)
}

/// The statements with a target that lead back to themselves.
fn coming_back(alloc: Global, steps: &Steps) -> Result<Vec<usize>, NoMemory>
    requires { StayBelow steps.now.parts.now steps.now.targets.now steps.now.count }
    ensures { IfOk result (λ found. HaveWayBack steps.now.parts.now steps.now.targets.now steps.now.count found.items) }
{
    let cycles = cycles_of_steps(alloc, steps)?;
    let found = flagged(alloc, steps, cycles.on.as_slice())?;
    Ok(found)
}

/// The same, by a flag for each statement that leads back to itself.
fn flagged(alloc: Global, steps: &Steps, flags: &[bool]) -> Result<Vec<usize>, NoMemory>
    requires { AreFlags steps.now.parts.now steps.now.targets.now steps.now.count flags.now }
    ensures { IfOk result (λ found. HaveWayBack steps.now.parts.now steps.now.targets.now steps.now.count found.items) }
{
    let mut found = Vec::new(alloc);
    for number in 0..steps.count {
        if !is_flagged(steps, flags, number) {
            continue;
        }
        found.push(number)?;
    }
    Ok(found)
}

/// Whether a statement has a target, and a flag.
fn is_flagged(steps: &Steps, flags: &[bool], number: usize) -> bool
    ensures { IsTrue result ↔ (HasTarget steps.now.targets.now number × (get_or flags.now number false ≡ true)) }
{
    if steps.targets.at(number).is_empty() {
        return false;
    }
    flag_at(flags, number)
}

fn flag_at(flags: &[bool], number: usize) -> bool
    ensures { result ≡ get_or flags.now number false }
{
    match flags.get(number) {
        None => false,
        Some(flag) => *flag,
    }
}
