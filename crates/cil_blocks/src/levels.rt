//! Levels of statements. Where they fall along each step, from a statement to those in it or from a blockinherit to its
//! targets, no statement leads back to itself. Levels are guessed, and then tried on each step; both cost one pass.

ghost use Rattle.std.specs.Prelude.{◌≡◌, ◌<◌, ℕ, Contains, IfOk, IsTrue};
ghost use Rattle.cil_blocks.specs.Steps.{Fall, NoneComesBack, StayBelow, level_at};

use crate::guess::guess;
use crate::parts::Parts;
use crate::targets::Targets;
use crate::walker::parts_at;
use cil_base::NoMemory;
use cil_syntax::Statement;
use std::alloc::Global;

/// The steps between the statements of a program.
#[derive(Clone, Copy)]
pub(crate) struct Steps<'g, 'b> {
    /// How many statements there are.
    pub(crate) count: usize,
    /// A statement leads to those directly in it.
    pub(crate) parts: &'g Parts,
    /// A blockinherit leads to its targets.
    pub(crate) targets: &'g Targets<'b>,
}

/// Whether levels were found that fall along each step, so that no statement leads back to itself.
pub(crate) fn all_fall(
    alloc: Global,
    statements: &[Statement],
    steps: &Steps,
) -> Result<bool, NoMemory>
    requires { StayBelow steps.now.parts.now steps.now.targets.now steps.now.count }
    ensures { IfOk result (λ b. IsTrue b → NoneComesBack steps.now.parts.now steps.now.targets.now steps.now.count) }
{
    let levels = guess(alloc, statements, steps)?;
    Ok(each_falls(steps, levels.as_slice()))
}

/// Whether levels fall along each step.
fn each_falls(steps: &Steps, levels: &[usize]) -> bool
    ensures { IsTrue result → Fall steps.now.parts.now steps.now.targets.now steps.now.count levels.now }
{
    for number in 0..steps.count {
        let level = level_at(levels, number);
        if !are_below(levels, parts_at(steps.parts, number), level) {
            return false;
        }
        if !are_below(levels, steps.targets.at(number), level) {
            return false;
        }
    }
    true
}

/// Whether each of some statements has a level below a limit.
fn are_below(levels: &[usize], numbers: &[usize], limit: usize) -> bool
    ensures { IsTrue result → (k : ℕ) → Contains numbers.now k → level_at levels.now k < limit }
{
    for number in numbers {
        if level_at(levels, *number) >= limit {
            return false;
        }
    }
    true
}

/// The level of a statement; the lowest where it has none.
fn level_at(levels: &[usize], number: usize) -> usize
    ensures { result ≡ level_at levels.now number }
{
    match levels.get(number) {
        None => 0,
        Some(level) => *level,
    }
}
