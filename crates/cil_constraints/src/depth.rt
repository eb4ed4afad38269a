//! How deep expressions nest.

ghost use Rattle.std.specs.Prelude.{◌≡◌, ◌≤◌, ◌↔◌, ℕ, IsTrue, List, MatchOption};
ghost use Rattle.cil_constraints.specs.Depth.{AreBehind, AreDeeper, IsBehind, IsDeeper};
ghost use Rattle.cil_constraints.specs.Expressions.{Expression, levels_of, steps_of};

use crate::step::Step;

/// The levels that an expression may have.
const MOST: usize = 128;

/// Whether the expression of some steps has at most 128 levels. It costs a step for each step.
pub(crate) fn is_shallow(steps: &[Step]) -> bool
    ensures { (e : Expression (List ℕ)) → steps.now ≡ steps_of e → IsTrue result ↔ (levels_of e ≤ 128) }
{
    behind_one(steps, MOST).is_some()
}

/// The steps behind the first of the expressions that stand one after another in some steps; none where it has more levels than this.
/// It calls itself for each operand, no deeper than so many levels.
#[cycle(levels)]
fn behind_one(steps: &[Step], most: usize) -> Option<&[Step]>
    ensures { MatchOption result (IsDeeper steps.now most) (λ rest. IsBehind steps.now most rest.now) }
{
    if most == 0 {
        return None;
    }
    match steps {
        [] => None,
        [step, rest @ ..] => match step {
            Step::Not => behind_one(rest, most - 1),
            Step::And => behind_two(rest, most - 1),
            Step::Or => behind_two(rest, most - 1),
            Step::Compared(_, _) => Some(rest),
            Step::Ranked(_, _) => Some(rest),
            Step::Inside(_, _, _, _) => Some(rest),
        },
    }
}

/// The same of two expressions.
#[cycle(levels)]
fn behind_two(steps: &[Step], most: usize) -> Option<&[Step]>
    ensures { MatchOption result (AreDeeper steps.now most) (λ rest. AreBehind steps.now most rest.now) }
{
    let Some(rest) = behind_one(steps, most) else {
        return None;
    };
    behind_one(rest, most)
}
