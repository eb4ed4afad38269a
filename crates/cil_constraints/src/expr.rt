//! Whether constraints are true of two contexts.

ghost use Rattle.std.specs.Prelude.{◌≡◌, ◌⊎◌, ◌<◌, ◌≤◌, ◌↔◌, ◌&&◌, ◌==◌, not, ℕ, Bool, [], ◌∷◌, List, IsTrue, Contains, length, get_or, map};
ghost use Rattle.cil_base.specs.Among.{among};
ghost use Rattle.cil_mls.specs.Dominance.{dominates};
ghost use Rattle.cil_constraints.specs.Expressions.{Expression, IsExpression, trees};
ghost use Rattle.cil_constraints.specs.Truth as truth;

use crate::step::{Equality, LevelPair, Part, Relation, Side, Step};
use cil_mls::Level;
use cil_sets::Numbers;
use std::marker::Model;

/// A security context by the numbers of a table.
#[derive(Clone, Copy, Debug, PartialEq, Eq)]
pub struct Context {
    /// The number of the user.
    pub user: usize,
    /// The number of the role.
    pub role: usize,
    /// The number of the type.
    pub kind: usize,
    /// The low level.
    pub low: Level,
    /// The high level.
    pub high: Level,
}

/// What a constraint asks for. Contracts see it as its steps, which are those of one expression.
#[derive(Debug, Drop)]
pub struct Expr {
    steps: Vec<Step>,
}

impl Model for Expr {
    ghost use Rattle.std.specs.Prelude.{List};
    ghost use Rattle.cil_constraints.specs.declared.step.Step.{Step};
    ghost use Rattle.cil_constraints.specs.Expressions.{IsExpression};

    ghost Value = { List Step };

    ghost view = { λ a. a.steps.items };

    ghost invariant = { λ a. IsExpression a.steps.items };
}

impl Expr {
    /// The expression of these steps, without a copy.
    pub fn from_vec(steps: Vec<Step>) -> Expr
        requires { IsExpression steps.items }
        ensures { result ≡ steps.items }
    {
        Expr { steps }
    }

    /// Its steps.
    pub fn as_slice(&self) -> &[Step]
        ensures same { result.now ≡ self.now }
        ensures one { IsExpression result.now }
    {
        self.steps.as_slice()
    }
}

/// Whether an expression is true of a source and a target. It takes no memory, and a step for each step of the expression.
pub fn holds(expr: &Expr, source: &Context, target: &Context) -> bool
    ensures { result ≡ truth.is_true source.now target.now expr.now }
{
    truth_at(expr.as_slice(), source, target).value
}

/// The truth of an expression, and the steps behind it.
#[derive(Clone, Copy)]
pub(crate) struct Held<'s> {
    pub(crate) value: bool,
    pub(crate) rest: &'s [Step],
}

/// The truth of the first of the expressions that stand one after another in some steps. It calls itself for each operand, as deep as
/// operators nest: at most 128 deep.
pub(crate) fn truth_at<'s>(steps: &'s [Step], source: &Context, target: &Context) -> Held<'s>
    ensures shorter { length result.rest.now ≤ length steps.now }
    ensures truth { (e : Expression (List ℕ)) (es : List (Expression (List ℕ))) → trees steps.now ≡ e ∷ es
        → (result.value ≡ truth.truth source.now target.now e) × (trees result.rest.now ≡ es) }
{
    match steps {
        [] => Held {
            value: false,
            rest: steps,
        },
        [step, rest @ ..] => match step {
            Step::Not => {
                let inner = truth_at(rest, source, target);
                Held {
                    value: !inner.value,
                    rest: inner.rest,
                }
            }
            Step::And => {
                let first = truth_at(rest, source, target);
                let second = truth_at(first.rest, source, target);
                Held {
                    value: first.value & second.value,
                    rest: second.rest,
                }
            }
            Step::Or => {
                let first = truth_at(rest, source, target);
                let second = truth_at(first.rest, source, target);
                Held {
                    value: first.value | second.value,
                    rest: second.rest,
                }
            }
            Step::Compared(part, equality) => Held {
                value: compared(*part, *equality, source, target),
                rest,
            },
            Step::Ranked(pair, relation) => Held {
                value: ranked(*pair, *relation, source, target),
                rest,
            },
            Step::Inside(part, side, equality, set) => Held {
                value: inside(*part, *side, *equality, set, source, target),
                rest,
            },
        },
    }
}

/// The test, or its opposite.
fn as_asked(equality: Equality, test: bool) -> bool
    ensures { result ≡ truth.as_asked equality test }
{
    match equality {
        Equality::Equal => test,
        Equality::Different => !test,
    }
}

fn compared(part: Part, equality: Equality, source: &Context, target: &Context) -> bool
    ensures { result ≡ truth.as_asked equality (truth.number_of part source.now == truth.number_of part target.now) }
{
    as_asked(equality, number_of(part, source) == number_of(part, target))
}

fn number_of(part: Part, context: &Context) -> usize
    ensures { result ≡ truth.number_of part context.now }
{
    match part {
        Part::User => context.user,
        Part::Role => context.role,
        Part::Kind => context.kind,
    }
}

fn inside(
    part: Part,
    side: Side,
    equality: Equality,
    set: &Numbers,
    source: &Context,
    target: &Context,
) -> bool
    ensures { result ≡ truth.as_asked equality (among set.now (truth.number_of part (truth.side_of side source.now target.now))) }
{
    let context = match side {
        Side::Source => source,
        Side::Target => target,
    };
    as_asked(equality, has_number(set, number_of(part, context)))
}

/// Whether a set has a number.
fn has_number(set: &Numbers, number: usize) -> bool
    ensures { result ≡ among set.now number }
{
    set.contains(number)
}

fn ranked(pair: LevelPair, relation: Relation, source: &Context, target: &Context) -> bool
    ensures { result ≡ truth.ranked pair relation source.now.low source.now.high target.now.low target.now.high }
{
    match pair {
        LevelPair::Lows => related(relation, &source.low, &target.low),
        LevelPair::SourceRange => related(relation, &source.low, &source.high),
        LevelPair::LowHigh => related(relation, &source.low, &target.high),
        LevelPair::TargetRange => related(relation, &target.low, &target.high),
        LevelPair::HighLow => related(relation, &source.high, &target.low),
        LevelPair::Highs => related(relation, &source.high, &target.high),
    }
}

/// Whether a level dominates another, as the test of the definitions.
fn dominates(a: &Level, b: &Level) -> bool
    ensures { result ≡ dominates a.now b.now }
{
    a.dominates(b)
}

fn related(relation: Relation, a: &Level, b: &Level) -> bool
    ensures { result ≡ truth.related relation a.now b.now }
{
    match relation {
        Relation::Equal => dominates(a, b) && dominates(b, a),
        Relation::Different => !(dominates(a, b) && dominates(b, a)),
        Relation::Dominates => dominates(a, b),
        Relation::DominatedBy => dominates(b, a),
        Relation::Incomparable => !dominates(a, b) && !dominates(b, a),
    }
}
