//! Rows of expressions and of what constraints leave, worked out by hand from the rules.

ghost use Rattle.std.specs.Prelude.{◌≤◌};

use crate::expr::{Context, Expr, truth_at};
use crate::mask::{Constraint, permitted};
use crate::push::{Standing, push_said};
use crate::step::{Equality, LevelPair, Part, Relation, Side, Step};
use cil_classes::Meaning;
use cil_mls::{Categories, Level};
use cil_sets::Numbers;
use cil_syntax::{Excerpt, LookedUp, Op, Sign, Term};
use std::alloc::Global;
use std::test::Fail;

/// A step, with a set as the list of its members.
#[derive(Clone, Copy, Debug)]
enum Plain {
    Not,
    And,
    Or,
    Compared(Part, Equality),
    Ranked(LevelPair, Relation),
    Inside(Part, Side, Equality, &'static [usize]),
}

const USERS: Plain = Plain::Compared(Part::User, Equality::Equal);

const OTHER_USERS: Plain = Plain::Compared(Part::User, Equality::Different);

const TYPES: Plain = Plain::Compared(Part::Kind, Equality::Equal);

const OTHER_TYPES: Plain = Plain::Compared(Part::Kind, Equality::Different);

/// The steps of an expression, and whether it is true of `source` and `target`: their users are one, their roles are 2 and 4, their
/// types 3 and 5. The source has the levels s1 and s3:c0.c5, the target s0:c0.c1 and s2:c0.c9.
const ROWS: &[(&[Plain], bool)] = &[
    (&[USERS], true),
    (&[OTHER_USERS], false),
    (&[TYPES], false),
    (&[OTHER_TYPES], true),
    (
        &[Plain::Inside(Part::Role, Side::Source, Equality::Equal, &[2, 7])],
        true,
    ),
    (
        &[Plain::Inside(Part::Role, Side::Source, Equality::Different, &[2, 7])],
        false,
    ),
    (
        &[Plain::Inside(Part::Role, Side::Target, Equality::Equal, &[2, 7])],
        false,
    ),
    (
        &[Plain::Inside(Part::Role, Side::Target, Equality::Different, &[])],
        true,
    ),
    // No level has the categories of the other.
    (
        &[Plain::Ranked(LevelPair::Lows, Relation::Dominates)],
        false,
    ),
    (
        &[Plain::Ranked(LevelPair::Lows, Relation::Incomparable)],
        true,
    ),
    (
        &[Plain::Ranked(LevelPair::LowHigh, Relation::DominatedBy)],
        true,
    ),
    (
        &[Plain::Ranked(LevelPair::LowHigh, Relation::Dominates)],
        false,
    ),
    (
        &[Plain::Ranked(LevelPair::HighLow, Relation::Dominates)],
        true,
    ),
    (
        &[Plain::Ranked(LevelPair::HighLow, Relation::DominatedBy)],
        false,
    ),
    (&[Plain::Ranked(LevelPair::Highs, Relation::Equal)], false),
    (
        &[Plain::Ranked(LevelPair::Highs, Relation::Different)],
        true,
    ),
    (
        &[Plain::Ranked(LevelPair::SourceRange, Relation::DominatedBy)],
        true,
    ),
    (
        &[Plain::Ranked(LevelPair::TargetRange, Relation::Dominates)],
        false,
    ),
    (&[Plain::Not, USERS], false),
    (&[Plain::And, USERS, TYPES], false),
    (&[Plain::And, USERS, OTHER_TYPES], true),
    (&[Plain::Or, TYPES, USERS], true),
    (&[Plain::Or, TYPES, OTHER_USERS], false),
    // The first operand of `or` is false, and is itself of two.
    (
        &[Plain::Or, Plain::And, USERS, TYPES, Plain::Not, OTHER_USERS],
        true,
    ),
];

/// A level of a sensitivity and so many categories, from the lowest on.
fn level(sensitivity: u16, count: usize) -> Level
    requires { count ≤ 1024 }
{
    Level {
        sensitivity,
        categories: Categories::first(count),
    }
}

fn source() -> Context {
    Context {
        user: 1,
        role: 2,
        kind: 3,
        low: level(1, 0),
        high: level(3, 6),
    }
}

fn target() -> Context {
    Context {
        user: 1,
        role: 4,
        kind: 5,
        low: level(0, 2),
        high: level(2, 10),
    }
}

fn set_of(alloc: Global, members: &[usize]) -> Result<Numbers, Fail> {
    let mut set = Numbers::new(alloc);
    for &number in members {
        set.add(number)?;
    }
    Ok(set)
}

fn step_of(alloc: Global, plain: Plain) -> Result<Step, Fail> {
    match plain {
        Plain::Not => Ok(Step::Not),
        Plain::And => Ok(Step::And),
        Plain::Or => Ok(Step::Or),
        Plain::Compared(part, equality) => Ok(Step::Compared(part, equality)),
        Plain::Ranked(pair, relation) => Ok(Step::Ranked(pair, relation)),
        Plain::Inside(part, side, equality, members) => {
            let set = set_of(alloc, members)?;
            Ok(Step::Inside(part, side, equality, set))
        }
    }
}

fn steps_of(alloc: Global, row: &[Plain]) -> Result<Vec<Step>, Fail> {
    let mut steps = Vec::new(alloc);
    for &plain in row {
        let step = step_of(alloc, plain)?;
        steps.push(step)?;
    }
    Ok(steps)
}

/// Whether a row is true, and none of its steps is left.
fn is_true(steps: &[Step]) -> (bool, bool) {
    let held = truth_at(steps, &source(), &target());
    (held.value, held.rest.is_empty())
}

#[test]
fn expressions_are_true(rt: HostRuntime) -> Result<(), Fail> {
    let alloc = rt.alloc();
    for &(row, want) in ROWS {
        let steps = steps_of(alloc, row)?;
        assert_eq!(rt; is_true(steps.as_slice()), (want, true), "{row:?}");
    }
    Ok(())
}

/// The users differ: false of `source` and `target`.
fn other_users(alloc: Global) -> Result<Expr, Fail> {
    let mut steps = Vec::new(alloc);
    steps.push(Step::Compared(Part::User, Equality::Different))?;
    Ok(Expr::from_vec(steps))
}

/// What is left of some permissions by one constraint on the second, which is false.
fn left_by_one(alloc: Global, covered: u32) -> Result<u32, Fail> {
    let mut constraints = Vec::new(alloc);
    constraints.push(Constraint {
        class: 0,
        mask: 0b010,
        expr: other_users(alloc)?,
    })?;
    Ok(permitted(constraints.as_slice(), &source(), &target(), covered))
}

#[test]
fn a_false_constraint_takes_its_permissions(rt: HostRuntime) -> Result<(), Fail> {
    let alloc = rt.alloc();
    for &(covered, want) in &[(0b111, 0b101), (0b010, 0), (0b101, 0b101), (0, 0)] {
        assert_eq!(rt; left_by_one(alloc, covered)?, want, "{covered}");
    }
    Ok(())
}

fn word(bytes: &'static [u8]) -> Term<'static> {
    Term::Leaf(LookedUp {
        bytes: Excerpt::of(bytes),
        at: 0,
        sign: Sign::Roles,
    })
}

fn alone(alloc: Global, op: Op) -> Term<'static> {
    Term::Form(op, 0, Vec::new(alloc))
}

fn two(
    alloc: Global,
    op: Op,
    first: Term<'static>,
    second: Term<'static>,
) -> Result<Term<'static>, Fail> {
    let mut parts = Vec::new(alloc);
    parts.push(first)?;
    parts.push(second)?;
    Ok(Term::Form(op, 0, parts))
}

/// `(eq r2 (a b))`
fn in_a_or_b(alloc: Global) -> Result<Term<'static>, Fail> {
    let words = two(alloc, Op::Union, word(b"a"), word(b"b"))?;
    two(alloc, Op::Equal, alone(alloc, Op::TargetRole), words)
}

/// `(not (eq r2 (a b)))`
fn in_neither(alloc: Global) -> Result<Term<'static>, Fail> {
    let mut parts = Vec::new(alloc);
    parts.push(in_a_or_b(alloc)?)?;
    Ok(Term::Form(Op::Not, 0, parts))
}

/// `(and (neq t1 t2) (not (eq r2 (a b))))`
fn sample(alloc: Global) -> Result<Term<'static>, Fail> {
    let types = two(
        alloc,
        Op::Unequal,
        alone(alloc, Op::SourceType),
        alone(alloc, Op::TargetType),
    )?;
    two(alloc, Op::And, types, in_neither(alloc)?)
}

/// What the two words mean: the first and the second declared name.
fn meanings(alloc: Global) -> Result<Vec<Meaning>, Fail> {
    let mut words = Vec::new(alloc);
    words.push(Meaning::of(Some(0))?)?;
    words.push(Meaning::of(Some(1))?)?;
    Ok(words)
}

/// The roles of the two names.
fn sets_of(alloc: Global, first: &[usize], second: &[usize]) -> Result<Vec<Numbers>, Fail> {
    let mut sets = Vec::new(alloc);
    sets.push(set_of(alloc, first)?)?;
    sets.push(set_of(alloc, second)?)?;
    Ok(sets)
}

/// Adds the steps of the sample, and answers how many meanings are behind those of its words.
fn push_sample(
    alloc: Global,
    steps: &mut Vec<Step>,
    roles: &[Numbers],
) -> Result<Option<usize>, Fail> {
    let words = meanings(alloc)?;
    let term = sample(alloc)?;
    let sets = Standing {
        users: &[],
        roles,
        types: &[],
    };
    let rest = push_said(alloc, steps, &sets, &term, 0, words.as_slice())?;
    Ok(rest.map(|rest| rest.len()))
}

/// The roles of `a` and of `b`, and whether the sample is true: the types are 3 and 5, the role of the target is 4.
const SAMPLES: &[(&[usize], &[usize], bool)] = &[
    (&[2], &[7], true),
    (&[2], &[4], false),
    (&[4, 9], &[], false),
    (&[], &[], true),
];

fn is_sample_true(alloc: Global, first: &[usize], second: &[usize]) -> Result<(bool, bool), Fail> {
    let roles = sets_of(alloc, first, second)?;
    let mut steps = Vec::new(alloc);
    if push_sample(alloc, &mut steps, roles.as_slice())? != Some(0) {
        return Ok((false, false));
    }
    Ok(is_true(steps.as_slice()))
}

#[test]
fn steps_are_what_is_said(rt: HostRuntime) -> Result<(), Fail> {
    let alloc = rt.alloc();
    for &(first, second, want) in SAMPLES {
        assert_eq!(rt;
            is_sample_true(alloc, first, second)?,
            (want, true),
            "{first:?} {second:?}"
        );
    }
    Ok(())
}
