//! Booleans, and statements that count by a condition.

use crate::entry::Entry;
use crate::kind::{Keyword, Language, Nesting};
use crate::shape::{Row, Shape};
use crate::shared_shapes::{NAME, SWITCH};
use crate::term::Op;

/// A condition over booleans.
const CONDITION: Shape = Shape::Expression(Language::Conditions);

/// The statements that count where the condition is true.
const TRUE_BRANCH: Shape = Shape::Tagged(b"true", Op::TrueBranch, Row::Statements);

/// The statements that count where it is false.
const FALSE_BRANCH: Shape = Shape::Tagged(b"false", Op::FalseBranch, Row::Statements);

/// A condition, and one of the branches or both.
const BRANCHES: Row = Row::Then(
    &[CONDITION],
    &Row::Led(
        &TRUE_BRANCH,
        &Row::OneOf(&[TRUE_BRANCH], &[TRUE_BRANCH, FALSE_BRANCH]),
        &Row::OneOf(&[FALSE_BRANCH], &[FALSE_BRANCH, TRUE_BRANCH]),
    ),
);

pub(crate) const BOOLEAN: Entry = Entry {
    word: b"boolean",
    keyword: Keyword::Boolean,
    nesting: Nesting::InOptional,
    declares: true,
    row: Row::Items(&[NAME, SWITCH]),
};

pub(crate) const BOOLEANIF: Entry = Entry {
    word: b"booleanif",
    keyword: Keyword::BooleanIf,
    nesting: Nesting::InOptional,
    declares: false,
    row: BRANCHES,
};
