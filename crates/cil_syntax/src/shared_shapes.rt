//! Shapes that are of no section of statements: names that are declared, and `true` or `false`.

use crate::shape::{Row, Shape};
use crate::term::Op;

/// A name that is declared.
pub(crate) const NAME: Shape = Shape::DeclaredName;

/// A name, and nothing more.
pub(crate) const ONE_NAME: Row = Row::Items(&[NAME]);

/// Names in a list.
pub(crate) const NAMES: Shape = Shape::ListOf(Op::Listed, Row::Many(&NAME));

/// One name or more in a list.
pub(crate) const SOME_NAMES: Shape = Shape::ListOf(
    Op::Listed,
    Row::Then(&[NAME], &Row::Many(&NAME)),
);

/// `true` or `false`.
pub(crate) const SWITCH: Shape = Shape::Either(
    &Shape::Fixed(b"true", Op::Yes),
    &Shape::Fixed(b"false", Op::No),
);
