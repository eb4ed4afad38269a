//! Macros and calls.

use crate::entry::Entry;
use crate::kind::{Keyword, Nesting, Sign};
use crate::shape::{Row, Shape};
use crate::shared_shapes::NAME;
use crate::term::Op;

/// A macro.
const MACROS: Shape = Shape::LookedUp(Sign::Macros);

/// The kind of a parameter; `typealias` is another word for `type`. Any other word is reported.
const PARAMETER_KIND: Shape = Shape::Either(
    &Shape::Fixed(b"type", Op::TypeKind),
    &Shape::Either(
        &Shape::Fixed(b"typealias", Op::TypeKind),
        &Shape::Either(
            &Shape::Fixed(b"role", Op::RoleKind),
            &Shape::Either(&Shape::Fixed(b"user", Op::UserKind), &KIND_OF_CLASS),
        ),
    ),
);

/// The kinds behind those of types, roles and users.
const KIND_OF_CLASS: Shape = Shape::Either(
    &Shape::Fixed(b"class", Op::ClassKind),
    &Shape::Either(
        &Shape::Fixed(b"name", Op::NameKind),
        &Shape::Either(&Shape::Fixed(b"string", Op::TextKind), &KIND_OF_BOOLEAN),
    ),
);

/// The kinds behind these: of booleans, for which `bool` is another word, of class maps and of class permissions.
const KIND_OF_BOOLEAN: Shape = Shape::Either(
    &Shape::Fixed(b"boolean", Op::BooleanKind),
    &Shape::Either(
        &Shape::Fixed(b"bool", Op::BooleanKind),
        &Shape::Either(
            &Shape::Fixed(b"classmap", Op::ClassMapKind),
            &Shape::Either(
                &Shape::Fixed(b"classpermission", Op::ClassPermissionKind),
                &KIND_OF_LEVEL,
            ),
        ),
    ),
);

/// The kinds of levels and what they are made of, and any other word.
const KIND_OF_LEVEL: Shape = Shape::Either(
    &Shape::Fixed(b"sensitivity", Op::SensitivityKind),
    &Shape::Either(
        &Shape::Fixed(b"category", Op::CategoryKind),
        &Shape::Either(
            &Shape::Fixed(b"categoryset", Op::CategorySetKind),
            &Shape::Either(
                &Shape::Fixed(b"level", Op::LevelKind),
                &Shape::Either(
                    &Shape::Fixed(b"levelrange", Op::LevelRangeKind),
                    &Shape::AnyLeftOut,
                ),
            ),
        ),
    ),
);

/// A parameter of a macro: its kind and its name.
const PARAMETER: Shape = Shape::ListOf(Op::Parameter, Row::Items(&[PARAMETER_KIND, NAME]));

/// The parameters of a macro.
const PARAMETERS: Shape = Shape::ListOf(Op::Parameters, Row::Many(&PARAMETER));

/// The arguments of a call, kept as they are.
const ARGUMENTS: Shape = Shape::ListOf(Op::Arguments, Row::Many(&Shape::Unread));

pub(crate) const MACRO: Entry = Entry {
    word: b"macro",
    keyword: Keyword::Macro,
    nesting: Nesting::InBlock,
    declares: true,
    row: Row::Then(&[NAME, PARAMETERS], &Row::Statements),
};

pub(crate) const CALL: Entry = Entry {
    word: b"call",
    keyword: Keyword::Call,
    nesting: Nesting::InBranch,
    declares: false,
    row: Row::OneOf(&[MACROS], &[MACROS, ARGUMENTS]),
};
