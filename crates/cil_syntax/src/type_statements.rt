//! Types, their aliases and attributes, and what type new objects have: what may stand for types, and the statements.

use crate::class_statements::CLASSES;
use crate::entry::Entry;
use crate::kind::{Keyword, Language, Nesting, Sign};
use crate::shape::{Row, Shape};
use crate::shared_shapes::{ONE_NAME, SWITCH};
use crate::term::Op;

/// A type, an alias or an attribute.
pub(crate) const TYPES: Shape = Shape::LookedUp(Sign::Types);

/// A type or an alias of one.
const PLAIN_TYPE: Shape = Shape::LookedUp(Sign::PlainType);

/// An alias of a type.
const TYPE_ALIASES: Shape = Shape::LookedUp(Sign::TypeAliases);

/// A type attribute.
const TYPE_ATTRIBUTES: Shape = Shape::LookedUp(Sign::TypeAttributes);

/// A type attribute, or one and more in a list.
const SOME_ATTRIBUTES: Shape = Shape::Either(
    &TYPE_ATTRIBUTES,
    &Shape::ListOf(
        Op::Listed,
        Row::Then(&[TYPE_ATTRIBUTES], &Row::Many(&TYPE_ATTRIBUTES)),
    ),
);

/// A set of types.
const SET_OF_TYPES: Shape = Shape::Expression(Language::Sets(Sign::Types));

/// The target of a rule: types, or the source itself.
pub(crate) const TARGET: Shape = Shape::Either(
    &Shape::Fixed(b"self", Op::Itself),
    &Shape::Either(
        &Shape::LeftOut(b"notself"),
        &Shape::Either(&Shape::LeftOut(b"other"), &TYPES),
    ),
);

/// The name of an object, as a word or a text.
const OBJECT_NAME: Shape = Shape::ObjectName;

pub(crate) const TYPE: Entry = Entry {
    word: b"type",
    keyword: Keyword::Type_,
    nesting: Nesting::InOptional,
    declares: true,
    row: ONE_NAME,
};

pub(crate) const TYPEALIAS: Entry = Entry {
    word: b"typealias",
    keyword: Keyword::TypeAlias,
    nesting: Nesting::InOptional,
    declares: true,
    row: ONE_NAME,
};

pub(crate) const TYPEALIASACTUAL: Entry = Entry {
    word: b"typealiasactual",
    keyword: Keyword::TypeAliasActual,
    nesting: Nesting::InOptional,
    declares: false,
    row: Row::Items(&[TYPE_ALIASES, PLAIN_TYPE]),
};

pub(crate) const TYPEATTRIBUTE: Entry = Entry {
    word: b"typeattribute",
    keyword: Keyword::TypeAttribute,
    nesting: Nesting::InOptional,
    declares: true,
    row: ONE_NAME,
};

pub(crate) const TYPEATTRIBUTESET: Entry = Entry {
    word: b"typeattributeset",
    keyword: Keyword::TypeAttributeSet,
    nesting: Nesting::InOptional,
    declares: false,
    row: Row::Items(&[TYPE_ATTRIBUTES, SET_OF_TYPES]),
};

pub(crate) const EXPANDTYPEATTRIBUTE: Entry = Entry {
    word: b"expandtypeattribute",
    keyword: Keyword::ExpandTypeAttribute,
    nesting: Nesting::InOptional,
    declares: false,
    row: Row::Items(&[SOME_ATTRIBUTES, SWITCH]),
};

pub(crate) const TYPETRANSITION: Entry = Entry {
    word: b"typetransition",
    keyword: Keyword::TypeTransition,
    nesting: Nesting::InBranch,
    declares: false,
    row: Row::OneOf(
        &[TYPES, TARGET, CLASSES, PLAIN_TYPE],
        &[TYPES, TARGET, CLASSES, OBJECT_NAME, PLAIN_TYPE],
    ),
};

pub(crate) const TYPECHANGE: Entry = Entry {
    word: b"typechange",
    keyword: Keyword::TypeChange,
    nesting: Nesting::InBranch,
    declares: false,
    row: Row::Items(&[TYPES, TARGET, CLASSES, PLAIN_TYPE]),
};

pub(crate) const TYPEMEMBER: Entry = Entry {
    word: b"typemember",
    keyword: Keyword::TypeMember,
    nesting: Nesting::InBranch,
    declares: false,
    row: Row::Items(&[TYPES, TARGET, CLASSES, PLAIN_TYPE]),
};
