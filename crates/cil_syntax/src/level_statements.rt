//! Levels, what they are made of, and who has which: what may stand for them, and the statements.

use crate::class_statements::CLASSES;
use crate::entry::Entry;
use crate::kind::{Keyword, Language, Nesting, Sign};
use crate::shape::{Row, Shape};
use crate::shared_shapes::{NAME, ONE_NAME, SWITCH};
use crate::term::Op;
use crate::type_statements::TYPES;
use crate::user_statements::PLAIN_USER;

/// A sensitivity or an alias of one.
const SENSITIVITIES: Shape = Shape::LookedUp(Sign::Sensitivities);

/// An alias of a sensitivity.
const SENSITIVITY_ALIASES: Shape = Shape::LookedUp(Sign::SensitivityAliases);

/// One sensitivity or more in a list.
const SOME_SENSITIVITIES: Shape = Shape::ListOf(
    Op::Listed,
    Row::Then(&[SENSITIVITIES], &Row::Many(&SENSITIVITIES)),
);

/// A category or an alias of one.
const CATEGORIES: Shape = Shape::LookedUp(Sign::Categories);

/// An alias of a category.
const CATEGORY_ALIASES: Shape = Shape::LookedUp(Sign::CategoryAliases);

/// One category or more in a list.
const SOME_CATEGORIES: Shape = Shape::ListOf(
    Op::Listed,
    Row::Then(&[CATEGORIES], &Row::Many(&CATEGORIES)),
);

/// A set of categories.
const SET_OF_CATEGORIES: Shape = Shape::Expression(Language::Sets(Sign::CategorySets));

/// A sensitivity, and its categories if it has some.
const LEVEL_LIST: Shape = Shape::ListOf(
    Op::Level,
    Row::OneOf(&[SENSITIVITIES], &[SENSITIVITIES, SET_OF_CATEGORIES]),
);

/// A level, by its name or by what it has.
const LEVEL: Shape = Shape::Either(&Shape::LookedUp(Sign::Levels), &LEVEL_LIST);

/// A low and a high level.
const RANGE_LIST: Shape = Shape::ListOf(Op::LevelRange, Row::Items(&[LEVEL, LEVEL]));

/// A range of levels, by its name or by its two levels.
const RANGE: Shape = Shape::Either(&Shape::LookedUp(Sign::LevelRanges), &RANGE_LIST);

pub(crate) const MLS: Entry = Entry {
    word: b"mls",
    keyword: Keyword::Mls,
    nesting: Nesting::InBlock,
    declares: false,
    row: Row::Items(&[SWITCH]),
};

pub(crate) const SENSITIVITY: Entry = Entry {
    word: b"sensitivity",
    keyword: Keyword::Sensitivity,
    nesting: Nesting::InBlock,
    declares: true,
    row: ONE_NAME,
};

pub(crate) const SENSITIVITYALIAS: Entry = Entry {
    word: b"sensitivityalias",
    keyword: Keyword::SensitivityAlias,
    nesting: Nesting::InBlock,
    declares: true,
    row: ONE_NAME,
};

pub(crate) const SENSITIVITYALIASACTUAL: Entry = Entry {
    word: b"sensitivityaliasactual",
    keyword: Keyword::SensitivityAliasActual,
    nesting: Nesting::InBlock,
    declares: false,
    row: Row::Items(&[SENSITIVITY_ALIASES, SENSITIVITIES]),
};

pub(crate) const SENSITIVITYORDER: Entry = Entry {
    word: b"sensitivityorder",
    keyword: Keyword::SensitivityOrder,
    nesting: Nesting::InBlock,
    declares: false,
    row: Row::Items(&[SOME_SENSITIVITIES]),
};

pub(crate) const SENSITIVITYCATEGORY: Entry = Entry {
    word: b"sensitivitycategory",
    keyword: Keyword::SensitivityCategory,
    nesting: Nesting::InBlock,
    declares: false,
    row: Row::Items(&[SENSITIVITIES, SET_OF_CATEGORIES]),
};

pub(crate) const CATEGORY: Entry = Entry {
    word: b"category",
    keyword: Keyword::Category,
    nesting: Nesting::InBlock,
    declares: true,
    row: ONE_NAME,
};

pub(crate) const CATEGORYALIAS: Entry = Entry {
    word: b"categoryalias",
    keyword: Keyword::CategoryAlias,
    nesting: Nesting::InBlock,
    declares: true,
    row: ONE_NAME,
};

pub(crate) const CATEGORYALIASACTUAL: Entry = Entry {
    word: b"categoryaliasactual",
    keyword: Keyword::CategoryAliasActual,
    nesting: Nesting::InBlock,
    declares: false,
    row: Row::Items(&[CATEGORY_ALIASES, CATEGORIES]),
};

pub(crate) const CATEGORYORDER: Entry = Entry {
    word: b"categoryorder",
    keyword: Keyword::CategoryOrder,
    nesting: Nesting::InBlock,
    declares: false,
    row: Row::Items(&[SOME_CATEGORIES]),
};

pub(crate) const CATEGORYSET: Entry = Entry {
    word: b"categoryset",
    keyword: Keyword::CategorySet,
    nesting: Nesting::InBlock,
    declares: true,
    row: Row::Items(&[NAME, SET_OF_CATEGORIES]),
};

pub(crate) const LEVEL_STATEMENT: Entry = Entry {
    word: b"level",
    keyword: Keyword::Level,
    nesting: Nesting::InOptional,
    declares: true,
    row: Row::Items(&[NAME, LEVEL_LIST]),
};

pub(crate) const LEVELRANGE: Entry = Entry {
    word: b"levelrange",
    keyword: Keyword::LevelRange,
    nesting: Nesting::InOptional,
    declares: true,
    row: Row::Items(&[NAME, RANGE_LIST]),
};

pub(crate) const USERLEVEL: Entry = Entry {
    word: b"userlevel",
    keyword: Keyword::UserLevel,
    nesting: Nesting::InOptional,
    declares: false,
    row: Row::Items(&[PLAIN_USER, LEVEL]),
};

pub(crate) const USERRANGE: Entry = Entry {
    word: b"userrange",
    keyword: Keyword::UserRange,
    nesting: Nesting::InOptional,
    declares: false,
    row: Row::Items(&[PLAIN_USER, RANGE]),
};

pub(crate) const RANGETRANSITION: Entry = Entry {
    word: b"rangetransition",
    keyword: Keyword::RangeTransition,
    nesting: Nesting::InOptional,
    declares: false,
    row: Row::Items(&[TYPES, TYPES, CLASSES, RANGE]),
};
