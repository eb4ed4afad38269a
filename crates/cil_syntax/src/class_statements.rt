//! Classes and permissions: what may stand for them, and the statements.

use crate::entry::Entry;
use crate::kind::{Keyword, Language, Nesting, Sign};
use crate::shape::{Row, Shape};
use crate::shared_shapes::{NAME, NAMES, ONE_NAME, SOME_NAMES};
use crate::term::Op;

/// A class or a class map.
pub(crate) const CLASSES: Shape = Shape::LookedUp(Sign::Classes);

/// A class, and no class map.
const PLAIN_CLASS: Shape = Shape::LookedUp(Sign::PlainClass);

/// A class map.
const CLASS_MAPS: Shape = Shape::LookedUp(Sign::ClassMaps);

/// A set of permissions that classes share.
const COMMONS: Shape = Shape::LookedUp(Sign::Commons);

/// A permission by its name.
const PERMISSION: Shape = Shape::LookedUp(Sign::Permission);

/// A set of permissions.
const PERMISSION_SET: Shape = Shape::Expression(Language::Sets(Sign::Permission));

/// A class and a set of its permissions.
const CLASS_LIST: Shape = Shape::ListOf(
    Op::ClassPermissions,
    Row::Items(&[CLASSES, PERMISSION_SET]),
);

/// A class permission: its name, or a class and a set of its permissions.
pub(crate) const CLASS_PERMISSION: Shape = Shape::Either(
    &Shape::LookedUp(Sign::ClassPermissions),
    &CLASS_LIST,
);

/// A class permission by its name alone.
const NAMED_PERMISSIONS: Shape = Shape::LookedUp(Sign::NamedPermissions);

/// What a permission of a class map stands for: a class permission by its name, or a class and a set of its permissions. No
/// class map may stand there.
const MAPPED_PERMISSIONS: Shape = Shape::Either(
    &Shape::LookedUp(Sign::MappedPermissions),
    &Shape::ListOf(
        Op::ClassPermissions,
        Row::Items(&[PLAIN_CLASS, PERMISSION_SET]),
    ),
);

/// That no order is meant.
const UNORDERED: Shape = Shape::Fixed(b"unordered", Op::Unordered);

/// Classes in an order, which need not be meant.
const ORDERED_CLASSES: Shape = Shape::ListOf(
    Op::Listed,
    Row::Led(
        &UNORDERED,
        &Row::Then(&[UNORDERED], &Row::Many(&PLAIN_CLASS)),
        &Row::Many(&PLAIN_CLASS),
    ),
);

pub(crate) const CLASS: Entry = Entry {
    word: b"class",
    keyword: Keyword::Class,
    nesting: Nesting::InBlock,
    declares: true,
    row: Row::Items(&[NAME, NAMES]),
};

pub(crate) const CLASSORDER: Entry = Entry {
    word: b"classorder",
    keyword: Keyword::ClassOrder,
    nesting: Nesting::InOptional,
    declares: false,
    row: Row::Items(&[ORDERED_CLASSES]),
};

pub(crate) const COMMON: Entry = Entry {
    word: b"common",
    keyword: Keyword::Common,
    nesting: Nesting::InBlock,
    declares: true,
    row: Row::Items(&[NAME, SOME_NAMES]),
};

pub(crate) const CLASSCOMMON: Entry = Entry {
    word: b"classcommon",
    keyword: Keyword::ClassCommon,
    nesting: Nesting::InBlock,
    declares: false,
    row: Row::Items(&[PLAIN_CLASS, COMMONS]),
};

pub(crate) const CLASSPERMISSION: Entry = Entry {
    word: b"classpermission",
    keyword: Keyword::ClassPermission,
    nesting: Nesting::InOptional,
    declares: true,
    row: ONE_NAME,
};

pub(crate) const CLASSPERMISSIONSET: Entry = Entry {
    word: b"classpermissionset",
    keyword: Keyword::ClassPermissionSet,
    nesting: Nesting::InOptional,
    declares: false,
    row: Row::Items(&[NAMED_PERMISSIONS, CLASS_LIST]),
};

pub(crate) const CLASSMAP: Entry = Entry {
    word: b"classmap",
    keyword: Keyword::ClassMap,
    nesting: Nesting::InBlock,
    declares: true,
    row: Row::Items(&[NAME, SOME_NAMES]),
};

pub(crate) const CLASSMAPPING: Entry = Entry {
    word: b"classmapping",
    keyword: Keyword::ClassMapping,
    nesting: Nesting::InOptional,
    declares: false,
    row: Row::Items(&[CLASS_MAPS, PERMISSION, MAPPED_PERMISSIONS]),
};
