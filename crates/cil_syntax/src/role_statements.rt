//! Roles, their types and attributes: what may stand for roles, and the statements.

use crate::class_statements::CLASSES;
use crate::entry::Entry;
use crate::kind::{Keyword, Language, Nesting, Sign};
use crate::shape::{Row, Shape};
use crate::shared_shapes::ONE_NAME;
use crate::type_statements::TYPES;

/// A role or a role attribute.
pub(crate) const ROLES: Shape = Shape::LookedUp(Sign::Roles);

/// A role, and no role attribute.
const PLAIN_ROLE: Shape = Shape::LookedUp(Sign::PlainRole);

/// A role attribute.
const ROLE_ATTRIBUTES: Shape = Shape::LookedUp(Sign::RoleAttributes);

/// A set of roles.
const SET_OF_ROLES: Shape = Shape::Expression(Language::Sets(Sign::Roles));

pub(crate) const ROLE: Entry = Entry {
    word: b"role",
    keyword: Keyword::Role,
    nesting: Nesting::InOptional,
    declares: true,
    row: ONE_NAME,
};

pub(crate) const ROLETYPE: Entry = Entry {
    word: b"roletype",
    keyword: Keyword::RoleType,
    nesting: Nesting::InOptional,
    declares: false,
    row: Row::Items(&[ROLES, TYPES]),
};

pub(crate) const ROLEATTRIBUTE: Entry = Entry {
    word: b"roleattribute",
    keyword: Keyword::RoleAttribute,
    nesting: Nesting::InOptional,
    declares: true,
    row: ONE_NAME,
};

pub(crate) const ROLEATTRIBUTESET: Entry = Entry {
    word: b"roleattributeset",
    keyword: Keyword::RoleAttributeSet,
    nesting: Nesting::InOptional,
    declares: false,
    row: Row::Items(&[ROLE_ATTRIBUTES, SET_OF_ROLES]),
};

pub(crate) const ROLETRANSITION: Entry = Entry {
    word: b"roletransition",
    keyword: Keyword::RoleTransition,
    nesting: Nesting::InOptional,
    declares: false,
    row: Row::Items(&[ROLES, TYPES, CLASSES, PLAIN_ROLE]),
};

pub(crate) const ROLEALLOW: Entry = Entry {
    word: b"roleallow",
    keyword: Keyword::RoleAllow,
    nesting: Nesting::InOptional,
    declares: false,
    row: Row::Items(&[ROLES, ROLES]),
};
