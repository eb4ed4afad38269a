//! Users, their roles and attributes: what may stand for users, and the statements.

use crate::entry::Entry;
use crate::kind::{Keyword, Language, Nesting, Sign};
use crate::role_statements::ROLES;
use crate::shape::{Row, Shape};
use crate::shared_shapes::ONE_NAME;

/// A user or a user attribute.
const USERS: Shape = Shape::LookedUp(Sign::Users);

/// A user, and no user attribute.
pub(crate) const PLAIN_USER: Shape = Shape::LookedUp(Sign::PlainUser);

/// A user attribute.
const USER_ATTRIBUTES: Shape = Shape::LookedUp(Sign::UserAttributes);

/// A set of users.
const SET_OF_USERS: Shape = Shape::Expression(Language::Sets(Sign::Users));

pub(crate) const USER: Entry = Entry {
    word: b"user",
    keyword: Keyword::User,
    nesting: Nesting::InOptional,
    declares: true,
    row: ONE_NAME,
};

pub(crate) const USERROLE: Entry = Entry {
    word: b"userrole",
    keyword: Keyword::UserRole,
    nesting: Nesting::InOptional,
    declares: false,
    row: Row::Items(&[USERS, ROLES]),
};

pub(crate) const USERATTRIBUTE: Entry = Entry {
    word: b"userattribute",
    keyword: Keyword::UserAttribute,
    nesting: Nesting::InOptional,
    declares: true,
    row: ONE_NAME,
};

pub(crate) const USERATTRIBUTESET: Entry = Entry {
    word: b"userattributeset",
    keyword: Keyword::UserAttributeSet,
    nesting: Nesting::InOptional,
    declares: false,
    row: Row::Items(&[USER_ATTRIBUTES, SET_OF_USERS]),
};
