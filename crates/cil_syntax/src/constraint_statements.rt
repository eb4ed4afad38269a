//! Constraints: what has to hold of two contexts, with levels and without.

use crate::class_statements::CLASS_PERMISSION;
use crate::entry::Entry;
use crate::kind::{Keyword, Language, Nesting};
use crate::shape::{Row, Shape};

/// What has to hold.
const CONSTRAINT: Shape = Shape::Expression(Language::Constraints);

/// What has to hold, of levels too.
const LEVEL_CONSTRAINT: Shape = Shape::Expression(Language::LevelConstraints);

pub(crate) const CONSTRAIN: Entry = Entry {
    word: b"constrain",
    keyword: Keyword::Constrain,
    nesting: Nesting::InOptional,
    declares: false,
    row: Row::Items(&[CLASS_PERMISSION, CONSTRAINT]),
};

pub(crate) const MLSCONSTRAIN: Entry = Entry {
    word: b"mlsconstrain",
    keyword: Keyword::MlsConstrain,
    nesting: Nesting::InOptional,
    declares: false,
    row: Row::Items(&[CLASS_PERMISSION, LEVEL_CONSTRAINT]),
};
