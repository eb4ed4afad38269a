//! Access vector rules: what a source may do with a target, and what of it is recorded.

use crate::class_statements::CLASS_PERMISSION;
use crate::entry::Entry;
use crate::kind::{Keyword, Nesting};
use crate::shape::Row;
use crate::type_statements::{TARGET, TYPES};

pub(crate) const ALLOW: Entry = Entry {
    word: b"allow",
    keyword: Keyword::Allow,
    nesting: Nesting::InBranch,
    declares: false,
    row: Row::Items(&[TYPES, TARGET, CLASS_PERMISSION]),
};

pub(crate) const AUDITALLOW: Entry = Entry {
    word: b"auditallow",
    keyword: Keyword::AuditAllow,
    nesting: Nesting::InBranch,
    declares: false,
    row: Row::Items(&[TYPES, TARGET, CLASS_PERMISSION]),
};

pub(crate) const DONTAUDIT: Entry = Entry {
    word: b"dontaudit",
    keyword: Keyword::DontAudit,
    nesting: Nesting::InBranch,
    declares: false,
    row: Row::Items(&[TYPES, TARGET, CLASS_PERMISSION]),
};

pub(crate) const NEVERALLOW: Entry = Entry {
    word: b"neverallow",
    keyword: Keyword::NeverAllow,
    nesting: Nesting::InOptional,
    declares: false,
    row: Row::Items(&[TYPES, TARGET, CLASS_PERMISSION]),
};
