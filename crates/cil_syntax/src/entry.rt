//! An entry of the table of statements, and where a statement has statements of its own.

use crate::kind::{Keyword, Nesting};
use crate::shape::Row;

/// Where a statement has statements of its own.
#[derive(Clone, Copy)]
pub(crate) struct Body {
    /// Behind how many items of its list.
    pub(crate) skipped: usize,
    /// How far inside they are.
    pub(crate) nesting: Nesting,
    /// Whether they are in the lists there, each behind its first word.
    pub(crate) branched: bool,
}

/// A statement of the table.
#[derive(Clone, Copy)]
pub(crate) struct Entry {
    /// Its first word.
    pub(crate) word: &'static [u8],
    /// Which statement it is.
    pub(crate) keyword: Keyword,
    /// How far inside it may stand.
    pub(crate) nesting: Nesting,
    /// Whether its name is declared by it, as something that words can name. That of a block or an optional is not.
    pub(crate) declares: bool,
    /// What is behind its word.
    pub(crate) row: Row,
}
