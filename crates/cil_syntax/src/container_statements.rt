//! Blocks and optionals.

use crate::entry::Entry;
use crate::kind::{Keyword, Nesting, Sign};
use crate::shape::{Row, Shape};
use crate::shared_shapes::NAME;

/// A block.
const BLOCKS: Shape = Shape::LookedUp(Sign::Blocks);

pub(crate) const BLOCK: Entry = Entry {
    word: b"block",
    keyword: Keyword::Block,
    nesting: Nesting::InBlock,
    declares: false,
    row: Row::Then(&[NAME], &Row::Statements),
};

pub(crate) const BLOCKABSTRACT: Entry = Entry {
    word: b"blockabstract",
    keyword: Keyword::BlockAbstract,
    nesting: Nesting::InBlock,
    declares: false,
    row: Row::Items(&[BLOCKS]),
};

pub(crate) const BLOCKINHERIT: Entry = Entry {
    word: b"blockinherit",
    keyword: Keyword::BlockInherit,
    nesting: Nesting::InBlock,
    declares: false,
    row: Row::Items(&[BLOCKS]),
};

pub(crate) const OPTIONAL: Entry = Entry {
    word: b"optional",
    keyword: Keyword::Optional,
    nesting: Nesting::InOptional,
    declares: false,
    row: Row::Then(&[NAME], &Row::Statements),
};
