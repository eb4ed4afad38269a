//! What the lists of sets say by the words at their heads.

use crate::head::{Behind, Head, Part};
use crate::kind::Sign;
use crate::operator_heads::{AND, NOT, OR, XOR};
use crate::term::Op;

const RANGE: Head = Head {
    words: &[b"range"],
    op: Op::Range,
    taken: true,
    behind: Behind::Parts(&[
        Part::LookedUp(Sign::Categories),
        Part::LookedUp(Sign::Categories),
    ]),
};

/// Sets, but those of categories.
pub(crate) const SETS: &[Head] = &[NOT, AND, OR, XOR];

/// Sets of categories, which have ranges.
pub(crate) const CATEGORY_SETS: &[Head] = &[NOT, AND, OR, XOR, RANGE];
