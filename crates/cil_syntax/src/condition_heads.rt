//! What the lists of conditions say by the words at their heads.

use crate::head::{Behind, Head};
use crate::operator_heads::{AND, NOT, OR, XOR};
use crate::term::Op;

const EQUAL: Head = Head {
    words: &[b"eq"],
    op: Op::Equal,
    taken: true,
    behind: Behind::Two,
};

const UNEQUAL: Head = Head {
    words: &[b"neq"],
    op: Op::Unequal,
    taken: true,
    behind: Behind::Two,
};

/// Conditions.
pub(crate) const CONDITIONS: &[Head] = &[NOT, AND, OR, XOR, EQUAL, UNEQUAL];
