//! The operators that several languages have.

use crate::head::{Behind, Head};
use crate::term::Op;

pub(crate) const NOT: Head = Head {
    words: &[b"not"],
    op: Op::Not,
    taken: true,
    behind: Behind::One,
};

pub(crate) const AND: Head = Head {
    words: &[b"and"],
    op: Op::And,
    taken: true,
    behind: Behind::Two,
};

pub(crate) const OR: Head = Head {
    words: &[b"or"],
    op: Op::Or,
    taken: true,
    behind: Behind::Two,
};

pub(crate) const XOR: Head = Head {
    words: &[b"xor"],
    op: Op::Xor,
    taken: true,
    behind: Behind::Two,
};
