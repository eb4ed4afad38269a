//! What the lists of constraints with levels say by the words at their heads, beside what those of constraints say:
//! comparisons of the low and the high level of the source and of the target.

use crate::head::{Behind, Head, Part};
use crate::term::Op;

/// What is behind a comparison that begins with each level.
const WITH_L1: Behind = Behind::Parts(&[
    Part::Fixed(b"l1", Op::SourceLow),
    Part::Or(
        b"l2",
        Op::TargetLow,
        &Part::Or(b"h2", Op::TargetHigh, &Part::Fixed(b"h1", Op::SourceHigh)),
    ),
]);

const WITH_H1: Behind = Behind::Parts(&[
    Part::Fixed(b"h1", Op::SourceHigh),
    Part::Or(b"l2", Op::TargetLow, &Part::Fixed(b"h2", Op::TargetHigh)),
]);

const WITH_L2: Behind = Behind::Parts(&[
    Part::Fixed(b"l2", Op::TargetLow),
    Part::Fixed(b"h2", Op::TargetHigh),
]);

const EQ_L1: Head = Head {
    words: &[b"eq", b"l1"],
    op: Op::Equal,
    taken: true,
    behind: WITH_L1,
};

const EQ_H1: Head = Head {
    words: &[b"eq", b"h1"],
    op: Op::Equal,
    taken: true,
    behind: WITH_H1,
};

const EQ_L2: Head = Head {
    words: &[b"eq", b"l2"],
    op: Op::Equal,
    taken: true,
    behind: WITH_L2,
};

const NEQ_L1: Head = Head {
    words: &[b"neq", b"l1"],
    op: Op::Unequal,
    taken: true,
    behind: WITH_L1,
};

const NEQ_H1: Head = Head {
    words: &[b"neq", b"h1"],
    op: Op::Unequal,
    taken: true,
    behind: WITH_H1,
};

const NEQ_L2: Head = Head {
    words: &[b"neq", b"l2"],
    op: Op::Unequal,
    taken: true,
    behind: WITH_L2,
};

const DOM_L1: Head = Head {
    words: &[b"dom", b"l1"],
    op: Op::Dominates,
    taken: true,
    behind: WITH_L1,
};

const DOM_H1: Head = Head {
    words: &[b"dom", b"h1"],
    op: Op::Dominates,
    taken: true,
    behind: WITH_H1,
};

const DOM_L2: Head = Head {
    words: &[b"dom", b"l2"],
    op: Op::Dominates,
    taken: true,
    behind: WITH_L2,
};

const DOMBY_L1: Head = Head {
    words: &[b"domby", b"l1"],
    op: Op::DominatedBy,
    taken: true,
    behind: WITH_L1,
};

const DOMBY_H1: Head = Head {
    words: &[b"domby", b"h1"],
    op: Op::DominatedBy,
    taken: true,
    behind: WITH_H1,
};

const DOMBY_L2: Head = Head {
    words: &[b"domby", b"l2"],
    op: Op::DominatedBy,
    taken: true,
    behind: WITH_L2,
};

const INCOMP_L1: Head = Head {
    words: &[b"incomp", b"l1"],
    op: Op::Incomparable,
    taken: true,
    behind: WITH_L1,
};

const INCOMP_H1: Head = Head {
    words: &[b"incomp", b"h1"],
    op: Op::Incomparable,
    taken: true,
    behind: WITH_H1,
};

const INCOMP_L2: Head = Head {
    words: &[b"incomp", b"l2"],
    op: Op::Incomparable,
    taken: true,
    behind: WITH_L2,
};

/// The comparisons of levels.
pub(crate) const LEVEL_HEADS: &[Head] = &[
    EQ_L1, EQ_H1, EQ_L2, NEQ_L1, NEQ_H1, NEQ_L2, DOM_L1, DOM_H1, DOM_L2, DOMBY_L1, DOMBY_H1,
    DOMBY_L2, INCOMP_L1, INCOMP_H1, INCOMP_L2,
];
