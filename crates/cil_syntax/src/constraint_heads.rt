//! What the lists of constraints say by the words at their heads: comparisons of the users, roles and types of the source
//! and of the target.

use crate::head::{Behind, Head, Part};
use crate::kind::Sign;
use crate::operator_heads::{AND, NOT, OR};
use crate::term::Op;

/// What is behind a comparison that begins with each variable.
const WITH_U1: Behind = Behind::Parts(&[
    Part::Fixed(b"u1", Op::SourceUser),
    Part::Or(b"u2", Op::TargetUser, &Part::Names(Sign::Users)),
]);

const WITH_U2: Behind = Behind::Parts(&[
    Part::Fixed(b"u2", Op::TargetUser),
    Part::Names(Sign::Users),
]);

const WITH_R1: Behind = Behind::Parts(&[
    Part::Fixed(b"r1", Op::SourceRole),
    Part::Or(b"r2", Op::TargetRole, &Part::Names(Sign::Roles)),
]);

const WITH_R2: Behind = Behind::Parts(&[
    Part::Fixed(b"r2", Op::TargetRole),
    Part::Names(Sign::Roles),
]);

const WITH_T1: Behind = Behind::Parts(&[
    Part::Fixed(b"t1", Op::SourceType),
    Part::Or(b"t2", Op::TargetType, &Part::Names(Sign::Types)),
]);

const WITH_T2: Behind = Behind::Parts(&[
    Part::Fixed(b"t2", Op::TargetType),
    Part::Names(Sign::Types),
]);

const OF_ROLES: Behind = Behind::Parts(&[
    Part::Fixed(b"r1", Op::SourceRole),
    Part::Fixed(b"r2", Op::TargetRole),
]);

const EQ_U1: Head = Head {
    words: &[b"eq", b"u1"],
    op: Op::Equal,
    taken: true,
    behind: WITH_U1,
};

const EQ_U2: Head = Head {
    words: &[b"eq", b"u2"],
    op: Op::Equal,
    taken: true,
    behind: WITH_U2,
};

const EQ_R1: Head = Head {
    words: &[b"eq", b"r1"],
    op: Op::Equal,
    taken: true,
    behind: WITH_R1,
};

const EQ_R2: Head = Head {
    words: &[b"eq", b"r2"],
    op: Op::Equal,
    taken: true,
    behind: WITH_R2,
};

const EQ_T1: Head = Head {
    words: &[b"eq", b"t1"],
    op: Op::Equal,
    taken: true,
    behind: WITH_T1,
};

const EQ_T2: Head = Head {
    words: &[b"eq", b"t2"],
    op: Op::Equal,
    taken: true,
    behind: WITH_T2,
};

const NEQ_U1: Head = Head {
    words: &[b"neq", b"u1"],
    op: Op::Unequal,
    taken: true,
    behind: WITH_U1,
};

const NEQ_U2: Head = Head {
    words: &[b"neq", b"u2"],
    op: Op::Unequal,
    taken: true,
    behind: WITH_U2,
};

const NEQ_R1: Head = Head {
    words: &[b"neq", b"r1"],
    op: Op::Unequal,
    taken: true,
    behind: WITH_R1,
};

const NEQ_R2: Head = Head {
    words: &[b"neq", b"r2"],
    op: Op::Unequal,
    taken: true,
    behind: WITH_R2,
};

const NEQ_T1: Head = Head {
    words: &[b"neq", b"t1"],
    op: Op::Unequal,
    taken: true,
    behind: WITH_T1,
};

const NEQ_T2: Head = Head {
    words: &[b"neq", b"t2"],
    op: Op::Unequal,
    taken: true,
    behind: WITH_T2,
};

const DOM_ROLES: Head = Head {
    words: &[b"dom", b"r1", b"r2"],
    op: Op::LeftOut,
    taken: false,
    behind: OF_ROLES,
};

const DOMBY_ROLES: Head = Head {
    words: &[b"domby", b"r1", b"r2"],
    op: Op::LeftOut,
    taken: false,
    behind: OF_ROLES,
};

const INCOMP_ROLES: Head = Head {
    words: &[b"incomp", b"r1", b"r2"],
    op: Op::LeftOut,
    taken: false,
    behind: OF_ROLES,
};

/// Constraints, but for the comparisons of levels.
pub(crate) const CONSTRAINTS: &[Head] = &[
    NOT,
    AND,
    OR,
    EQ_U1,
    EQ_U2,
    EQ_R1,
    EQ_R2,
    EQ_T1,
    EQ_T2,
    NEQ_U1,
    NEQ_U2,
    NEQ_R1,
    NEQ_R2,
    NEQ_T1,
    NEQ_T2,
    DOM_ROLES,
    DOMBY_ROLES,
    INCOMP_ROLES,
];
