//! The rules of a policy, and which permissions they cover.
//!
//! Start at `rules` in `gather.rt`, and at `covers` in `cover.rt`. `specs/Covered.antt` says which rules of a policy cover a permission,
//! `specs/Rule.antt` what a rule is in numbers, `specs/Records.antt` which rule a statement has, `specs/Covers.antt` what a rule covers, and
//! `specs/Order.antt` in which order rules of a table stand. `specs/Kept.antt` says how they are handed on, by declared names, and
//! `specs/Listed.antt` in which order. That both say the same of whole tables is said a crate above.
#![tactic(auto)]

mod branch_number;
mod cover;
mod gather;
mod rule;
mod sides;
mod statement;

pub use cil_classes::{Class, ClassId, GivenPermissions};
pub use cil_conditions::{Branch, Branches, Known, MOST_BOOLEANS, Settings, branches_of};
pub use cover::covers;
pub use gather::rules;
pub use rule::{NamedRule, Reach, Rules};
pub use statement::push_rules;
