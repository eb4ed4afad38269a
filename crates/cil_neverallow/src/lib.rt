//! Rules that a policy forbids itself: neverallow statements, and the allow statements that meet them.
//!
//! Start at `violations` in `forbidden.rt`. `specs/NeverFaults.antt` says which faults a policy has for its neverallow statements, by names.
//! `specs/Overlaps.antt` says what the rules of two statements cover together and which of it is the least, and `specs/Violations.antt` which
//! faults that gives, both by numbers. `statements.rt` keeps statements with their rules (`specs/Stated.antt`): all neverallow statements, and of
//! the allow statements those that have a permission which is forbidden, as `permissions.rt` tells. `index.rt` tells which neverallow
//! statements can meet none of them, `overlap.rt` compares two, and `told.rt` says what is told of them. No branch of a booleanif is asked of a
//! statement: both count. What a rule says is read a crate below.
#![tactic(auto)]

mod forbidden;
mod index;
mod overlap;
mod permissions;
mod statements;
mod told;

pub use cil_index::{
    Asked, Branches, MOST_BOOLEANS, NamedRule, NamedRules, Reach, Sections, Settings, branches_of,
    covers, rules,
};
pub use forbidden::{View, violations};
