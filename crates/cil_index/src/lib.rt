//! Rules by numbers, and the index of decisions over them.
//!
//! Start at `Sections` in `section.rt`: the rules of each kind in their order, which contracts see as the lists of these rules, and
//! `allowed`, the permissions that those that allow cover on a class and a pair of types. A rule is kept as a record of numbers (`record.rt`): its sets of types stand
//! in `sets.rt`, each once, and a set of one type takes no memory. `specs/Sets.antt` says which set has which number, `specs/Kept.antt`
//! which rule a record keeps, `specs/Order.antt` that records have the order of their rules, and `specs/Entries.antt` by what a rule is
//! found: by its heading, which is the one type that it reaches, or else the set of its sources; by its class; and by its other side, a type or the number
//! of a set. Records are kept in the order of the index, with a list beside them that has the order of the table (`indexed.rt`, `specs/Layout.antt`).
//! `memberships.rt` tells which sets have a type. `listed.rt` hands the rules of a kind up one by one, without a copy (`specs/Listed.antt`).
#![tactic(auto)]

mod asked;
mod cover;
mod index;
mod indexed;
mod key;
mod listed;
mod matches;
mod memberships;
mod record;
mod rising;
mod search;
mod section;
mod sets;

pub use asked::Asked;
pub use cil_rules::{
    Branches, Class, ClassId, GivenPermissions, Known, MOST_BOOLEANS, NamedRule, Reach, Settings,
    branches_of, covers, push_rules, rules,
};
pub use listed::{ListedRule, ListedRules, ListedTarget, TypeSet};
pub use section::{NamedRules, Sections};
