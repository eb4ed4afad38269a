//! The levels of a policy as tables hold them: names in their orders, aliases, what sensitivities permit, and the ranges of users by
//! their numbers. The CIL Reference Guide has them in "Multi-Level Security Labeling Statements".
//!
//! Start at `labels_of`, in `policy.rt`: the table of a policy, or exactly what is wrong with its levels (`specs/Steps.antt`). The parts:
//! `rows.rt` makes the table of levels that are sound, from the names of items in their orders (`names.rt`), aliases (`aliases.rt`) and
//! the ranges of users by their numbers (`users.rt`); `words.rt` says how sets are kept. `specs/Rows.antt` says which table a policy has,
//! and what contexts mean by its items; `laws.rt` says that it has one, and that the table reads contexts as the policy does. Not done
//! here: the orders, which are those of cil_mls, and levels and ranges of statements, which are those of cil_ranges.
#![tactic(auto)]

mod aliases;
pub mod laws;
mod names;
mod policy;
mod rows;
mod users;
mod words;

pub use cil_labels::{Labels, Members, Roles, Types, Users, members, standing_of};
pub use cil_mls::{Level, Orders, is_switched, orders, parted};
pub use cil_ranges::{Levels, category_values, levels_of, permitted};
pub use policy::labels_of;
