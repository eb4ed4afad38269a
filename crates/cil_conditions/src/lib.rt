//! Conditions of rules, and which booleans are on: what the CIL Reference Guide says in "booleanif" and "Boolean Expressions".
//!
//! Start at `branches_of` in `branches.rt`: the branches of all booleanifs of a policy, each once, and the number of each. A condition is
//! kept as a list of tokens (`token.rt`, `condition.rt`), whose value `Cond::eval` gives for `Settings` (`settings.rt`). `found.rt` finds
//! the booleanifs, and `walk.rt` makes the tokens of a condition.
//!
//! `specs/Conditions.antt` says which value a condition of a statement has, `specs/Truth.antt` which value tokens have, `specs/Spelled.antt`
//! which tokens a condition has, and `specs/Order.antt` in which order branches stand. `laws.rt` says that both values are one.
#![tactic(auto)]

mod branch;
mod branches;
mod condition;
mod found;
pub mod laws;
mod settings;
mod token;
mod walk;

pub use branch::Branch;
pub use branches::{Branches, branches_of};
pub use cil_known::{Known, behind, behind_first, meaning_at};
pub use condition::{Cond, is_expression};
pub use settings::{MOST_BOOLEANS, Settings};
pub use token::Token;
