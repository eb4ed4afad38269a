//! Sets of numbers, as of the types of a policy.
//!
//! Start at `numbers.rt`: `Numbers`, which contracts see as the rising list of its members, and `Joining`, the four ways in which
//! two sets are joined. A set is kept as words of 64 bits, for the blocks of 64 numbers that it has some of (`specs/Kept.antt`).
//! `specs/Joined.antt` says what two sets have together, `specs/Answers.antt` what a set answers and how sets are ordered. Nothing
//! here knows of policies.
#![tactic(auto)]

mod common;
mod difference;
mod join;
mod numbers;
mod part;
mod place;
mod walk;

pub use numbers::Numbers;
pub use part::Joining;
