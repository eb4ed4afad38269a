//! Blocks and inheritance: what stands in which namespace, with the scope of its words, or all that is wrong with the
//! blocks of a program.
//!
//! Start at `inherit` in `inheritance.rt`. `specs/Contents.antt` says what stands where and through which blockinherits;
//! `specs/InheritFaults.antt` what is wrong with blocks; `laws.rt` has laws of both. `written.rt` numbers the namespaces in
//! which statements are written. By these `targets.rt` finds the blocks that blockinherits name, and `doubled.rt` the blocks and
//! macros that share their name with another one; `cycles.rt` finds the blockinherits that lie on a cycle, and `reports.rt`
//! tells what is wrong. `walker.rt` opens what stands, step by step. Macros are not unfolded here.
#![tactic(auto)]

pub mod contents;
pub mod cycles;
pub mod doubled;
mod entry;
mod graph;
mod guess;
pub mod inheritance;
pub mod laws;
mod levels;
pub mod names;
pub mod namespaces;
pub mod numbers;
pub mod opened;
pub mod parts;
pub mod places;
pub mod placing;
pub mod reach;
pub mod reports;
pub mod scopes;
pub mod seeds;
pub mod spaces;
pub mod spelled;
pub mod targets;
pub mod walker;
pub mod written;

pub use entry::Entry;
pub use inheritance::{MOST_INSTANCES, inherit};
pub use namespaces::{Namespaces, Space};
pub use parts::Parts;
pub use scopes::ScopeList;
pub use spaces::Spaces;
