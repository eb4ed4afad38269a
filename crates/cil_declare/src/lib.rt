//! The declared names of instances, gathered from their declarations, or the faults of declarations of one name that differ.
//!
//! Start at `gather.rt` (`declare`): `row.rt` has a row for each declaration, `run.rt` sorts the rows and parts them into those of
//! one name, and tells where some of these differ, which `content.rt` compares; `clash.rt` makes the faults.
//! `specs/Rows.antt` says what a row declares, `specs/Runs.antt` which entries and faults the rows of one name give. What is declared
//! and what clashes are definitions of cil_names, which keeps the entries and looks words up among them.
#![tactic(auto)]

mod clash;
mod content;
mod gather;
mod row;
mod run;

pub use gather::declare;
