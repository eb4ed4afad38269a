//! Constraints as bytes: section 17 of tables.
//!
//! Start at `constraints_at` in `constraints.rt`, which reads the section, and at `put_constraints` in `put.rt`, which writes it.
//! `specs/Layout.antt` says how constraints are laid out, and so which bytes are none and why; `specs/Within.antt` says which
//! constraints have a layout. An expression is read as steps (`steps.rt`, with bytes by `bytes.rt`) and written step by step
//! (`specs/Spelled.antt`). How many classes, users, roles and types there are is handed in (`bounds.rt`). `proofs/Exact.antt` has the
//! laws of the layout, `proofs/FitLemmas.antt` those of its order. Not done here: other sections.
#![tactic(auto)]

mod bounds;
mod bytes;
mod constraints;
mod put;
mod steps;

pub use bounds::Bounds;
pub use cil_constraints::Constraint;
pub use constraints::{constraint_at, constraints_at};
pub use put::put_constraints;
