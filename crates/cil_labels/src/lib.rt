//! What tables hold of levels, and the levels of contexts by it: names in their orders, what may go together, and ranges of users. The
//! SELinux Notebook has them in "Security Context" and "Multi-Level Security and Multi-Category Security".
//!
//! Start at `Labels` in `labels.rt`: the value (`specs/LevelTable.antt`), and the names that contexts may use in byte order
//! (`index.rt`). `label_of` in `label.rt` reads what stands behind the user and the role of a context (`specs/Labels.antt`),
//! and `is_cleared` asks whether a user may have such levels. Not done here: how a policy's statements give all this.
#![tactic(auto)]

mod index;
mod label;
mod labels;
#[cfg(test)]
mod tests;

pub use cil_mls::{Members, Roles, Types, Users, members, standing_of};
pub use label::Label;
pub use labels::{LabelParts, Labels};
