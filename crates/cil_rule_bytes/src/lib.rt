//! Rules as bytes: sections 14, 15 and 16 of tables, with the rules that allow, those by which uses of permissions are recorded, and those by
//! which denials are not.
//!
//! Start at `sections_at` in `sections.rt`, which makes the rules of decisions (`cil_index::Sections`) of the bytes of all three, and at
//! `put_sections` in `writing.rt`, which writes these; `rules_at` reads one section as it is. `specs/Layout.antt` says which bytes rules have and
//! what is read from any bytes. `proofs/Exact.antt` has the laws of the layout, and `proofs/RuleOrder.antt` says that the order of the bytes is
//! that of the rules. Not done here: how many types, booleans and classes there are, which a reader is told (`Bounds`).
#![tactic(auto)]

mod bounds;
mod conditions;
mod named;
mod rule;
mod section;
mod sections;
mod writing;

pub use bounds::Bounds;
pub use cil_index::Sections;
pub use rule::{ReadRule, ReadTarget, rule_at};
pub use section::rules_at;
pub use sections::sections_at;
pub use writing::{put_rules, put_sections};
