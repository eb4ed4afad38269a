//! Macros: what each call brings, with its arguments put in, or all that is wrong with the calls of a program.
//!
//! Start at `expansion.rt` (`expand`), and at `instances.rt` for what it answers. `specs/Parameters.antt` says what parameters and
//! arguments are, `specs/Placed.antt` what the words of a placed statement mean, `specs/Calls.antt` which macro a call names and
//! what is placed, `specs/ExpandFaults.antt` what is wrong with calls; `laws.rt` has laws of these. In which branch of a booleanif
//! something is, `branches.rt` finds.
#![tactic(auto)]

mod arguments;
pub mod asked;
mod body_scope;
pub mod branches;
pub mod brings;
mod call_words;
pub mod calls;
pub mod chain;
pub mod declared_names;
pub mod entry;
pub mod expansion;
pub mod faults;
mod instance_words;
pub mod instances;
pub mod laws;
pub mod list_arguments;
pub mod list_parts;
pub mod list_places;
mod list_terms;
pub mod list_values;
pub mod listed;
mod macros;
mod meaning;
pub mod meant;
mod nearest;
mod nesting;
pub mod openings;
mod parameters;
pub mod placed_word;
mod said_parts;
pub mod scene;
pub mod source;
mod term_parts;
pub mod walk;

pub use arguments::{arguments_fit, is_of_kind};
pub use branches::Branch;
pub use cil_blocks::{Namespaces, ScopeList, spelled as blocks_spelled};
pub use declared_names::{Declared, declared_in_bodies};
pub use expansion::expand;
pub use instances::Instances;
pub use listed::{Listed, Part};
pub use macros::{Macros, macro_called, macros_of};
pub use meant::{Argument, Meaning, Meant};
pub use placed_word::{PlacedWord, Said};
