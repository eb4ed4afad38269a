//! The optionals of a policy: which of them are in force, and why each other one is not.
//!
//! Start at `specs/Greatest.antt`, which says what set of optionals is the right one, over items as `Item.antt` of cil_macros
//! has them; `specs/Certificate.antt` says what shows that a set is it; `specs/First.antt` which reason is told of each optional
//! that is left out; `specs/Policy.antt` what a policy is: the statements of modules with this set. `laws.rt` says that there is
//! one such set and one such policy. `chosen.rt` finds it, and checks whether a set is it; `first.rt` finds the reasons.
//! `specs/Counts.antt` says how many steps that takes, and `counts.rt` counts them. `base.rt` tells which words outside all
//! optionals name nothing.
#![tactic(auto)]

mod base;
mod checking;
pub mod chosen;
mod counts;
mod declared;
mod first;
mod graph;
pub mod guesses;
pub mod laws;
mod lines;
mod parts;
mod reason;
mod removal;
mod times;

pub use base::base_faults;
pub use chosen::{Chosen, Counted, check, greatest, greatest_counted, greatest_of};
pub use cil_words::{asks_of, judged, settled};
pub use lines::{OptionalLine, WhyLine, optional_lines, why_lines};
pub use reason::Reason;
