//! What sets of categories have, and which categories sensitivities permit. The CIL Reference Guide has both in "Multi-Level Security
//! Labeling Statements", as "categoryset" and "sensitivitycategory".
//!
//! Start at `category_values`, in `values.rt`: what each declared name holds, a category, an alias or a set of categories.
//! `specs/Values.antt` says what that is, by equations for all sets at once, `specs/Places.antt` which category a word stands for, and
//! `specs/Held.antt` what is answered. `permitted`, in `permits.rt`, says which categories may go with each sensitivity
//! (`specs/Permitted.antt`), and `sensitivity_places`, in `sensitivities.rt`, for which sensitivity each declared name stands
//! (`specs/Sensitivities.antt`). The parts: `inverse.rt` finds places in an order, `beginning.rt` what names hold at first,
//! `definitions.rt` the declarations of sets in an order in which each set is made before it is named, `expressions.rt` what a
//! statement says, and `making.rt` makes the sets. `laws.rt` says that the equations have one solution where no set depends on itself,
//! and what names hold.
//!
//! Not done here: the orders, which are those of cil_mls, and levels, which are those of cil_ranges.
#![tactic(auto)]

mod beginning;
mod definitions;
mod expressions;
mod inverse;
pub mod laws;
mod making;
mod permits;
mod sensitivities;
mod values;

pub use cil_mls::{CategorySpace, Sensitivities, members, standing_of};
pub use inverse::{inverse_of, place_at};
pub use permits::permitted;
pub use sensitivities::sensitivity_places;
pub use values::category_values;
