//! The levels and ranges that statements say, and what is wrong with them. The CIL Reference Guide has both in "Multi-Level Security
//! Labeling Statements", as "level", "levelrange" and "userrange".
//!
//! Start at `levels_of`, in `levels.rt`: what sensitivities permit, what names of levels and ranges stand for and the ranges of users,
//! or all that is wrong with levels (61 to 64). `specs/Steps.antt` says what is answered, `specs/Levels.antt` which level or range a term
//! has, and `specs/LevelFaults.antt` and `specs/Users.antt` what is wrong. The parts: `scale.rt` has what levels are read by, `level.rt`
//! and `range.rt` read those of terms, `named.rt` finds those of names and `users.rt` those of users. `own.rt` judges one list, `walk.rt`
//! the lists of a statement, `check.rt` all statements and `user_faults.rt` the users. `laws.rt` says that levels rest on one ground alone.
//!
//! Not done here: the orders, which are those of cil_mls, sets of categories, which cil_levels makes, and what tables hold of levels,
//! which is that of cil_level_rows.
#![tactic(auto)]

mod check;
mod declared;
mod giving;
pub mod laws;
mod level;
mod levels;
mod named;
mod own;
mod range;
mod said;
mod scale;
mod slices;
mod told;
mod user_faults;
mod users;
mod walk;

pub use check::push_level_faults;
pub use cil_levels::{
    CategorySpace, Sensitivities, category_values, inverse_of, members, permitted, place_at,
    standing_of,
};
pub use level::{level_of, said_level};
pub use levels::{Levels, levels_of};
pub use named::{named_levels, named_ranges};
pub use own::Judge;
pub use range::{range_of, said_range};
pub use scale::{Named, Ranged, Scale};
pub use user_faults::push_user_faults;
pub use users::{UserRanges, user_ranges};
