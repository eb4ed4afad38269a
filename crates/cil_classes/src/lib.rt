//! The classes of a policy: their rows, which have too many permissions, and what a class permission gives.
//!
//! Start at `checked.rt`: `classes` answers the rows (`rows.rt`) or the faults of classes (`widths.rt`, `commons.rt`, `limit.rt`). What statements
//! give to class permissions and to permissions of class maps is kept by `given_permissions` (`held.rt`), and what a class permission
//! gives is told by `push_perms` (`perms.rt`), as masks. `mask.rt` makes the mask of an expression, by `expression.rt`, which says whether
//! an expression has a permission, and `given.rt` the mask of a list on a class. `nodes.rt`, `parts.rt` and `givens.rt` read
//! statements by numbers, and `assigned.rt` lets masks flow along what they give.
//!
//! `specs/Values.antt` says which permissions an expression has, `specs/Given.antt` which permissions of which classes a class
//! permission gives, `specs/Least.antt` that this is the least assignment, `specs/Row.antt` what a row is, and `specs/Faults.antt`
//! what is wrong with classes. `specs/Pairs.antt` says the same as `specs/Given.antt` of lists on classes alone.
#![tactic(auto)]

mod assigned;
mod checked;
mod commons;
mod expression;
mod gift_terms;
mod given;
mod givens;
mod held;
pub mod laws;
mod limit;
mod mask;
mod nodes;
mod parts;
mod perms;
mod row;
mod rows;
mod widths;

pub use checked::classes;
pub use cil_known::{Known, behind, behind_first, meaning_at};
pub use cil_names::{Meaning, same_keyword};
pub use held::{ClassMasks, GivenPermissions, given_permissions};
pub use nodes::Node;
pub use perms::{expand_perms, push_perms};
pub use row::{Class, ClassId, Classes};
