//! Levels of multi-level security: the order of sensitivities and categories, sets of categories, levels, and the texts of
//! levels and ranges. The CIL Reference Guide has them in "Multi-Level Security Labeling Statements", The SELinux Notebook in
//! "Multi-Level Security and Multi-Category Security".
//!
//! Start at `orders`, in `ordered.rt`: the sensitivities and categories of a policy in the one order that its statements fix, and
//! whether its levels are on, or exactly what is wrong with them (`specs/OrderFaults.antt`). `specs/Ordering.antt` and
//! `specs/Orders.antt` say which orders are right; `item_order.rt` finds them, by the pairs of numbers that statements list (`pairs.rt`)
//! and by `order_of` (`order.rt`); `switch.rt` reads `mls` statements, `category_sets.rt` finds sets that depend on themselves
//! (`specs/CategorySets.antt`), and `policy_faults.rt` makes faults that have no place.
//!
//! A `Level` (`level.rt`) is a sensitivity and a set of categories (`categories.rt`), all by their places in the two orders, and
//! `specs/Dominance.antt` says which level dominates which. `LevelNames`, in `level_names.rt`, reads the text of a level or a range
//! (`specs/LevelTexts.antt`). `laws.rt` says that an order and the level of a text are one. Not done here: the members of sets of
//! categories, for whose expressions `value` is there (`expression.rt`), and terms of levels.
#![tactic(auto)]

mod categories;
mod category_sets;
mod expression;
mod in_order;
mod item_order;
pub mod laws;
mod level;
mod level_names;
#[cfg(test)]
mod level_tests;
mod named;
mod order;
mod ordered;
mod pairs;
mod parts;
mod policy_faults;
mod switch;
#[cfg(test)]
mod tests;
mod texts;
mod words;

pub use categories::{Categories, MOST_CATEGORIES};
pub use category_sets::{set_declared, set_edges};
pub use cil_attrs::{
    Categories as CategorySpace, Members, Roles, Sensitivities, Told, Types, Users, are_plain,
    declares, members, push_declared, standing_of,
};
pub use expression::{Evaluator, Held, Valued, value};
pub use in_order::Orders;
pub use level::{Level, Range};
pub use level_names::{LevelNames, MOST_SENSITIVITIES};
pub use named::Named;
pub use order::order_of;
pub use ordered::orders;
pub use parts::{Parts, parted};
pub use switch::is_switched;
