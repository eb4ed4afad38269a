//! What the statements of a policy ask for: for each word, and each permission of a class, the entries that it could name, and for
//! a permission its number among those of its class.
//!
//! Start at `asks.rt` (`asks_of`), which makes one table for all instances before optionals are chosen. `specs/Table.antt`
//! says which rows it has. `walk.rt` walks over the terms of a statement, `word_lists.rt` is the walk at a word and `class_lists.rt`
//! at a class list. `cells.rt` keeps nearly all lists in four bytes,
//! `pairs.rt` the permissions, which `hints.rt` helps to find, and `scopes.rt` the scopes that words have asked for.
//! The table is read by the choice of optionals, a crate above; by `judge.rt`, which reports what names nothing (`judged`); and
//! by `settled_rows.rt`, which says what each word means (`settled`). What a word could name is found a crate below.
#![tactic(auto)]

mod asks;
mod cells;
mod class_lists;
mod hints;
mod judge;
mod number_lists;
mod pairs;
mod scopes;
mod settled_rows;
mod slots;
mod walk;
mod word_lists;

pub use asks::{Asks, asks_of};
pub use cells::Cells;
pub use judge::judged;
pub use settled_rows::settled;
