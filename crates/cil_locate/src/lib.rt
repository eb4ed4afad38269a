//! Where the faults of some files are: each by its file, line and column, with the line of the source and a mark.
//!
//! Start at `locate` in `search.rt`. What it finds and writes is in `specs/Found.antt`; the form of a line in
//! `specs/Lines.antt`, what is shown of a long one in `specs/Windows.antt`, and the order in `specs/Order.antt`. Which faults a
//! policy has is said by the crates below; nothing here judges a text.
#![tactic(auto)]

mod faults;
mod file;
mod found;
mod lines;
mod notes;
mod origins;
mod position;
mod reading;
mod search;
mod sentences;
mod telling;
mod told;
mod window;

pub use file::File;
pub use search::{Located, locate};
