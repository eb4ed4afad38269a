//! What every layer stands on: out of memory as an error, bytes and names that are kept, and the form of every list that a
//! layer hands up.
//!
//! Start at `specs/Lists.antt`: the list of a set in a stated order, so that two hosts make one value of one set. `specs/Gives.antt`
//! is the same for records that are computed of cases. The other files of `specs/` are lemmas on lists, places in lists, searches,
//! counts and orders, which the crates above share. Nothing here knows of texts or policies.
#![tactic(auto)]

mod bytes;
mod four_bytes;
pub mod laws;
mod memory;
mod names;

pub use bytes::Bytes;
pub use four_bytes::short;
pub use memory::NoMemory;
pub use names::{Names, number_of};
