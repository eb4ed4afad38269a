//! Tables as bytes, in layout 1: what hosts compare, keep and exchange.
//!
//! Start at `decode` in `reading.rt`, `encode` in `writing.rt` and `measure` in `measuring.rt`, which takes the length and the digest of the bytes
//! while they are laid out. `specs/Layout.antt` is the layout of the whole, a header and 17
//! sections; `specs/Names.antt` has the sections of names (6 to 10), and the crates below those of levels, rules and constraints.
//! `laws.rt` says that tables with equal bytes are equal, and that each cut text is short. `proofs/Rows.antt` has worked tables with
//! their bytes. Not done here: that the tables of a policy keep all rules of the layout is not proved yet.
#![tactic(auto)]

mod classes;
pub mod laws;
mod links;
mod measuring;
mod names;
mod put;
mod put_links;
mod reading;
#[cfg(test)]
mod tests;
mod writing;

pub use cil_format::{TableError, TableFault};
pub use cil_tables::{Compiled, OptionalLine, Tables, WhyLine, compile};
pub use measuring::{Measured, measure};
pub use reading::decode;
pub use writing::encode;
