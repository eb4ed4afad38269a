//! The texts of the Common Intermediate Language (CIL): from bytes to a tree of lists, words and strings.
//!
//! Start at `read` in `reader.rt`. `specs/Text.antt` defines the tree of a text, and `specs/Faults.antt` the
//! texts that have none and the first fault of each. The crates above give the lists their meaning as statements.
#![tactic(auto)]

mod bytes;
mod fault;
pub mod laws;
mod node;
mod reader;

pub use fault::{ReadCode, ReadError, ReadFault};
pub use node::{Node, Span, Tree};
pub use reader::{LONGEST_TEXT, read};
