//! How values are laid out as bytes, described once for what writes them and what reads them.
//!
//! Start at `specs/Format.antt`: a format says which values it has, the bytes of each, and what is read from the front of any
//! bytes, with the fault that is met first. `specs/Fields.antt` has numbers, sets of numbers and texts. `fields.rt` and `sets.rt`
//! read them, `put.rt` writes them, `section.rt` reads a section of records in their order (`Section`), `fault.rt` has what can be
//! wrong, and `out.rt` where bytes go (`Out`).
//! `proofs/FormatLaws.antt` has the laws, once for each way to make a format: what is read is laid out so, what is laid out so is
//! read, and no fault but the end is mended by more bytes. Not done here: which sections tables have.
#![tactic(auto)]

mod fault;
mod fields;
mod masks;
mod numbers;
mod out;
mod put;
mod section;
mod sets;

pub use fault::{TableError, TableFault};
pub use fields::{byte_below, run_at, small_at, text_at, this_byte, u8_at, u16_at, u32_at};
pub use masks::mask_at;
pub use numbers::set_at;
pub use out::{Out, give_count};
pub use put::{put_byte, put_count, put_set, put_small, put_text};
pub use section::{Section, is_below, section_at, text_in};
pub use sets::rising_at;
