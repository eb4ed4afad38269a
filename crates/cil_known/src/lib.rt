//! What is known of a policy whose optionals are chosen: the numbers of its declared symbols, what the words of a kind stand for,
//! and the known meanings of the words of statements.
//!
//! Start at `known.rt` (`Known`), which the passes above read: what each word means, and the number of the symbol for which it
//! stands. `numbers.rt` gives the numbers (`numbered`): the places of qualified names, which `spelled.rt` spells, in the section of
//! their kind. `meanings_behind.rt` walks over what a statement asks for, term by term.
//! `specs/Known.antt` says what is known, `specs/Numbers.antt` which number a symbol has, and `specs/Members.antt` what a word
//! stands for: an item for itself, an alias or an attribute for its members, by the equations of `specs/Family.antt`. `laws.rt`
//! says that these have one solution where no set depends on itself.
//!
//! Not done here: words are looked up in cil_names and cil_words, optionals are chosen in cil_optionals, and the members of sets are
//! made in cil_attrs.
#![tactic(auto)]

mod known;
pub mod laws;
mod meanings_behind;
mod numbers;
pub mod spelled;

pub use cil_names::{
    Entry, Instances, Lookup, Meaning, blocks_spelled, laws as names_laws, same_keyword,
};
pub use known::{Known, meaning_at};
pub use meanings_behind::{behind, behind_first, behind_word};
pub use numbers::{Numbering, Sections, numbered};
