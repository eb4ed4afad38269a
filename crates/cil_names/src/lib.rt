//! What words name: declared names as entries, and look-up in scopes. Namespaces are numbers, as cil_blocks has them.
//!
//! Start at `names.rt` (`Names::resolve`, `Names::candidates`); `guesses.rt` guesses where names are, and `namesakes.rt` checks the
//! guesses. cil_declare gathers the declared names of a policy, cil_words looks up each word of each statement once, and cil_known
//! numbers the declared symbols.
//! `specs/Resolves.antt` says what a word names, over statements as `Item.antt` of cil_macros has them; `specs/Declarations.antt`
//! what is declared; `specs/Entries.antt` how entries and numbers of namespaces stand for that; `laws.rt` says that what a
//! word means is the entry that it names. `permission_word.rt` has what permission words name
//! (`Names::resolve_permission`); the permissions of classes are given, by `permissions.rt`. `asked.rt` lists what a statement
//! asks for, and tells which word has a number (`word_asked`): `asked_parts.rt` goes by the parts of what it says, which `written_parts.rt`
//! makes where it says words alone.
#![tactic(auto)]

pub mod asked;
mod asked_parts;
mod by_name;
mod commons;
mod enabled;
mod entry;
mod guesses;
pub mod laws;
mod look;
mod meaning;
mod name_places;
mod names;
mod namesakes;
mod opt_set;
mod permission_word;
mod permissions;
pub mod reading;
mod same;
mod shared;
mod sought;
mod table;
mod unscoped;
pub mod worded;
mod written_parts;

pub use asked::word_asked;
pub use cil_macros::{Instances, Namespaces, blocks_spelled};
pub use enabled::{flags_of, is_declared};
pub use entry::Entry;
pub use guesses::{Guesses, hash_of};
pub use meaning::Meaning;
pub use name_places::place_among;
pub use names::Names;
pub use opt_set::{OptSet, is_set};
pub use permission_word::{
    Class, ClassPermission, class_at, class_of, permission_of, with_permission,
};
pub use permissions::permissions_of;
pub use same::{same_keyword, same_kind};
pub use shared::{Shared, commons_of, shared_at};
pub use table::{Lookup, Words};
