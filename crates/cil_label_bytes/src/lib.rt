//! What tables hold of levels, as bytes: categories and sensitivities with their aliases, and the ranges of users.
//!
//! Start at `specs/Layout.antt`: `labels` is the layout of sections 1 to 5, of which `proofs/Exact.antt` has the laws. `labels_at` in
//! `labels.rt` reads them. `specs/Names.antt` says which texts names and permissions are; `name_at`, `owned_name_at` and
//! `permission_at` read them, for the other sections too. `specs/Sets.antt` joins sets of categories with the rising numbers that they
//! are written as. Not done here: the other sections, and which table a policy has.
#![tactic(auto)]

mod aliases;
mod labels;
mod listings;
mod name_list;
mod names;
mod put_fields;
mod put_sections;
mod ranges;
mod sets;
mod users;

pub use labels::{ReadLabels, labels_at};
pub use names::{name_at, owned_name_at, permission_at};
pub use put_sections::put_labels;
