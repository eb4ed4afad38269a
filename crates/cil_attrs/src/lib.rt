//! The members of aliases and attributes: of types, roles, users, sensitivities or categories, as sets of numbers.
//!
//! Start at `checked.rt`: `members` makes each set of a name space once, from all statements that give it something, or answers
//! exactly what is wrong; `Members::has` (`held.rt`) asks a set. `specs/Family.antt` of cil_known says which members an alias or an
//! attribute has, `specs/Members.antt` what is answered, and `specs/SetFaults.antt` what is wrong. The parts: `space.rt` has the five
//! name spaces, `faults.rt` their faults, `targets.rt` what statements say of aliases, `declared.rt` faults at declared names,
//! `evaluator.rt` the value of a set expression, `giver.rt` what one statement gives a set, `plain.rt` which expressions have a value,
//! `beginning.rt` what names hold at first, `order.rt` which sets depend on themselves, `making.rt` the sets in an order in which each
//! is made before it is named, `standing.rt` for which items the words of a kind stand. `laws.rt` says that each symbol of a name space
//! is an item, an alias or an attribute.
//!
//! Not done here: sets of categories, which rest on the order of categories.
#![tactic(auto)]

mod beginning;
mod checked;
mod declared;
mod evaluator;
mod faults;
mod giver;
mod held;
pub mod laws;
mod making;
mod order;
mod plain;
mod space;
mod standing;
mod targets;
mod way;

pub use checked::members;
pub use cil_known::{
    Entry, Instances, Known, Meaning, Sections, behind_first, meaning_at, names_laws, same_keyword,
};
pub use declared::{Told, declares, push_declared};
pub use evaluator::{Evaluator, Held};
pub use faults::check_sets;
pub use giver::{SetKind, SpaceKinds};
pub use held::Members;
pub use plain::are_plain;
pub use space::{Categories, Limit, Roles, Sensitivities, Space, Types, Users};
pub use standing::standing_of;
