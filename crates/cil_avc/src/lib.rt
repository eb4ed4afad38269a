//! A cache of access decisions: what was asked last is answered without another look at the tables.
//!
//! Start at `Avc::lookup` in `cache.rt`. It answers what `decide` answers, a crate below, whatever the cache holds.
//! `specs/Cache.antt` says when a cache is true for tables and settings, and which entries a look-up leaves. The caller keeps the
//! cache true: it calls `flush` when it replaces the tables or changes a setting; `proofs/TrueCache.antt` has what its own proof
//! needs. Not done here: names and texts are read a crate below, and nothing here knows when tables change. No contract says that an
//! entry is kept: a look-up that is out of memory answers, and leaves the cache as it was.
#![tactic(auto)]

mod cache;
mod key;

pub use cache::Avc;
pub use cil_decide::{
    Asked, ClassId, Compiled, Context, Decision, NamedRule, NamedRules, OptionalLine, Reach,
    Sections, Settings, Tables, WhyLine, boolean_named, class_named, compile, covers, decide,
    defaults, laws as decide_laws, parse_context, permission_at, permission_named, permissions_of,
    tables_laws,
};
pub use key::Key;
