//! One host: its modules, its loaded policy with the settings of its booleans, and the answers to queries.
//!
//! Start at `host.rt`. Its contracts are about a model host, defined in `specs/Machine.antt`: the modules that it holds, and the
//! modules of its last accepted load, with the reasons why optionals of theirs are left out and the names of the booleans that are on.
#![tactic(auto)]

mod fault;
mod host;
mod lines;
mod listing;

pub use cil_avc::{
    Asked, Avc, ClassId, Compiled, Context, Decision, NamedRule, NamedRules, OptionalLine, Reach,
    Sections, Tables, WhyLine, boolean_named, class_named, compile, covers, decide, defaults,
    parse_context, permission_at, permission_named, tables_laws,
};
pub use cil_faults::{Failure, FaultList};
pub use cil_modset::{BundleError, BundleFault, Installed, laws as modset_laws};
pub use cil_sexpr::{ReadError, ReadFault, laws as sexpr_laws};
pub use cil_syntax::Excerpt;
pub use cil_table_bytes::{TableError, TableFault, decode, encode};
pub use fault::{HostError, QueryFault};
pub use host::{Host, Loaded};
pub use listing::ListLine;
