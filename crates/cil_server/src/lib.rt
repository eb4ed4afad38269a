//! Requests from a stream of bytes, answered by a host.
//!
//! Start at `serve` in `session.rt`. What it promises is in `specs/Session.antt`: how a stream is cut into requests, what the model host
//! of `specs/Step.antt` replies to each, how a session ends, and what a reader or a writer that fails leaves. `devices.rt` has what
//! a session reads from and writes to. `load` in `loading.rt` is the request LOAD without a session: `specs/Load.antt` has its promise.
//! `laws.rt` says of the grammar of lines, `specs/Lines.antt`, that a line asks for what it is spelled as.
#![tactic(auto)]

mod decision_replies;
mod devices;
mod input;
pub mod laws;
mod line;
mod loading;
mod optional_replies;
mod output;
mod replies;
mod requests;
mod served;
mod session;
mod streams;
mod turn;

pub use cil_host::{
    Asked, Avc, ClassId, Compiled, Context, Decision, Host, Loaded, NamedRule, NamedRules,
    QueryFault, Reach, Sections, TableError, TableFault, Tables, WhyLine, boolean_named,
    class_named, compile, covers, decide, decode, defaults, encode, parse_context, permission_at,
    permission_named,
};
pub use decision_replies::put_masks;
pub use devices::{Counted, Sink, Source};
pub use loading::{LoadEnd, load};
pub use output::{Output, new_chunk};
pub use replies::{put_faults, put_loaded, put_query_fault, put_refused};
pub use served::Served;
pub use session::serve;
