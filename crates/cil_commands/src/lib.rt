//! What the commands `compile` and `decide` do beside files and statuses: tables laid out with the reply of LOAD, and a query that is asked
//! of the bytes of tables.
//!
//! Start at `laid_out` in `laid.rt`, `ask` in `asking.rt` and `tell` in `reply.rt`. `specs/Laid.antt` says what is laid out of modules,
//! `specs/Asked.antt` what tables and bytes of tables reply to a query, and `specs/Told.antt` what is left of a writer. The bytes of replies
//! are those of a session, a crate below. Not done here: which files are read and written, and what the program ends with.
#![tactic(auto)]

mod asking;
mod laid;
mod reply;

pub use asking::ask;
pub use cil_server::{Counted, Host, LoadEnd, Served, Sink, Source, load, new_chunk, serve};
pub use laid::{Laid, laid_out};
pub use reply::{End, Reply, tell};
