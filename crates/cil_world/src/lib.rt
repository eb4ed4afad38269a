//! A world of hosts: what each of several hosts answers, whatever happens to them and in whatever order.
//!
//! Start at `run_world` in `run.rt`: a list of events, and the list of their replies. `specs/Reached.antt` says which texts have reached a
//! host by a moment, one text at a time and backwards, and `specs/Hosts.antt` what a host has loaded and how its booleans are set then.
//! `specs/Run.antt` says what each event is answered by these hosts. Not done here: nothing says that a bundle is ever delivered, or that
//! hosts come to hold the same modules. What is printed is a crate above.
#![tactic(auto)]

mod event;
pub mod laws;
mod masks;
mod reply;
mod run;
mod steps;
#[cfg(test)]
mod tests;
mod world;

pub use cil_host::Excerpt;
pub use event::Event;
pub use reply::Reply;
pub use run::run_world;
