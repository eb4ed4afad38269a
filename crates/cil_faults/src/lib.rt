//! What is wrong with modules: faults, in a sorted list, and the lines in which they are printed.
//!
//! Start at `fault_list.rt`, the list of faults that every step hands up. `specs/Refusal.antt` says what a step answers: "the
//! value, and then the step has no fault; or exactly the step's faults", `specs/First.antt` which step's faults are told, and
//! `specs/Both.antt` what two answers of one step are together (`both.rt`).
//! Which faults a policy has is said by each step, in the crates above.
#![tactic(auto)]

mod both;
mod code;
mod failure;
mod fault;
mod fault_list;
pub mod laws;
mod printed;
mod spot;

pub use both::{Both, together};
pub use code::FaultCode;
pub use failure::{Failure, refuse};
pub use fault::{Fault, push_fault, push_fault_in};
pub use fault_list::FaultList;
pub use printed::render;
pub use spot::Spot;
