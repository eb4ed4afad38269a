//! Constraints: what two contexts have to be to one another, and which permissions are left where they are not so. The CIL Reference
//! Guide has them in "Constraint Statements", The SELinux Notebook in "Computing Access Decisions".
//!
//! Start at `constraints` in `gather.rt`: those of a policy, in their order (`order.rt`), statement by statement (`statement.rt`). `met`
//! (`mask.rt`) says which permissions all constraints on a class leave. A constraint asks for an `Expr` (`expr.rt`), which is a list of
//! steps (`step.rt`), each operator in front of its operands; `holds` says whether it is true of a source and a target. `push_said`
//! (`push.rt`) makes the steps of what a statement says, by operators (`joins.rt`, `variable.rt`) and by what words stand for (`words.rt`).
//!
//! `specs/Saying.antt` says what a term asks for, `specs/Contexts.antt` when that is so of two contexts, `specs/Constrained.antt` which
//! constraints a policy has, and `specs/Compiled.antt` what they are by numbers. `specs/Truth.antt` says when these are true,
//! `specs/Permitted.antt` what is left, and `specs/Order.antt` in which order constraints stand. Not done here: changes of role, which
//! cil_decide asks for.
#![tactic(auto)]

mod copies;
#[cfg(test)]
mod copy_tests;
mod depth;
mod expr;
mod gather;
mod joins;
pub mod laws;
mod mask;
mod order;
mod push;
mod statement;
mod step;
#[cfg(test)]
mod tests;
mod variable;
mod words;

pub use expr::{Context, Expr, holds};
pub use gather::constraints;
pub use mask::{Constraint, met, of_class, permitted, without};
pub use push::{Standing, push_said};
pub use step::{Equality, LevelPair, Part, Relation, Side, Step};
