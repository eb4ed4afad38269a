//! The written statements of modules, or all that is wrong with their shape.
//!
//! Start at `written` in `program.rt`. `specs/Table.antt` has the statements, `specs/Shapes.antt` says how a node is
//! read by a shape, and `specs/Written.antt` what is written and which faults a set of modules has; `laws.rt` says
//! the same by a grammar without faults, and by a set of faults. What names mean is not known here.
#![tactic(auto)]

mod access_vector_rules;
mod clashes;
mod class_statements;
mod condition_heads;
mod conditional_statements;
mod constraint_heads;
mod constraint_statements;
mod container_statements;
mod entry;
mod expressions;
mod head;
mod kept;
mod kind;
mod language;
pub mod laws;
mod level_heads;
mod level_statements;
mod macro_statements;
mod name_set;
mod name_space;
mod operator_heads;
mod path;
mod place;
mod program;
mod reader;
mod role_statements;
mod rows;
mod set_aside;
mod set_heads;
mod shape;
mod shared_shapes;
mod spelling;
mod statement_forms;
mod stop;
mod table;
mod term;
mod term_forms;
mod type_statements;
mod unsupported;
mod user_statements;
mod verdict;
mod words;

pub use cil_base::Bytes;
pub use cil_faults::{
    Failure, Fault, FaultCode, FaultList, Spot, push_fault, push_fault_in, refuse, render,
};
pub use kind::{Keyword, Kind, Language, Nesting, Sign};
pub use name_space::NameSpace;
pub use path::{Path, PathParts, parted, path_of};
pub use place::joined;
pub use program::{Program, Statement, written};
pub use spelling::is_reserved;
pub use statement_forms::{RuleParts, WordPair};
pub use term::{Excerpt, LookedUp, Op, Term, Word};
pub use term_forms::{ClassParts, DeclaredName, Parameter, WordAndTerms, word_and_terms};
pub use words::is_spelled_for;
