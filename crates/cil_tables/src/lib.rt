//! The tables of a policy, and the compiler that makes them: from modules to tables, or exactly the faults of the first step that
//! has some.
//!
//! Start at `compile` in `compiler.rt`. Its contract says by `specs/Agrees.antt` that the tables are those of the modules and say what
//! the modules say. `specs/Table.antt` is the value of tables, `specs/Compiled.antt` which tables a policy has, `specs/Faults.antt` what
//! is wrong with one, `specs/Contexts.antt` which contexts are valid, and `specs/Meaning.antt` how tables are read. `laws.rt` says
//! that modules have one answer. Questions to tables are a crate above.
#![tactic(auto)]

mod aliases;
mod booleans;
mod compiler;
mod filled;
mod forbidden;
mod holders;
pub mod laws;
mod limit;
mod links;
mod sections;
mod standings;
pub mod tables;

pub use cil_classes::{Class, ClassId};
pub use cil_constraints::{Context, met, without};
pub use cil_declare::declare;
pub use cil_level_rows::{Level, Levels, category_values, levels_of, parted, permitted};
pub use cil_neverallow::{Asked, NamedRule, NamedRules, Reach, Sections, Settings, covers};
pub use cil_optionals::{OptionalLine, WhyLine, asks_of, settled};
pub use compiler::{Compiled, compile};
pub use holders::Links;
pub use tables::{Alias, Boolean, Link, TableParts, Tables};
