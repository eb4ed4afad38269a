//! Sets of modules, which do not depend on the order and the repeats of installations and merges, and the bundles that carry
//! a set from host to host.
//!
//! Start at `set.rt`; `texts.rt` and `rows.rt` keep the texts. `specs/Modules.antt` defines sets and unions,
//! `specs/Changes.antt` what `install` and `import` do, `specs/Bundle.antt` the bytes of a bundle, and `specs/Faults.antt` the
//! fault of bytes that are not a bundle. The crates above give the texts their meaning as a policy.
#![tactic(auto)]

mod error;
mod export;
mod gather;
mod import;
mod join;
pub mod laws;
mod new_texts;
mod order;
mod rows;
mod set;
mod texts;

pub use cil_base::NoMemory;
pub use error::{BundleError, BundleFault};
pub use join::Join;
pub use set::{Installed, ModuleSet};
