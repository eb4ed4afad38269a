//! What a walk over calls stands on.

use crate::macros::Macros;
use cil_blocks::{Parts, Spaces};

/// What a walk over calls stands on.
#[derive(Clone, Copy)]
pub struct Source<'s, 'p, 'a> {
    /// All that stands.
    pub spaces: &'s Spaces<'p, 'a>,
    /// The macros among it.
    pub macros: &'s Macros<'a>,
    /// What is directly in each statement.
    pub parts: &'s Parts,
}
