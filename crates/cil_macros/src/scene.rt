//! What meanings follow from.

use crate::chain::Brought;
use crate::declared_names::Declared;
use cil_blocks::Spaces;

/// What meanings follow from.
#[derive(Clone, Copy)]
pub struct Scene<'s, 'p, 'a> {
    /// All that stands.
    pub spaces: &'s Spaces<'p, 'a>,
    /// What calls bring.
    pub brought: &'s Brought,
    /// What the bodies of macros declare.
    pub declared: &'s Declared<'a>,
}
