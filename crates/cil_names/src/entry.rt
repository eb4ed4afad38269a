//! The declared names of a policy.

use crate::enabled::is_declared;
use crate::opt_set::OptSet;
use cil_syntax::{Excerpt, Kind};

/// A declared symbol: a name of a kind in a namespace, and where it is declared.
#[derive(Debug, Drop)]
pub struct Entry<'a> {
    /// The number of its namespace.
    pub space: usize,
    /// Its name in that namespace.
    pub name: Excerpt<'a>,
    /// Its kind.
    pub kind: Kind,
    /// Whether it is declared without a statement, or by a statement outside all optionals.
    pub always: bool,
    /// For each other statement that declares it, the numbers of the optionals round that statement.
    pub rounds: Vec<Vec<usize>>,
}

impl Entry<'_> {
    ghost use Rattle.std.specs.Prelude.{◌≡◌};
    ghost use Rattle.cil_names.specs.Entries.{is_in};
    ghost use Rattle.cil_names.specs.Symbols.{is_of};

    /// Whether it is of a kind, and declared where these optionals are enabled.
    pub fn is_declared_as(&self, kind: Kind, enabled: &OptSet) -> bool
        ensures { result ≡ is_of (is_in enabled.now) kind self.now }
    {
        self.kind == kind && is_declared(enabled.as_slice(), self)
    }
}
