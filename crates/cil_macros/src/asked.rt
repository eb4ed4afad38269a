//! Which namespaces a word asks, by their numbers. A name costs one hash.

ghost use Rattle.std.specs.Prelude.{◌≡◌, ◌≤◌, MatchOption, length};
ghost use Rattle.cil_blocks.specs.Namespaces.{AreNamespaces};
ghost use Rattle.cil_macros.specs.Asked.{IsAskedAt, IsAskedNowhere, numbers_asked};

use cil_blocks::Namespaces;
use cil_syntax::parted;

/// Where names ask: the number of a namespace, and the last name.
#[derive(Clone, Copy)]
pub struct Asked<'n> {
    /// The number of the namespace.
    pub space: usize,
    /// The name.
    pub name: &'n [u8],
}

/// Where names ask in a namespace; none where that namespace has no number.
pub fn asked_in<'n>(namespaces: &Namespaces, from: usize, names: &'n [u8]) -> Option<Asked<'n>>
    requires once { AreNamespaces namespaces.now }
    requires within { from ≤ length namespaces.now }
    ensures { MatchOption result (IsAskedNowhere namespaces.now from names.now) (λ a. IsAskedAt namespaces.now from names.now a.space a.name.now) }
{
    let mut space = from;
    let mut rest = names;
    while let Some(parts) = parted(rest) {
        space = namespaces.child(space, parts.first)?;
        rest = parts.rest;
    }
    Some(Asked { space, name: rest })
}

/// The namespaces of a scope that a word asks: all, or with a leading dot the global one alone.
pub fn asked_scope(global: bool, scope: &[usize]) -> &[usize]
    ensures { result.now ≡ numbers_asked global scope.now }
{
    if global { &[0] } else { scope }
}
