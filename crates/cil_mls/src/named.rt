//! Names and the places for which they stand.

ghost use Rattle.std.specs.Prelude.{◌↔◌, ◌<◌, ℕ, All, IsTrue, MatchOption};
ghost use Rattle.std.specs.List.Sorted.{IsStrictlySortedBy};
ghost use Rattle.cil_base.specs.Found.{IsFound, IsMissing};
ghost use Rattle.cil_mls.specs.Names.{IsNamed, name_of, named_cmp};

use cil_base::Bytes;

/// A name of a sensitivity or a category, its own or an alias.
#[derive(Debug, Drop)]
pub struct Named {
    /// The name, as texts of levels have it.
    pub name: Bytes,
    /// The place of the item in the one order of all.
    pub place: usize,
}

/// The place for which a name stands. It costs a search by halving.
pub fn place_of(names: &[Named], name: &[u8]) -> Option<usize>
    requires { IsStrictlySortedBy named_cmp names.now }
    ensures { MatchOption result ((n : ℕ) → IsNamed names.now name.now n → ⊥) (IsNamed names.now name.now) }
{
    let at = found_at(names, name)?;
    Some(names[at].place)
}

/// Where a name is in a list that rises.
fn found_at(names: &[Named], name: &[u8]) -> Option<usize>
    requires { IsStrictlySortedBy named_cmp names.now }
    ensures { MatchOption result (IsMissing name_of names.now name.now) (IsFound name_of names.now name.now) }
{
    names
        .binary_search_by(|known| known.name.as_slice().cmp(name))
        .ok()
}

/// Whether names rise in byte order.
pub fn rise(names: &[Named]) -> bool
    ensures { IsTrue result ↔ IsStrictlySortedBy named_cmp names.now }
{
    names.is_sorted_by(|a, b| a.name.as_slice().cmp(b.name.as_slice()).is_lt())
}

/// Whether all places are below a count.
pub fn are_below(names: &[Named], count: usize) -> bool
    ensures { IsTrue result ↔ All (λ x. x.place < count) names.now }
{
    names.iter().all(|name| name.place < count)
}
