//! The place of a name in rising names.

ghost use Rattle.std.specs.Prelude.{◌≡◌, IsTrue, Some, slice_get};
ghost use Rattle.std.specs.List.Sorted.{IsStrictlySortedBy};
ghost use Rattle.cil_base.specs.Lists.{text_cmp};
ghost use Rattle.cil_syntax.specs.Spelling.{same_bytes};
ghost use Rattle.cil_names.specs.Entries.{place_where};

use cil_syntax::Bytes;

/// The place of a name in rising names, if it is there.
pub fn place_among(names: &[Bytes], name: &[u8]) -> Option<usize>
    requires { IsStrictlySortedBy text_cmp names.now }
    ensures { result ≡ place_where (λ x. same_bytes x name.now) names.now }
{
    names
        .binary_search_by(|known| known.as_slice().cmp(name))
        .ok()
}

/// The place of a name in rising names, if it is there. A place that it may have is given: it costs one comparison where that is
/// right, and else one search by halving.
pub fn place_guessed(names: &[Bytes], name: &[u8], guess: Option<usize>) -> Option<usize>
    requires { IsStrictlySortedBy text_cmp names.now }
    ensures { result ≡ place_where (λ x. same_bytes x name.now) names.now }
{
    if let Some(place) = guess {
        if is_name_at(names, place, name) {
            return Some(place);
        }
    }
    place_among(names, name)
}

/// Whether the name at a place is this one.
fn is_name_at(names: &[Bytes], place: usize, name: &[u8]) -> bool
    ensures { IsTrue result → slice_get names.now place ≡ Some name.now }
{
    match names.get(place) {
        Some(known) => known.as_slice() == name,
        None => false,
    }
}
