//! Lists of names, and the number of a name in one that rises.

ghost use Rattle.std.specs.Prelude.{◌≡◌, ℕ, IfSome, IfNone, slice_get, Some};
ghost use Rattle.std.specs.List.Sorted.{IsStrictlySortedBy};
ghost use Rattle.cil_base.specs.Lists.{text_cmp};
ghost use Rattle.cil_base.specs.NameNumbers.{IsNumberOf};

use crate::bytes::Bytes;
use std::marker::Model;

/// Names in byte order, each once where a table keeps them. Contracts see them as their list.
#[derive(Debug, Drop)]
pub struct Names {
    names: Vec<Bytes>,
}

impl Model for Names {
    ghost use Rattle.std.specs.Prelude.{List, ℕ};

    ghost Value = { List (List ℕ) };

    ghost view = { λ a. a.names.items };
}

impl Names {
    /// These names, without a copy.
    pub fn from_vec(names: Vec<Bytes>) -> Names
        ensures { result ≡ names.items }
    {
        Self { names }
    }

    /// The names that were handed in.
    pub fn as_slice(&self) -> &[Bytes]
        ensures { result.now ≡ self.now }
    {
        self.names.as_slice()
    }
}

/// The number of a name in a rising list of names: its place, counted from 0.
pub fn number_of(names: &[Bytes], name: &[u8]) -> Option<usize>
    requires { IsStrictlySortedBy text_cmp names.now }
    ensures found { IfSome result (IsNumberOf names.now name.now) }
    ensures none { IfNone result ((n : ℕ) → slice_get names.now n ≡ Some name.now → ⊥) }
{
    names
        .binary_search_by(|known| known.as_slice().cmp(name))
        .ok()
}
