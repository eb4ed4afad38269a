//! Lists of names that differ. A look-up costs one hash, and no name is copied.

ghost use Rattle.std.specs.Prelude.{◌≡◌};
ghost use Rattle.cil_format.specs.Takes.{Takes};
ghost use Rattle.cil_label_bytes.specs.Layout.{new_name};

use crate::names::name_at;
use cil_base::{Bytes, NoMemory};
use cil_format::{TableError, TableFault};
use indexmap::IndexSet;
use std::alloc::Global;
use std::marker::Model;

/// Names in their order, each once. Contracts see them as their list.
#[derive(Drop)]
pub struct NameList<'a> {
    names: IndexSet<&'a [u8]>,
}

impl<'a> Model for NameList<'a> {
    ghost use Rattle.std.specs.Prelude.{List, ℕ, map};
    ghost use Rattle.cil_label_bytes.specs.Keys.{texts_of};

    ghost Value = { List (List ℕ) };

    ghost view = { λ a. texts_of a.names.keys };
}

impl<'a> NameList<'a> {
    ghost use Rattle.std.specs.Prelude.{◌≡◌, ◌++◌, ◌∷◌, IfOk, OnOk, [], length, not, true};
    ghost use Rattle.cil_label_bytes.specs.Layout.{is_new};

    /// No name.
    pub fn new(alloc: Global) -> NameList<'a>
        ensures { result ≡ [] }
    {
        NameList {
            names: IndexSet::new(alloc),
        }
    }

    /// How many there are.
    pub fn len(&self) -> usize
        ensures { result ≡ length self.now }
    {
        self.names.len()
    }

    /// Whether no one of them is this.
    pub fn lacks(&self, name: &[u8]) -> bool
        ensures { result ≡ is_new self.now name.now }
    {
        !self.names.contains(&name)
    }

    /// Adds a name that is not there. Errors: out of memory.
    pub fn add(&mut self, name: &'a [u8]) -> Result<(), NoMemory>
        requires { is_new self.old name.now ≡ true }
        ensures { OnOk result (self.new ≡ self.old ++ name.now ∷ []) }
    {
        self.names.insert(name)?;
        Ok(())
    }

    /// Copies of all, in their order. Errors: out of memory.
    pub fn copies(&self, alloc: Global) -> Result<Vec<Bytes>, NoMemory>
        ensures { IfOk result (λ copies. copies.items ≡ self.now) }
    {
        let mut copies = Vec::new(alloc);
        for name in self.names.as_slice() {
            copies.push(Bytes::copy_of(alloc, name)?)?;
        }
        Ok(copies)
    }
}

/// A name that is not in a list, and the bytes behind it. Errors: the first fault; one that is in the list is `OutOfRange`, at its end.
pub fn new_name_at<'a>(
    names: &NameList,
    bytes: &'a [u8],
) -> Result<(&'a [u8], &'a [u8]), TableError>
    ensures { Takes (λ x. (x.0.now, x.1.now)) result ((new_name names.now).read bytes.now) }
{
    let (name, rest) = name_at(bytes)?;
    if names.lacks(name) {
        return Ok((name, rest));
    }
    Err(TableError::Fault(TableFault::OutOfRange))
}
