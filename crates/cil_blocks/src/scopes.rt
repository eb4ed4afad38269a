//! Scopes by the numbers of namespaces: each once, at its first place, and that of the global namespace last. A number costs a
//! hash.

ghost use Rattle.std.specs.Prelude.{◌≡◌};

use crate::namespaces::Namespaces;
use cil_base::NoMemory;
use indexmap::IndexSet;
use std::alloc::Global;
use std::marker::Model;

/// The namespaces of a scope, by their numbers. One list serves for many scopes, one after another. Contracts see the list.
#[derive(Drop)]
pub struct ScopeList {
    numbers: IndexSet<usize>,
}

impl Model for ScopeList {
    ghost use Rattle.std.specs.Prelude.{List, ℕ};

    ghost Value = { List ℕ };

    ghost view = { λ a. a.numbers.keys };
}

impl ScopeList {
    ghost use Rattle.std.specs.Prelude.{◌≡◌, ◌++◌, ◌∷◌, ◌==◌, [], OnErr, OnOk, false};
    ghost use Rattle.std.specs.List.{IsDistinct, list_any};
    ghost use Rattle.cil_blocks.specs.Numbers.{AreGoneUp, chain_numbers, with_number, with_numbers};

    /// No namespaces.
    pub fn new(alloc: Global) -> ScopeList
        ensures { result ≡ [] }
    {
        ScopeList {
            numbers: IndexSet::new(alloc),
        }
    }

    /// The numbers, in order.
    pub fn as_slice(&self) -> &[usize]
        ensures { result.now ≡ self.now }
    {
        self.numbers.as_slice()
    }

    /// Whether the namespace of a number is among them. It costs a hash.
    pub fn contains(&self, number: usize) -> bool
        ensures { result ≡ list_any (λ k. number == k) self.now }
    {
        self.numbers.contains(&number)
    }

    /// Each number is there once. The call does nothing.
    pub fn are_apart(&self)
        ensures { IsDistinct (λ j k. j == k) self.now }
    {
        // What is known of the set.
        self.numbers.len();
    }

    /// Takes all numbers out. Their memory is kept. It costs what the list holds, however long a list it held before.
    pub fn clear(&mut self)
        ensures { self.new ≡ [] }
    {
        self.numbers.truncate(0);
    }

    /// Adds a number, unless it is there, or that of the global namespace.
    pub fn add(&mut self, number: usize) -> Result<(), NoMemory>
        ensures { OnOk result (self.new ≡ with_number self.old number) }
    {
        if number == 0 {
            return Ok(());
        }
        self.numbers.insert(number)?;
        Ok(())
    }

    /// Adds the numbers of a namespace and of those round it, unless they are there. The way up ends at the first number from
    /// which it was gone before; those from which it is gone now are put to these.
    pub fn add_chain(
        &mut self,
        namespaces: &Namespaces,
        number: usize,
        gone_up: &mut IndexSet<usize>,
    ) -> Result<(), NoMemory>
        requires { AreGoneUp namespaces.now gone_up.old.keys self.old }
        ensures added { OnOk result (self.new ≡ with_numbers self.old (chain_numbers namespaces.now number)) }
        ensures gone_up { OnOk result (AreGoneUp namespaces.now gone_up.new.keys self.new) }
    {
        let mut at = number;
        while let Some(space) = namespaces.get(at) {
            let is_new = gone_up.insert(at)?;
            if !is_new {
                return Ok(());
            }
            self.add(at)?;
            at = space.outer;
        }
        Ok(())
    }

    /// Puts the global namespace behind the others.
    pub fn close(&mut self) -> Result<(), NoMemory>
        ensures { OnOk result (list_any (λ k. 0 == k) self.old ≡ false → self.new ≡ self.old ++ 0 ∷ []) }
    {
        self.numbers.insert(0)?;
        Ok(())
    }
}
