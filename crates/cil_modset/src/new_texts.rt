//! The texts of a sorted list that are not in another one: one pass over both.

ghost use Rattle.std.specs.Prelude.{◌≡◌, ℕ, ◌+◌, ◌<◌, ◌≤◌, ◌↔◌, List, [], ◌∷◌, ◌++◌, length, IsTrue, OnOk, Contains};
ghost use Rattle.cil_modset.specs.Faults.{AllBelow};
ghost use Rattle.cil_modset.specs.Modules.{IsBelow, module_of, texts_of};
ghost use Rattle.cil_modset.specs.NewTexts.{HasPassed};

use crate::order::{is_below, is_same};
use crate::texts::Texts;
use std::alloc::{AllocError, Global};

/// The new texts of a merge or an import, up to where it has read.
#[derive(Drop)]
pub(crate) struct NewTexts {
    /// The number of our texts that are before all texts that are still to be read.
    pub(crate) passed: usize,
    /// The texts that were read and that we do not have.
    pub(crate) fresh: Vec<Vec<u8>>,
}

impl NewTexts {
    pub(crate) fn new(alloc: Global) -> NewTexts
        ensures passed { result.passed ≡ 0 }
        ensures fresh { texts_of result.fresh.items ≡ [] }
    {
        NewTexts {
            passed: 0,
            fresh: Vec::new(alloc),
        }
    }

    /// Goes on to the next text, which is after all that were read, and returns whether we have it.
    pub(crate) fn knows(&mut self, ours: &Texts, text: &[u8]) -> bool
        requires { self.old.passed ≤ length ours.now }
        ensures known { (seen : List (List ℕ)) → HasPassed ours.now seen self.old.passed → AllBelow seen text.now
            → (IsTrue result ↔ Contains ours.now text.now) }
        ensures passed { (seen : List (List ℕ)) → HasPassed ours.now seen self.old.passed → AllBelow seen text.now
            → HasPassed ours.now (seen ++ text.now ∷ []) self.new.passed }
        ensures fresh { self.new.fresh ≡ self.old.fresh }
    {
        self.passed = pass_below(ours, self.passed, text);
        self.passed < ours.len() && is_same(ours.get(self.passed), text)
    }

    /// Keeps a text that we do not have.
    pub(crate) fn keep(&mut self, alloc: Global, text: &[u8]) -> Result<(), AllocError>
        ensures kept { OnOk result (texts_of self.new.fresh.items ≡ texts_of self.old.fresh.items ++ text.now ∷ []) }
        ensures passed { self.new.passed ≡ self.old.passed }
    {
        let copy = Vec::from_slice(alloc, text)?;
        self.fresh.push(copy)?;
        Ok(())
    }
}

/// The first index from `from` on whose text is not before `text`.
fn pass_below(ours: &Texts, from: usize, text: &[u8]) -> usize
    requires { from ≤ length ours.now }
    ensures onward { from ≤ result }
    ensures within { result ≤ length ours.now }
    ensures below { (k : ℕ) → from ≤ k → k < result → IsBelow (module_of ours.now k) text.now }
    ensures stops { result < length ours.now → IsBelow (module_of ours.now result) text.now → ⊥ }
{
    let mut at = from;
    while at < ours.len() && is_below(ours.get(at), text) {
        at += 1;
    }
    at
}
