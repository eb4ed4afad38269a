//! A set of modules: the texts in byte order, each once.

ghost use Rattle.std.specs.Prelude.{◌≡◌, ℕ, ◌<◌, ◌↔◌, List, [], length, Contains, IsTrue, IfOk};
ghost use Rattle.cil_modset.specs.Bundle.{bundle};
ghost use Rattle.cil_modset.specs.Changes.{IsImported, IsInstalled};
ghost use Rattle.cil_modset.specs.Modules.{AreModules, module_of, texts_of};
ghost use Rattle.cil_modset.specs.NewTexts.{AreNew};
ghost use Rattle.sha2.specs.Sha256.{sha256};

use crate::error::BundleError;
use crate::export::write;
use crate::import::new_texts_of;
use crate::join::Join;
use crate::new_texts::NewTexts;
use crate::texts::Texts;
use cil_base::NoMemory;
use cil_sexpr::ReadError;
use sha2::{Digest, Sha256};
use std::alloc::{AllocError, Global};
use std::marker::Model;

/// The result of an installation.
#[derive(Clone, Copy, Debug, PartialEq, Eq)]
pub enum Installed {
    /// The text was not in the set, and is in it now.
    New,
    /// The text was in the set already.
    Known,
}

/// A finite set of readable texts. In contracts it is the list of its texts in byte order; the number of a
/// module is its index in that list.
#[derive(Debug, Drop)]
pub struct ModuleSet {
    texts: Texts,
}

impl Model for ModuleSet {
    ghost use Rattle.std.specs.Prelude.{List, ℕ};
    ghost use Rattle.cil_modset.specs.Modules.{AreModules};

    ghost Value = { List (List ℕ) };

    ghost view = { λ set. set.texts };

    ghost invariant = { λ set. AreModules set.texts };
}

impl ModuleSet {
    /// The empty set.
    pub fn new(alloc: Global) -> ModuleSet
        ensures { result ≡ [] }
    {
        ModuleSet {
            texts: Texts::new(alloc),
        }
    }

    /// Adds a text to the set, if it is readable and not in the set yet. A text that is in the set already is `Known`; that
    /// answer needs no memory.
    ///
    /// Errors: the first fault of an unreadable text, or out of memory. If the call fails, the set is unchanged.
    pub fn install(&mut self, alloc: Global, text: &[u8]) -> Result<Installed, ReadError>
        ensures { IsInstalled self.old text.now result self.new }
    {
        if self.texts.add(alloc, text)? {
            Ok(Installed::New)
        } else {
            Ok(Installed::Known)
        }
    }

    /// Another set with the same texts. Error: out of memory.
    pub fn try_clone(&self, alloc: Global) -> Result<ModuleSet, NoMemory>
        ensures { IfOk result (λ copy. copy ≡ self.now) }
    {
        let texts = self.texts.try_clone(alloc)?;
        Ok(ModuleSet { texts })
    }

    /// The number of texts in the set.
    pub fn len(&self) -> usize
        ensures len { result ≡ length self.now }
        ensures modules { AreModules self.now }
    {
        self.texts.len()
    }

    /// The module of a number, which must be less than `len`.
    pub fn get(&self, i: usize) -> &[u8]
        requires { i < length self.now }
        ensures { result.now ≡ module_of self.now i }
    {
        self.texts.get(i)
    }

    /// Whether a text is in the set.
    pub fn contains(&self, text: &[u8]) -> bool
        ensures { IsTrue result ↔ Contains self.now text.now }
    {
        self.texts.contains(text)
    }

    /// The SHA-256 digest of the module of a number, which must be less than `len`.
    pub fn digest(&self, i: usize) -> [u8; 32]
        requires { i < length self.now }
        ensures { result ≡ sha256 (module_of self.now i) }
    {
        Sha256::digest(self.get(i))
    }

    /// The bundle of the set, which `import` reads on another host. Error: out of memory.
    pub fn export(&self, alloc: Global) -> Result<Vec<u8>, NoMemory>
        ensures { IfOk result (λ bytes. bytes.items ≡ bundle self.now) }
    {
        Ok(write(alloc, &self.texts)?)
    }

    /// Adds the modules of a bundle, and returns how many of them are new.
    ///
    /// Errors: the first fault of bytes that are not a bundle, or out of memory. If the call fails, the set is unchanged.
    pub fn import(&mut self, alloc: Global, bytes: &[u8]) -> Result<u64, BundleError>
        ensures { IsImported self.old bytes.now result self.new }
    {
        let fresh = new_texts_of(alloc, &self.texts, bytes)?;
        Ok(self.texts.add_all(alloc, fresh)?)
    }
}

impl Join for ModuleSet {
    ghost use Rattle.cil_modset.specs.Modules.{IsUnion};
    ghost use Rattle.cil_modset.specs.Unions.{union_commutes, union_associates, union_with_itself};

    ghost contents = { λ set. set };

    ghost is_join = { IsUnion };

    ghost commutative = { union_commutes };

    ghost associative = { union_associates };

    ghost idempotent = { union_with_itself };

    fn merge(&mut self, alloc: Global, other: &Self) -> Result<u64, NoMemory> {
        let fresh = missing_from(alloc, &self.texts, &other.texts)?;
        let added = self.texts.add_all(alloc, fresh)?;
        Ok(added)
    }
}

/// The texts of theirs that are not in ours.
fn missing_from(alloc: Global, ours: &Texts, theirs: &Texts) -> Result<Vec<Vec<u8>>, AllocError>
    ensures { IfOk result (λ fresh. AreNew ours.now theirs.now (texts_of fresh.items)) }
{
    let mut walk = NewTexts::new(alloc);
    for i in 0..theirs.len() {
        let text = theirs.get(i);
        if !walk.knows(ours, text) {
            walk.keep(alloc, text)?;
        }
    }
    Ok(walk.fresh)
}
