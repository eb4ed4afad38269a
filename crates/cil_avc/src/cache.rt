//! The cache of decisions: the last used first.

ghost use Rattle.std.specs.Prelude.{◌≡◌, ◌≤◌, [], length, take, IfOk};
ghost use Rattle.std.specs.Map.{lookup};
ghost use Rattle.std.specs.NonZero.{non_zero_usize_get};
ghost use Rattle.cil_decide.specs.conditions.Bits.{is_on};
ghost use Rattle.cil_decide.specs.Decides.{Decided};
ghost use Rattle.cil_avc.specs.Cache.{IsTrueFor, Uses};

use crate::key::Key;
use cil_base::NoMemory;
use cil_decide::{ClassId, Context, Decision, Settings, Tables, decide};
use lru::LruCache;
use std::alloc::Global;
use std::hash::BuildHasher;
use std::marker::Model;
use std::num::NonZeroUsize;

/// A cache of decisions. In contracts it is its entries, the last used first, and how many it may hold.
#[derive(Debug, Drop)]
pub struct Avc<S: BuildHasher + Drop> {
    cache: LruCache<Key, Decision, S>,
}

impl<S: BuildHasher + Drop> Model for Avc<S> {
    ghost use Rattle.cil_avc.specs.Cache.{Entries};

    ghost Value = { Entries };

    ghost view = { λ a. record { entries = a.cache.entries; cap = a.cache.cap } };
}

impl<S: BuildHasher + Drop> Avc<S> {
    /// An empty cache for at most `capacity` decisions, from 1 to 65,536. An entry takes some 650 bytes. Error: out of memory.
    pub fn new(alloc: Global, capacity: usize, hasher: S) -> Result<Avc<S>, NoMemory>
        requires least { 1 ≤ capacity }
        requires most { capacity ≤ 65536 }
        ensures { IfOk result (λ avc. avc ≡ record { entries = []; cap = capacity }) }
    {
        let cache = LruCache::with_hasher(alloc, capacity_of(capacity), hasher)?;
        Ok(Avc { cache })
    }

    /// The decision on a source, a target and a class, as `decide` gives it for these tables and settings. The cache has to be
    /// true for both: empty, or used with no others since it was empty. It is true afterwards too. (The SELinux Notebook,
    /// "Computing Access Decisions".) If the decision is in the cache, this costs two searches there; if not, what `decide` costs
    /// and a few searches. Out of memory, the answer is the same, and the cache stays as it was.
    pub fn lookup(
        &mut self,
        tables: &Tables,
        settings: &Settings,
        source: &Context,
        target: &Context,
        class: ClassId,
    ) -> Decision
        requires { IsTrueFor tables.now (is_on settings.now) self.old.entries }
        ensures answer { Decided tables.now (is_on settings.now) source.now target.now class.number result }
        ensures is_true { IsTrueFor tables.now (is_on settings.now) self.new.entries }
        ensures entries { Uses self.old (record { source = source.now; target = target.now; class = class }) result self.new }
    {
        let key = Key {
            source: *source,
            target: *target,
            class,
        };
        if let Some(known) = self.known(&key) {
            self.cache.promote(&key);
            return known;
        }
        let decision = decide(tables, settings, source, target, class);
        // Without memory the cache stays as it was, and the decision is right all the same.
        let _ = self.cache.put(key, decision);
        decision
    }

    /// The decision that is kept for a key.
    fn known(&self, key: &Key) -> Option<Decision>
        ensures { result ≡ lookup (⟦<Key as PartialEq>⟧.eq key.now) self.now.entries }
    {
        self.cache.peek(key).copied()
    }

    /// Forgets all decisions. The cache is then true for any tables and settings.
    pub fn flush(&mut self)
        ensures { self.new ≡ record { entries = []; cap = self.old.cap } }
    {
        self.cache.clear();
    }

    /// How many decisions are kept.
    pub fn len(&self) -> usize
        ensures { result ≡ length self.now.entries }
    {
        self.cache.len()
    }

    /// Changes how many decisions may be kept, from 1 to 65,536. Of those that are kept the last used stay, as many as fit.
    pub fn resize(&mut self, capacity: usize)
        requires least { 1 ≤ capacity }
        requires most { capacity ≤ 65536 }
        ensures { self.new ≡ record { entries = take capacity self.old.entries; cap = capacity } }
    {
        self.cache.resize(capacity_of(capacity));
    }
}

/// The capacity as the library takes it.
fn capacity_of(capacity: usize) -> NonZeroUsize
    requires { 1 ≤ capacity }
    ensures { non_zero_usize_get result ≡ capacity }
{
    match NonZeroUsize::new(capacity) {
        Some(capacity) => capacity,
        None => unreachable!(),
    }
}
