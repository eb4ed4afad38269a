//! Values that can be merged, where neither order nor repeats matter.

ghost use Rattle.std.specs.Prelude.{◌≡◌, ℕ, ◌+◌, List, length, OnOk, OnErr, IfOk};

use cil_base::NoMemory;
use std::alloc::Global;

/// A value that can be merged with another of its type.
pub trait Join {
    /// The contents of a value: the list of its texts.
    ghost contents: { Self → List (List ℕ) };

    /// The third value is the result of merging the second into the first.
    ghost is_join: { Self → Self → Self → Type 0 };

    /// Adds the contents of the other value, and returns how many texts are new. The other value does not change. If the
    /// call fails, the contents are unchanged.
    fn merge(&mut self, alloc: Global, other: &Self) -> Result<u64, NoMemory>
        ensures joined { OnOk result (is_join self.old other.now self.new) }
        ensures added { IfOk result (λ added. length (contents self.new) ≡ length (contents self.old) + added) }
        ensures err { OnErr result (contents self.new ≡ contents self.old) };

    /// Merging two values in either order gives the same contents.
    ghost commutative: { (a b c d : Self) → is_join a b c → is_join b a d → contents c ≡ contents d };

    /// Of three values, it does not matter which two are merged first.
    ghost associative: { (a b c ab bc left right : Self) → is_join a b ab → is_join ab c left
        → is_join b c bc → is_join a bc right → contents left ≡ contents right };

    /// Merging a value with an equal one changes nothing.
    ghost idempotent: { (a b : Self) → is_join a a b → contents b ≡ contents a };
}
