//! What a decision is asked for.

ghost use Rattle.std.specs.Prelude.{◌≡◌, fold};
ghost use Rattle.cil_avc.specs.Hashed.{context_writes, level_number, mixed};

use cil_decide::{ClassId, Context, Level};
use std::hash::{Hash, Hasher};

/// What a decision is asked for. Two keys are equal where all their numbers and categories are. The SELinux Notebook, "Computing
/// Access Decisions".
#[derive(Clone, Copy, Debug, PartialEq, Eq)]
pub struct Key {
    /// The context that asks.
    pub source: Context,
    /// The context of the object.
    pub target: Context,
    /// The class of the object.
    pub class: ClassId,
}

impl Hash for Key {
    ghost use Rattle.std.specs.Prelude.{◌++◌};
    ghost use Rattle.std.specs.Hash as fed;
    ghost use Rattle.cil_avc.specs.Hashed.{context_writes};
    ghost use Rattle.std.specs.Cmp.Rules.{hashing};
    ghost use Rattle.std.proofs.Common.{rules};

    ghost hash_input = { λ key. context_writes key.source ++ context_writes key.target ++ fed.usize key.class.number };

    ghost respects_eq = { Prim.search (hashing, rules) };

    /// Writes eleven numbers of eight bytes. Of each level it writes one number, made of all its words: a key has 64 of these. Keys
    /// that differ may write the same, and are then found by a step for each of them.
    fn hash<H: Hasher>(&self, state: &mut H) {
        hash_context(state, &self.source);
        hash_context(state, &self.target);
        state.write_usize(self.class.number);
    }
}

/// Writes the numbers of a context to a hasher, and a number for each level.
fn hash_context<H: Hasher>(state: &mut H, context: &Context)
    ensures { state.new ≡ fold H.write state.old (context_writes context.now) }
{
    state.write_usize(context.user);
    state.write_usize(context.role);
    state.write_usize(context.kind);
    state.write_u64(number_of(&context.low));
    state.write_u64(number_of(&context.high));
}

/// The number of a level for a hasher.
fn number_of(level: &Level) -> u64
    ensures { result ≡ level_number level.now }
{
    mixed_of(level.sensitivity as u64, &level.categories.words)
}

/// One number, made of a first one and of words.
fn mixed_of(first: u64, words: &[u64]) -> u64
    ensures { result ≡ mixed first words.now }
{
    let mut mixed = first;
    for word in words {
        mixed = (mixed ^ *word).wrapping_mul(0x9e37_79b9_7f4a_7c15);
    }
    mixed
}
