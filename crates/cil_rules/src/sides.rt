//! The source and the target of a rule, by declared names.

ghost use Rattle.std.specs.Prelude.{◌≡◌, ◌↔◌, ℕ, [], IfOk, IsTrue, List, true, MatchOption};
ghost use Rattle.cil_syntax.specs.declared.kind.Kind as kinds;
ghost use Rattle.cil_syntax.specs.declared.kind.Kind.TheVariants as variants;
ghost use Rattle.cil_syntax.specs.declared.term.Op.TheVariants as ops;
ghost use Rattle.cil_syntax.specs.declared.term.Word.{Word as AWord};
ghost use Rattle.cil_syntax.specs.Said.{said_of};
ghost use Rattle.cil_syntax.specs.Scopes.{ScopedWord};
ghost use Rattle.cil_macros.specs.Item.{Item};
ghost use Rattle.cil_conditions.specs.known.DeclaredKnown.{Known as Lookups};
ghost use Rattle.cil_conditions.specs.known.Known.{AreStanding, BeginWith, IsKnown, enabled_in, set_meant};
ghost use Rattle.cil_classes.specs.names.Unresolved.{term_with};
ghost use Rattle.cil_rules.specs.declared.rule.Reach.TheVariants as reaches;
ghost use Rattle.cil_rules.specs.Kept.{set_named, target_named};
ghost use Rattle.cil_rules.specs.Records.{HasTarget, IsTargetOf};

use crate::rule::Reach;
use cil_base::{NoMemory, short};
use cil_classes::Meaning;
use cil_conditions::meaning_at;
use cil_sets::Numbers;
use cil_syntax::{Op, Term};

/// The declared name that a word means, if its set has members.
pub fn some_at(sets: &[Numbers], meaning: Option<usize>) -> Option<usize>
    ensures { MatchOption result (set_meant sets.now meaning ≡ []) (λ d. (set_named sets.now d ≡ set_meant sets.now meaning) × (set_named sets.now d ≡ [] → ⊥)) }
{
    match meaning {
        Some(d) => unless_empty(sets, d),
        None => None,
    }
}

/// The declared name of this number, if its set has members.
fn unless_empty(sets: &[Numbers], d: usize) -> Option<usize>
    ensures { MatchOption result (set_named sets.now d ≡ []) (λ same. (same ≡ d) × (set_named sets.now d ≡ [] → ⊥)) }
{
    if is_empty_at(sets, d) {
        return None;
    }
    Some(d)
}

fn is_empty_at(sets: &[Numbers], d: usize) -> bool
    ensures { IsTrue result ↔ (set_named sets.now d ≡ []) }
{
    match sets.get(d) {
        Some(set) => set.is_empty(),
        None => true,
    }
}

/// What a term of a rule reaches, by meanings that begin with those of its words; none where it reaches no type.
pub fn target_of(
    types: &[Numbers],
    term: &Term,
    words: &[Meaning],
) -> Result<Option<Reach>, NoMemory>
    ensures { IfOk result (λ r. (k : Lookups) (xs : List Item) (names : kinds.Kind → List (List ℕ)) (f : AWord → ScopedWord) (m : ℕ) → IsKnown k xs names → AreStanding k xs names variants.Type_ types.now
        → BeginWith k f (said_of m term.now) words.now
        → MatchOption r (HasTarget xs (enabled_in k) (term_with f m term.now) → ⊥)
        (λ reach. HasTarget xs (enabled_in k) (term_with f m term.now)
        × IsTargetOf xs (enabled_in k) (names variants.Type_) (term_with f m term.now) (target_named types.now reach))) }
{
    match term {
        Term::Leaf(_) => match some_at(types, meaning_at(words, 0)) {
            Some(d) => Ok(Some(Reach::Types(short(d)?))),
            None => Ok(None),
        },
        Term::Name(_, _) => Ok(None),
        Term::Form(op, _, _) => Ok(itself(*op)),
    }
}

/// The source type as a target, where the operator says so.
fn itself(op: Op) -> Option<Reach>
    ensures { MatchOption result (op ≡ ops.Itself → ⊥) (λ reach. (op ≡ ops.Itself) × (reach ≡ reaches.Itself)) }
{
    match op {
        Op::Itself => Some(Reach::Itself),
        _ => None,
    }
}
