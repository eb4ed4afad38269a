//! What is wrong with a form itself: a level with a category that its sensitivity does not permit, a range of levels or of categories
//! that is turned.

ghost use Rattle.std.specs.Prelude.{◌≡◌, ◌<◌, ◌≤◌, ℕ, All, List, MatchOption, Option, true, length};
ghost use Rattle.std.specs.Bool.{MatchBool};
ghost use Rattle.cil_syntax.specs.declared.term.Word.{Word as AWord};
ghost use Rattle.cil_syntax.specs.Scopes.{ScopedWord};
ghost use Rattle.cil_syntax.specs.Terms.{Terms};
ghost use Rattle.cil_known.specs.declared.known.Known.{Known};
ghost use Rattle.cil_known.specs.Known.{enabled_in};
ghost use Rattle.cil_mls.specs.declared.expression.Held.TheVariants.{Category};
ghost use Rattle.cil_mls.specs.Values.{IsFew, meant_held};
ghost use Rattle.cil_ranges.specs.declared.own.Span as spans;
ghost use Rattle.cil_ranges.specs.LevelFaults.{IsBackwards, IsTurned, IsUnpermitted};
ghost use Rattle.cil_ranges.specs.Levels.{Ground};
ghost use Rattle.cil_ranges.specs.Reading.{AreRead, HasLevels, IsSpan, Judges, LevelIsPermitted, Measures, judged_as};

use crate::level::{behind_word, said_level};
use crate::range::said_range;
use crate::scale::{Named, Scale};
use cil_known::meaning_at;
use cil_mls::{Categories, Held, Level};
use cil_names::Meaning;
use cil_syntax::{Op, Term};

/// What levels and ranges are judged by.
#[derive(Clone, Copy)]
pub struct Judge<'s> {
    /// What they are read by.
    pub named: Named<'s>,
    /// For each sensitivity, by its place in the order, the categories that may go with it.
    pub permitted: &'s [Categories],
}

/// How a form is judged.
#[derive(Clone, Copy)]
pub enum Judged {
    /// As a level.
    Level,
    /// As a range of levels.
    Levels,
    /// As a range of categories.
    Categories,
    /// Not at all.
    Nothing,
}

/// How a form with an operator is judged.
pub fn judged_as(op: Op) -> Judged
    ensures { result ≡ judged_as op }
{
    match op {
        Op::Level => Judged::Level,
        Op::LevelRange => Judged::Levels,
        Op::Range => Judged::Categories,
        _ => Judged::Nothing,
    }
}

/// Whether terms, whose words mean this, say a level with a category that its sensitivity does not permit.
pub fn is_unpermitted(by: &Judge, terms: &[Term], words: &[Meaning]) -> bool
    requires count { by.now.named.scale.categories.count ≤ 1024 }
    requires few { All IsFew by.now.named.scale.categories.held.now }
    ensures { (k : Known) (g : Ground) (m : ℕ) (f : AWord → ScopedWord) (us : Terms ScopedWord) (more : List (Option ℕ)) → Judges k by.now g → AreRead k f m terms.now us words.now more
        → MatchBool result ((w : ScopedWord) × IsUnpermitted (enabled_in k) g us w) ((w : ScopedWord) → IsUnpermitted (enabled_in k) g us w → ⊥) }
{
    let Some(level) = said_level(&by.named.scale, terms, words) else {
        return false;
    };
    !is_permitted(by.permitted, &level)
}

/// Whether the sensitivity of a level permits its categories.
fn is_permitted(permitted: &[Categories], level: &Level) -> bool
    ensures { level.now.sensitivity < length permitted.now → MatchBool result (LevelIsPermitted permitted.now level.now) (LevelIsPermitted permitted.now level.now → ⊥) }
{
    match permitted.get(level.sensitivity as usize) {
        Some(set) => set.include(&level.categories),
        None => false,
    }
}

/// Whether terms, whose words mean this, say a range of levels the high one of which does not dominate the low one.
pub fn is_turned(by: &Named, terms: &[Term], words: &[Meaning]) -> bool
    requires count { by.now.scale.categories.count ≤ 1024 }
    requires few { All IsFew by.now.scale.categories.held.now }
    ensures { (k : Known) (g : Ground) (m : ℕ) (f : AWord → ScopedWord) (us : Terms ScopedWord) (more : List (Option ℕ)) → Measures k by.now.scale g → HasLevels k by.now.levels.now g
        → AreRead k f m terms.now us words.now more → MatchBool result (IsTurned (enabled_in k) g us) (IsTurned (enabled_in k) g us → ⊥) }
{
    let Some(range) = said_range(by, terms, words) else {
        return false;
    };
    !range.high.dominates(&range.low)
}

/// Whether terms, whose words mean this, are two words for categories the second of which is before the first.
pub fn is_backwards(by: &Scale, terms: &[Term], words: &[Meaning]) -> bool
    ensures { (k : Known) (g : Ground) (m : ℕ) (f : AWord → ScopedWord) (us : Terms ScopedWord) (more : List (Option ℕ)) → Measures k by.now g → AreRead k f m terms.now us words.now more
        → MatchBool result (IsBackwards (enabled_in k) g us) (IsBackwards (enabled_in k) g us → ⊥) }
{
    let Some(span) = span_of(by, terms, words) else {
        return false;
    };
    span.last < span.first
}

/// Two categories, by their places.
#[derive(Clone, Copy)]
struct Span {
    first: usize,
    last: usize,
}

/// The two categories for which terms stand, whose words mean this. None if they are not two words for categories.
fn span_of(by: &Scale, terms: &[Term], words: &[Meaning]) -> Option<Span>
    ensures { (k : Known) (g : Ground) (m : ℕ) (f : AWord → ScopedWord) (us : Terms ScopedWord) (more : List (Option ℕ)) → Measures k by.now g → AreRead k f m terms.now us words.now more
        → MatchOption result ((p : spans.Span) → IsSpan k g us p → ⊥) (IsSpan k g us) }
{
    let behind = behind_word(terms)?;
    let rest = behind_word(behind)?;
    if !rest.is_empty() {
        return None;
    }
    let first = category_meant(by.categories.held, meaning_at(words, 0))?;
    let last = category_meant(by.categories.held, meaning_at(words, 1))?;
    Some(Span { first, last })
}

/// The category for which a word of this meaning stands, if it stands for one as such.
fn category_meant(held: &[Held], meaning: Option<usize>) -> Option<usize>
    ensures { MatchOption result ((c : ℕ) → meant_held held.now meaning ≡ Category c → ⊥) (λ c. meant_held held.now meaning ≡ Category c) }
{
    let entry = meaning?;
    match held.get(entry) {
        Some(there) => place_held(there),
        None => None,
    }
}

fn place_held(held: &Held) -> Option<usize>
    ensures { MatchOption result ((c : ℕ) → held.now ≡ Category c → ⊥) (λ c. held.now ≡ Category c) }
{
    match held {
        Held::Nothing => None,
        Held::Category(place) => Some(*place),
        Held::Set(_) => None,
    }
}
