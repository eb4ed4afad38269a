//! The level of a term: a sensitivity with categories, or the name of a level.

ghost use Rattle.std.specs.Prelude.{◌≡◌, ◌↔◌, ◌<◌, ◌≤◌, ℕ, All, IsTrue, List, MatchOption, Option};
ghost use Rattle.cil_faults.specs.declared.spot.Spot.{Spot};
ghost use Rattle.cil_syntax.specs.declared.term.Op.TheVariants as ops;
ghost use Rattle.cil_syntax.specs.declared.term.Word.{Word as AWord};
ghost use Rattle.cil_syntax.specs.Said.{all_said, said_of};
ghost use Rattle.cil_syntax.specs.Scopes.{ScopedWord};
ghost use Rattle.cil_syntax.specs.Terms.{Form, Leaf, Term as ATerm, Terms, cons};
ghost use Rattle.cil_macros.specs.Item.{all_replaced};
ghost use Rattle.cil_macros.specs.ListTerms.{AreAlike};
ghost use Rattle.cil_known.specs.declared.known.Known.{Known};
ghost use Rattle.cil_known.specs.Known.{enabled_in};
ghost use Rattle.cil_mls.specs.declared.level.Level as levels;
ghost use Rattle.cil_mls.specs.Bits.{in_words};
ghost use Rattle.cil_mls.specs.Values.{IsFew};
ghost use Rattle.cil_ranges.specs.Levels.{Ground, IsLevel, IsWrittenLevel, SaysLevel, in_behind};
ghost use Rattle.cil_ranges.specs.Reading.{AreRead, BeginsWithWord, HasLevels, IsRead, Measures, SaysNoLevel, is_word};

use crate::scale::{Named, Scale, meant};
use crate::slices::behind_one;
use cil_known::{behind_first, meaning_at};
use cil_mls::{Categories, Level, value};
use cil_names::Meaning;
use cil_syntax::{Op, Term};

/// The level that some terms say, whose words mean this: a word for a sensitivity and, behind it, at most an expression over
/// categories. None if the first term is no such word. It costs a few steps for each term and takes no memory.
pub fn said_level(by: &Scale, terms: &[Term], words: &[Meaning]) -> Option<Level>
    requires count { by.now.categories.count ≤ 1024 }
    requires few { All IsFew by.now.categories.held.now }
    ensures { (k : Known) (g : Ground) (m : ℕ) (f : AWord → ScopedWord) (us : Terms ScopedWord) (more : List (Option ℕ)) → Measures k by.now g → AreRead k f m terms.now us words.now more
        → MatchOption result (SaysNoLevel (enabled_in k) g us) (SaysLevel (enabled_in k) g us) }
{
    let behind = behind_word(terms)?;
    let sensitivity = meant(by.sensitivities, meaning_at(words, 0))?;
    let categories = first_value(by, behind, behind_first(words));
    Some(Level {
        sensitivity,
        categories,
    })
}

/// What stands behind a word in front of some terms. None if the first of them is no word.
pub fn behind_word<'t, 'a>(terms: &'t [Term<'a>]) -> Option<&'t [Term<'a>]>
    ensures { (f : AWord → ScopedWord) (m : ℕ) (us : Terms ScopedWord) → AreAlike (all_replaced (λ at. at) f (all_said m terms.now)) us
        → MatchOption result ((w : ScopedWord) (rest : Terms ScopedWord) → us ≡ cons (Leaf w) rest → ⊥) (λ behind. BeginsWithWord f m behind.now us) }
{
    match terms {
        [] => None,
        [first, ..] => {
            if !is_word(first) {
                return None;
            }
            Some(behind_one(terms))
        }
    }
}

/// Whether a term is a word.
pub fn is_word(term: &Term) -> bool
    ensures { (m : ℕ) → result ≡ is_word (said_of m term.now) }
{
    matches!(term, Term::Leaf(_))
}

/// The value of the first of some terms, whose words mean this; no category where there is none.
fn first_value(by: &Scale, terms: &[Term], words: &[Meaning]) -> Categories
    requires count { by.now.categories.count ≤ 1024 }
    requires few { All IsFew by.now.categories.held.now }
    ensures { (k : Known) (g : Ground) (m : ℕ) (f : AWord → ScopedWord) (us : Terms ScopedWord) (more : List (Option ℕ)) → Measures k by.now g → AreRead k f m terms.now us words.now more
        → (c : ℕ) → c < 1024 → in_words result.words c ≡ in_behind (enabled_in k) g us c }
{
    match terms {
        [] => Categories::none(),
        [first, ..] => value(&by.categories, first, words).value,
    }
}

/// The level of a term, whose words mean this: of a form that says one, or of a name. None where it has none. It costs a few steps for
/// each term and takes no memory.
pub fn level_of(by: &Named, term: &Term, words: &[Meaning]) -> Option<Level>
    requires count { by.now.scale.categories.count ≤ 1024 }
    requires few { All IsFew by.now.scale.categories.held.now }
    ensures { (k : Known) (g : Ground) (m : ℕ) (f : AWord → ScopedWord) (u : ATerm ScopedWord) (more : List (Option ℕ)) → Measures k by.now.scale g → HasLevels k by.now.levels.now g
        → IsRead k f m term.now u words.now more → MatchOption result ((l : levels.Level) → IsLevel (enabled_in k) g u l → ⊥) (IsLevel (enabled_in k) g u) }
{
    match term {
        Term::Leaf(_) => meant(by.levels, meaning_at(words, 0)),
        Term::Name(_, _) => None,
        Term::Form(_, _, _) => written_level(&by.scale, term, words),
    }
}

/// The level that a term says itself, and not by a name. None where it says none. It costs a few steps for each term and takes no
/// memory.
pub fn written_level(by: &Scale, term: &Term, words: &[Meaning]) -> Option<Level>
    requires count { by.now.categories.count ≤ 1024 }
    requires few { All IsFew by.now.categories.held.now }
    ensures { (k : Known) (g : Ground) (m : ℕ) (f : AWord → ScopedWord) (u : ATerm ScopedWord) (more : List (Option ℕ)) → Measures k by.now g → IsRead k f m term.now u words.now more
        → MatchOption result ((l : levels.Level) → IsWrittenLevel (enabled_in k) g u l → ⊥) (IsWrittenLevel (enabled_in k) g u) }
{
    match term {
        Term::Leaf(_) => None,
        Term::Name(_, _) => None,
        Term::Form(op, _, parts) => form_level(by, *op, parts.as_slice(), words),
    }
}

/// The level of a form with these parts.
fn form_level(by: &Scale, op: Op, parts: &[Term], words: &[Meaning]) -> Option<Level>
    requires count { by.now.categories.count ≤ 1024 }
    requires few { All IsFew by.now.categories.held.now }
    ensures { (k : Known) (g : Ground) (m : ℕ) (f : AWord → ScopedWord) (us : Terms ScopedWord) (more : List (Option ℕ)) → Measures k by.now g → AreRead k f m parts.now us words.now more
        → MatchOption result ((at : Spot) (l : levels.Level) → IsWrittenLevel (enabled_in k) g (Form at op us) l → ⊥) (λ l. (at : Spot) → IsWrittenLevel (enabled_in k) g (Form at op us) l) }
{
    if !is_level(op) {
        return None;
    }
    said_level(by, parts, words)
}

fn is_level(op: Op) -> bool
    ensures { IsTrue result ↔ (op ≡ ops.Level) }
{
    op == Op::Level
}
