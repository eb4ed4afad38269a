//! The range of a term: a low and a high level, or the name of a range.

ghost use Rattle.std.specs.Prelude.{◌≡◌, ◌↔◌, ◌≤◌, ℕ, All, IsTrue, List, MatchOption, Option};
ghost use Rattle.cil_faults.specs.declared.spot.Spot.{Spot};
ghost use Rattle.cil_syntax.specs.declared.term.Op.TheVariants as ops;
ghost use Rattle.cil_syntax.specs.declared.term.Word.{Word as AWord};
ghost use Rattle.cil_syntax.specs.Scopes.{ScopedWord};
ghost use Rattle.cil_syntax.specs.Terms.{Form, Term as ATerm, Terms};
ghost use Rattle.cil_known.specs.declared.known.Known.{Known};
ghost use Rattle.cil_known.specs.Known.{enabled_in};
ghost use Rattle.cil_mls.specs.declared.level.Range as ranges;
ghost use Rattle.cil_mls.specs.Values.{IsFew};
ghost use Rattle.cil_ranges.specs.Levels.{Ground, IsRange, IsWrittenRange, SaysRange};
ghost use Rattle.cil_ranges.specs.Reading.{AreRead, HasLevels, HasRanges, IsRead, Measures};

use crate::level::level_of;
use crate::scale::{Named, Ranged, meant};
use cil_known::meaning_at;
use cil_mls::{Range, value};
use cil_names::Meaning;
use cil_syntax::{Op, Term};

/// The range that some terms say, whose words mean this: a low and a high level. None if they are not two, or one of them has no level.
/// It costs a few steps for each term and takes no memory.
pub fn said_range(by: &Named, terms: &[Term], words: &[Meaning]) -> Option<Range>
    requires count { by.now.scale.categories.count ≤ 1024 }
    requires few { All IsFew by.now.scale.categories.held.now }
    ensures { (k : Known) (g : Ground) (m : ℕ) (f : AWord → ScopedWord) (us : Terms ScopedWord) (more : List (Option ℕ)) → Measures k by.now.scale g → HasLevels k by.now.levels.now g
        → AreRead k f m terms.now us words.now more → MatchOption result ((r : ranges.Range) → SaysRange (enabled_in k) g us r → ⊥) (SaysRange (enabled_in k) g us) }
{
    if terms.len() != 2 {
        return None;
    }
    let low_term = &terms[0];
    let low = level_of(by, low_term, words)?;
    let behind = value(&by.scale.categories, low_term, words).rest;
    let high = level_of(by, &terms[1], behind)?;
    Some(Range { low, high })
}

/// The range of a term, whose words mean this: of a form that says one, or of a name. None where it has none. It costs a few steps for
/// each term and takes no memory.
pub fn range_of(by: &Ranged, term: &Term, words: &[Meaning]) -> Option<Range>
    requires count { by.now.named.scale.categories.count ≤ 1024 }
    requires few { All IsFew by.now.named.scale.categories.held.now }
    ensures { (k : Known) (g : Ground) (m : ℕ) (f : AWord → ScopedWord) (u : ATerm ScopedWord) (more : List (Option ℕ)) → Measures k by.now.named.scale g → HasLevels k by.now.named.levels.now g
        → HasRanges k by.now.ranges.now g → IsRead k f m term.now u words.now more → MatchOption result ((r : ranges.Range) → IsRange (enabled_in k) g u r → ⊥) (IsRange (enabled_in k) g u) }
{
    match term {
        Term::Leaf(_) => meant(by.ranges, meaning_at(words, 0)),
        Term::Name(_, _) => None,
        Term::Form(_, _, _) => written_range(&by.named, term, words),
    }
}

/// The range that a term says itself, and not by a name. None where it says none. It costs a few steps for each term and takes no
/// memory.
pub fn written_range(by: &Named, term: &Term, words: &[Meaning]) -> Option<Range>
    requires count { by.now.scale.categories.count ≤ 1024 }
    requires few { All IsFew by.now.scale.categories.held.now }
    ensures { (k : Known) (g : Ground) (m : ℕ) (f : AWord → ScopedWord) (u : ATerm ScopedWord) (more : List (Option ℕ)) → Measures k by.now.scale g → HasLevels k by.now.levels.now g
        → IsRead k f m term.now u words.now more → MatchOption result ((r : ranges.Range) → IsWrittenRange (enabled_in k) g u r → ⊥) (IsWrittenRange (enabled_in k) g u) }
{
    match term {
        Term::Leaf(_) => None,
        Term::Name(_, _) => None,
        Term::Form(op, _, parts) => form_range(by, *op, parts.as_slice(), words),
    }
}

/// The range of a form with these parts.
fn form_range(by: &Named, op: Op, parts: &[Term], words: &[Meaning]) -> Option<Range>
    requires count { by.now.scale.categories.count ≤ 1024 }
    requires few { All IsFew by.now.scale.categories.held.now }
    ensures { (k : Known) (g : Ground) (m : ℕ) (f : AWord → ScopedWord) (us : Terms ScopedWord) (more : List (Option ℕ)) → Measures k by.now.scale g → HasLevels k by.now.levels.now g
        → AreRead k f m parts.now us words.now more
        → MatchOption result ((at : Spot) (r : ranges.Range) → IsWrittenRange (enabled_in k) g (Form at op us) r → ⊥) (λ r. (at : Spot) → IsWrittenRange (enabled_in k) g (Form at op us) r) }
{
    if !is_range(op) {
        return None;
    }
    said_range(by, parts, words)
}

fn is_range(op: Op) -> bool
    ensures { IsTrue result ↔ (op ≡ ops.LevelRange) }
{
    op == Op::LevelRange
}
