//! What one statement gives a user.

ghost use Rattle.std.specs.Prelude.{◌≡◌, ◌≤◌, ◌<◌, ℕ, All, IfOk, List, MatchOption, Option, length, map, true};
ghost use Rattle.cil_syntax.specs.declared.kind.Kind as kinds;
ghost use Rattle.cil_syntax.specs.declared.kind.Keyword.TheVariants as keywords;
ghost use Rattle.cil_syntax.specs.declared.term.Word.{Word as AWord};
ghost use Rattle.cil_syntax.specs.Scopes.{ScopedWord};
ghost use Rattle.cil_syntax.specs.Terms.{Terms};
ghost use Rattle.cil_macros.specs.Items.{item_at, items_in};
ghost use Rattle.cil_names.specs.Rows.{IsTableOf};
ghost use Rattle.cil_known.specs.declared.known.Known as a_known;
ghost use Rattle.cil_known.specs.Known.{IsKnown, row_in};
ghost use Rattle.cil_mls.specs.Values.{IsFew};
ghost use Rattle.cil_ranges.specs.declared.giving.Giving as givings;
ghost use Rattle.cil_ranges.specs.Given.{IsGivenThere, IsGiving, IsSaidGiving, IsUserEntry, IsUserWithin, ReadsRanges};
ghost use Rattle.cil_ranges.specs.Levels.{Ground};
ghost use Rattle.cil_ranges.specs.Reading.{AreRead};

use crate::level::is_word;
use crate::range::range_of;
use crate::said::plain_terms;
use crate::scale::Ranged;
use cil_base::NoMemory;
use cil_known::{Known, behind_first, meaning_at};
use cil_macros::Instances;
use cil_mls::Range;
use cil_names::{Meaning, laws, same_keyword, same_kind};
use cil_syntax::{Keyword, Kind, Term};
use std::alloc::Global;

/// A range that a statement gives a user.
#[derive(Clone, Copy)]
pub struct Giving {
    /// The entry of the user.
    pub user: usize,
    /// The range.
    pub range: Range,
}

/// What the statement at a place gives, if it is an enabled `userrange` statement. It costs a few steps for each term. Error: out of
/// memory, which is also the answer where it has permissions of a class in it.
pub fn giving_at(
    alloc: Global,
    instances: &Instances,
    known: &Known,
    by: &Ranged,
    at: usize,
) -> Result<Option<Giving>, NoMemory>
    requires table { IsTableOf (map (row_in known.now) (items_in instances.now)) known.now.words.now }
    requires known { (sections : kinds.Kind → List (List ℕ)) × IsKnown known.now (items_in instances.now) sections }
    requires within { at < length (items_in instances.now) }
    requires count { by.now.named.scale.categories.count ≤ 1024 }
    requires few { All IsFew by.now.named.scale.categories.held.now }
    ensures there { IfOk result (IsGivenThere known.now (item_at instances.now at)) }
    ensures gives { IfOk result (λ giving. (g : Ground) → g.items ≡ items_in instances.now → ReadsRanges known.now by.now g → IsGiving known.now g (item_at instances.now at) giving) }
{
    // What is known of a word: it means the entry that it names.
    laws::means_what_it_names();
    if !same_keyword(instances.statement_there(at).keyword, Keyword::UserRange) {
        return Ok(None);
    }
    if !known.is_enabled(instances, at) {
        return Ok(None);
    }
    let terms = plain_terms(alloc, instances, known, at)?;
    Ok(giving_said(known, by, terms.as_slice(), known.words.row(at)))
}

/// What terms give, whose words mean this: a word for a user, and a range.
fn giving_said(known: &Known, by: &Ranged, terms: &[Term], words: &[Meaning]) -> Option<Giving>
    requires count { by.now.named.scale.categories.count ≤ 1024 }
    requires few { All IsFew by.now.named.scale.categories.held.now }
    ensures within { IsUserWithin known.now result }
    ensures says { (g : Ground) (m : ℕ) (f : AWord → ScopedWord) (us : Terms ScopedWord) (more : List (Option ℕ)) → ReadsRanges known.now by.now g → AreRead known.now f m terms.now us words.now more
        → IsSaidGiving known.now g us result }
{
    if terms.len() != 2 {
        return None;
    }
    if !is_word(&terms[0]) {
        return None;
    }
    let user = user_meant(known, meaning_at(words, 0))?;
    let range = range_of(by, &terms[1], behind_first(words))?;
    Some(Giving { user, range })
}

/// The entry of the user that a word of this meaning names, if it names one.
fn user_meant(known: &Known, meaning: Option<usize>) -> Option<usize>
    ensures within { MatchOption result (Unit {0}) (λ d. d < length known.now.lookup.names.now) }
    ensures user { MatchOption result ((d : ℕ) → IsUserEntry known.now meaning d → ⊥) (IsUserEntry known.now meaning) }
{
    let number = meaning?;
    let entry = known.lookup.names.entries().get(number)?;
    if !same_kind(entry.kind, Kind::User) {
        return None;
    }
    Some(number)
}
