//! The levels of contexts: which label a text has, and whether a user may have levels.

ghost use Rattle.std.specs.Prelude.{◌≡◌, ◌↔◌, ◌<◌, ℕ, List, IfSome, IsSomeAnd, IsTrue, MatchOption};
ghost use Rattle.cil_mls.specs.declared.level.Level as a_level;
ghost use Rattle.cil_mls.specs.Bits.{AreWords};
ghost use Rattle.cil_mls.specs.Dominance.{IsIn, no_level};
ghost use Rattle.cil_mls.specs.LevelTexts.{IsWithout};
ghost use Rattle.cil_labels.specs.LevelTable.{IsCleared, IsLabelOf, PermitsBy};
ghost use Rattle.cil_labels.specs.Sound.{IsOneSound, IsSoundIn, IsSoundText};

use crate::labels::Labels;
use cil_mls::{Categories, Level, Range, parted};

/// What stands in a context behind its user and its role.
#[derive(Clone, Copy, Debug)]
pub struct Label<'t> {
    /// The name of the type.
    pub kind: &'t [u8],
    /// The low level; `Level::none()` where contexts have no levels.
    pub low: Level,
    /// The high level; `Level::none()` where contexts have no levels.
    pub high: Level,
}

impl Labels {
    /// The label that a text is. The SELinux Notebook, "Security Context": the name of a type, and where contexts have levels, a colon
    /// and a range behind it, as `t:s0-s1:c0`. Each category of a level has to be permitted to its sensitivity, and the high level has
    /// to dominate the low one. None if the text has another form, if a name of a level is not there, or if the range is not such a
    /// one. Whether there is such a type is not asked. It takes no memory, and costs two searches by halving for each item of
    /// categories.
    pub fn label_of<'t>(&self, text: &'t [u8]) -> Option<Label<'t>>
        ensures found { IfSome result (λ l. IsLabelOf self.now text.now l.kind.now l.low l.high) }
        ensures only { (kind : List ℕ) (low high : a_level.Level) → IsLabelOf self.now text.now kind low high → IsSomeAnd result (λ l. (l.kind.now ≡ kind) × (l.low ≡ low) × (l.high ≡ high)) }
    {
        if !self.are_on() {
            return plain(text);
        }
        let Some(parts) = parted(text, b':') else {
            return None;
        };
        let Some(range) = sound_range(self, parts.rest) else {
            return None;
        };
        Some(Label {
            kind: parts.first,
            low: range.low,
            high: range.high,
        })
    }

    /// Whether a user may have these levels, by its number: the low one dominates the low level of the user's range, and the high level
    /// of the range dominates the high one. No user without a range may have any.
    pub fn is_cleared(&self, user: usize, low: &Level, high: &Level) -> bool
        ensures { IsTrue result ↔ IsCleared self.now user low.now high.now }
    {
        let Some(range) = self.users().get(user) else {
            return false;
        };
        low.dominates(&range.low) && range.high.dominates(high)
    }
}

/// The label of a text where contexts have no levels: a type alone.
fn plain(text: &[u8]) -> Option<Label<'_>>
    ensures { MatchOption result (IsWithout 58 text.now → ⊥) (λ l. IsWithout 58 text.now × (l.kind.now ≡ text.now) × (l.low ≡ no_level) × (l.high ≡ no_level)) }
{
    match parted(text, b':') {
        Some(_) => None,
        None => Some(Label {
            kind: text,
            low: Level::none(),
            high: Level::none(),
        }),
    }
}

/// The range that a text is, if it is a sound one.
fn sound_range(labels: &Labels, text: &[u8]) -> Option<Range>
    ensures { MatchOption result ((l h : a_level.Level) → IsSoundText labels.now text.now l h → ⊥) (λ r. IsOneSound labels.now text.now r.low r.high) }
{
    let Some(range) = labels.names().parse_range(text) else {
        return None;
    };
    if !is_sound(labels, range) {
        return None;
    }
    Some(range)
}

/// Whether the categories of both levels are permitted, and the high level dominates the low one.
fn is_sound(labels: &Labels, range: Range) -> bool
    ensures low { AreWords range.low.categories.words }
    ensures high { AreWords range.high.categories.words }
    ensures sound { IsTrue result ↔ IsSoundIn labels.now range.low range.high }
{
    // What is known of both levels: their categories are 16 words.
    are_words(range.low.categories);
    are_words(range.high.categories);
    if !permits(labels.permitted(), &range.low) {
        return false;
    }
    if !permits(labels.permitted(), &range.high) {
        return false;
    }
    range.high.dominates(&range.low)
}

/// What is known of each set of categories: it is 16 words, of which each fits into 64 bits.
fn are_words(categories: Categories)
    ensures { AreWords categories.words }
{}

/// Whether the sensitivity of a level permits all its categories. A place of no sensitivity permits none.
fn permits(permitted: &[Categories], level: &Level) -> bool
    ensures { IsTrue result ↔ ((c : ℕ) → c < 1024 → IsIn level.now c → PermitsBy permitted.now level.now.sensitivity c) }
{
    let Some(set) = permitted.get(level.sensitivity as usize) else {
        return Categories::none().include(&level.categories);
    };
    set.include(&level.categories)
}
