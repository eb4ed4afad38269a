//! Levels and ranges, read from text.

ghost use Rattle.std.specs.Prelude.{◌↔◌, ◌<◌, ◌≤◌, ℕ, IsTrue, MatchOption};
ghost use Rattle.std.specs.Bool.{MatchBool};
ghost use Rattle.cil_mls.specs.declared.level.Level as a_level;
ghost use Rattle.cil_mls.specs.LevelTexts.{AreItems, IsItem, IsLevelText, IsRangeText};
ghost use Rattle.cil_mls.specs.Names.{AreNames, IsNamed};
ghost use Rattle.cil_mls.specs.Reading.{AreJust, GainsItem, IsNoItem};

use crate::categories::Categories;
use crate::level::{Level, Range};
use crate::named::{Named, place_of};
use crate::parts::parted;

/// The range that a text is.
pub fn range_in(sensitivities: &[Named], categories: &[Named], text: &[u8]) -> Option<Range>
    requires sensitivities { AreNames 256 sensitivities.now }
    requires categories { AreNames 1024 categories.now }
    ensures { MatchOption result ((l h : a_level.Level) → IsRangeText (IsNamed sensitivities.now) (IsNamed categories.now) text.now l h → ⊥)
        (λ r. IsRangeText (IsNamed sensitivities.now) (IsNamed categories.now) text.now r.low r.high) }
{
    match parted(text, b'-') {
        None => {
            let level = level_in(sensitivities, categories, text)?;
            Some(Range {
                low: level,
                high: level,
            })
        }
        Some(parts) => {
            let low = level_in(sensitivities, categories, parts.first)?;
            let high = level_in(sensitivities, categories, parts.rest)?;
            Some(Range { low, high })
        }
    }
}

/// The level that a text is.
pub fn level_in(sensitivities: &[Named], categories: &[Named], text: &[u8]) -> Option<Level>
    requires sensitivities { AreNames 256 sensitivities.now }
    requires categories { AreNames 1024 categories.now }
    ensures { MatchOption result ((l : a_level.Level) → IsLevelText (IsNamed sensitivities.now) (IsNamed categories.now) text.now l → ⊥)
        (IsLevelText (IsNamed sensitivities.now) (IsNamed categories.now) text.now) }
{
    match parted(text, b':') {
        None => {
            let sensitivity = sensitivity_of(sensitivities, text)?;
            Some(Level {
                sensitivity,
                categories: Categories::none(),
            })
        }
        Some(parts) => {
            let sensitivity = sensitivity_of(sensitivities, parts.first)?;
            let categories = categories_of(categories, parts.rest)?;
            Some(Level {
                sensitivity,
                categories,
            })
        }
    }
}

/// The place of a sensitivity.
fn sensitivity_of(names: &[Named], name: &[u8]) -> Option<u16>
    requires { AreNames 256 names.now }
    ensures { MatchOption result ((n : ℕ) → IsNamed names.now name.now n → ⊥) (IsNamed names.now name.now) }
{
    let place = place_of(names, name)?;
    Some(place as u16)
}

/// The categories of some items.
fn categories_of(names: &[Named], items: &[u8]) -> Option<Categories>
    requires { AreNames 1024 names.now }
    ensures { MatchOption result (AreItems (IsNamed names.now) items.now → ⊥) (λ cs. AreJust (IsNamed names.now) items.now cs.words) }
{
    let mut categories = Categories::none();
    let mut rest = items;
    while let Some(parts) = parted(rest, b',') {
        if !add_item(names, &mut categories, parts.first) {
            return None;
        }
        rest = parts.rest;
    }
    if add_item(names, &mut categories, rest) {
        Some(categories)
    } else {
        None
    }
}

/// Adds the categories of a text, if it is an item.
fn add_item(names: &[Named], categories: &mut Categories, item: &[u8]) -> bool
    requires { AreNames 1024 names.now }
    ensures { MatchBool result (GainsItem (IsNamed names.now) categories.old.words categories.new.words item.now) (IsNoItem (IsNamed names.now) item.now) }
{
    let Some(span) = span_of(names, item) else {
        return false;
    };
    categories.add_between(span.first, span.last);
    true
}

/// The first and the last category of an item.
#[derive(Clone, Copy)]
struct Span {
    first: usize,
    last: usize,
}

/// The first and the last category of an item.
fn span_of(names: &[Named], item: &[u8]) -> Option<Span>
    requires { AreNames 1024 names.now }
    ensures { MatchOption result (IsNoItem (IsNamed names.now) item.now) (λ s. IsItem (IsNamed names.now) item.now s.first s.last × (s.last < 1024)) }
{
    match parted(item, b'.') {
        None => {
            let only = place_of(names, item)?;
            Some(Span {
                first: only,
                last: only,
            })
        }
        Some(parts) => {
            let first = place_of(names, parts.first)?;
            let last = place_of(names, parts.rest)?;
            if is_upwards(first, last) {
                Some(Span { first, last })
            } else {
                None
            }
        }
    }
}

/// Whether a span is from one category to the same or a later one.
fn is_upwards(first: usize, last: usize) -> bool
    ensures { IsTrue result ↔ (first ≤ last) }
{
    first <= last
}
