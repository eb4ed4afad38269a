//! Whether arguments of the kinds whose arguments may be lists have the form of their kind. A list was kept unread, and nests at most
//! as deep as lists do. Costs a step for each item.

ghost use Rattle.std.specs.Prelude.{◌≡◌, ◌&&◌, ◌||◌, ℕ, MatchOption, [], codes, drop, is_some};
ghost use Rattle.cil_faults.specs.declared.spot.Spot.{Spot as ASpot};
ghost use Rattle.cil_syntax.specs.declared.kind.Language.TheVariants as languages;
ghost use Rattle.cil_syntax.specs.declared.kind.Sign.TheVariants as signs;
ghost use Rattle.cil_syntax.specs.Heads.{first_words, has_ranges};
ghost use Rattle.cil_syntax.specs.Readings.{read_expression};
ghost use Rattle.cil_syntax.specs.Said.{all_said, said_of};
ghost use Rattle.cil_syntax.specs.Shapes.{close, counted, item, looked_up, many, set_of};
ghost use Rattle.cil_syntax.specs.Spelling.{same_bytes};
ghost use Rattle.cil_syntax.specs.Table.{class_permission, level, range};
ghost use Rattle.cil_macros.specs.Fits.{are_read_as, is_read_as, is_sound_word};
ghost use Rattle.cil_macros.specs.ListForms.{StartsWith, head_code, kept_cells};
ghost use Rattle.cil_macros.specs.Parameters.{sound};

use crate::arguments::{is_sound, is_text_op, is_word};
use cil_syntax::{Sign, Term};

/// What the list of a set says by the word in front.
#[derive(Clone, Copy)]
pub enum SetHead {
    /// An operator with one operand.
    One,
    /// An operator with two operands.
    Two,
    /// From one category to another.
    Range,
    /// No operator: the union of what is in the list.
    Union,
}

/// Whether an argument is a class permission: its name, or a class and a set of its permissions.
pub(crate) fn is_class_permission(argument: &Term) -> bool
    ensures { (n : ℕ) → result ≡ is_read_as class_permission (said_of n argument.now) }
{
    match argument {
        Term::Leaf(word) => is_sound(Sign::ClassPermissions, word.bytes.as_slice()),
        Term::Name(_, _) => false,
        Term::Form(op, _, items) => {
            if is_text_op(*op) {
                return false;
            }
            is_class_list(items.as_slice())
        }
    }
}

/// Whether the items of a list are a class and a set of its permissions.
fn is_class_list(items: &[Term]) -> bool
    ensures { (n : ℕ) → result ≡ are_read_as (item (looked_up signs.Classes) (item (set_of signs.Permission) close)) (all_said n items.now) }
{
    if items.len() != 2 {
        return false;
    }
    if !is_word(Sign::Classes, &items[0]) {
        return false;
    }
    is_set(Sign::Permission, &items[1])
}

/// Whether an argument is a level: its name, or a sensitivity with its categories if it has some.
pub(crate) fn is_level(argument: &Term) -> bool
    ensures { (n : ℕ) → result ≡ is_read_as level (said_of n argument.now) }
{
    match argument {
        Term::Leaf(word) => is_sound(Sign::Levels, word.bytes.as_slice()),
        Term::Name(_, _) => false,
        Term::Form(op, _, items) => {
            if is_text_op(*op) {
                return false;
            }
            is_level_list(items.as_slice())
        }
    }
}

/// Whether the items of a list are a sensitivity, and its categories if there are more.
fn is_level_list(items: &[Term]) -> bool
    ensures { (n : ℕ) → result ≡ are_read_as (counted 1 (item (looked_up signs.Sensitivities) close)
        (item (looked_up signs.Sensitivities) (item (set_of signs.CategorySets) close))) (all_said n items.now) }
{
    if items.len() == 1 {
        return is_word(Sign::Sensitivities, &items[0]);
    }
    if items.len() != 2 {
        return false;
    }
    if !is_word(Sign::Sensitivities, &items[0]) {
        return false;
    }
    is_set(Sign::CategorySets, &items[1])
}

/// Whether an argument is a range of levels: its name, or a low and a high level.
pub(crate) fn is_range(argument: &Term) -> bool
    ensures { (n : ℕ) → result ≡ is_read_as range (said_of n argument.now) }
{
    match argument {
        Term::Leaf(word) => is_sound(Sign::LevelRanges, word.bytes.as_slice()),
        Term::Name(_, _) => false,
        Term::Form(op, _, items) => {
            if is_text_op(*op) {
                return false;
            }
            is_range_list(items.as_slice())
        }
    }
}

/// Whether the items of a list are two levels.
fn is_range_list(items: &[Term]) -> bool
    ensures { (n : ℕ) → result ≡ are_read_as (item level (item level close)) (all_said n items.now) }
{
    if items.len() != 2 {
        return false;
    }
    if !is_level(&items[0]) {
        return false;
    }
    is_level(&items[1])
}

// ---- sets

/// Whether an argument is a set expression over words of a sign.
#[cycle(sets)]
pub(crate) fn is_set(sign: Sign, argument: &Term) -> bool
    ensures { (n : ℕ) → result ≡ is_read_as (set_of sign) (said_of n argument.now) }
{
    match argument {
        Term::Leaf(word) => is_set_word(sign, word.bytes.as_slice()),
        Term::Name(_, _) => false,
        Term::Form(op, _, items) => {
            if is_text_op(*op) {
                return false;
            }
            is_set_list(sign, items.as_slice())
        }
    }
}

/// The same of a list, by the word in front.
#[cycle(sets)]
fn is_set_list(sign: Sign, items: &[Term]) -> bool
    ensures { (n : ℕ) (at : ASpot) → result ≡ is_some (sound (read_expression at (languages.Sets sign) (kept_cells n items.now))) }
{
    let Some(word) = word_in_front(items) else {
        return are_sets(sign, items, 0);
    };
    match set_head(sign, word) {
        SetHead::One => {
            if items.len() != 2 {
                return false;
            }
            are_sets(sign, items, 1)
        }
        SetHead::Two => {
            if items.len() != 3 {
                return false;
            }
            are_sets(sign, items, 1)
        }
        SetHead::Range => {
            if items.len() != 3 {
                return false;
            }
            are_words(Sign::Categories, items, 1)
        }
        SetHead::Union => are_sets(sign, items, 0),
    }
}

/// Whether each of the items behind so many is a set expression.
#[cycle(sets)]
fn are_sets(sign: Sign, items: &[Term], skipped: usize) -> bool
    ensures { (n : ℕ) → result ≡ are_read_as (many (set_of sign)) (all_said n (drop skipped items.now)) }
{
    for index in skipped..items.len() {
        if !is_set(sign, &items[index]) {
            return false;
        }
    }
    true
}

/// Whether each of the items behind so many is a word that may be looked up.
fn are_words(sign: Sign, items: &[Term], skipped: usize) -> bool
    ensures { (n : ℕ) → result ≡ are_read_as (many (looked_up sign)) (all_said n (drop skipped items.now)) }
{
    for index in skipped..items.len() {
        if !is_word(sign, &items[index]) {
            return false;
        }
    }
    true
}

/// Whether a word is a set by itself: all, or a name.
fn is_set_word(sign: Sign, word: &[u8]) -> bool
    ensures { result ≡ (same_bytes word.now (codes "all") || is_sound_word sign word.now) }
{
    word == b"all".as_slice() || is_sound(sign, word)
}

/// The word in front of some items, if one is there.
pub(crate) fn word_in_front<'t>(items: &'t [Term]) -> Option<&'t [u8]>
    ensures { (n : ℕ) → MatchOption result (first_words (kept_cells n items.now) ≡ []) (λ w. StartsWith w.now (first_words (kept_cells n items.now))) }
{
    match items {
        [] => None,
        [first, ..] => match first {
            Term::Leaf(word) => Some(word.bytes.as_slice()),
            Term::Name(_, _) => None,
            Term::Form(_, _, _) => None,
        },
    }
}

/// What the list of a set over words of a sign says that begins with a word.
pub(crate) fn set_head(sign: Sign, word: &[u8]) -> SetHead
    ensures { result ≡ head_code (same_bytes word.now (codes "not")) ((same_bytes word.now (codes "and") || same_bytes word.now (codes "or")) || same_bytes word.now (codes "xor"))
        (has_ranges sign && same_bytes word.now (codes "range")) }
{
    if has_one_operand(word) {
        return SetHead::One;
    }
    if has_two_operands(word) {
        return SetHead::Two;
    }
    if begins_range(sign, word) {
        return SetHead::Range;
    }
    SetHead::Union
}

fn has_one_operand(word: &[u8]) -> bool
    ensures { result ≡ same_bytes word.now (codes "not") }
{
    word == b"not".as_slice()
}

fn has_two_operands(word: &[u8]) -> bool
    ensures { result ≡ ((same_bytes word.now (codes "and") || same_bytes word.now (codes "or")) || same_bytes word.now (codes "xor")) }
{
    word == b"and".as_slice() || word == b"or".as_slice() || word == b"xor".as_slice()
}

fn begins_range(sign: Sign, word: &[u8]) -> bool
    ensures { result ≡ (has_ranges sign && same_bytes word.now (codes "range")) }
{
    matches!(sign, Sign::CategorySets) && word == b"range".as_slice()
}
