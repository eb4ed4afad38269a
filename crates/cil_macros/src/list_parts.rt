//! Arguments that are lists, part by part, as their parameters ask: each word as it is written, with the sign that it has there. That an
//! argument has the form of its kind was asked before (`list_arguments.rt`), so of other forms nothing counts. Costs a step for each
//! part.

ghost use Rattle.std.specs.Prelude.{◌≡◌, ◌&&◌, IfOk, None, OnOk, ℕ, codes, drop};
ghost use Rattle.cil_faults.specs.declared.spot.Spot.{Spot as ASpot};
ghost use Rattle.cil_faults.specs.Spots.{spot_at};
ghost use Rattle.cil_syntax.specs.declared.kind.Language.TheVariants as languages;
ghost use Rattle.cil_syntax.specs.declared.kind.Sign.TheVariants as signs;
ghost use Rattle.cil_syntax.specs.Readings.{read_expression};
ghost use Rattle.cil_syntax.specs.Said.{all_said, said_of};
ghost use Rattle.cil_syntax.specs.Shapes.{close, counted, item, looked_up, many, set_of};
ghost use Rattle.cil_syntax.specs.Spelling.{same_bytes};
ghost use Rattle.cil_syntax.specs.Table.{level};
ghost use Rattle.cil_macros.specs.Fits.{all_read_as, read_as};
ghost use Rattle.cil_macros.specs.ListForms.{kept_cells, two_code};
ghost use Rattle.cil_macros.specs.Parameters.{argument_kind, read_argument, sound};
ghost use Rattle.cil_macros.specs.Puts.{AsksInside, AsksTerm, AsksTerms, IsJoinedBy, is_of_sets, list_cell};

use crate::list_arguments::{SetHead, set_head, word_in_front};
use crate::listed::{Part, push_part};
use crate::placed_word::PlacedWord;
use cil_base::NoMemory;
use cil_syntax::{Excerpt, LookedUp, Op, Sign, Spot, Term, Word};

/// Whether a word is the set of everything.
fn is_all(word: &[u8]) -> bool
    ensures { result ≡ same_bytes word.now (codes "all") }
{
    word == b"all".as_slice()
}

/// The operator of two operands that a word is: and, or, or xor.
fn two_op(word: &[u8]) -> Op
    ensures { result ≡ two_code (same_bytes word.now (codes "and")) (same_bytes word.now (codes "or")) }
{
    if word == b"and".as_slice() {
        return Op::And;
    }
    if word == b"or".as_slice() {
        return Op::Or;
    }
    Op::Xor
}

/// What joins the items of a set over words of a sign.
fn set_op(sign: Sign, items: &[Term]) -> Op
    ensures { (n : ℕ) (at : ASpot) → IsJoinedBy at (sound (read_expression at (languages.Sets sign) (kept_cells n items.now))) result }
{
    let Some(word) = word_in_front(items) else {
        return Op::Union;
    };
    match set_head(sign, word) {
        SetHead::One => Op::Not,
        SetHead::Two => two_op(word),
        SetHead::Range => Op::Range,
        SetHead::Union => Op::Union,
    }
}

/// Whether an argument of a kind is the set of everything.
pub(crate) fn is_every(kind: Op, word: &[u8]) -> bool
    ensures { result ≡ (is_of_sets kind && same_bytes word.now (codes "all")) }
{
    matches!(kind, Op::CategorySetKind) && is_all(word)
}

/// Adds a word of a sign.
fn push_word<'a>(
    parts: &mut Vec<Part<'a>>,
    module: u64,
    sign: Sign,
    argument: &Term<'a>,
) -> Result<(), NoMemory>
    ensures { OnOk result (AsksTerm (read_as (looked_up sign) (said_of «module» argument.now)) parts.old.items parts.new.items) }
{
    match argument {
        Term::Leaf(word) => push_part(parts, Part::Word(written_word(module, sign, word))),
        Term::Name(_, _) => Ok(()),
        Term::Form(_, _, _) => Ok(()),
    }
}

/// A word as it is written, which wants what this sign does.
pub(crate) fn written_word<'a>(module: u64, sign: Sign, word: &LookedUp<'a>) -> PlacedWord<'a>
    ensures { result ≡ record { word = record { at = spot_at «module» word.now.at; bytes = word.now.bytes; sign = sign }; scope = None } }
{
    PlacedWord {
        word: Word {
            at: Spot::of(module, word.at),
            bytes: Excerpt::of(word.bytes.as_slice()),
            sign,
        },
        scope: None,
    }
}

/// Adds the words of a sign behind so many items.
fn push_words<'a>(
    parts: &mut Vec<Part<'a>>,
    module: u64,
    sign: Sign,
    items: &[Term<'a>],
    skipped: usize,
) -> Result<(), NoMemory>
    ensures { OnOk result (AsksTerms (all_read_as (many (looked_up sign)) (all_said «module» (drop skipped items.now))) parts.old.items parts.new.items) }
{
    for index in skipped..items.len() {
        push_word(parts, module, sign, &items[index])?;
    }
    Ok(())
}

/// Adds a set over words of a sign.
#[cycle(sets)]
fn push_set<'a>(
    parts: &mut Vec<Part<'a>>,
    module: u64,
    sign: Sign,
    argument: &Term<'a>,
) -> Result<(), NoMemory>
    ensures { OnOk result (AsksTerm (read_as (set_of sign) (said_of «module» argument.now)) parts.old.items parts.new.items) }
{
    match argument {
        Term::Leaf(word) => {
            if is_all(word.bytes.as_slice()) {
                push_part(parts, Part::Opens(Spot::of(module, word.at), Op::All))?;
                return push_part(parts, Part::Closes);
            }
            push_word(parts, module, sign, argument)
        }
        Term::Name(_, _) => Ok(()),
        Term::Form(_, at, items) => {
            let op = set_op(sign, items.as_slice());
            push_part(parts, Part::Opens(Spot::of(module, *at), op))?;
            push_set_items(parts, module, sign, items.as_slice())?;
            push_part(parts, Part::Closes)
        }
    }
}

/// Adds what a set joins, by the word in front.
#[cycle(sets)]
fn push_set_items<'a>(
    parts: &mut Vec<Part<'a>>,
    module: u64,
    sign: Sign,
    items: &[Term<'a>],
) -> Result<(), NoMemory>
    ensures { OnOk result ((at : ASpot) → AsksInside (sound (read_expression at (languages.Sets sign) (kept_cells «module» items.now)))
        parts.old.items parts.new.items) }
{
    let Some(word) = word_in_front(items) else {
        return push_sets(parts, module, sign, items, 0);
    };
    match set_head(sign, word) {
        SetHead::One => push_sets(parts, module, sign, items, 1),
        SetHead::Two => push_sets(parts, module, sign, items, 1),
        SetHead::Range => push_words(parts, module, Sign::Categories, items, 1),
        SetHead::Union => push_sets(parts, module, sign, items, 0),
    }
}

/// Adds the sets behind so many items.
#[cycle(sets)]
fn push_sets<'a>(
    parts: &mut Vec<Part<'a>>,
    module: u64,
    sign: Sign,
    items: &[Term<'a>],
    skipped: usize,
) -> Result<(), NoMemory>
    ensures { OnOk result (AsksTerms (all_read_as (many (set_of sign)) (all_said «module» (drop skipped items.now))) parts.old.items parts.new.items) }
{
    for index in skipped..items.len() {
        push_set(parts, module, sign, &items[index])?;
    }
    Ok(())
}

// ---- class permissions, levels and ranges

/// Adds a class and a set of its permissions.
fn push_class_items<'a>(
    parts: &mut Vec<Part<'a>>,
    module: u64,
    items: &[Term<'a>],
) -> Result<(), NoMemory>
    ensures { OnOk result (AsksTerms
        (all_read_as (item (looked_up signs.Classes) (item (set_of signs.Permission) close)) (all_said «module» items.now)) parts.old.items parts.new.items) }
{
    if items.len() != 2 {
        return Ok(());
    }
    push_word(parts, module, Sign::Classes, &items[0])?;
    push_set(parts, module, Sign::Permission, &items[1])?;
    Ok(())
}

/// Adds a level: its name, or a sensitivity with its categories if it has some.
fn push_level<'a>(
    parts: &mut Vec<Part<'a>>,
    module: u64,
    argument: &Term<'a>,
) -> Result<(), NoMemory>
    ensures { OnOk result (AsksTerm (read_as level (said_of «module» argument.now)) parts.old.items parts.new.items) }
{
    match argument {
        Term::Leaf(_) => push_word(parts, module, Sign::Levels, argument),
        Term::Name(_, _) => Ok(()),
        Term::Form(_, at, items) => {
            push_part(parts, Part::Opens(Spot::of(module, *at), Op::Level))?;
            push_level_items(parts, module, items.as_slice())?;
            push_part(parts, Part::Closes)
        }
    }
}

/// Adds a sensitivity, and its categories if there are more items.
fn push_level_items<'a>(
    parts: &mut Vec<Part<'a>>,
    module: u64,
    items: &[Term<'a>],
) -> Result<(), NoMemory>
    ensures { OnOk result (AsksTerms
        (all_read_as (counted 1 (item (looked_up signs.Sensitivities) close) (item (looked_up signs.Sensitivities) (item (set_of signs.CategorySets) close))) (all_said «module» items.now))
        parts.old.items parts.new.items) }
{
    if items.len() == 1 {
        push_word(parts, module, Sign::Sensitivities, &items[0])?;
        return Ok(());
    }
    if items.len() != 2 {
        return Ok(());
    }
    push_word(parts, module, Sign::Sensitivities, &items[0])?;
    push_set(parts, module, Sign::CategorySets, &items[1])?;
    Ok(())
}

/// Adds two levels.
fn push_range_items<'a>(
    parts: &mut Vec<Part<'a>>,
    module: u64,
    items: &[Term<'a>],
) -> Result<(), NoMemory>
    ensures { OnOk result (AsksTerms (all_read_as (item level (item level close)) (all_said «module» items.now)) parts.old.items parts.new.items) }
{
    if items.len() != 2 {
        return Ok(());
    }
    push_level(parts, module, &items[0])?;
    push_level(parts, module, &items[1])?;
    Ok(())
}

/// Adds the items of a list that is an argument of a kind, and gives what joins them.
pub(crate) fn push_items<'a>(
    parts: &mut Vec<Part<'a>>,
    module: u64,
    kind: Op,
    items: &[Term<'a>],
) -> Result<Op, NoMemory>
    ensures joined { IfOk result (λ op. (at : ASpot) → IsJoinedBy at (read_argument (argument_kind kind) (list_cell «module» at items.now)) op) }
    ensures parts { OnOk result ((at : ASpot) → AsksInside (read_argument (argument_kind kind) (list_cell «module» at items.now)) parts.old.items parts.new.items) }
{
    match kind {
        Op::ClassPermissionKind => {
            push_class_items(parts, module, items)?;
            Ok(Op::ClassPermissions)
        }
        Op::CategorySetKind => {
            push_set_items(parts, module, Sign::CategorySets, items)?;
            Ok(set_op(Sign::CategorySets, items))
        }
        Op::LevelKind => {
            push_level_items(parts, module, items)?;
            Ok(Op::Level)
        }
        Op::LevelRangeKind => {
            push_range_items(parts, module, items)?;
            Ok(Op::LevelRange)
        }
        _ => Ok(Op::Listed),
    }
}
