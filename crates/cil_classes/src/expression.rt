//! Whether a permission of a class is in the value of an expression, by the numbers of its words: the places of permissions
//! among those of the class. The numbers were found once, when the table of words was filled.

ghost use Rattle.std.specs.Prelude.{◌≡◌, ◌&&◌, ◌||◌, ℕ, List, None, get_or};
ghost use Rattle.std.specs.List.Sorted.{IsStrictlySortedBy};
ghost use Rattle.cil_base.specs.Lists.{text_cmp};
ghost use Rattle.cil_syntax.specs.Expressions.{differ};
ghost use Rattle.cil_syntax.specs.declared.term.Word.{Word as AWord};
ghost use Rattle.cil_syntax.specs.Said.{all_said, said_of};
ghost use Rattle.cil_syntax.specs.Scopes.{ScopedWord};
ghost use Rattle.cil_macros.specs.Item.{all_words_in, words_in};
ghost use Rattle.cil_names.specs.Unresolved.{term_with, terms_with};
ghost use Rattle.cil_classes.specs.Numbers.{AreNumbered, IsHeld, IsTally, combined_of, is_number};

use cil_known::{behind_word, meaning_at};
use cil_names::Meaning;
use cil_syntax::{Op, Term};

/// How many of some operands have a permission in their values: some, each, an odd number of them.
#[derive(Clone, Copy)]
struct Tally {
    some: bool,
    each: bool,
    odd: bool,
}

/// Whether the permission of a number is in the value of an expression, by numbers that begin with those of its words.
/// Each word costs a step.
#[cycle(holds)]
pub fn holds(term: &Term, words: &[Meaning], number: usize) -> bool
    ensures { (f : AWord → ScopedWord) (m : ℕ) (permissions : List (List ℕ)) → IsStrictlySortedBy text_cmp permissions → AreNumbered permissions f (words_in (said_of m term.now)) words.now
        → IsHeld permissions number (term_with f m term.now) result }
{
    match term {
        Term::Leaf(_) => is_same(meaning_at(words, 0), number),
        Term::Name(_, _) => false,
        Term::Form(op, _, parts) => combined(*op, tallied(parts.as_slice(), words, number)),
    }
}

/// This number is wanted.
fn is_same(first: Option<usize>, number: usize) -> bool
    ensures { result ≡ is_number number first }
{
    match first {
        Some(first) => first == number,
        None => false,
    }
}

/// Goes over the operands, each with the numbers behind those of the one before.
#[cycle(holds)]
fn tallied(parts: &[Term], words: &[Meaning], number: usize) -> Tally
    ensures { (f : AWord → ScopedWord) (m : ℕ) (permissions : List (List ℕ)) → IsStrictlySortedBy text_cmp permissions → AreNumbered permissions f (all_words_in (all_said m parts.now)) words.now
        → IsTally permissions number (terms_with f m parts.now) result.some result.each result.odd }
{
    let mut all = Tally {
        some: false,
        each: true,
        odd: false,
    };
    let mut rest = words;
    for part in parts {
        all = with(all, holds(part, rest, number));
        rest = behind_word(rest, part);
    }
    all
}

/// One operand more.
fn with(all: Tally, has: bool) -> Tally
    ensures some { result.some ≡ (all.some || has) }
    ensures each { result.each ≡ (all.each && has) }
    ensures odd { result.odd ≡ differ all.odd has }
{
    Tally {
        some: all.some || has,
        each: all.each && has,
        odd: all.odd != has,
    }
}

/// What an operator makes of its operands.
fn combined(op: Op, all: Tally) -> bool
    ensures { result ≡ combined_of op all.some all.each all.odd }
{
    match op {
        Op::All => true,
        Op::Not => !all.some,
        Op::And => all.each,
        Op::Xor => all.odd,
        Op::Range => false,
        _ => all.some,
    }
}
