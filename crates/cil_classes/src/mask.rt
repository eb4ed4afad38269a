//! Masks of the permissions in the value of an expression.

ghost use Rattle.std.specs.Prelude.{◌≡◌, ◌↔◌, ◌<◌, ◌≤◌, ℕ, Contains, IfSome, IsBitSet, IsTrue, List, None, Option, Some, false, length, take, true};
ghost use Rattle.std.specs.List.Sorted.{IsStrictlySortedBy};
ghost use Rattle.cil_base.specs.Lists.{text_cmp};
ghost use Rattle.cil_syntax.specs.declared.term.Word.{Word as AWord};
ghost use Rattle.cil_syntax.specs.declared.term.Op.TheVariants as ops;
ghost use Rattle.cil_syntax.specs.Forms.{leaf_of};
ghost use Rattle.cil_syntax.specs.Said.{said_of};
ghost use Rattle.cil_syntax.specs.Scopes.{ScopedWord};
ghost use Rattle.cil_macros.specs.Item.{words_in};
ghost use Rattle.cil_names.specs.Unresolved.{term_with};
ghost use Rattle.cil_classes.specs.Masks.{AreLeaves, IsLeaf, IsMaskOf, IsPlain};
ghost use Rattle.cil_classes.specs.Numbers.{AreNumbered};
ghost use Rattle.cil_classes.specs.Row.{most_permissions};

use crate::expression::holds;
use cil_names::Meaning;
use cil_syntax::{Op, Term};

/// The mask of those of some permissions that are in the value of an expression, by numbers that begin with those of its
/// words. A list of words costs a step for each; another expression one for each word and permission.
pub fn mask_of(term: &Term, words: &[Meaning], count: usize) -> u32
    requires { count ≤ most_permissions }
    ensures { (f : AWord → ScopedWord) (m : ℕ) (permissions : List (List ℕ)) → IsStrictlySortedBy text_cmp permissions → length permissions ≡ count
        → AreNumbered permissions f (words_in (said_of m term.now)) words.now → IsMaskOf permissions (term_with f m term.now) result }
{
    match plain_words(term, words) {
        Some(plain) => bits_of(plain),
        None => bits_held(term, words, count),
    }
}

/// The numbers of the words of an expression that is a word, or a list of words; none of any other.
fn plain_words<'w>(term: &Term, words: &'w [Meaning]) -> Option<&'w [Meaning]>
    ensures { IfSome result (λ plain. (m : ℕ) → IsPlain m term.now words.now plain.now) }
{
    match term {
        Term::Leaf(_) => Some(first(words, 1)),
        Term::Name(_, _) => None,
        Term::Form(op, _, parts) => {
            if is_union(*op) && are_leaves(parts.as_slice()) {
                Some(first(words, parts.as_slice().len()))
            } else {
                None
            }
        }
    }
}

fn is_union(op: Op) -> bool
    ensures { IsTrue result ↔ (op ≡ ops.Union) }
{
    op == Op::Union
}

/// Whether some terms are words.
fn are_leaves(terms: &[Term]) -> bool
    ensures { IsTrue result → AreLeaves terms.now }
{
    for term in terms {
        if !is_leaf(term) {
            return false;
        }
    }
    true
}

/// Whether a term is a word.
pub fn is_leaf(term: &Term) -> bool
    ensures leaf { IsTrue result → IsLeaf term.now }
    ensures none { result ≡ false → (m : ℕ) → leaf_of (said_of m term.now) ≡ None }
{
    match term {
        Term::Leaf(_) => true,
        Term::Name(_, _) => false,
        Term::Form(_, _, _) => false,
    }
}

/// The first of some numbers.
fn first(words: &[Meaning], count: usize) -> &[Meaning]
    ensures { result.now ≡ take count words.now }
{
    if count <= words.len() {
        &words[..count]
    } else {
        words
    }
}

/// The mask of some numbers.
fn bits_of(numbers: &[Meaning]) -> u32
    ensures { (bit : ℕ) → IsBitSet result bit ↔ (Contains numbers.now (Some bit) × (bit < most_permissions)) }
{
    let mut mask = 0;
    for number in numbers {
        mask |= bit_of(number.entry());
    }
    mask
}

/// The mask of one number.
fn bit_of(number: Option<usize>) -> u32
    ensures { (bit : ℕ) → IsBitSet result bit ↔ ((number ≡ Some bit) × (bit < most_permissions)) }
{
    match number {
        Some(place) => single(place),
        None => 0,
    }
}

fn single(place: usize) -> u32
    ensures { (bit : ℕ) → IsBitSet result bit ↔ ((place ≡ bit) × (bit < most_permissions)) }
{
    if place < 32 { 1u32 << place } else { 0 }
}

/// The mask of the numbers below a count whose permissions are in the value of an expression.
fn bits_held(term: &Term, words: &[Meaning], count: usize) -> u32
    requires { count ≤ most_permissions }
    ensures { (f : AWord → ScopedWord) (m : ℕ) (permissions : List (List ℕ)) → IsStrictlySortedBy text_cmp permissions → length permissions ≡ count
        → AreNumbered permissions f (words_in (said_of m term.now)) words.now → IsMaskOf permissions (term_with f m term.now) result }
{
    let mut mask = 0;
    for number in 0..count {
        mask |= bit_if(number, holds(term, words, number));
    }
    mask
}

/// The mask of a number, or none.
fn bit_if(number: usize, has: bool) -> u32
    ensures { (bit : ℕ) → IsBitSet result bit ↔ ((has ≡ true) × (number ≡ bit) × (bit < most_permissions)) }
{
    if has { single(number) } else { 0 }
}
