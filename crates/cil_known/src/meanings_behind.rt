//! The meanings of what a statement asks for, from one of its terms on: a walk over the terms in front, without a look-up.

ghost use Rattle.std.specs.Prelude.{◌≡◌, ℕ, drop, length};
ghost use Rattle.cil_names.specs.macros.Item.{all_words_in, words_in};
ghost use Rattle.cil_known.specs.Known.{wanted_with};
ghost use Rattle.cil_names.specs.Resolves.{all_wanted_in, words_of_class};
ghost use Rattle.cil_names.specs.Unresolved.{terms_with};
ghost use Rattle.cil_syntax.specs.Said.{all_said, said_of};
ghost use Rattle.cil_syntax.specs.Scopes.{ScopedWord};
ghost use Rattle.cil_syntax.specs.declared.term.Word.{Word as AWord};

use cil_names::Meaning;
use cil_syntax::{Term, word_and_terms};

/// The meanings behind the first.
pub fn behind_first(words: &[Meaning]) -> &[Meaning]
    ensures { result.now ≡ drop 1 words.now }
{
    match words {
        [] => &[],
        [_, rest @ ..] => rest,
    }
}

/// The meanings behind those of what a term of a statement of this module asks for.
#[cycle(terms)]
pub fn behind<'s>(words: &'s [Meaning], term: &Term, module: u64) -> &'s [Meaning]
    ensures { (f : AWord → ScopedWord) → result.now ≡ drop (length (wanted_with f (said_of «module» term.now))) words.now }
{
    match term {
        Term::Leaf(_) => behind_first(words),
        Term::Name(_, _) => words,
        Term::Form(op, _, parts) => {
            if op.is_class_list() {
                behind_class_list(words, parts.as_slice(), module)
            } else {
                behind_all(words, parts.as_slice(), module)
            }
        }
    }
}

/// The meanings behind those of what some terms ask for.
#[cycle(terms)]
fn behind_all<'s>(words: &'s [Meaning], terms: &[Term], module: u64) -> &'s [Meaning]
    ensures { (f : AWord → ScopedWord) → result.now ≡ drop (length (all_wanted_in (terms_with f «module» terms.now))) words.now }
{
    let mut rest = words;
    for term in terms {
        rest = behind(rest, term, module);
    }
    rest
}

/// The meanings behind those of a class word and of the permissions behind it.
fn behind_class_list<'s>(words: &'s [Meaning], terms: &[Term], module: u64) -> &'s [Meaning]
    ensures { (f : AWord → ScopedWord) → result.now ≡ drop (length (words_of_class (terms_with f «module» terms.now))) words.now }
{
    let Some(list) = word_and_terms(terms, module) else {
        return words;
    };
    behind_words(behind_first(words), list.terms)
}

/// The meanings behind one for each word among some terms.
#[cycle(words)]
fn behind_words<'s>(words: &'s [Meaning], terms: &[Term]) -> &'s [Meaning]
    ensures { (m : ℕ) → result.now ≡ drop (length (all_words_in (all_said m terms.now))) words.now }
{
    let mut rest = words;
    for term in terms {
        rest = behind_word(rest, term);
    }
    rest
}

/// The meanings behind one for each word of a term: what follows those of one operand among the permissions of a class.
#[cycle(words)]
pub fn behind_word<'s>(words: &'s [Meaning], term: &Term) -> &'s [Meaning]
    ensures { (m : ℕ) → result.now ≡ drop (length (words_in (said_of m term.now))) words.now }
{
    match term {
        Term::Leaf(_) => behind_first(words),
        Term::Name(_, _) => words,
        Term::Form(_, _, parts) => behind_words(words, parts.as_slice()),
    }
}
