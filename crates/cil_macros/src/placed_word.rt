//! A word of a statement that takes part in a policy.

ghost use Rattle.std.specs.Prelude.{◌≡◌, List, Some};
ghost use Rattle.cil_macros.specs.Items.{IsWholeSaid, as_word, said_as, said_there, scoped_by, unasked};
ghost use Rattle.cil_macros.specs.Meant.{IsWholeMeaning, meaning_there, meant_term};
ghost use Rattle.cil_macros.specs.Placed.{Placed};

use crate::arguments::is_text_op;
use crate::listed::Listed;
use crate::meant::{Meaning, Meant};
use cil_syntax::{Excerpt, Sign, Word};

/// A word as it takes part in a policy: what is looked up, and the place, among all that is placed, in whose scope that is
/// done. Of a string, which is not looked up, there is no place.
#[derive(Drop)]
pub struct PlacedWord<'a> {
    /// Where it is written, its bytes, and what it wants.
    pub word: Word<'a>,
    /// The place in whose scope it is looked up.
    pub scope: Option<usize>,
}

impl<'a> PlacedWord<'a> {
    ghost use Rattle.std.specs.Prelude.{◌≡◌};

    /// The same once more.
    pub fn copied(&self) -> PlacedWord<'a>
        ensures { result ≡ self.now }
    {
        PlacedWord {
            word: Word {
                at: self.word.at,
                bytes: Excerpt::of(self.word.bytes.as_slice()),
                sign: self.word.sign,
            },
            scope: self.scope,
        }
    }
}

/// What a word of a statement says where it is placed.
#[derive(Drop)]
pub enum Said<'o, 'a> {
    /// A word.
    Word(PlacedWord<'a>),
    /// A list, which is the argument for which the word stands. For a class map its class word wants a class alone.
    List(&'o Listed<'a>),
}

/// What a word says where it means this. Where it means a string it is looked up in no namespace.
pub(crate) fn placed_word<'a>(word: &Word<'a>, meant: &Meant<'a>) -> PlacedWord<'a>
    ensures { (ps : List Placed) → scoped_by ps result ≡ as_word word.now (meant_term ps word.now.sign meant.now) }
{
    match meant.scope {
        None => unasked(word),
        Some(place) => asked_word(word.sign, meant, place),
    }
}

/// What is meant, as a word of a sign that is looked up in the scope of a place.
pub(crate) fn asked_word<'a>(sign: Sign, meant: &Meant<'a>, place: usize) -> PlacedWord<'a>
    ensures { result ≡ record { word = record { at = meant.now.at; bytes = meant.now.bytes; sign = sign }; scope = Some place } }
{
    PlacedWord {
        word: Word {
            at: meant.at,
            bytes: Excerpt::of(meant.bytes.as_slice()),
            sign,
        },
        scope: Some(place),
    }
}

/// What a word says that means this. Where it means a list or a string it is looked up in no namespace.
pub(crate) fn word_meant<'a>(word: &Word<'a>, meaning: &Meaning<'_, 'a>) -> PlacedWord<'a>
    ensures { (ps : List Placed) → scoped_by ps result ≡ as_word word.now (meaning_there ps word.now.sign meaning.now) }
{
    match meaning {
        Meaning::Plain(meant) => placed_word(word, meant),
        Meaning::List(_) => unasked(word),
    }
}

/// The same, where a list is put in as it is.
pub(crate) fn said_of_meaning<'o, 'a>(word: &Word<'a>, meaning: Meaning<'o, 'a>) -> Said<'o, 'a>
    ensures says { (ps : List Placed) → said_there ps word.now.sign result ≡ said_as word.now (meaning_there ps word.now.sign meaning.entry) }
    ensures whole { (ps : List Placed) → IsWholeMeaning ps meaning.entry → IsWholeSaid ps result }
{
    match meaning {
        Meaning::Plain(meant) => Said::Word(placed_word(word, &meant)),
        Meaning::List(list) => {
            if is_text_op(list.op) {
                return Said::Word(unasked(word));
            }
            Said::List(list)
        }
    }
}

/// A word that is looked up in no namespace.
fn unasked<'a>(word: &Word<'a>) -> PlacedWord<'a>
    ensures { (ps : List Placed) → scoped_by ps result ≡ unasked word.now }
{
    PlacedWord {
        word: Word {
            at: word.at,
            bytes: Excerpt::of(word.bytes.as_slice()),
            sign: word.sign,
        },
        scope: None,
    }
}
