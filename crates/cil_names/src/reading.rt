//! A placed statement, as its words are looked up: what each says there, and where it is looked up.

ghost use Rattle.std.specs.Prelude.{◌≡◌, ◌↔◌, IfOk, IsTrue, Some, drop, map, take};
ghost use Rattle.cil_macros.specs.Calls.{is_call};
ghost use Rattle.cil_macros.specs.Items.{all_placed, says_as_written, scoped_by};
ghost use Rattle.cil_names.specs.Resolves.{is_mapping as maps};
ghost use Rattle.cil_names.specs.Readings.{IsReading, scoped_there, word_read, words_called};

use cil_base::NoMemory;
use cil_macros::{Instances, PlacedWord};
use cil_syntax::{Keyword, Statement, Term, Word};
use std::alloc::Global;

/// The statement at a place.
#[derive(Clone, Copy)]
pub struct Reading<'r, 's, 'p, 'a> {
    /// All that is placed.
    pub instances: &'r Instances<'s, 'p, 'a>,
    /// The place of the statement.
    pub at: usize,
    /// What is written there.
    pub statement: &'r Statement<'a>,
}

impl<'r, 's, 'p, 'a> Reading<'r, 's, 'p, 'a> {
    /// What a word of the statement says here, and where it is looked up.
    pub fn word(&'r self, word: &Word<'a>) -> PlacedWord<'a>
        requires { IsReading self.now }
        ensures { scoped_by (all_placed self.now.instances.now) result ≡ word_read self.now word.now }
    {
        self.instances.word(self.at, word)
    }

    /// The words of the call that the statement is: that of its macro and, where it is unfolded, its arguments that are looked up.
    pub fn call_words(&'r self, alloc: Global) -> Result<Vec<PlacedWord<'a>>, NoMemory>
        requires { IsReading self.now }
        ensures { IfOk result (λ ws. map (scoped_there self.now) ws.items ≡ words_called self.now) }
    {
        self.instances.call_words(alloc, self.at)
    }
}

/// Whether there is a place, and it is this one.
pub fn is_at(place: Option<usize>, at: usize) -> bool
    ensures { IsTrue result ↔ (place ≡ Some at) }
{
    match place {
        Some(k) => k == at,
        None => false,
    }
}

/// Whether a statement calls a macro.
pub fn is_call(keyword: Keyword) -> bool
    ensures { result ≡ is_call keyword }
{
    matches!(keyword, Keyword::Call)
}

/// Whether a statement says what is written. Calls say what their macro and their arguments are; what names a block is judged
/// with the blocks.
pub fn says_as_written(keyword: Keyword) -> bool
    ensures { result ≡ says_as_written keyword }
{
    !matches!(
        keyword,
        Keyword::BlockInherit | Keyword::BlockAbstract | Keyword::Call
    )
}

/// Whether a statement says what a permission of a class map stands for.
pub fn is_mapping(keyword: Keyword) -> bool
    ensures { result ≡ maps keyword }
{
    matches!(keyword, Keyword::ClassMapping)
}

/// The first two of some terms.
pub fn front_two<'t, 'a>(terms: &'t [Term<'a>]) -> &'t [Term<'a>]
    ensures { result.now ≡ take 2 terms.now }
{
    if terms.len() <= 2 { terms } else { &terms[..2] }
}

/// The terms behind the first two.
pub fn behind_two<'t, 'a>(terms: &'t [Term<'a>]) -> &'t [Term<'a>]
    ensures { result.now ≡ drop 2 terms.now }
{
    if terms.len() <= 2 { &[] } else { &terms[2..] }
}
