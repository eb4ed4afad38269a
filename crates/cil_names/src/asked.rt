//! What a placed statement asks for, one after another: words, and permissions of classes.

ghost use Rattle.std.specs.Prelude.{◌≡◌, ◌<◌, ◌∷◌, ◌++◌, [], IfOk, IsTrue, List, MatchOption, None, OnOk, Some, false, length, slice_get, true};
ghost use Rattle.std.specs.List.{flat_map};
ghost use Rattle.std.specs.Option.{option_map};
ghost use Rattle.cil_macros.specs.Items.{all_placed, item_at, items_in, says_lists, scoped_by};
ghost use Rattle.cil_macros.specs.Listed.{all_parts_of, parts_there};
ghost use Rattle.cil_macros.specs.Placed.{Placed};
ghost use Rattle.cil_names.specs.Asked.{SaysWritten, asked_by, wanted_by};
ghost use Rattle.cil_names.specs.Readings.{IsReading, item_read};
ghost use Rattle.cil_names.specs.Resolves.{told_at, told_word, words_of};

use crate::asked_parts::asked_in_parts;
use crate::reading::{Reading, is_call, says_as_written};
use crate::written_parts::{ReadAt, written_parts};
use cil_base::NoMemory;
use cil_macros::{Instances, Part, PlacedWord};
use std::alloc::Global;

/// The word that is told of what the statement at a place asks for, by its number, counted from 0; none where it does not
/// ask for so many things.
pub fn word_asked<'a>(
    alloc: Global,
    instances: &Instances<'_, '_, 'a>,
    at: usize,
    number: usize,
) -> Result<Option<PlacedWord<'a>>, NoMemory>
    requires { at < length (items_in instances.now) }
    ensures { IfOk result (λ word. MatchOption word (told_at (item_at instances.now at) number ≡ None)
        (λ w. told_at (item_at instances.now at) number ≡ Some (scoped_by (all_placed instances.now) w))) }
{
    let asked = asked_at(alloc, instances, at)?;
    Ok(told_of(asked.as_slice(), number))
}

/// What the statement at a place asks for, in order.
pub fn asked_at<'a>(
    alloc: Global,
    instances: &Instances<'_, '_, 'a>,
    at: usize,
) -> Result<Vec<Asked<'a>>, NoMemory>
    requires { at < length (items_in instances.now) }
    ensures { IfOk result (λ asked. flat_map (wanted_by (all_placed instances.now)) asked.items ≡ words_of (item_at instances.now at)) }
{
    let reading = Reading {
        instances,
        at,
        statement: instances.statement_there(at),
    };
    reading.asked(alloc)
}

/// What the statement at a place says, part by part. It costs a step for each part, and for a call a search by halving.
pub fn parts_at<'a>(
    alloc: Global,
    instances: &Instances<'_, '_, 'a>,
    at: usize,
) -> Result<Vec<Part<'a>>, NoMemory>
    requires { at < length (items_in instances.now) }
    ensures { IfOk result (λ parts. parts_there (all_placed instances.now) parts.items ≡ all_parts_of (item_at instances.now at).args) }
{
    let reading = Reading {
        instances,
        at,
        statement: instances.statement_there(at),
    };
    reading.parts(alloc)
}

/// The word that is told of what some things ask for, by its number.
fn told_of<'a>(asked: &[Asked<'a>], number: usize) -> Option<PlacedWord<'a>>
    ensures { (ps : List Placed) → MatchOption result (slice_get (flat_map (wanted_by ps) asked.now) number ≡ None)
        (λ w. option_map told_word (slice_get (flat_map (wanted_by ps) asked.now) number) ≡ Some (scoped_by ps w)) }
{
    let mut left = number;
    for one in asked {
        match one.told(left) {
            Some(word) => return Some(word.copied()),
            None => left -= one.len(),
        }
    }
    None
}

/// Something that a statement asks for.
#[derive(Drop)]
pub enum Asked<'a> {
    /// A word.
    Word(PlacedWord<'a>),
    /// A class word, and the permissions of its class that are behind it.
    ClassList(PlacedWord<'a>, Vec<PlacedWord<'a>>),
}

impl<'a> Asked<'a> {
    /// How many words it has.
    pub fn len(&self) -> usize
        ensures { (ps : List Placed) → result ≡ length (wanted_by ps self.now) }
    {
        match self {
            Asked::Word(_) => 1,
            Asked::ClassList(_, permissions) => permissions.len() + 1,
        }
    }

    /// The word that is told where that of a number is not there; none where there are not so many.
    pub fn told(&self, number: usize) -> Option<&PlacedWord<'a>>
        ensures { (ps : List Placed) → MatchOption result (slice_get (wanted_by ps self.now) number ≡ None)
            (λ w. option_map told_word (slice_get (wanted_by ps self.now) number) ≡ Some (scoped_by ps w.now)) }
    {
        match self {
            Asked::Word(word) => { if number == 0 { Some(word) } else { None } }
            Asked::ClassList(class, permissions) => {
                if number == 0 {
                    Some(class)
                } else {
                    permissions.get(number - 1)
                }
            }
        }
    }
}

/// Adds something that is asked for.
pub fn push_asked<'a>(asked: &mut Vec<Asked<'a>>, one: Asked<'a>) -> Result<(), NoMemory>
    ensures { OnOk result (asked.new.items ≡ asked.old.items ++ one.entry ∷ []) }
{
    asked.push(one)?;
    Ok(())
}

/// Adds a word with its place.
pub fn push_placed<'a>(
    words: &mut Vec<PlacedWord<'a>>,
    word: PlacedWord<'a>,
) -> Result<(), NoMemory>
    ensures { OnOk result (words.new.items ≡ words.old.items ++ word.entry ∷ []) }
{
    words.push(word)?;
    Ok(())
}

impl<'r, 's, 'p, 'a> Reading<'r, 's, 'p, 'a> {
    /// What the statement asks for, in order.
    pub fn asked(&'r self, alloc: Global) -> Result<Vec<Asked<'a>>, NoMemory>
        requires { IsReading self.now }
        ensures { IfOk result (λ asked. asked_by self.now asked.items ≡ words_of (item_read self.now)) }
    {
        let parts = self.parts(alloc)?;
        asked_in_parts(alloc, self.statement.keyword, parts.as_slice())
    }

    /// What the statement says, part by part.
    fn parts(&'r self, alloc: Global) -> Result<Vec<Part<'a>>, NoMemory>
        requires { IsReading self.now }
        ensures { IfOk result (λ parts. parts_there (all_placed self.now.instances.now) parts.items ≡ all_parts_of (item_read self.now).args) }
    {
        if self.may_have_list() {
            return self.instances.parts(alloc, self.at);
        }
        if !says_as_written(self.statement.keyword) {
            return Ok(Vec::new(alloc));
        }
        let there = ReadAt {
            at: self.at,
            module: self.statement.at.module,
        };
        written_parts(alloc, self.instances, there, self.statement.args.as_slice())
    }

    /// Whether what the statement says may have a list. Calls are among them, whose arguments are written elsewhere.
    fn may_have_list(&'r self) -> bool
        requires { IsReading self.now }
        ensures lists { IsTrue result → says_lists (item_read self.now).keyword ≡ true }
        ensures words { result ≡ false → SaysWritten self.now }
    {
        if is_call(self.statement.keyword) {
            return true;
        }
        self.instances.may_have_list(self.at)
    }
}
