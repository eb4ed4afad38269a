//! Arguments that are lists, with the arguments of the caller put in: each word as what it means where the call is. A list is first taken
//! part by part as it is written (`list_parts.rt`). Costs a step for each part.

ghost use Rattle.std.specs.Prelude.{◌≡◌, ◌++◌, ◌∷◌, [], List, OnOk};
ghost use Rattle.cil_syntax.specs.declared.kind.Sign.TheVariants as signs;
ghost use Rattle.cil_macros.specs.Listed.{IsWholeList, list_there, parts_of, parts_there, plain_first};
ghost use Rattle.cil_macros.specs.Meant.{meant_term};
ghost use Rattle.cil_macros.specs.Placed.{Placed, put};
ghost use Rattle.cil_macros.specs.Puts.{is_mapped, text_parts};

use crate::list_parts::push_items;
use crate::listed::{Listed, Part, push_copy, push_part, push_parts};
use crate::meaning::meaning_at;
use crate::meant::{Meaning, Meant};
use crate::openings::Opening;
use crate::placed_word::{PlacedWord, asked_word};
use crate::scene::Scene;
use cil_base::NoMemory;
use cil_syntax::{Excerpt, Op, Sign, Spot, Term, Word};
use std::alloc::Global;

/// The call whose arguments are read.
#[derive(Clone, Copy)]
pub struct Caller<'c, 's, 'p, 'a> {
    pub scene: &'c Scene<'s, 'p, 'a>,
    /// What the bodies before have from their calls.
    pub openings: &'c [Opening<'a>],
    /// The place of the call.
    pub at: usize,
    /// The number of the module in which it is written.
    pub module: u64,
}

// ---- words

/// Adds what a word or a string is that is meant where a word of a sign stands.
fn push_meant<'a>(parts: &mut Vec<Part<'a>>, sign: Sign, meant: &Meant<'a>) -> Result<(), NoMemory>
    ensures { OnOk result ((ps : List Placed) → parts_there ps parts.new.items ≡ parts_there ps parts.old.items ++ parts_of (meant_term ps sign meant.now)) }
{
    match meant.scope {
        None => push_text(parts, meant),
        Some(place) => push_part(parts, Part::Word(asked_word(sign, meant, place))),
    }
}

/// Adds a string.
fn push_text<'a>(parts: &mut Vec<Part<'a>>, meant: &Meant<'a>) -> Result<(), NoMemory>
    ensures { OnOk result (parts.new.items ≡ parts.old.items ++ text_parts meant.now.at meant.now.bytes) }
{
    push_part(parts, Part::Opens(meant.at, Op::UnreadText))?;
    push_part(
        parts,
        Part::Text(meant.at, Excerpt::of(meant.bytes.as_slice())),
    )?;
    push_part(parts, Part::Closes)?;
    Ok(())
}

/// Adds a list.
pub(crate) fn push_list<'a>(parts: &mut Vec<Part<'a>>, list: &Listed<'a>) -> Result<(), NoMemory>
    ensures { OnOk result ((ps : List Placed) → IsWholeList ps list.now → parts_there ps parts.new.items ≡ parts_there ps parts.old.items ++ parts_of (list_there ps list.now)) }
{
    push_part(parts, Part::Opens(list.at, list.op))?;
    push_parts(parts, list.parts.as_slice())?;
    push_part(parts, Part::Closes)?;
    Ok(())
}

// ---- lists for class maps

/// Whether a sign is that of a permission of a class map.
fn is_mapped(sign: Sign) -> bool
    ensures { result ≡ is_mapped sign }
{
    matches!(sign, Sign::MappedPermissions)
}

/// Adds a list where a word of a sign stands.
pub(crate) fn push_for<'a>(
    parts: &mut Vec<Part<'a>>,
    sign: Sign,
    list: &Listed<'a>,
) -> Result<(), NoMemory>
    ensures { OnOk result ((ps : List Placed) → IsWholeList ps list.now → parts_there ps parts.new.items ≡ parts_there ps parts.old.items ++ parts_of (put sign (list_there ps list.now))) }
{
    if is_mapped(sign) {
        push_mapped(parts, list)?;
        return Ok(());
    }
    push_list(parts, list)?;
    Ok(())
}

/// Adds a list where a permission of a class map stands: there it is of a class alone.
fn push_mapped<'a>(parts: &mut Vec<Part<'a>>, list: &Listed<'a>) -> Result<(), NoMemory>
    ensures { OnOk result ((ps : List Placed) → IsWholeList ps list.now
        → parts_there ps parts.new.items ≡ parts_there ps parts.old.items ++ parts_of (put signs.MappedPermissions (list_there ps list.now))) }
{
    push_part(parts, Part::Opens(list.at, list.op))?;
    push_plain(parts, list.parts.as_slice())?;
    push_part(parts, Part::Closes)?;
    Ok(())
}

/// Adds some parts, the first of which wants a class alone if it is a word.
fn push_plain<'a>(parts: &mut Vec<Part<'a>>, more: &[Part<'a>]) -> Result<(), NoMemory>
    ensures { OnOk result ((ps : List Placed) → parts_there ps parts.new.items ≡ parts_there ps parts.old.items ++ plain_first (parts_there ps more.now)) }
{
    match more {
        [] => {}
        [first, rest @ ..] => {
            push_part(parts, plain(first))?;
            push_parts(parts, rest)?;
        }
    }
    Ok(())
}

/// A part, which wants a class alone if it is a word.
fn plain<'a>(part: &Part<'a>) -> Part<'a>
    ensures { (ps : List Placed) → parts_there ps (result ∷ []) ≡ plain_first (parts_there ps (part.now ∷ [])) }
{
    match part {
        Part::Word(word) => Part::Word(PlacedWord {
            word: Word {
                at: word.word.at,
                bytes: Excerpt::of(word.word.bytes.as_slice()),
                sign: Sign::PlainClass,
            },
            scope: word.scope,
        }),
        Part::Text(_, _) => part.copied(),
        Part::Opens(_, _) => part.copied(),
        Part::Closes => part.copied(),
    }
}

impl<'c, 's, 'p, 'a> Caller<'c, 's, 'p, 'a> {
    ghost use Rattle.std.specs.Prelude.{◌≡◌, IfOk, OnOk};
    ghost use Rattle.cil_faults.specs.Spots.{spot_at};
    ghost use Rattle.cil_macros.specs.Parameters.{argument_kind, read_argument};
    ghost use Rattle.cil_macros.specs.Placed.{meaning};
    ghost use Rattle.cil_macros.specs.Puts.{PutsMeaning, PutsPart, PutsParts, SaysList, list_cell};
    ghost use Rattle.cil_macros.specs.Scene.{IsKnown};

    /// Adds what a word means where the call is.
    fn push_meaning(&self, parts: &mut Vec<Part<'a>>, word: &Word<'a>) -> Result<(), NoMemory>
        requires { IsKnown self.now.scene.now self.now.openings.now self.now.at }
        ensures { OnOk result (PutsMeaning self.now.scene.now self.now.at word.now parts.old.items parts.new.items) }
    {
        match meaning_at(self.scene, self.openings, self.at, word) {
            Meaning::Plain(meant) => push_meant(parts, word.sign, &meant),
            Meaning::List(list) => push_for(parts, word.sign, list),
        }
    }

    /// Adds a part: a word as what it means where the call is, anything else as it is.
    fn put_in_one(&self, parts: &mut Vec<Part<'a>>, asked: &Part<'a>) -> Result<(), NoMemory>
        requires { IsKnown self.now.scene.now self.now.openings.now self.now.at }
        ensures { OnOk result (PutsPart meaning self.now.scene.now self.now.at asked.now parts.old.items parts.new.items) }
    {
        match asked {
            Part::Word(word) => self.push_meaning(parts, &word.word),
            Part::Text(_, _) => push_copy(parts, asked),
            Part::Opens(_, _) => push_copy(parts, asked),
            Part::Closes => push_copy(parts, asked),
        }
    }

    /// Adds parts as they are written, each word as what it means where the call is.
    fn put_in(&self, parts: &mut Vec<Part<'a>>, asked: &[Part<'a>]) -> Result<(), NoMemory>
        requires { IsKnown self.now.scene.now self.now.openings.now self.now.at }
        ensures { OnOk result (PutsParts meaning self.now.scene.now self.now.at asked.now parts.old.items parts.new.items) }
    {
        for part in asked {
            self.put_in_one(parts, part)?;
        }
        Ok(())
    }

    /// A list that is an argument of a kind.
    pub(crate) fn list(
        &self,
        alloc: Global,
        kind: Op,
        at: u32,
        items: &[Term<'a>],
    ) -> Result<Listed<'a>, NoMemory>
        requires { IsKnown self.now.scene.now self.now.openings.now self.now.at }
        ensures { IfOk result (SaysList self.now.scene.now self.now.at (read_argument (argument_kind kind) (list_cell self.now.«module» (spot_at self.now.«module» at) items.now))) }
    {
        let mut asked = Vec::new(alloc);
        let op = push_items(&mut asked, self.module, kind, items)?;
        let mut parts = Vec::new(alloc);
        self.put_in(&mut parts, asked.as_slice())?;
        Ok(Listed {
            at: Spot::of(self.module, at),
            op,
            parts,
        })
    }
}
