//! An argument that is a list, as it is kept: its parts one after another. So no pass over it calls itself, however many macros
//! handed it on, and it is dropped without a walk.

ghost use Rattle.std.specs.Prelude.{◌≡◌, ◌++◌, ◌∷◌, [], List, OnOk};

use crate::placed_word::PlacedWord;
use cil_base::NoMemory;
use cil_syntax::{Excerpt, Op, Spot, Word};
use std::alloc::Global;

/// A part of a list.
#[derive(Drop)]
pub enum Part<'a> {
    /// A word, and where it is looked up.
    Word(PlacedWord<'a>),
    /// A string.
    Text(Spot, Excerpt<'a>),
    /// A list inside begins here, joined so.
    Opens(Spot, Op),
    /// The innermost list that has begun ends here.
    Closes,
}

/// A list that is an argument, with the arguments of the calls round it put in.
#[derive(Drop)]
pub struct Listed<'a> {
    /// Where it is written.
    pub at: Spot,
    /// What joins its items.
    pub op: Op,
    /// Its items, part by part.
    pub parts: Vec<Part<'a>>,
}

impl<'a> Listed<'a> {
    ghost use Rattle.std.specs.Prelude.{◌≡◌, IfOk};

    /// The same once more. It costs a step for each part.
    pub fn copied(&self, alloc: Global) -> Result<Listed<'a>, NoMemory>
        ensures { IfOk result (λ l. (l.at ≡ self.now.at) × (l.op ≡ self.now.op) × (l.parts.items ≡ self.now.parts.items)) }
    {
        let mut parts = Vec::new(alloc);
        push_parts(&mut parts, self.parts.as_slice())?;
        Ok(Listed {
            at: self.at,
            op: self.op,
            parts,
        })
    }
}

/// Adds a part.
pub(crate) fn push_part<'a>(parts: &mut Vec<Part<'a>>, part: Part<'a>) -> Result<(), NoMemory>
    ensures { OnOk result (parts.new.items ≡ parts.old.items ++ part.entry ∷ []) }
{
    parts.push(part)?;
    Ok(())
}

/// Adds a part once more.
pub(crate) fn push_copy<'a>(parts: &mut Vec<Part<'a>>, part: &Part<'a>) -> Result<(), NoMemory>
    ensures { OnOk result (parts.new.items ≡ parts.old.items ++ part.now ∷ []) }
{
    push_part(parts, part.copied())
}

/// Adds some parts.
pub(crate) fn push_parts<'a>(parts: &mut Vec<Part<'a>>, more: &[Part<'a>]) -> Result<(), NoMemory>
    ensures { OnOk result (parts.new.items ≡ parts.old.items ++ more.now) }
{
    for part in more {
        push_copy(parts, part)?;
    }
    Ok(())
}

impl<'a> Part<'a> {
    ghost use Rattle.std.specs.Prelude.{◌≡◌};

    /// The same once more.
    pub fn copied(&self) -> Part<'a>
        ensures { result ≡ self.now }
    {
        match self {
            Part::Word(word) => Part::Word(word.copied()),
            Part::Text(at, bytes) => Part::Text(*at, Excerpt::of(bytes.as_slice())),
            Part::Opens(at, op) => Part::Opens(*at, *op),
            Part::Closes => Part::Closes,
        }
    }
}
