//! What a placed statement says, as terms that are written at no place: for statements in whose words an argument is a list, so that no
//! layer above takes lists apart anew. Each word is written at the number of its part. Costs a step for each part.

ghost use Rattle.std.specs.Prelude.{◌≡◌, ℕ, IfOk, List};
ghost use Rattle.cil_syntax.specs.Said.{all_said};
ghost use Rattle.cil_macros.specs.Item.{all_replaced};
ghost use Rattle.cil_macros.specs.Listed.{parts_there, terms_in};
ghost use Rattle.cil_macros.specs.ListTerms.{AreAlike, numbered};
ghost use Rattle.cil_macros.specs.Placed.{Placed};

use crate::instances::Instances;
use crate::listed::Part;
use cil_base::{NoMemory, short};
use cil_syntax::{Excerpt, LookedUp, Op, Term};
use std::alloc::Global;
use std::mem;

impl<'s, 'p, 'a> Instances<'s, 'p, 'a> {
    ghost use Rattle.std.specs.Prelude.{◌≡◌, ◌<◌, ℕ, IfOk, length, true};
    ghost use Rattle.cil_syntax.specs.Said.{all_said};
    ghost use Rattle.cil_macros.specs.Item.{all_replaced};
    ghost use Rattle.cil_macros.specs.Items.{item_at, items_in, says_lists};
    ghost use Rattle.cil_macros.specs.Listed.{all_parts_of};
    ghost use Rattle.cil_macros.specs.ListTerms.{AreAlike, numbered};

    /// What the statement at a place says, as terms that are written at no place: with the arguments put in, lists too. It costs a
    /// step for each part.
    pub fn terms(&self, alloc: Global, at: usize) -> Result<Vec<Term<'a>>, NoMemory>
        requires within { at < length (items_in self.now) }
        requires lists { says_lists (item_at self.now at).keyword ≡ true }
        ensures { IfOk result (λ terms. (m : ℕ) → AreAlike (all_replaced (λ place. place) (numbered (all_parts_of (item_at self.now at).args)) (all_said m terms.items)) (item_at self.now at).args) }
    {
        let parts = self.parts(alloc, at)?;
        terms_of(alloc, parts.as_slice())
    }
}

/// The terms that some parts are.
fn terms_of<'a>(alloc: Global, parts: &[Part<'a>]) -> Result<Vec<Term<'a>>, NoMemory>
    ensures { IfOk result (λ terms. (ps : List Placed) (m : ℕ)
        → AreAlike (all_replaced (λ place. place) (numbered (parts_there ps parts.now)) (all_said m terms.items)) (terms_in (parts_there ps parts.now))) }
{
    let mut reading = Reading {
        level: Vec::new(alloc),
        outer: Vec::new(alloc),
    };
    let mut place = parts.len();
    while place > 0 {
        place -= 1;
        reading.read(alloc, &parts[place], place)?;
    }
    let mut terms = reading.level;
    terms.reverse();
    Ok(terms)
}

/// Terms that are read from the last part on.
#[derive(Drop)]
struct Reading<'a> {
    /// Those of the list that is read, the last one first.
    level: Vec<Term<'a>>,
    /// Those of the lists round it, the outermost list first.
    outer: Vec<Vec<Term<'a>>>,
}

impl<'a> Reading<'a> {
    ghost use Rattle.std.specs.Prelude.{◌∷◌, ℕ, List, OnOk};
    ghost use Rattle.cil_faults.specs.declared.spot.Spot as spots;
    ghost use Rattle.cil_syntax.specs.Terms.{nil};
    ghost use Rattle.cil_macros.specs.Listed.{Part as ListPart, Read, listed_in};
    ghost use Rattle.cil_macros.specs.ListTerms.{AreRead, IsReadMore};

    /// Reads the part in front of those that were read, which has this number.
    fn read(&mut self, alloc: Global, part: &Part<'a>, number: usize) -> Result<(), NoMemory>
        ensures { OnOk result (IsReadMore part.now number self.old self.new) }
    {
        match part {
            Part::Word(word) => self.level.push(Term::Leaf(LookedUp {
                bytes: Excerpt::of(word.word.bytes.as_slice()),
                at: short(number)?,
                sign: word.word.sign,
            }))?,
            Part::Text(_, bytes) => self
                .level
                .push(Term::Name(0, Excerpt::of(bytes.as_slice())))?,
            Part::Opens(_, op) => self.end(alloc, *op)?,
            Part::Closes => self.begin(alloc)?,
        }
        Ok(())
    }

    /// A list begins in front of those that were read, so it is a term of the list round it.
    fn end(&mut self, alloc: Global, op: Op) -> Result<(), NoMemory>
        ensures { OnOk result ((xs : List ListPart) (m : ℕ) (read : Read) → AreRead xs m self.old read → (place : spots.Spot) → AreRead xs m self.new (listed_in place op read.0 read.1)) }
    {
        let outer = match self.outer.pop() {
            Some(terms) => terms,
            None => Vec::new(alloc),
        };
        let mut inner = mem::replace(&mut self.level, outer);
        inner.reverse();
        self.level.push(Term::Form(op, 0, inner))?;
        Ok(())
    }

    /// A list ends in front of those that were read.
    fn begin(&mut self, alloc: Global) -> Result<(), NoMemory>
        ensures { OnOk result ((xs : List ListPart) (m : ℕ) (read : Read) → AreRead xs m self.old read → AreRead xs m self.new (nil, read.0 ∷ read.1)) }
    {
        let level = mem::replace(&mut self.level, Vec::new(alloc));
        self.outer.push(level)?;
        Ok(())
    }
}
