//! What is written, part by part: for statements that say words alone.

ghost use Rattle.std.specs.Prelude.{◌≡◌, ◌<◌, ◌∷◌, ◌++◌, [], IfOk, OnOk, length};
ghost use Rattle.cil_syntax.specs.Said.{word_in};
ghost use Rattle.cil_macros.specs.Items.{all_placed, items_in, scoped_by, word_at};
ghost use Rattle.cil_macros.specs.Listed.{all_parts_of, parts_of, parts_there};
ghost use Rattle.cil_names.specs.Unresolved.{term_with, terms_with};

use cil_base::NoMemory;
use cil_macros::{Instances, Part, PlacedWord};
use cil_syntax::{Excerpt, LookedUp, Spot, Term};
use std::alloc::Global;

/// Where terms are read: the place of their instance, and the number of the module in which they are written.
#[derive(Clone, Copy)]
pub struct ReadAt {
    pub at: usize,
    pub module: u64,
}

/// What a word says where it is read, and where it is looked up.
fn word_there<'a>(
    instances: &Instances<'_, '_, 'a>,
    there: ReadAt,
    word: &LookedUp<'a>,
) -> PlacedWord<'a>
    requires { there.at < length (items_in instances.now) }
    ensures { scoped_by (all_placed instances.now) result ≡ word_at instances.now there.at (word_in there.«module» word.now) }
{
    let written = word.in_module(there.module);
    instances.word(there.at, &written)
}

/// Some terms, part by part, each word as what it says where it is read. It costs a step for each part.
pub fn written_parts<'a>(
    alloc: Global,
    instances: &Instances<'_, '_, 'a>,
    there: ReadAt,
    terms: &[Term<'a>],
) -> Result<Vec<Part<'a>>, NoMemory>
    requires { there.at < length (items_in instances.now) }
    ensures { IfOk result (λ parts. parts_there (all_placed instances.now) parts.items ≡ all_parts_of (terms_with (word_at instances.now there.at) there.«module» terms.now)) }
{
    let mut parts = Vec::new(alloc);
    push_terms(instances, &mut parts, there, terms)?;
    Ok(parts)
}

/// Adds a part.
fn push_part<'a>(parts: &mut Vec<Part<'a>>, part: Part<'a>) -> Result<(), NoMemory>
    ensures { OnOk result (parts.new.items ≡ parts.old.items ++ part.entry ∷ []) }
{
    parts.push(part)?;
    Ok(())
}

/// Adds the parts of some terms.
#[cycle(terms)]
fn push_terms<'a>(
    instances: &Instances<'_, '_, 'a>,
    parts: &mut Vec<Part<'a>>,
    there: ReadAt,
    terms: &[Term<'a>],
) -> Result<(), NoMemory>
    requires { there.at < length (items_in instances.now) }
    ensures { OnOk result (parts_there (all_placed instances.now) parts.new.items
        ≡ parts_there (all_placed instances.now) parts.old.items ++ all_parts_of (terms_with (word_at instances.now there.at) there.«module» terms.now)) }
{
    for term in terms {
        push_term(instances, parts, there, term)?;
    }
    Ok(())
}

#[cycle(terms)]
fn push_term<'a>(
    instances: &Instances<'_, '_, 'a>,
    parts: &mut Vec<Part<'a>>,
    there: ReadAt,
    term: &Term<'a>,
) -> Result<(), NoMemory>
    requires { there.at < length (items_in instances.now) }
    ensures { OnOk result (parts_there (all_placed instances.now) parts.new.items
        ≡ parts_there (all_placed instances.now) parts.old.items ++ parts_of (term_with (word_at instances.now there.at) there.«module» term.now)) }
{
    match term {
        Term::Leaf(word) => push_part(parts, Part::Word(word_there(instances, there, word))),
        Term::Name(at, bytes) => {
            let text = Part::Text(Spot::of(there.module, *at), Excerpt::of(bytes.as_slice()));
            push_part(parts, text)
        }
        Term::Form(op, at, items) => {
            push_part(parts, Part::Opens(Spot::of(there.module, *at), *op))?;
            push_terms(instances, parts, there, items.as_slice())?;
            push_part(parts, Part::Closes)
        }
    }
}
