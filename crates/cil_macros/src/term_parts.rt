//! Statements, part by part, as they are written. Costs a step for each part.

ghost use Rattle.std.specs.Prelude.{OnOk};
ghost use Rattle.cil_syntax.specs.Said.{all_said, said_of};
ghost use Rattle.cil_macros.specs.Puts.{WritesTerm, WritesTerms};

use crate::list_parts::written_word;
use crate::listed::{Part, push_part};
use cil_base::NoMemory;
use cil_syntax::{Excerpt, Spot, Term};

/// Adds some terms of a statement.
#[cycle(terms)]
pub(crate) fn push_terms<'a>(
    parts: &mut Vec<Part<'a>>,
    module: u64,
    terms: &[Term<'a>],
) -> Result<(), NoMemory>
    ensures { OnOk result (WritesTerms (all_said «module» terms.now) parts.old.items parts.new.items) }
{
    for term in terms {
        push_term(parts, module, term)?;
    }
    Ok(())
}

#[cycle(terms)]
fn push_term<'a>(parts: &mut Vec<Part<'a>>, module: u64, term: &Term<'a>) -> Result<(), NoMemory>
    ensures { OnOk result (WritesTerm (said_of «module» term.now) parts.old.items parts.new.items) }
{
    match term {
        Term::Leaf(word) => push_part(parts, Part::Word(written_word(module, word.sign, word))),
        Term::Name(at, bytes) => {
            let text = Part::Text(Spot::of(module, *at), Excerpt::of(bytes.as_slice()));
            push_part(parts, text)
        }
        Term::Form(op, at, items) => {
            push_part(parts, Part::Opens(Spot::of(module, *at), *op))?;
            push_terms(parts, module, items.as_slice())?;
            push_part(parts, Part::Closes)
        }
    }
}
