//! Which statements have words that are looked up where they are placed. Blocks, types and classes have none.

ghost use Rattle.std.specs.Prelude.{◌≡◌, ◌<◌, IfOk, length, map, ℕ};
ghost use Rattle.cil_syntax.specs.Program.{statement_of};
ghost use Rattle.cil_syntax.specs.Said.{all_said, said_of};
ghost use Rattle.cil_macros.specs.blocks.Places.{statements_in};
ghost use Rattle.cil_macros.specs.Item.{all_words_in, words_in};
ghost use Rattle.cil_macros.specs.Items.{items_in, placed_at};
ghost use Rattle.cil_names.specs.Worded.{AreWorded, has_some, is_worded};

use crate::opt_set::is_set;
use crate::reading::{is_call, says_as_written};
use cil_base::NoMemory;
use cil_macros::Instances;
use cil_syntax::{Statement, Term};
use std::alloc::Global;

/// For each written statement whether words of it are looked up where it is placed.
pub fn worded(alloc: Global, instances: &Instances) -> Result<Vec<bool>, NoMemory>
    ensures { IfOk result (λ flags. AreWorded instances.now flags.items) }
{
    let statements = instances.spaces().statements();
    let mut flags = Vec::new(alloc);
    for statement in statements {
        flags.push(is_worded(statement))?;
    }
    Ok(flags)
}

/// Whether words of the statement at a place are looked up, by the flags of all written statements. It costs one step.
pub fn is_worded_at(instances: &Instances, flags: &[bool], at: usize) -> bool
    requires flags { AreWorded instances.now flags.now }
    requires within { at < length (items_in instances.now) }
    ensures { result ≡ is_worded (placed_at instances.now at).standing.statement.statement }
{
    is_set(flags, instances.statement(at))
}

/// Whether words of a statement are looked up where it is placed: it is a call, or it says what is written, and there is a
/// word in it. It costs a step for each term in front of the first word.
pub fn is_worded(statement: &Statement) -> bool
    ensures { result ≡ is_worded (statement_of statement.now) }
{
    if is_call(statement.keyword) {
        return true;
    }
    if !says_as_written(statement.keyword) {
        return false;
    }
    has_word(statement.args.as_slice())
}

/// Whether a word is among some terms.
#[cycle(words)]
fn has_word(terms: &[Term]) -> bool
    ensures { (m : ℕ) → result ≡ has_some (all_words_in (all_said m terms.now)) }
{
    for term in terms {
        if holds_word(term) {
            return true;
        }
    }
    false
}

#[cycle(words)]
fn holds_word(term: &Term) -> bool
    ensures { (m : ℕ) → result ≡ has_some (words_in (said_of m term.now)) }
{
    match term {
        Term::Leaf(_) => true,
        Term::Name(_, _) => false,
        Term::Form(_, _, parts) => has_word(parts.as_slice()),
    }
}
