//! Whether levels are on, as `mls` statements say.

ghost use Rattle.std.specs.Prelude.{◌≡◌, ◌↔◌, ◌<◌, ℕ, length, true};
ghost use Rattle.cil_faults.specs.declared.spot.Spot.{Spot};
ghost use Rattle.cil_syntax.specs.Said.{all_said, said_of};
ghost use Rattle.cil_syntax.specs.Terms.{Form};
ghost use Rattle.cil_attrs.specs.macros.Items.{item_at, items_in};
ghost use Rattle.cil_attrs.specs.known.Known.{enabled_in};
ghost use Rattle.cil_mls.specs.OrderFaults.{Switches};
ghost use Rattle.cil_mls.specs.Switch.{is_mls, is_switch, is_switch_term, is_switch_word, switches};

use crate::pairs::only;
use cil_attrs::{Instances, Known};
use cil_syntax::{Keyword, Op, Term};

/// Whether an enabled `mls` statement turns levels on, or off. It costs a step for each statement.
pub fn is_switched(instances: &Instances, known: &Known, on: bool) -> bool
    ensures { (result ≡ true) ↔ Switches (items_in instances.now) (enabled_in known.now) on }
{
    for at in 0..instances.len() {
        if switches_at(instances, known, at, on) {
            return true;
        }
    }
    false
}

/// Whether the statement at a place does so.
fn switches_at(instances: &Instances, known: &Known, at: usize, on: bool) -> bool
    requires { at < length (items_in instances.now) }
    ensures { result ≡ switches (enabled_in known.now) on (item_at instances.now at) }
{
    let statement = instances.statement_there(at);
    if !is_mls(statement.keyword) {
        return false;
    }
    if !known.is_enabled(instances, at) {
        return false;
    }
    is_switch(statement.args.as_slice(), on)
}

fn is_mls(keyword: Keyword) -> bool
    ensures { result ≡ is_mls keyword }
{
    matches!(keyword, Keyword::Mls)
}

/// Whether terms are the word that turns levels on, or off.
fn is_switch(terms: &[Term], on: bool) -> bool
    ensures { (m : ℕ) → result ≡ is_switch on (all_said m terms.now) }
{
    let Some(term) = only(terms) else {
        return false;
    };
    is_switch_term(term, on)
}

fn is_switch_term(term: &Term, on: bool) -> bool
    ensures { (m : ℕ) → result ≡ is_switch_term on (said_of m term.now) }
{
    match term {
        Term::Form(op, _, parts) => is_bare_switch(*op, parts.as_slice(), on),
        _ => false,
    }
}

/// Whether a form is that word, and has no parts.
fn is_bare_switch(op: Op, parts: &[Term], on: bool) -> bool
    ensures { (m : ℕ) (at : Spot) → result ≡ is_switch_term on (Form at op (all_said m parts.now)) }
{
    match parts {
        [] => is_switch_word(op, on),
        [_, ..] => false,
    }
}

fn is_switch_word(op: Op, on: bool) -> bool
    ensures { result ≡ is_switch_word on op }
{
    match op {
        Op::Yes => on,
        Op::No => !on,
        _ => false,
    }
}
