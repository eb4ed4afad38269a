//! Expressions that name no permissions.

ghost use Rattle.std.specs.Prelude.{◌≡◌, ◌&&◌, IsTrue, not, ℕ};
ghost use Rattle.cil_syntax.specs.Forms.{is_class_list};
ghost use Rattle.cil_syntax.specs.Said.{all_said, said_of};
ghost use Rattle.cil_attrs.specs.Plain.{ArePlain, are_plain, is_plain};

use crate::making::Given;
use cil_syntax::Term;

/// Whether no expression that a set is given names permissions. It costs a step for each term.
pub fn all_plain(givens: &[Given]) -> bool
    ensures { IsTrue result → ArePlain givens.now }
{
    for given in givens {
        if !is_plain(given.term) {
            return false;
        }
    }
    true
}

/// Whether no part of a term is a class with its permissions.
#[cycle(plain)]
fn is_plain(term: &Term) -> bool
    ensures { (m : ℕ) → result ≡ is_plain (said_of m term.now) }
{
    match term {
        Term::Leaf(_) => true,
        Term::Name(_, _) => true,
        Term::Form(op, _, parts) => {
            if op.is_class_list() {
                return false;
            }
            are_plain(parts.as_slice())
        }
    }
}

/// The same of some terms.
#[cycle(plain)]
pub fn are_plain(parts: &[Term]) -> bool
    ensures { (m : ℕ) → result ≡ are_plain (all_said m parts.now) }
{
    for part in parts {
        if !is_plain(part) {
            return false;
        }
    }
    true
}
