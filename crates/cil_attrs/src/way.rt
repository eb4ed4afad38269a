//! How a form joins its parts to a set.

ghost use Rattle.std.specs.Prelude.{◌≡◌};
ghost use Rattle.cil_syntax.specs.Expressions.{way_of as its_way};
ghost use Rattle.cil_attrs.specs.Evaluated.{as_way, joined_by};

use cil_sets::Joining;
use cil_syntax::Op;

/// How the expressions of a form are joined.
#[derive(Clone, Copy)]
pub enum Way {
    /// All that there is.
    Everything,
    /// All but what some have.
    Complement,
    /// What some have.
    SomeOf,
    /// What each has.
    EachOf,
    /// What an odd number has.
    OddOf,
    /// What is between two ends: no expression over types, roles or users has any.
    RangeOf,
}

/// How a form joins its parts.
pub fn way_of(op: Op) -> Way
    ensures { as_way result ≡ its_way op }
{
    match op {
        Op::All => Way::Everything,
        Op::Not => Way::Complement,
        Op::And => Way::EachOf,
        Op::Xor => Way::OddOf,
        Op::Range => Way::RangeOf,
        _ => Way::SomeOf,
    }
}

/// How the parts of a form are joined one by one.
pub fn joining_of(way: Way) -> Joining
    ensures { result ≡ joined_by (as_way way) }
{
    match way {
        Way::EachOf => Joining::Both,
        Way::OddOf => Joining::Either,
        Way::Everything | Way::Complement | Way::SomeOf | Way::RangeOf => Joining::Union,
    }
}
