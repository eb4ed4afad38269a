//! The operators that join constraints.

ghost use Rattle.std.specs.Prelude.{◌≡◌, ◌++◌, OnOk};
ghost use Rattle.cil_constraints.specs.Joins.{heads, joins_of, takes_one};

use crate::step::Step;
use cil_base::NoMemory;
use cil_syntax::Op;

/// How an operator joins expressions.
#[derive(Clone, Copy, Debug)]
pub enum Joins {
    /// The opposite of one.
    Negates,
    /// One as it is.
    Groups,
    /// Two that both have to be true.
    Both,
    /// Two of which one has to be true.
    Either,
}

/// How an operator joins expressions, if it does.
pub fn joins_of(op: Op) -> Option<Joins>
    ensures { result ≡ joins_of op }
{
    match op {
        Op::Not => Some(Joins::Negates),
        Op::Group => Some(Joins::Groups),
        Op::And => Some(Joins::Both),
        Op::Or => Some(Joins::Either),
        _ => None,
    }
}

/// Whether it takes one operand; else it takes two.
pub fn takes_one(joins: Joins) -> bool
    ensures { result ≡ takes_one joins }
{
    match joins {
        Joins::Negates => true,
        Joins::Groups => true,
        Joins::Both => false,
        Joins::Either => false,
    }
}

/// Pushes the step in front of the operands.
pub fn push_head(steps: &mut Vec<Step>, joins: Joins) -> Result<(), NoMemory>
    ensures { OnOk result (steps.new.items ≡ steps.old.items ++ heads joins) }
{
    match joins {
        Joins::Negates => steps.push(Step::Not)?,
        Joins::Groups => {}
        Joins::Both => steps.push(Step::And)?,
        Joins::Either => steps.push(Step::Or)?,
    }
    Ok(())
}
