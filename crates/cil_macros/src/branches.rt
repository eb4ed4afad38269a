//! In which branch of which booleanif a statement is: it is found by the openers, and takes no memory.

ghost use Rattle.std.specs.Prelude.{◌≡◌, ℕ, ◌+◌, ◌<◌, List, MatchOption, Some, length, slice_get};
ghost use Rattle.cil_syntax.specs.declared.term.Word.{Word};
ghost use Rattle.cil_syntax.specs.Program.{IsNested, program_of};
ghost use Rattle.cil_syntax.specs.Said.{all_said, args_of, said_of};
ghost use Rattle.cil_syntax.specs.Terms.{Terms, cons};
ghost use Rattle.cil_blocks.specs.Branches.{branch_value, last_value, value_by};
ghost use Rattle.cil_blocks.specs.Contents.{is_conditional};
ghost use Rattle.cil_blocks.specs.Entries.{statement_at};
ghost use Rattle.cil_blocks.specs.Places.{AreStandings, entries_in};
ghost use Rattle.cil_macros.specs.InBranches.{SaysBranch, SaysItsBranch};
ghost use Rattle.cil_macros.specs.Placed.{Placed};
ghost use Rattle.cil_macros.specs.Walks.{AreBrought, placed_in, written_in};

use crate::calls::stated_at;
use crate::chain::Brought;
use crate::nesting::opener_at;
use cil_blocks::Spaces;
use cil_syntax::{Keyword, Op, Spot, Statement, Term};

/// A branch of a booleanif.
#[derive(Clone, Copy, Debug, PartialEq, Eq)]
pub struct Branch {
    /// The place of the booleanif, among all that is placed.
    pub at: usize,
    /// The value of its condition for which the branch counts.
    pub value: bool,
}

/// In which branch the statement at a place is: the innermost one round it; none where it is in none. It costs a step for each
/// statement through which it came, up to the booleanif.
pub fn branch_at(spaces: &Spaces, brought: &Brought, at: usize) -> Option<Branch>
    requires standings { AreStandings spaces.now }
    requires brought { AreBrought spaces.now brought.now }
    requires within { at < length (entries_in spaces.now) + length brought.now.entries.items }
    ensures { SaysBranch (written_in spaces.now) (placed_in spaces.now brought.now.entries.items) at result }
{
    let mut place = at;
    while let Some(opener) = opener_at(spaces, brought, place) {
        if let Some(value) = value_under(spaces, brought, opener, place) {
            return Some(Branch { at: opener, value });
        }
        place = opener;
    }
    None
}

/// The value of the branch in which the statement at a place is, where the one at another place, which opened it, is a booleanif.
fn value_under(spaces: &Spaces, brought: &Brought, opener: usize, at: usize) -> Option<bool>
    requires standings { AreStandings spaces.now }
    requires opener { opener < length (entries_in spaces.now) + length brought.now.entries.items }
    requires within { at < length (entries_in spaces.now) + length brought.now.entries.items }
    ensures { (q p : Placed) → slice_get (placed_in spaces.now brought.now.entries.items) opener ≡ Some q → slice_get (placed_in spaces.now brought.now.entries.items) at ≡ Some p
        → SaysItsBranch (written_in spaces.now) q p result }
{
    let Some(round) = stated_at(spaces, brought, opener) else {
        return None;
    };
    if !is_conditional(round.keyword) {
        return None;
    }
    Some(branch_value(round, spot_at(spaces, brought, at)))
}

/// Where the statement at a place is written.
fn spot_at(spaces: &Spaces, brought: &Brought, at: usize) -> Spot
    requires standings { AreStandings spaces.now }
    requires within { at < length (entries_in spaces.now) + length brought.now.entries.items }
    ensures { (p : Placed) → slice_get (placed_in spaces.now brought.now.entries.items) at ≡ Some p → result ≡ p.standing.statement.statement.at }
{
    match stated_at(spaces, brought, at) {
        None => Spot { module: 0, at: 0 },
        Some(statement) => statement.at,
    }
}

/// Whether a statement has branches.
pub fn is_conditional(keyword: Keyword) -> bool
    ensures { result ≡ is_conditional keyword }
{
    matches!(keyword, Keyword::BooleanIf)
}

/// The value of the branch of a booleanif in which something is written. It costs a step for the condition and each branch.
fn branch_value(statement: &Statement, at: Spot) -> bool
    ensures { result ≡ branch_value (args_of statement.now) at }
{
    let mut value = true;
    for term in statement.args.as_slice() {
        value = value_behind(term, at, value);
    }
    value
}

/// The value of the last branch that begins before a position, where it is known of the terms before one: that one may be a
/// later branch.
fn value_behind(term: &Term, at: Spot, before: bool) -> bool
    ensures { (m : ℕ) (ts : Terms Word) → last_value before (cons (said_of m term.now) ts) at ≡ last_value result ts at }
{
    match term {
        Term::Leaf(_) => before,
        Term::Name(_, _) => before,
        Term::Form(op, from, _) => {
            if at.at <= *from as u64 {
                return before;
            }
            value_by(*op, before)
        }
    }
}

/// The value for which the statements of a branch count; what is no branch leaves another value.
fn value_by(op: Op, other: bool) -> bool
    ensures { result ≡ value_by op other }
{
    match op {
        Op::TrueBranch => true,
        Op::FalseBranch => false,
        _ => other,
    }
}
