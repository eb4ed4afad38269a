//! At which places a call brings what may not be in a branch: at once, or by what it brings. The statements that calls bring are gone
//! through once, from the last one on, so that what a statement opens is known before the statement itself. It costs a step for
//! each of them, and a byte for each place where something is brought.

ghost use Rattle.std.specs.Prelude.{◌≡◌, ◌<◌, ◌||◌, IfOk, length};
ghost use Rattle.cil_syntax.specs.Program.{IsNested, program_of};
ghost use Rattle.cil_blocks.specs.Places.{AreStandings, entries_in};
ghost use Rattle.cil_macros.specs.Brings.{AreMarked, IsStepMarked, is_marked, is_other, is_rule_or_call};
ghost use Rattle.cil_macros.specs.Walks.{AreBrought, written_in};

use crate::chain::Brought;
use crate::entry::Called;
use cil_base::NoMemory;
use cil_blocks::Spaces;
use cil_syntax::{Keyword, Statement};
use std::alloc::Global;

/// A mark for each place at which something opened a statement that may not be in a branch, or what opened one in turn. None where
/// calls bring nothing.
pub fn marks_of(alloc: Global, spaces: &Spaces, brought: &Brought) -> Result<Vec<bool>, NoMemory>
    requires standings { AreStandings spaces.now }
    requires brought { AreBrought spaces.now brought.now }
    ensures { IfOk result (λ marks. AreMarked (written_in spaces.now) brought.now.entries.items (length (entries_in spaces.now)) marks.items) }
{
    let called = brought.entries.as_slice();
    if called.is_empty() {
        return Ok(Vec::new(alloc));
    }
    let standing = spaces.entries().len();
    let mut marks = vec![in alloc; false; standing + called.len()]?;
    let mut rank = called.len();
    while rank > 0 {
        rank -= 1;
        mark(
            spaces.statements(),
            &called[rank],
            standing + rank,
            &mut marks,
        );
    }
    Ok(marks)
}

/// Marks what opened a statement, if that may not be in a branch, or is marked itself.
fn mark(statements: &[Statement], called: &Called, place: usize, marks: &mut Vec<bool>)
    requires nested { IsNested statements.now }
    requires within { called.now.opener < length marks.old.items }
    ensures { IsStepMarked (program_of statements.now) called.now place marks.old.items marks.new.items }
{
    if !is_to_mark(statements, called.statement, place, marks.as_slice()) {
        return;
    }
    marks[called.opener] = true;
}

/// Whether the statement of a number, which is at a place, may not be in a branch, or is marked itself.
fn is_to_mark(statements: &[Statement], number: usize, place: usize, marks: &[bool]) -> bool
    requires { IsNested statements.now }
    ensures { result ≡ (is_marked marks.now place || is_other (program_of statements.now) number) }
{
    has_mark(marks, place) || is_other_at(statements, number)
}

/// Whether there is a mark at a place.
pub fn has_mark(marks: &[bool], place: usize) -> bool
    ensures { result ≡ is_marked marks.now place }
{
    match marks.get(place) {
        None => false,
        Some(mark) => *mark,
    }
}

/// Whether the statement of a number may not be in a branch.
fn is_other_at(statements: &[Statement], number: usize) -> bool
    requires { IsNested statements.now }
    ensures { result ≡ is_other (program_of statements.now) number }
{
    match statements.get(number) {
        None => true,
        Some(statement) => !is_rule_or_call(statement.keyword),
    }
}

/// Whether a statement is a rule of types or a call, and so may be in a branch.
fn is_rule_or_call(keyword: Keyword) -> bool
    ensures { result ≡ is_rule_or_call keyword }
{
    matches!(
        keyword,
        Keyword::Allow
            | Keyword::AuditAllow
            | Keyword::DontAudit
            | Keyword::TypeTransition
            | Keyword::TypeChange
            | Keyword::TypeMember
            | Keyword::Call
    )
}
