//! What is wrong with calls, told at the word of the macro, in the namespace in which the call is placed. A look at each placed
//! statement is the cost; what marks cost stands in `brings.rt`.

ghost use Rattle.std.specs.Prelude.{◌≡◌, ◌&&◌, ◌||◌, not, ◌+◌, ◌<◌, ◌≤◌, ◌++◌, ◌∷◌, [], IfOk, OnOk, Some, length, slice_get};
ghost use Rattle.cil_syntax.specs.Program.{IsNested, program_of};
ghost use Rattle.cil_blocks.specs.Contents.{first_word, is_conditional};
ghost use Rattle.cil_blocks.specs.Entries.{statement_at};
ghost use Rattle.cil_blocks.specs.Namespaces.{space_at};
ghost use Rattle.cil_blocks.specs.Places.{AreStandings, entries_in};
ghost use Rattle.cil_macros.specs.Brings.{is_marked};
ghost use Rattle.cil_macros.specs.CallFaults.{SaysWrong, faults_from, faults_of, told, told_if};
ghost use Rattle.cil_macros.specs.CallPlaces.{is_call_in_branch, is_in_branch};
ghost use Rattle.cil_macros.specs.Macros.{all_standing};
ghost use Rattle.cil_macros.specs.Placed.{Placed};
ghost use Rattle.cil_macros.specs.Walks.{AreBrought, IsSource, placed_in, written_in};

use crate::branches::is_conditional;
use crate::brings::has_mark;
use crate::calls::{comes_again, front_at, has_arguments, macro_at, space_at};
use crate::chain::{Brought, statement_at};
use crate::macros::is_call_at;
use crate::source::Source;
use cil_base::NoMemory;
use cil_blocks::spelled::spelled;
use cil_blocks::{Namespaces, ScopeList, Spaces};
use cil_syntax::{Bytes, Fault, FaultCode, Statement, Word};
use std::alloc::Global;

/// What is wrong with a call. More than one may be.
#[derive(Clone, Copy)]
pub struct Wrong {
    /// It came through its macro already.
    pub again: bool,
    /// Its arguments are too few or too many, or have not the forms that the macro asks; or one is a list where only a name may stand.
    pub unfit: bool,
    /// It is written in a branch, and brings what may not be in one.
    pub misplaced: bool,
}

/// Where a fault is told: at a word, in the namespace of a number.
#[derive(Clone, Copy)]
struct Site<'s, 'a> {
    namespaces: &'s Namespaces<'a>,
    space: usize,
    word: &'s Word<'a>,
}

/// The faults of all calls. Marks tell at which places something is brought that may not be in a branch, and which calls have a list
/// where only a name may stand.
pub fn call_faults(
    alloc: Global,
    source: &Source,
    brought: &Brought,
    marks: &[bool],
    lists: &[bool],
) -> Result<Vec<Fault>, NoMemory>
    requires source { IsSource source.now }
    requires brought { AreBrought source.now.spaces.now brought.now }
    ensures { IfOk result (λ faults. faults.items ≡ faults_from (written_in source.now.spaces.now) (all_standing source.now.spaces.now) marks.now lists.now 0 (placed_in source.now.spaces.now brought.now.entries.items)) }
{
    let mut faults = Vec::new(alloc);
    let mut scope = ScopeList::new(alloc);
    for at in 0..source.spaces.entries().len() + brought.entries.len() {
        judge_at(
            alloc,
            &mut faults,
            source,
            brought,
            marks,
            lists,
            at,
            &mut scope,
        )?;
    }
    Ok(faults)
}

/// Tells what is wrong with the statement at a place, where it is marked or not.
fn judge_at(
    alloc: Global,
    faults: &mut Vec<Fault>,
    source: &Source,
    brought: &Brought,
    marks: &[bool],
    lists: &[bool],
    at: usize,
    scope: &mut ScopeList,
) -> Result<(), NoMemory>
    requires source { IsSource source.now }
    requires brought { AreBrought source.now.spaces.now brought.now }
    requires within { at < length (entries_in source.now.spaces.now) + length brought.now.entries.items }
    ensures { OnOk result ((p : Placed) → slice_get (placed_in source.now.spaces.now brought.now.entries.items) at ≡ Some p
        → faults.new.items ≡ faults.old.items ++ faults_of (written_in source.now.spaces.now) (all_standing source.now.spaces.now) (is_marked marks.now at) (is_marked lists.now at) p) }
{
    let wrong = wrong_at(alloc, source, brought, marks, lists, at, scope)?;
    report(alloc, faults, source, brought, at, wrong)
}

/// Tells this of the statement at a place.
fn report(
    alloc: Global,
    faults: &mut Vec<Fault>,
    source: &Source,
    brought: &Brought,
    at: usize,
    wrong: Wrong,
) -> Result<(), NoMemory>
    requires source { IsSource source.now }
    requires brought { AreBrought source.now.spaces.now brought.now }
    requires within { at < length (entries_in source.now.spaces.now) + length brought.now.entries.items }
    ensures { OnOk result ((p : Placed) → slice_get (placed_in source.now.spaces.now brought.now.entries.items) at ≡ Some p
        → faults.new.items ≡ faults.old.items ++ told p.standing.space wrong (first_word p.standing.statement.statement.args)) }
{
    let Some(front) = front_at(source.spaces, brought, at) else {
        return Ok(());
    };
    let site = Site {
        namespaces: source.spaces.namespaces(),
        space: space_at(source.spaces, brought, at),
        word: &front.word,
    };
    report_causes(alloc, faults, wrong, &site)
}

/// Tells each cause at a site.
fn report_causes(
    alloc: Global,
    faults: &mut Vec<Fault>,
    wrong: Wrong,
    site: &Site,
) -> Result<(), NoMemory>
    requires { site.now.space ≤ length site.now.namespaces.now }
    ensures { OnOk result (faults.new.items ≡ faults.old.items ++ told (space_at site.now.namespaces.now site.now.space) wrong (Some site.now.word.now)) }
{
    report_if(alloc, faults, wrong.again, FaultCode::CallCycle, site)?;
    report_if(alloc, faults, wrong.unfit, FaultCode::CallArguments, site)?;
    report_if(alloc, faults, wrong.misplaced, FaultCode::CallPlace, site)?;
    Ok(())
}

/// What is wrong with the statement at a place.
fn wrong_at(
    alloc: Global,
    source: &Source,
    brought: &Brought,
    marks: &[bool],
    lists: &[bool],
    at: usize,
    scope: &mut ScopeList,
) -> Result<Wrong, NoMemory>
    requires source { IsSource source.now }
    requires brought { AreBrought source.now.spaces.now brought.now }
    requires within { at < length (entries_in source.now.spaces.now) + length brought.now.entries.items }
    ensures { IfOk result (SaysWrong source.now.spaces.now brought.now.entries.items marks.now lists.now at) }
{
    let misplaced = is_misplaced(source.spaces, brought, marks, at);
    let list = has_mark(lists, at);
    let Some(called) = macro_at(alloc, source, brought, at, scope)? else {
        return Ok(Wrong {
            again: false,
            unfit: list,
            misplaced,
        });
    };
    Ok(Wrong {
        again: comes_again(source, brought, at, called),
        unfit: is_unfit(has_arguments(source, brought, at, called), list),
        misplaced,
    })
}

/// Whether the arguments of a call do not fit, or it is marked as one with a list where only a name may stand.
fn is_unfit(fits: bool, list: bool) -> bool
    ensures { result ≡ (not fits || list) }
{
    !fits || list
}

/// Whether the statement at a place is marked, and a call that is written in a branch.
fn is_misplaced(spaces: &Spaces, brought: &Brought, marks: &[bool], at: usize) -> bool
    requires standings { AreStandings spaces.now }
    requires within { at < length (entries_in spaces.now) + length brought.now.entries.items }
    ensures { (p : Placed) → slice_get (placed_in spaces.now brought.now.entries.items) at ≡ Some p → result ≡ (is_marked marks.now at && is_call_in_branch p.standing.statement) }
{
    let number = statement_at(spaces.entries(), brought.entries.as_slice(), at);
    has_mark(marks, at) && is_call_in_branch(spaces.statements(), number)
}

/// Whether the statement of a number is a call that is written in a branch.
fn is_call_in_branch(statements: &[Statement], number: usize) -> bool
    requires { IsNested statements.now }
    ensures { result ≡ is_call_in_branch (statement_at (program_of statements.now) number) }
{
    is_call_at(statements, number) && is_in_branch(statements, number)
}

/// Whether the statement of a number is written in a branch.
fn is_in_branch(statements: &[Statement], number: usize) -> bool
    requires { IsNested statements.now }
    ensures { result ≡ is_in_branch (statement_at (program_of statements.now) number) }
{
    match statements.get(number) {
        None => false,
        Some(statement) => match statement.under {
            None => false,
            Some(round) => is_booleanif_at(statements, round),
        },
    }
}

/// Whether the statement of a number is a booleanif.
fn is_booleanif_at(statements: &[Statement], number: usize) -> bool
    requires { IsNested statements.now }
    ensures { result ≡ is_conditional (statement_at (program_of statements.now) number).statement.keyword }
{
    match statements.get(number) {
        None => false,
        Some(statement) => is_conditional(statement.keyword),
    }
}

/// Tells a fault, if there is one.
fn report_if(
    alloc: Global,
    faults: &mut Vec<Fault>,
    wrong: bool,
    code: FaultCode,
    site: &Site,
) -> Result<(), NoMemory>
    requires { site.now.space ≤ length site.now.namespaces.now }
    ensures { OnOk result (faults.new.items ≡ faults.old.items ++ told_if wrong code (space_at site.now.namespaces.now site.now.space) site.now.word.now) }
{
    if !wrong {
        return Ok(());
    }
    let space = spelled(alloc, site.namespaces, site.space)?;
    let word = Bytes::copy_of(alloc, site.word.bytes.as_slice())?;
    faults.push(Fault {
        code,
        module: site.word.at.module,
        at: site.word.at.at,
        space,
        word,
    })?;
    Ok(())
}
