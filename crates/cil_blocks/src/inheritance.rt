//! Blocks and inheritance as a step of the compiler: all that stands in each namespace, or exactly what is wrong with the
//! blocks. What each pass costs stands in the header of its module.

ghost use Rattle.std.specs.Prelude.{◌≡◌, ◌↔◌, ◌<◌, IfOk, IsTrue, length};
ghost use Rattle.cil_faults.specs.declared.code.FaultCode.TheVariants as causes;
ghost use Rattle.cil_faults.specs.Fails.{AreFaults};
ghost use Rattle.cil_syntax.specs.Program.{IsNested, program_of};
ghost use Rattle.cil_faults.specs.Refusal.{Answers};
ghost use Rattle.cil_blocks.specs.Entries.{AreOpened, AreParts, statement_at};
ghost use Rattle.cil_blocks.specs.InheritFaults.{InheritFault, InheritStep, IsDoubled, limit_fault, most_instances};
ghost use Rattle.cil_blocks.specs.Laws.{HasNoFault};
ghost use Rattle.cil_blocks.specs.Named.{AreAllTargets};
ghost use Rattle.cil_blocks.specs.Places.{AreStandings, statements_in};
ghost use Rattle.cil_blocks.specs.Reports.{AreAllFaults, AreContents, AreJoined, AreNumbersOf, IsCyclic, IsToldOf, IsUnresolved, name_fault, target_fault};
ghost use Rattle.cil_blocks.specs.WrittenSpaces.{AreWritten};

use crate::contents::contents_of;
use crate::cycles::cycles_of;
use crate::doubled::{doubled_of, push_if};
use crate::entry::Entry;
use crate::laws;
use crate::names::is_inheriting;
use crate::opened::opened_of;
use crate::parts::{Parts, parts_of};
use crate::placing::places_of;
use crate::reports::{name_faults, target_faults};
use crate::spaces::Spaces;
use crate::targets::{Targets, blocks_of, targets_of};
use crate::written::{WrittenSpaces, written_spaces};
use cil_base::NoMemory;
use cil_syntax::{Bytes, Failure, Fault, FaultCode, FaultList, Program, Statement};
use std::alloc::Global;

/// How many statements may stand in all namespaces together, each counted once for each way through which it came.
pub const MOST_INSTANCES: usize = 1_000_000;

/// All that stands in the namespaces of a program. (CIL Reference Guide, "Container Statements"; for the scopes and the
/// faults this project's profile.)
///
/// Errors: the faults of names that are given twice, of targets that are no block, and of targets that lead back to where
/// they are inherited; where there is none of these, one fault if more than 1,000,000 statements stand; or out of memory.
pub fn inherit<'p, 'a>(alloc: Global, program: &'p Program<'a>) -> Result<Spaces<'p, 'a>, Failure>
    ensures { Answers (λ s. (statements_in s ≡ program.now) × AreStandings s) (InheritStep (program_of program.now)) result }
{
    let statements = program.statements();
    let parts = parts_of(alloc, statements)?;
    let spaces = written_spaces(alloc, statements)?;
    let opened = all_opened(alloc, statements, &spaces, &parts)?;
    let entries = entries_of(alloc, statements, &parts, opened.as_slice())?;
    let located = places_of(
        alloc,
        statements,
        spaces,
        opened.as_slice(),
        entries.as_slice(),
    )?;
    Ok(Spaces {
        statements,
        entries,
        located,
    })
}

/// For each statement the number of the one whose parts it opens, if it opens any; or exactly what is wrong with the blocks of a
/// program.
fn all_opened(
    alloc: Global,
    statements: &[Statement],
    spaces: &WrittenSpaces,
    parts: &Parts,
) -> Result<Vec<Option<usize>>, Failure>
    requires nested { IsNested statements.now }
    requires written { AreWritten (program_of statements.now) spaces.now }
    requires parts { AreParts (program_of statements.now) parts.now }
    ensures { Answers (λ opened. AreOpened (program_of statements.now) opened.items) (InheritFault (program_of statements.now)) result }
{
    let blocks = blocks_of(alloc, statements, spaces)?;
    let targets = targets_of(alloc, statements, spaces, blocks.as_slice())?;
    check_blocks(alloc, statements, spaces, parts, &targets)?;
    // Where nothing is wrong, each blockinherit has one target.
    laws::one_target();
    let opened = opened_of(alloc, statements, parts, &targets)?;
    Ok(opened)
}

/// All that stands in a program in which nothing is wrong with the blocks; or the fault of more statements than may stand.
fn entries_of(
    alloc: Global,
    statements: &[Statement],
    parts: &Parts,
    opened: &[Option<usize>],
) -> Result<Vec<Entry>, Failure>
    requires nested { IsNested statements.now }
    requires lawful { HasNoFault (program_of statements.now) }
    requires parts { AreParts (program_of statements.now) parts.now }
    requires opened { AreOpened (program_of statements.now) opened.now }
    ensures { Answers (λ entries. AreContents statements.now entries.items) (InheritStep (program_of statements.now)) result }
{
    match contents_of(alloc, statements, parts, opened, MOST_INSTANCES)? {
        Some(entries) => Ok(entries),
        None => Err(Failure::Faults(over_the_limit(alloc)?)),
    }
}

/// Refuses what is wrong with the blocks of a program.
fn check_blocks(
    alloc: Global,
    statements: &[Statement],
    spaces: &WrittenSpaces,
    parts: &Parts,
    targets: &Targets,
) -> Result<(), Failure>
    requires nested { IsNested statements.now }
    requires written { AreWritten (program_of statements.now) spaces.now }
    requires parts { AreParts (program_of statements.now) parts.now }
    requires targets { AreAllTargets (program_of statements.now) targets.now }
    ensures { Answers (λ done. Unit {0}) (InheritFault (program_of statements.now)) result }
{
    // A target encloses a blockinherit where it leads back to it.
    laws::cycle();
    let doubled = doubled_faults(alloc, statements, spaces, parts, targets)?;
    let unresolved = unresolved_faults(alloc, statements, spaces, targets)?;
    let cyclic = cycle_faults(alloc, statements, spaces, parts, targets)?;
    let faults = both(both(doubled, unresolved)?, cyclic)?;
    match faults {
        None => Ok(()),
        Some(list) => Err(Failure::Faults(list)),
    }
}

/// The faults of blocks and macros whose names are given twice.
fn doubled_faults(
    alloc: Global,
    statements: &[Statement],
    spaces: &WrittenSpaces,
    parts: &Parts,
    targets: &Targets,
) -> Result<Option<FaultList>, NoMemory>
    requires nested { IsNested statements.now }
    requires written { AreWritten (program_of statements.now) spaces.now }
    requires parts { AreParts (program_of statements.now) parts.now }
    requires targets { AreAllTargets (program_of statements.now) targets.now }
    ensures { IfOk result (AreAllFaults (IsToldOf (program_of statements.now) (IsDoubled (program_of statements.now)) name_fault)) }
{
    let numbers = doubled_of(alloc, statements, spaces, parts, targets)?;
    let faults = name_faults(alloc, statements, spaces, numbers.as_slice())?;
    Ok(FaultList::of(faults))
}

/// The faults of blockinherits whose words name no block.
fn unresolved_faults(
    alloc: Global,
    statements: &[Statement],
    spaces: &WrittenSpaces,
    targets: &Targets,
) -> Result<Option<FaultList>, NoMemory>
    requires nested { IsNested statements.now }
    requires written { AreWritten (program_of statements.now) spaces.now }
    requires targets { AreAllTargets (program_of statements.now) targets.now }
    ensures { IfOk result (AreAllFaults (IsToldOf (program_of statements.now) (IsUnresolved (program_of statements.now)) (target_fault causes.InheritUnresolved))) }
{
    let numbers = unresolved_of(alloc, statements, targets)?;
    let faults = target_faults(
        alloc,
        statements,
        spaces,
        numbers.as_slice(),
        FaultCode::InheritUnresolved,
    )?;
    Ok(FaultList::of(faults))
}

/// The faults of blockinherits whose targets lead back to where they stand.
fn cycle_faults(
    alloc: Global,
    statements: &[Statement],
    spaces: &WrittenSpaces,
    parts: &Parts,
    targets: &Targets,
) -> Result<Option<FaultList>, NoMemory>
    requires nested { IsNested statements.now }
    requires written { AreWritten (program_of statements.now) spaces.now }
    requires parts { AreParts (program_of statements.now) parts.now }
    requires targets { AreAllTargets (program_of statements.now) targets.now }
    ensures { IfOk result (AreAllFaults (IsToldOf (program_of statements.now) (IsCyclic (program_of statements.now)) (target_fault causes.InheritCycle))) }
{
    let numbers = cycles_of(alloc, statements, parts, targets)?;
    let faults = target_faults(
        alloc,
        statements,
        spaces,
        numbers.as_slice(),
        FaultCode::InheritCycle,
    )?;
    Ok(FaultList::of(faults))
}

/// The numbers of the blockinherits without a target.
fn unresolved_of(
    alloc: Global,
    statements: &[Statement],
    targets: &Targets,
) -> Result<Vec<usize>, NoMemory>
    requires nested { IsNested statements.now }
    requires targets { AreAllTargets (program_of statements.now) targets.now }
    ensures { IfOk result (λ numbers. AreNumbersOf (program_of statements.now) (IsUnresolved (program_of statements.now)) numbers.items) }
{
    let mut numbers = Vec::new(alloc);
    for number in 0..statements.len() {
        let unresolved = is_unresolved(statements, targets, number);
        push_if(&mut numbers, number, unresolved)?;
    }
    Ok(numbers)
}

/// Whether a statement is a blockinherit without a target.
fn is_unresolved(statements: &[Statement], targets: &Targets, number: usize) -> bool
    requires nested { IsNested statements.now }
    requires targets { AreAllTargets (program_of statements.now) targets.now }
    requires within { number < length statements.now }
    ensures { IsTrue result ↔ IsUnresolved (program_of statements.now) (statement_at (program_of statements.now) number) }
{
    if !is_inheriting(statements[number].keyword) {
        return false;
    }
    targets.at(number).is_empty()
}

/// The faults of both lists.
fn both(one: Option<FaultList>, other: Option<FaultList>) -> Result<Option<FaultList>, NoMemory>
    ensures { IfOk result (AreJoined one other) }
{
    let Some(list) = one else {
        return Ok(other);
    };
    let Some(more) = other else {
        return Ok(Some(list));
    };
    Ok(Some(list.join(more)?))
}

/// The fault of more statements than may stand: that of the whole policy, at no place.
pub fn over_the_limit(alloc: Global) -> Result<FaultList, NoMemory>
    ensures { IfOk result (AreFaults (λ f. f ≡ limit_fault)) }
{
    let mut faults = Vec::new(alloc);
    faults.push(Fault {
        code: FaultCode::ExpansionLimit,
        module: 0,
        at: 0,
        space: Bytes::from_vec(Vec::new(alloc)),
        word: Bytes::from_vec(Vec::new(alloc)),
    })?;
    match FaultList::of(faults) {
        Some(list) => Ok(list),
        None => unreachable!(),
    }
}
