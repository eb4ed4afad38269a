//! What is wrong with blocks, told at the statements that have it: in the namespace in which each is written, at the name that
//! it declares or at the word of its target.

ghost use Rattle.std.specs.Prelude.{◌≡◌, ◌++◌, ◌∷◌, [], IfOk, OnOk, ℕ};
ghost use Rattle.std.specs.List.{flat_map};
ghost use Rattle.cil_syntax.specs.Program.{IsNested, program_of};
ghost use Rattle.cil_faults.specs.Reported.{fault_at};
ghost use Rattle.cil_faults.specs.Namespaces.{qualified};
ghost use Rattle.cil_blocks.specs.Entries.{statement_at};
ghost use Rattle.cil_blocks.specs.Reports.{name_fault, target_fault};
ghost use Rattle.cil_blocks.specs.WrittenSpaces.{AreWritten};

use crate::spelled::spelled;
use crate::written::WrittenSpaces;
use cil_base::NoMemory;
use cil_syntax::{Bytes, Fault, FaultCode, Spot, Statement, word_and_terms};
use std::alloc::Global;

/// What is wrong at a place: why, where, and at which word.
#[derive(Clone, Copy)]
pub struct Cause<'a> {
    pub code: FaultCode,
    pub at: Spot,
    pub word: &'a [u8],
}

/// The namespace in which a statement is written: the names of the blocks round it, the outermost first, joined by dots.
fn spelled_space(
    alloc: Global,
    statements: &[Statement],
    spaces: &WrittenSpaces,
    number: usize,
) -> Result<Bytes, NoMemory>
    requires nested { IsNested statements.now }
    requires written { AreWritten (program_of statements.now) spaces.now }
    ensures { IfOk result (λ space. space ≡ qualified (statement_at (program_of statements.now) number).context.space) }
{
    spelled(alloc, &spaces.namespaces, spaces.round(statements, number))
}

/// Tells a cause at a statement.
fn report(
    alloc: Global,
    faults: &mut Vec<Fault>,
    statements: &[Statement],
    spaces: &WrittenSpaces,
    number: usize,
    cause: &Cause,
) -> Result<(), NoMemory>
    requires nested { IsNested statements.now }
    requires written { AreWritten (program_of statements.now) spaces.now }
    ensures { OnOk result (faults.new.items ≡ faults.old.items ++ fault_at cause.now.code cause.now.at (statement_at (program_of statements.now) number).context.space cause.now.word.now ∷ []) }
{
    let space = spelled_space(alloc, statements, spaces, number)?;
    let word = Bytes::copy_of(alloc, cause.word)?;
    faults.push(Fault {
        code: cause.code,
        module: cause.at.module,
        at: cause.at.at,
        space,
        word,
    })?;
    Ok(())
}

/// Tells that the name of a statement is given twice, at the name.
fn report_name(
    alloc: Global,
    faults: &mut Vec<Fault>,
    statements: &[Statement],
    spaces: &WrittenSpaces,
    number: usize,
) -> Result<(), NoMemory>
    requires nested { IsNested statements.now }
    requires written { AreWritten (program_of statements.now) spaces.now }
    ensures { OnOk result (faults.new.items ≡ faults.old.items ++ name_fault (statement_at (program_of statements.now) number)) }
{
    let Some(statement) = statements.get(number) else {
        return Ok(());
    };
    let Some(name) = statement.declared_name() else {
        return Ok(());
    };
    let cause = Cause {
        code: FaultCode::NameTwice,
        at: name.at,
        word: name.bytes,
    };
    report(alloc, faults, statements, spaces, number, &cause)?;
    Ok(())
}

/// Tells what is wrong with the target of a statement, at its word.
fn report_target(
    alloc: Global,
    faults: &mut Vec<Fault>,
    statements: &[Statement],
    spaces: &WrittenSpaces,
    number: usize,
    code: FaultCode,
) -> Result<(), NoMemory>
    requires nested { IsNested statements.now }
    requires written { AreWritten (program_of statements.now) spaces.now }
    ensures { OnOk result (faults.new.items ≡ faults.old.items ++ target_fault code (statement_at (program_of statements.now) number)) }
{
    let Some(statement) = statements.get(number) else {
        return Ok(());
    };
    let Some(front) = word_and_terms(statement.args.as_slice(), statement.at.module) else {
        return Ok(());
    };
    let cause = Cause {
        code,
        at: front.word.at,
        word: front.word.bytes.as_slice(),
    };
    report(alloc, faults, statements, spaces, number, &cause)?;
    Ok(())
}

/// The faults of statements whose names are given twice.
pub fn name_faults(
    alloc: Global,
    statements: &[Statement],
    spaces: &WrittenSpaces,
    numbers: &[usize],
) -> Result<Vec<Fault>, NoMemory>
    requires nested { IsNested statements.now }
    requires written { AreWritten (program_of statements.now) spaces.now }
    ensures { IfOk result (λ faults. faults.items ≡ flat_map (λ i. name_fault (statement_at (program_of statements.now) i)) numbers.now) }
{
    let mut faults = Vec::new(alloc);
    for number in numbers {
        report_name(alloc, &mut faults, statements, spaces, *number)?;
    }
    Ok(faults)
}

/// The faults of statements with whose targets something is wrong.
pub fn target_faults(
    alloc: Global,
    statements: &[Statement],
    spaces: &WrittenSpaces,
    numbers: &[usize],
    code: FaultCode,
) -> Result<Vec<Fault>, NoMemory>
    requires nested { IsNested statements.now }
    requires written { AreWritten (program_of statements.now) spaces.now }
    ensures { IfOk result (λ faults. faults.items ≡ flat_map (λ i. target_fault code (statement_at (program_of statements.now) i)) numbers.now) }
{
    let mut faults = Vec::new(alloc);
    for number in numbers {
        report_target(alloc, &mut faults, statements, spaces, *number, code)?;
    }
    Ok(faults)
}
