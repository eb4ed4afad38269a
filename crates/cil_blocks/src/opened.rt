//! What each statement opens where it stands: an optional, a booleanif, and a block that is not abstract, what is in it; a blockinherit
//! what is in its target. A block costs a look at each statement directly in it.

ghost use Rattle.std.specs.Prelude.{◌≡◌, ◌<◌, IfOk, Some, length};
ghost use Rattle.std.specs.List.{list_any};
ghost use Rattle.cil_syntax.specs.Program.{IsNested, program_of};
ghost use Rattle.cil_syntax.specs.Written.{is_abstraction};
ghost use Rattle.cil_blocks.specs.Contents.{is_inheriting};
ghost use Rattle.cil_blocks.specs.Entries.{AreBelow, AreOpened, AreParts, SaysOpened, first_number, opened_block, opened_of, parts_at, statement_at};
ghost use Rattle.cil_blocks.specs.Laws.{HasOneTarget};
ghost use Rattle.cil_blocks.specs.Named.{AreAllTargets};

use crate::names::{is_block, is_inheriting, keeps_place};
use crate::parts::Parts;
use crate::targets::Targets;
use crate::walker::parts_at;
use cil_base::NoMemory;
use cil_syntax::{Keyword, Statement};
use std::alloc::Global;

/// For each statement the number of the one whose parts it opens, if it opens any, where each blockinherit has one target.
pub fn opened_of(
    alloc: Global,
    statements: &[Statement],
    parts: &Parts,
    targets: &Targets,
) -> Result<Vec<Option<usize>>, NoMemory>
    requires nested { IsNested statements.now }
    requires parts { AreParts (program_of statements.now) parts.now }
    requires targets { AreAllTargets (program_of statements.now) targets.now }
    ensures { IfOk result (λ opened. HasOneTarget (program_of statements.now) → AreOpened (program_of statements.now) opened.items) }
{
    let mut opened = Vec::with_capacity(alloc, statements.len())?;
    for number in 0..statements.len() {
        opened.push(opened_at(statements, parts, targets, number))?;
    }
    Ok(opened)
}

fn opened_at(
    statements: &[Statement],
    parts: &Parts,
    targets: &Targets,
    number: usize,
) -> Option<usize>
    requires nested { IsNested statements.now }
    requires parts { AreParts (program_of statements.now) parts.now }
    requires targets { AreAllTargets (program_of statements.now) targets.now }
    requires within { number < length statements.now }
    ensures { HasOneTarget (program_of statements.now) → SaysOpened (program_of statements.now) (Some result) (opened_of (program_of statements.now) (statement_at (program_of statements.now) number)) }
{
    let keyword = statements[number].keyword;
    if is_block(keyword) {
        return opened_block(statements, parts, number);
    }
    if is_inheriting(keyword) {
        return first_number(targets.at(number));
    }
    if keeps_place(keyword) {
        return Some(number);
    }
    None
}

/// The first of some numbers.
fn first_number(numbers: &[usize]) -> Option<usize>
    ensures { result ≡ first_number numbers.now }
{
    match numbers {
        [] => None,
        [first, ..] => Some(*first),
    }
}

/// The number of a block, if it is not abstract.
pub fn opened_block(statements: &[Statement], parts: &Parts, number: usize) -> Option<usize>
    requires nested { IsNested statements.now }
    requires parts { AreParts (program_of statements.now) parts.now }
    requires within { number < length statements.now }
    ensures { SaysOpened (program_of statements.now) (Some result) (opened_block (program_of statements.now) (statement_at (program_of statements.now) number)) }
{
    if has_mark(statements, parts_at(parts, number)) {
        None
    } else {
        Some(number)
    }
}

/// Whether one of some statements marks the block in which it is as abstract.
fn has_mark(statements: &[Statement], numbers: &[usize]) -> bool
    requires nested { IsNested statements.now }
    requires within { AreBelow (length statements.now) numbers.now }
    ensures { result ≡ list_any (λ k. is_abstraction (statement_at (program_of statements.now) k).statement.keyword) numbers.now }
{
    for number in numbers {
        if is_mark_at(statements, *number) {
            return true;
        }
    }
    false
}

fn is_mark_at(statements: &[Statement], number: usize) -> bool
    requires nested { IsNested statements.now }
    requires within { number < length statements.now }
    ensures { result ≡ is_abstraction (statement_at (program_of statements.now) number).statement.keyword }
{
    is_mark(statements[number].keyword)
}

fn is_mark(keyword: Keyword) -> bool
    ensures { result ≡ is_abstraction keyword }
{
    matches!(keyword, Keyword::BlockAbstract)
}
