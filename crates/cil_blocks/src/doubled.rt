//! The blocks and macros that share their name with another one. In writing, a sort by the number of the namespace and by the
//! name, and two searches by halving for each of them are the cost; what standing costs says `seeds.rt`.

ghost use Rattle.std.specs.Prelude.{◌≡◌, ◌<◌, ◌↔◌, ◌++◌, ℕ, Contains, IfOk, OnOk, length, true};
ghost use Rattle.std.specs.List.Sorted.{IsPermutation, IsSortedByKey};
ghost use Rattle.cil_syntax.specs.Program.{IsNested, program_of};
ghost use Rattle.cil_blocks.specs.Contents.{is_named};
ghost use Rattle.cil_blocks.specs.Doubled.{AreAlike, AreDoubled, AreOthers, AreWrittenTwice, HasOther, is_named_at, only_if};
ghost use Rattle.cil_blocks.specs.Entries.{AreParts};
ghost use Rattle.cil_blocks.specs.Named.{AreAllTargets};
ghost use Rattle.cil_blocks.specs.WrittenSpaces.{AreWritten, numbered_cmp, numbered_name};

use crate::names::name_at;
use crate::parts::Parts;
use crate::seeds::standing_twice;
use crate::targets::{Targets, from, up_to};
use crate::written::WrittenSpaces;
use cil_base::NoMemory;
use cil_syntax::{Keyword, Statement};
use std::alloc::Global;
use std::cmp::Ordering;

/// The numbers of the blocks and macros that share their name with another one: written in one namespace, or standing in
/// one. A number may come more than once.
pub fn doubled_of(
    alloc: Global,
    statements: &[Statement],
    spaces: &WrittenSpaces,
    parts: &Parts,
    targets: &Targets,
) -> Result<Vec<usize>, NoMemory>
    requires nested { IsNested statements.now }
    requires written { AreWritten (program_of statements.now) spaces.now }
    requires parts { AreParts (program_of statements.now) parts.now }
    requires targets { AreAllTargets (program_of statements.now) targets.now }
    ensures { IfOk result (λ found. AreDoubled (program_of statements.now) (length statements.now) found.items) }
{
    let mut found = written_twice(alloc, statements, spaces)?;
    let standing = standing_twice(alloc, statements, parts, targets)?;
    found.extend_from_slice(standing.as_slice())?;
    Ok(found)
}

/// The numbers of the blocks and macros that share their name with another one that is written in the same namespace.
pub fn written_twice(
    alloc: Global,
    statements: &[Statement],
    spaces: &WrittenSpaces,
) -> Result<Vec<usize>, NoMemory>
    requires nested { IsNested statements.now }
    requires written { AreWritten (program_of statements.now) spaces.now }
    ensures { IfOk result (λ found. AreWrittenTwice (program_of statements.now) (length statements.now) found.items) }
{
    let named = by_written_name(statements, spaces, named_numbers(alloc, statements)?);
    with_others(alloc, statements, spaces, named.as_slice())
}

/// Of some numbers those that share their full name with another one.
fn with_others(
    alloc: Global,
    statements: &[Statement],
    spaces: &WrittenSpaces,
    named: &[usize],
) -> Result<Vec<usize>, NoMemory>
    requires nested { IsNested statements.now }
    requires sorted { IsSortedByKey (numbered_name statements.now spaces.now.numbers) numbered_cmp named.now }
    ensures { IfOk result (λ found. AreOthers (numbered_name statements.now spaces.now.numbers) named.now found.items) }
{
    let mut found = Vec::new(alloc);
    for number in named {
        let alike = written_alike(statements, spaces, named, *number);
        push_if(&mut found, *number, has_other(alike, *number))?;
    }
    Ok(found)
}

/// The numbers of the blocks and macros, in the order of writing.
fn named_numbers(alloc: Global, statements: &[Statement]) -> Result<Vec<usize>, NoMemory>
    requires { IsNested statements.now }
    ensures { IfOk result (λ named. (i : ℕ) → Contains named.items i ↔ ((i < length statements.now) × (is_named_at (program_of statements.now) i ≡ true))) }
{
    let mut named = Vec::new(alloc);
    for (i, statement) in statements.iter().enumerate() {
        push_if(&mut named, i, is_named(statement.keyword))?;
    }
    Ok(named)
}

pub fn is_named(keyword: Keyword) -> bool
    ensures { result ≡ is_named keyword }
{
    matches!(keyword, Keyword::Block | Keyword::Macro)
}

/// Adds a number, if it is wanted.
pub fn push_if(numbers: &mut Vec<usize>, number: usize, wanted: bool) -> Result<(), NoMemory>
    ensures { OnOk result (numbers.new.items ≡ numbers.old.items ++ only_if wanted number) }
{
    if !wanted {
        return Ok(());
    }
    numbers.push(number)?;
    Ok(())
}

/// Statements in the order of the numbers of their namespaces, and those of one namespace by their names.
fn by_written_name(
    statements: &[Statement],
    spaces: &WrittenSpaces,
    mut numbers: Vec<usize>,
) -> Vec<usize>
    requires { IsNested statements.now }
    ensures same { IsPermutation numbers.items result.items }
    ensures sorted { IsSortedByKey (numbered_name statements.now spaces.now.numbers) numbered_cmp result.items }
{
    numbers.sort_unstable_by(|a, b| compare_written(statements, spaces, *a, *b));
    numbers
}

/// The order of the namespaces in which two statements are written, by their numbers, and then of their names.
fn compare_written(statements: &[Statement], spaces: &WrittenSpaces, a: usize, b: usize) -> Ordering
    ensures { IsNested statements.now → result ≡ numbered_cmp (numbered_name statements.now spaces.now.numbers a) (numbered_name statements.now spaces.now.numbers b) }
{
    let order = spaces
        .round(statements, a)
        .cmp(&spaces.round(statements, b));
    if order.is_ne() {
        return order;
    }
    name_at(statements, a).cmp(name_at(statements, b))
}

/// Those of some statements that have the full name of one.
fn written_alike<'n>(
    statements: &[Statement],
    spaces: &WrittenSpaces,
    numbers: &'n [usize],
    number: usize,
) -> &'n [usize]
    requires nested { IsNested statements.now }
    requires sorted { IsSortedByKey (numbered_name statements.now spaces.now.numbers) numbered_cmp numbers.now }
    ensures { AreAlike (numbered_name statements.now spaces.now.numbers) numbers.now number result.now }
{
    let first = numbers.partition_point(|b| compare_written(
        statements, spaces, *b, number,
    ).is_lt());
    let rest = from(numbers, first);
    let count = rest.partition_point(|b| !compare_written(statements, spaces, *b, number).is_gt());
    up_to(rest, count)
}

/// Whether some numbers have another one than this.
pub fn has_other(numbers: &[usize], number: usize) -> bool
    ensures { HasOther numbers.now number ↔ (result ≡ true) }
{
    for other in numbers {
        if *other != number {
            return true;
        }
    }
    false
}
