//! The blocks that blockinherits name. They are looked up among the written blocks, in the namespaces round the place of
//! writing. A blockinherit costs a hash for each of these and each name of its word, and one search by halving.

ghost use Rattle.std.specs.Prelude.{◌≡◌, ◌<◌, ◌≤◌, ◌↔◌, ◌++◌, ℕ, Contains, IfOk, List, MatchOption, OnOk, Some, drop, length, take, true};
ghost use Rattle.std.specs.List.Sorted.{IsPermutation, IsSortedByKey};
ghost use Rattle.std.specs.Ordering.{nat_cmp};
ghost use Rattle.cil_syntax.specs.Program.{IsNested, program_of};
ghost use Rattle.cil_syntax.specs.Scopes.{names_backwards, scope_at};
ghost use Rattle.cil_syntax.specs.Written.{Written};
ghost use Rattle.cil_blocks.specs.Contents.{is_block};
ghost use Rattle.cil_blocks.specs.Entries.{AreBelow, statement_at};
ghost use Rattle.cil_blocks.specs.Named.{AreAllTargets, AreBlocks, AreFirstNamed, AreOfName, AreOfNumber, AreTargets, AreTargetsOf, asked_space, block_in};
ghost use Rattle.cil_blocks.specs.Namespaces.{AreNamespaces, HasNoNumber, IsNumber, space_at};
ghost use Rattle.cil_blocks.specs.Numbers.{number_in};
ghost use Rattle.cil_blocks.specs.WrittenSpaces.{AreNumbered, AreWritten};

use crate::names::{is_block, is_inheriting};
use crate::namespaces::Namespaces;
use crate::written::WrittenSpaces;
use cil_base::NoMemory;
use cil_syntax::{Keyword, Statement, parted, path_of, word_and_terms};
use std::alloc::Global;
use std::cmp::Ordering;

/// The numbers of the blocks of a program, in the order of the numbers of their namespaces. A sort is its cost.
pub fn blocks_of(
    alloc: Global,
    statements: &[Statement],
    spaces: &WrittenSpaces,
) -> Result<Vec<usize>, NoMemory>
    requires { IsNested statements.now }
    ensures { IfOk result (λ blocks. AreBlocks (program_of statements.now) spaces.now.numbers blocks.items) }
{
    let blocks = block_numbers(alloc, statements)?;
    Ok(by_namespace(spaces, blocks))
}

/// The numbers of the blocks, in the order of writing.
fn block_numbers(alloc: Global, statements: &[Statement]) -> Result<Vec<usize>, NoMemory>
    requires { IsNested statements.now }
    ensures { IfOk result (λ blocks. (b : ℕ) → Contains blocks.items b ↔ ((b < length statements.now) × (is_block (statement_at (program_of statements.now) b).statement.keyword ≡ true))) }
{
    let mut blocks = Vec::new(alloc);
    for (i, statement) in statements.iter().enumerate() {
        push_block(&mut blocks, i, statement.keyword)?;
    }
    Ok(blocks)
}

/// Adds the number of a statement, if that is a block.
fn push_block(blocks: &mut Vec<usize>, number: usize, keyword: Keyword) -> Result<(), NoMemory>
    ensures { OnOk result (blocks.new.items ≡ blocks.old.items ++ block_in number (is_block keyword)) }
{
    if !is_block(keyword) {
        return Ok(());
    }
    blocks.push(number)?;
    Ok(())
}

/// Blocks in the order of the numbers of their namespaces.
fn by_namespace(spaces: &WrittenSpaces, mut blocks: Vec<usize>) -> Vec<usize>
    ensures same { IsPermutation blocks.items result.items }
    ensures sorted { IsSortedByKey (λ b. number_in spaces.now.numbers (Some b)) nat_cmp result.items }
{
    blocks.sort_unstable_by(|a, b| compare_inside(spaces, *a, spaces.inside(Some(*b))));
    blocks
}

/// The order of the number of a block's namespace and of another number.
fn compare_inside(spaces: &WrittenSpaces, block: usize, space: usize) -> Ordering
    ensures { result ≡ nat_cmp (number_in spaces.now.numbers (Some block)) space }
{
    spaces.inside(Some(block)).cmp(&space)
}

/// The blocks whose namespace has a number.
fn blocks_in<'b>(spaces: &WrittenSpaces, blocks: &'b [usize], space: usize) -> &'b [usize]
    requires { IsSortedByKey (λ b. number_in spaces.now.numbers (Some b)) nat_cmp blocks.now }
    ensures { AreOfNumber spaces.now.numbers blocks.now space result.now }
{
    let first = blocks.partition_point(|b| compare_inside(spaces, *b, space).is_lt());
    let rest = from(blocks, first);
    let count = rest.partition_point(|b| !compare_inside(spaces, *b, space).is_gt());
    up_to(rest, count)
}

/// The number of the namespace that a path leads to from another one: the first name in this one, each other name in that of
/// the name before it. None where it is not there.
fn space_named(namespaces: &Namespaces, from: usize, path: &[u8]) -> Option<usize>
    requires once { AreNamespaces namespaces.now }
    requires within { from ≤ length namespaces.now }
    ensures { MatchOption result (HasNoNumber namespaces.now (names_backwards path.now ++ space_at namespaces.now from)) (IsNumber namespaces.now (names_backwards path.now ++ space_at namespaces.now from)) }
{
    let mut space = from;
    let mut rest = path;
    while let Some(parts) = parted(rest) {
        space = namespaces.child(space, parts.first)?;
        rest = parts.rest;
    }
    namespaces.child(space, rest)
}

/// The blocks that a path names in a namespace.
fn blocks_named<'b>(
    spaces: &WrittenSpaces,
    blocks: &'b [usize],
    path: &[u8],
    from: usize,
) -> &'b [usize]
    requires once { AreNamespaces spaces.now.namespaces }
    requires within { from ≤ length spaces.now.namespaces }
    requires sorted { IsSortedByKey (λ b. number_in spaces.now.numbers (Some b)) nat_cmp blocks.now }
    ensures { (ws : List Written) → AreNumbered ws spaces.now.namespaces spaces.now.numbers → AreOfName ws blocks.now (names_backwards path.now ++ space_at spaces.now.namespaces from) result.now }
{
    match space_named(&spaces.namespaces, from, path) {
        None => &[],
        Some(space) => blocks_in(spaces, blocks, space),
    }
}

/// The blocks that a path names in the first namespace that has one, from one of a number outwards.
fn first_named<'b>(
    spaces: &WrittenSpaces,
    blocks: &'b [usize],
    path: &[u8],
    from: usize,
) -> &'b [usize]
    requires within { from ≤ length spaces.now.namespaces }
    requires sorted { IsSortedByKey (λ b. number_in spaces.now.numbers (Some b)) nat_cmp blocks.now }
    ensures { (ws : List Written) → AreNumbered ws spaces.now.namespaces spaces.now.numbers → AreFirstNamed ws blocks.now (names_backwards path.now) (scope_at (space_at spaces.now.namespaces from)) result.now }
{
    let mut at = from;
    while let Some(space) = spaces.namespaces.get(at) {
        let found = blocks_named(spaces, blocks, path, at);
        if !found.is_empty() {
            return found;
        }
        at = space.outer;
    }
    blocks_named(spaces, blocks, path, 0)
}

/// The numbers of the blocks that a statement names with the word in front of it: among the written blocks, in the first
/// namespace round the place of writing that has one. None where it begins with no word.
pub fn targets_at<'b>(
    statements: &[Statement],
    spaces: &WrittenSpaces,
    blocks: &'b [usize],
    number: usize,
) -> &'b [usize]
    requires nested { IsNested statements.now }
    requires written { AreWritten (program_of statements.now) spaces.now }
    requires listed { AreBlocks (program_of statements.now) spaces.now.numbers blocks.now }
    ensures named { AreTargets (program_of statements.now) number result.now }
    ensures numbers { AreBelow (length (program_of statements.now)) result.now }
{
    let Some(statement) = statements.get(number) else {
        return &[];
    };
    let Some(front) = word_and_terms(statement.args.as_slice(), statement.at.module) else {
        return &[];
    };
    let path = path_of(front.word.bytes.as_slice());
    let from = asked_from(statements, spaces, number, path.global);
    first_named(spaces, blocks, path.names, from)
}

/// The number of the namespace in which a word of a statement is looked up first: with a leading dot that of the global one.
fn asked_from(
    statements: &[Statement],
    spaces: &WrittenSpaces,
    number: usize,
    global: bool,
) -> usize
    requires nested { IsNested statements.now }
    requires written { AreWritten (program_of statements.now) spaces.now }
    ensures { IsNumber spaces.now.namespaces (asked_space global (statement_at (program_of statements.now) number).context.space) result }
{
    if global {
        0
    } else {
        spaces.round(statements, number)
    }
}

/// For each statement, by its number, the blocks that it names, if it is a blockinherit.
#[derive(Debug, Drop)]
pub struct Targets<'b> {
    lists: Vec<&'b [usize]>,
}

impl<'b> Targets<'b> {
    ghost use Rattle.std.specs.Prelude.{◌≡◌};
    ghost use Rattle.cil_blocks.specs.Named.{targets_in};

    /// The numbers of the blocks that the statement of a number names; none where it is no blockinherit.
    pub fn at(&self, number: usize) -> &'b [usize]
        ensures { result.now ≡ targets_in self.now number }
    {
        match self.lists.get(number) {
            None => &[],
            Some(list) => *list,
        }
    }
}

/// The targets of all blockinherits of a program.
pub fn targets_of<'b>(
    alloc: Global,
    statements: &[Statement],
    spaces: &WrittenSpaces,
    blocks: &'b [usize],
) -> Result<Targets<'b>, NoMemory>
    requires nested { IsNested statements.now }
    requires written { AreWritten (program_of statements.now) spaces.now }
    requires listed { AreBlocks (program_of statements.now) spaces.now.numbers blocks.now }
    ensures { IfOk result (AreAllTargets (program_of statements.now)) }
{
    let mut lists = Vec::with_capacity(alloc, statements.len())?;
    for number in 0..statements.len() {
        lists.push(targets_kept(statements, spaces, blocks, number))?;
    }
    Ok(Targets { lists })
}

/// The targets of a statement, if it is a blockinherit.
fn targets_kept<'b>(
    statements: &[Statement],
    spaces: &WrittenSpaces,
    blocks: &'b [usize],
    number: usize,
) -> &'b [usize]
    requires nested { IsNested statements.now }
    requires written { AreWritten (program_of statements.now) spaces.now }
    requires listed { AreBlocks (program_of statements.now) spaces.now.numbers blocks.now }
    requires within { number < length statements.now }
    ensures { AreTargetsOf (program_of statements.now) number result.now }
{
    if !is_inheriting(statements[number].keyword) {
        return &[];
    }
    targets_at(statements, spaces, blocks, number)
}

/// Numbers from a place on.
pub fn from(numbers: &[usize], start: usize) -> &[usize]
    requires { start ≤ length numbers.now }
    ensures { result.now ≡ drop start numbers.now }
{
    &numbers[start..]
}

/// The first so many numbers.
pub fn up_to(numbers: &[usize], end: usize) -> &[usize]
    requires { end ≤ length numbers.now }
    ensures { result.now ≡ take end numbers.now }
{
    &numbers[..end]
}
