//! What a seed gives to a namespace: the blocks and macros directly in it and in the blocks that are handed to it. A seed
//! costs a step for each statement directly in these bodies, a sort of the blocks and macros among them, and for each of
//! these blocks a look at the statements directly in it, up to a mark that it is abstract.

ghost use Rattle.std.specs.Prelude.{◌≡◌, ◌<◌, ◌↔◌, ◌++◌, ℕ, IfOk, OnOk, flat_map, length, true};
ghost use Rattle.std.specs.List.Sorted.{IsPermutation, IsSortedByKey};
ghost use Rattle.cil_base.specs.Lists.{text_cmp};
ghost use Rattle.cil_syntax.specs.Program.{IsNested, program_of};
ghost use Rattle.cil_blocks.specs.Doubled.{AreKept, AreThose, is_named_at};
ghost use Rattle.cil_blocks.specs.Entries.{AreParts};
ghost use Rattle.cil_blocks.specs.Seeds.{AreMembers, IsGivenBy, IsJoined, IsMember, IsOpen, Reaches, bodies, body_parts, handed_to, own_name};

use crate::doubled::{is_named, push_if};
use crate::names::{is_block_at, name_at};
use crate::opened::opened_block;
use crate::parts::Parts;
use crate::targets::Targets;
use crate::walker::parts_at;
use cil_base::NoMemory;
use cil_syntax::Statement;
use indexmap::IndexSet;
use std::alloc::Global;
use std::cmp::Ordering;

/// The blocks and macros of a seed, in the order of their own names.
#[derive(Drop)]
pub struct Members {
    pub named: Vec<usize>,
    /// The blocks among them that are not abstract.
    pub open_blocks: Vec<usize>,
}

/// The blocks and macros of a seed.
pub fn members_of(
    alloc: Global,
    statements: &[Statement],
    parts: &Parts,
    targets: &Targets,
    seed: Option<usize>,
) -> Result<Members, NoMemory>
    requires nested { IsNested statements.now }
    requires parts { AreParts (program_of statements.now) parts.now }
    ensures { IfOk result (AreMembers (program_of statements.now) parts.now targets.now seed) }
{
    let named = named_of(alloc, statements, parts, targets, seed)?;
    let open_blocks = open_among(alloc, statements, parts, named.as_slice())?;
    Ok(Members {
        named: by_own_name(statements, named),
        open_blocks: by_own_name(statements, open_blocks),
    })
}

/// The blocks and macros of a seed, in no order.
fn named_of(
    alloc: Global,
    statements: &[Statement],
    parts: &Parts,
    targets: &Targets,
    seed: Option<usize>,
) -> Result<Vec<usize>, NoMemory>
    requires { IsNested statements.now }
    ensures { IfOk result (λ named. AreThose (IsMember (program_of statements.now) parts.now targets.now seed) named.items) }
{
    let all = all_of(alloc, parts, targets, seed)?;
    named_among(alloc, statements, all.as_slice())
}

/// The statements of a seed.
fn all_of(
    alloc: Global,
    parts: &Parts,
    targets: &Targets,
    seed: Option<usize>,
) -> Result<Vec<usize>, NoMemory>
    ensures { IfOk result (λ all. AreThose (IsGivenBy parts.now targets.now seed) all.items) }
{
    let reached = reached_from(alloc, parts, targets, seed)?;
    all_in(alloc, parts, reached.as_slice())
}

/// The seed, and the bodies that are handed to its namespace. The set is its own queue.
pub fn reached_from(
    alloc: Global,
    parts: &Parts,
    targets: &Targets,
    seed: Option<usize>,
) -> Result<IndexSet<Option<usize>>, NoMemory>
    ensures { IfOk result (λ reached. AreThose (Reaches parts.now targets.now seed) reached.keys) }
{
    let mut reached = IndexSet::new(alloc);
    reached.insert(seed)?;
    let mut at = 0;
    while at < reached.len() {
        let body = reached.as_slice()[at];
        hand_on(alloc, parts, targets, body, &mut reached)?;
        at += 1;
    }
    Ok(reached)
}

/// Puts the bodies that are handed to another one behind those of a set, but for those that are there.
fn hand_on(
    alloc: Global,
    parts: &Parts,
    targets: &Targets,
    body: Option<usize>,
    reached: &mut IndexSet<Option<usize>>,
) -> Result<(), NoMemory>
    ensures { OnOk result (IsJoined (handed_to parts.now targets.now body) reached.old.keys reached.new.keys) }
{
    let handed = handed_to(alloc, parts, targets, body)?;
    insert_bodies(reached, handed.as_slice())
}

/// Puts some bodies behind those of a set, but for those that are there.
pub fn insert_bodies(
    reached: &mut IndexSet<Option<usize>>,
    more: &[Option<usize>],
) -> Result<(), NoMemory>
    ensures { OnOk result (IsJoined more.now reached.old.keys reached.new.keys) }
{
    for body in more {
        reached.insert(*body)?;
    }
    Ok(())
}

/// The targets of the blockinherits directly in a body.
fn handed_to(
    alloc: Global,
    parts: &Parts,
    targets: &Targets,
    body: Option<usize>,
) -> Result<Vec<Option<usize>>, NoMemory>
    ensures { IfOk result (λ handed. handed.items ≡ handed_to parts.now targets.now body) }
{
    let mut handed = Vec::new(alloc);
    for number in body_parts(parts, body) {
        push_blocks(&mut handed, targets.at(*number))?;
    }
    Ok(handed)
}

/// Puts blocks behind some bodies.
fn push_blocks(handed: &mut Vec<Option<usize>>, numbers: &[usize]) -> Result<(), NoMemory>
    ensures { OnOk result (handed.new.items ≡ handed.old.items ++ bodies numbers.now) }
{
    for number in numbers {
        handed.push(Some(*number))?;
    }
    Ok(())
}

/// The statements directly in a body.
fn body_parts(parts: &Parts, body: Option<usize>) -> &[usize]
    ensures { result.now ≡ body_parts parts.now body }
{
    match body {
        None => parts.tops.as_slice(),
        Some(number) => parts_at(parts, number),
    }
}

/// The statements directly in some bodies.
fn all_in(alloc: Global, parts: &Parts, bodies: &[Option<usize>]) -> Result<Vec<usize>, NoMemory>
    ensures { IfOk result (λ all. all.items ≡ flat_map (body_parts parts.now) bodies.now) }
{
    let mut all = Vec::new(alloc);
    for body in bodies {
        all.extend_from_slice(body_parts(parts, *body))?;
    }
    Ok(all)
}

/// The blocks and macros among some statements.
fn named_among(
    alloc: Global,
    statements: &[Statement],
    numbers: &[usize],
) -> Result<Vec<usize>, NoMemory>
    requires { IsNested statements.now }
    ensures { IfOk result (λ found. AreKept (λ i. is_named_at (program_of statements.now) i ≡ true) numbers.now found.items) }
{
    let mut found = Vec::new(alloc);
    for number in numbers {
        push_if(&mut found, *number, is_named_at(statements, *number))?;
    }
    Ok(found)
}

/// Whether a statement is a block or a macro.
fn is_named_at(statements: &[Statement], number: usize) -> bool
    requires { IsNested statements.now }
    ensures { result ≡ is_named_at (program_of statements.now) number }
{
    match statements.get(number) {
        None => false,
        Some(statement) => is_named(statement.keyword),
    }
}

/// The blocks among some statements that are not abstract.
fn open_among(
    alloc: Global,
    statements: &[Statement],
    parts: &Parts,
    numbers: &[usize],
) -> Result<Vec<usize>, NoMemory>
    requires nested { IsNested statements.now }
    requires parts { AreParts (program_of statements.now) parts.now }
    ensures { IfOk result (λ found. AreKept (IsOpen (program_of statements.now)) numbers.now found.items) }
{
    let mut found = Vec::new(alloc);
    for number in numbers {
        push_if(&mut found, *number, is_open(statements, parts, *number))?;
    }
    Ok(found)
}

/// Whether a statement is a block that is not abstract.
fn is_open(statements: &[Statement], parts: &Parts, number: usize) -> bool
    requires nested { IsNested statements.now }
    requires parts { AreParts (program_of statements.now) parts.now }
    ensures { IsOpen (program_of statements.now) number ↔ (result ≡ true) }
{
    if !is_block_at(statements, number) {
        return false;
    }
    match opened_block(statements, parts, number) {
        None => false,
        Some(_) => true,
    }
}

/// Statements in the order of their own names.
fn by_own_name(statements: &[Statement], mut numbers: Vec<usize>) -> Vec<usize>
    requires { IsNested statements.now }
    ensures same { IsPermutation numbers.items result.items }
    ensures sorted { IsSortedByKey (own_name (program_of statements.now)) text_cmp result.items }
{
    numbers.sort_unstable_by(|a, b| compare_own(statements, *a, *b));
    numbers
}

/// The order of the own names of two statements.
pub fn compare_own(statements: &[Statement], a: usize, b: usize) -> Ordering
    ensures { IsNested statements.now → result ≡ text_cmp (own_name (program_of statements.now) a) (own_name (program_of statements.now) b) }
{
    name_at(statements, a).cmp(name_at(statements, b))
}
