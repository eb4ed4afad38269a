//! The blocks and macros that share their name with another one in some namespace. Pairs of seeds that give to one namespace
//! are gone through, from that of the texts with itself: two blocks of one name, one of each seed, are the next pair.
//!
//! Where no name is twice, each pair is of a seed with itself, and costs what the seed gives (`reach.rt`), with two searches
//! by halving for each block and macro. A seed that another one has reached before gives nothing that this one does not, so
//! it is not looked at by itself: blocks that inherit one another in a ring cost what one of them gives. In a chain it helps
//! where the heirs come first; where they come last, each of them is a seed and has all that is before it. The bad case are n
//! blocks of one name in one namespace, each of which is a fault: they are n * n pairs, which are all kept.

ghost use Rattle.std.specs.Prelude.{◌≡◌, ◌↔◌, ◌++◌, ◌∷◌, ℕ, [], Contains, IfOk, IsTrue, None, OnOk, true};
ghost use Rattle.std.specs.List.Sorted.{IsSortedByKey};
ghost use Rattle.cil_base.specs.Lists.{text_cmp};
ghost use Rattle.cil_syntax.specs.Program.{IsNested, program_of};
ghost use Rattle.cil_blocks.specs.Doubled.{AreAlike, AreThose, IsMatched};
ghost use Rattle.cil_blocks.specs.Entries.{AreParts};
ghost use Rattle.cil_blocks.specs.Seeds.{AreMatched, AreMatchedOf, Covers, CoversFrom, IsCovered, IsJoined, IsPaired, IsTold, StandsTwice, own_name, paired_with};

use crate::doubled::{has_other, push_if};
use crate::parts::Parts;
use crate::reach::{Members, compare_own, insert_bodies, members_of, reached_from};
use crate::targets::{Targets, from, up_to};
use cil_base::NoMemory;
use cil_syntax::Statement;
use indexmap::IndexSet;
use std::alloc::Global;

/// What a pair of seeds tells.
#[derive(Drop)]
pub struct Matched {
    /// The blocks and macros of the first that share their name with another one of the second.
    pub doubled: Vec<usize>,
    /// The pairs of blocks of one name.
    pub next: Vec<(Option<usize>, Option<usize>)>,
}

/// The numbers of the blocks and macros that share their name with another one that stands in the same namespace.
pub fn standing_twice(
    alloc: Global,
    statements: &[Statement],
    parts: &Parts,
    targets: &Targets,
) -> Result<Vec<usize>, NoMemory>
    requires nested { IsNested statements.now }
    requires parts { AreParts (program_of statements.now) parts.now }
    ensures { IfOk result (λ found. AreThose (StandsTwice (program_of statements.now) parts.now targets.now) found.items) }
{
    let mut pairs = IndexSet::new(alloc);
    pairs.insert((None, None))?;
    let mut found = Vec::new(alloc);
    tell_all(alloc, statements, parts, targets, &mut found, &mut pairs)?;
    Ok(found)
}

/// Finds what all pairs of seeds tell, from that of the texts with itself. The set of pairs is its own queue.
fn tell_all(
    alloc: Global,
    statements: &[Statement],
    parts: &Parts,
    targets: &Targets,
    found: &mut Vec<usize>,
    pairs: &mut IndexSet<(Option<usize>, Option<usize>)>,
) -> Result<(), NoMemory>
    requires nested { IsNested statements.now }
    requires parts { AreParts (program_of statements.now) parts.now }
    requires none { found.old.items ≡ [] }
    requires first { pairs.old.keys ≡ (None, None) ∷ [] }
    ensures { OnOk result (AreThose (StandsTwice (program_of statements.now) parts.now targets.now) found.new.items) }
{
    let mut covered = IndexSet::new(alloc);
    let mut at = 0;
    while at < pairs.len() {
        let pair = pairs.as_slice()[at];
        at += 1;
        if is_covered(&covered, pair) {
            continue;
        }
        tell(alloc, statements, parts, targets, pair, found, pairs)?;
        cover(alloc, parts, targets, &mut covered, pair)?;
    }
    Ok(())
}

/// Puts the blocks and macros that a pair of seeds tells behind those that were found, and the next pairs behind the others.
fn tell(
    alloc: Global,
    statements: &[Statement],
    parts: &Parts,
    targets: &Targets,
    pair: (Option<usize>, Option<usize>),
    found: &mut Vec<usize>,
    pairs: &mut IndexSet<(Option<usize>, Option<usize>)>,
) -> Result<(), NoMemory>
    requires nested { IsNested statements.now }
    requires parts { AreParts (program_of statements.now) parts.now }
    ensures { OnOk result (IsTold (program_of statements.now) parts.now targets.now pair found.old.items found.new.items pairs.old.keys pairs.new.keys) }
{
    let matched = matched_in(alloc, statements, parts, targets, pair)?;
    found.extend_from_slice(matched.doubled.as_slice())?;
    insert_pairs(pairs, matched.next.as_slice())?;
    Ok(())
}

/// Whether a pair is of a seed with itself that another one has reached: it tells nothing that this one did not.
fn is_covered(covered: &IndexSet<Option<usize>>, pair: (Option<usize>, Option<usize>)) -> bool
    ensures { IsTrue result → IsCovered covered.now.keys pair }
{
    let (one, other) = pair;
    if one == other {
        return covered.contains(&one);
    }
    false
}

/// Notes what the seed of a pair reaches, where it is paired with itself.
fn cover(
    alloc: Global,
    parts: &Parts,
    targets: &Targets,
    covered: &mut IndexSet<Option<usize>>,
    pair: (Option<usize>, Option<usize>),
) -> Result<(), NoMemory>
    ensures { OnOk result (Covers parts.now targets.now pair covered.old.keys covered.new.keys) }
{
    let (one, other) = pair;
    if one == other {
        cover_from(alloc, parts, targets, covered, one)?;
        return Ok(());
    }
    Ok(())
}

/// Notes what a seed reaches.
fn cover_from(
    alloc: Global,
    parts: &Parts,
    targets: &Targets,
    covered: &mut IndexSet<Option<usize>>,
    seed: Option<usize>,
) -> Result<(), NoMemory>
    ensures { OnOk result (CoversFrom parts.now targets.now seed covered.old.keys covered.new.keys) }
{
    let reached = reached_from(alloc, parts, targets, seed)?;
    insert_bodies(covered, reached.as_slice())?;
    Ok(())
}

fn insert_pairs(
    pairs: &mut IndexSet<(Option<usize>, Option<usize>)>,
    more: &[(Option<usize>, Option<usize>)],
) -> Result<(), NoMemory>
    ensures { OnOk result (IsJoined more.now pairs.old.keys pairs.new.keys) }
{
    for pair in more {
        pairs.insert(*pair)?;
    }
    Ok(())
}

/// What a pair of seeds tells. A seed that is paired with itself is looked at once.
fn matched_in(
    alloc: Global,
    statements: &[Statement],
    parts: &Parts,
    targets: &Targets,
    pair: (Option<usize>, Option<usize>),
) -> Result<Matched, NoMemory>
    requires nested { IsNested statements.now }
    requires parts { AreParts (program_of statements.now) parts.now }
    ensures { IfOk result (AreMatched (program_of statements.now) parts.now targets.now pair) }
{
    let (one, other) = pair;
    let ones = members_of(alloc, statements, parts, targets, one)?;
    if one == other {
        return matched_of(alloc, statements, &ones, &ones);
    }
    let others = members_of(alloc, statements, parts, targets, other)?;
    matched_of(alloc, statements, &ones, &others)
}

/// What the blocks and macros of two seeds tell.
fn matched_of(
    alloc: Global,
    statements: &[Statement],
    ones: &Members,
    others: &Members,
) -> Result<Matched, NoMemory>
    requires nested { IsNested statements.now }
    requires named { IsSortedByKey (own_name (program_of statements.now)) text_cmp others.now.named.items }
    requires open_blocks { IsSortedByKey (own_name (program_of statements.now)) text_cmp others.now.open_blocks.items }
    ensures { IfOk result (AreMatchedOf (program_of statements.now) ones.now others.now) }
{
    let doubled = doubled_among(
        alloc,
        statements,
        ones.named.as_slice(),
        others.named.as_slice(),
    )?;
    let next = pairs_among(
        alloc,
        statements,
        ones.open_blocks.as_slice(),
        others.open_blocks.as_slice(),
    )?;
    Ok(Matched { doubled, next })
}

/// Of some numbers those that share their own name with another one of a list.
fn doubled_among(
    alloc: Global,
    statements: &[Statement],
    ones: &[usize],
    others: &[usize],
) -> Result<Vec<usize>, NoMemory>
    requires nested { IsNested statements.now }
    requires sorted { IsSortedByKey (own_name (program_of statements.now)) text_cmp others.now }
    ensures { IfOk result (λ found. AreThose (IsMatched (own_name (program_of statements.now)) ones.now others.now) found.items) }
{
    let mut found = Vec::new(alloc);
    for number in ones {
        let alike = alike_in(statements, others, *number);
        push_if(&mut found, *number, has_other(alike, *number))?;
    }
    Ok(found)
}

/// The pairs of one name, of a number of each list.
fn pairs_among(
    alloc: Global,
    statements: &[Statement],
    ones: &[usize],
    others: &[usize],
) -> Result<Vec<(Option<usize>, Option<usize>)>, NoMemory>
    requires nested { IsNested statements.now }
    requires sorted { IsSortedByKey (own_name (program_of statements.now)) text_cmp others.now }
    ensures { IfOk result (λ pairs. AreThose (IsPaired (own_name (program_of statements.now)) ones.now others.now) pairs.items) }
{
    let mut pairs = Vec::new(alloc);
    for number in ones {
        push_pairs(&mut pairs, *number, alike_in(statements, others, *number))?;
    }
    Ok(pairs)
}

/// Adds the pairs of one number with others.
fn push_pairs(
    pairs: &mut Vec<(Option<usize>, Option<usize>)>,
    one: usize,
    others: &[usize],
) -> Result<(), NoMemory>
    ensures { OnOk result (pairs.new.items ≡ pairs.old.items ++ paired_with one others.now) }
{
    for other in others {
        pairs.push((Some(one), Some(*other)))?;
    }
    Ok(())
}

/// Those of some statements that have the own name of one.
fn alike_in<'n>(statements: &[Statement], numbers: &'n [usize], number: usize) -> &'n [usize]
    requires nested { IsNested statements.now }
    requires sorted { IsSortedByKey (own_name (program_of statements.now)) text_cmp numbers.now }
    ensures { AreAlike (own_name (program_of statements.now)) numbers.now number result.now }
{
    let first = numbers.partition_point(|b| compare_own(statements, *b, number).is_lt());
    let rest = from(numbers, first);
    let count = rest.partition_point(|b| !compare_own(statements, *b, number).is_gt());
    up_to(rest, count)
}
