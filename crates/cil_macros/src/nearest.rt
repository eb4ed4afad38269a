//! Which of two standing statements is nearer: the one with the shorter path, and of two of one length the one with the
//! lesser path. A comparison costs a step for each block and each blockinherit through which the two came.

ghost use Rattle.std.specs.Prelude.{◌≡◌, ◌<◌, List, [], IfSome, MatchOption, Some, length, slice_get};
ghost use Rattle.std.specs.Cmp.Lexicographic.{slice_cmp};
ghost use Rattle.cil_syntax.specs.Program.{IsNested, program_of, statement_of};
ghost use Rattle.cil_syntax.specs.Written.{Written};
ghost use Rattle.cil_blocks.specs.Contents.{Standing, is_inheriting, path_cmp, path_of, spot_cmp};
ghost use Rattle.cil_blocks.specs.Entries.{nothing, standings_of};
ghost use Rattle.cil_blocks.specs.Reports.{AreContents};
ghost use Rattle.cil_macros.specs.Nearest.{IsCameThrough, IsOpenedBy};

use cil_blocks::Entry;
use cil_blocks::names::is_inheriting;
use cil_syntax::{Spot, Statement};
use std::cmp::Ordering;

/// The order of the paths of two entries.
pub fn compare_paths(
    statements: &[Statement],
    entries: &[Entry],
    one: usize,
    other: usize,
) -> Ordering
    requires contents { AreContents statements.now entries.now }
    requires one { one < length entries.now }
    requires other { other < length entries.now }
    ensures { (s t : Standing) → slice_get (standings_of (program_of statements.now) entries.now) one ≡ Some s → slice_get (standings_of (program_of statements.now) entries.now) other ≡ Some t
        → result ≡ path_cmp (path_of s) (path_of t) }
{
    let lengths = path_len(statements, entries, one).cmp(&path_len(statements, entries, other));
    if lengths.is_ne() {
        return lengths;
    }
    compare_steps(statements, entries, one, other)
}

/// How many statements the path of an entry has.
fn path_len(statements: &[Statement], entries: &[Entry], at: usize) -> usize
    requires contents { AreContents statements.now entries.now }
    requires within { at < length entries.now }
    ensures { (s : Standing) → slice_get (standings_of (program_of statements.now) entries.now) at ≡ Some s → result ≡ length (path_of s) }
{
    let mut count = 1;
    let mut place = at;
    while let Some(inherit) = came_through(statements, entries, place) {
        count += 1;
        place = inherit;
    }
    count
}

/// The order of two paths of one length. The first statement in which they differ decides: the last one on the way up.
fn compare_steps(statements: &[Statement], entries: &[Entry], one: usize, other: usize) -> Ordering
    requires contents { AreContents statements.now entries.now }
    requires one { one < length entries.now }
    requires other { other < length entries.now }
    ensures { (s t : Standing) → slice_get (standings_of (program_of statements.now) entries.now) one ≡ Some s → slice_get (standings_of (program_of statements.now) entries.now) other ≡ Some t
        → length (path_of s) ≡ length (path_of t) → result ≡ slice_cmp spot_cmp (path_of s) (path_of t) }
{
    let mut order = compare_spots(
        spot_of(statements, entries, one),
        spot_of(statements, entries, other),
    );
    let mut a = one;
    let mut b = other;
    while let Some(i) = came_through(statements, entries, a) {
        let Some(j) = came_through(statements, entries, b) else {
            return order;
        };
        let step = compare_spots(
            spot_of(statements, entries, i),
            spot_of(statements, entries, j),
        );
        order = step.then(order);
        a = i;
        b = j;
    }
    order
}

/// The blockinherit through which an entry came last, by its rank; none where it came through none.
fn came_through(statements: &[Statement], entries: &[Entry], at: usize) -> Option<usize>
    requires contents { AreContents statements.now entries.now }
    ensures lower { IfSome result (λ k. k < at) }
    ensures through { (s : Standing) → slice_get (standings_of (program_of statements.now) entries.now) at ≡ Some s
        → MatchOption result (s.chain ≡ []) (IsCameThrough (standings_of (program_of statements.now) entries.now) s) }
{
    let mut place = at;
    while let Some(opener) = opener_of(entries, place) {
        if is_inherit(statements, entries, opener) {
            return Some(opener);
        }
        place = opener;
    }
    None
}

/// The rank of the entry that opened another one; none at the top of a module.
pub fn opener_of(entries: &[Entry], at: usize) -> Option<usize>
    ensures lower { IfSome result (λ k. k < at) }
    ensures opened { (ws : List Written) (s : Standing) → slice_get (standings_of ws entries.now) at ≡ Some s → IsOpenedBy ws (standings_of ws entries.now) s result }
{
    let Some(entry) = entries.get(at) else {
        return None;
    };
    let Some(opener) = entry.opener else {
        return None;
    };
    if opener as usize >= at {
        return None;
    }
    Some(opener as usize)
}

/// Whether what stands at a rank is a blockinherit.
fn is_inherit(statements: &[Statement], entries: &[Entry], at: usize) -> bool
    requires { IsNested statements.now }
    ensures { (s : Standing) → slice_get (standings_of (program_of statements.now) entries.now) at ≡ Some s → result ≡ is_inheriting s.statement.statement.keyword }
{
    match stated(statements, entries, at) {
        None => false,
        Some(statement) => is_inheriting(statement.keyword),
    }
}

/// Where the statement is written that stands at a rank.
pub fn spot_of(statements: &[Statement], entries: &[Entry], at: usize) -> Spot
    requires { IsNested statements.now }
    ensures { (s : Standing) → slice_get (standings_of (program_of statements.now) entries.now) at ≡ Some s → result ≡ s.statement.statement.at }
{
    match stated(statements, entries, at) {
        None => Spot { module: 0, at: 0 },
        Some(statement) => statement.at,
    }
}

/// The statement that stands at a rank.
pub fn stated<'s, 'a>(
    statements: &'s [Statement<'a>],
    entries: &[Entry],
    at: usize,
) -> Option<&'s Statement<'a>>
    requires { IsNested statements.now }
    ensures { (s : Standing) → slice_get (standings_of (program_of statements.now) entries.now) at ≡ Some s
        → MatchOption result (s.statement ≡ nothing) (λ x. s.statement.statement ≡ statement_of x.now) }
{
    let Some(entry) = entries.get(at) else {
        return None;
    };
    let Some(statement) = statements.get(entry.statement as usize) else {
        return None;
    };
    Some(statement)
}

/// The order of two positions: by module, then by place.
fn compare_spots(one: Spot, other: Spot) -> Ordering
    ensures { result ≡ spot_cmp one other }
{
    one.module.cmp(&other.module).then(one.at.cmp(&other.at))
}
