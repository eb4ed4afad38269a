//! Rows in the order of their keys, parted into runs of one key.

ghost use Rattle.std.specs.Prelude.{◌≡◌, ◌↔◌, ◌<◌, ◌≤◌, ℕ, Contains, IfOk, IfSome, IsTrue, None, Some, drop, get_or, length, take};
ghost use Rattle.std.specs.declared.cmp.Ordering.TheVariants.{Less};
ghost use Rattle.std.specs.List.Sorted.{IsPermutation, IsSortedByKey};
ghost use Rattle.cil_syntax.specs.NameSpaces.{name_space};
ghost use Rattle.cil_syntax.specs.declared.name_space.NameSpace.TheVariants as name_spaces;
ghost use Rattle.cil_macros.specs.Items.{items_in};
ghost use Rattle.cil_declare.specs.declared.row.Row.{Row};
ghost use Rattle.cil_declare.specs.Rows.{AreAlike, AreRowsIn, IsNamed, IsRow, TellsDiffering, content_at, declaration_of, row_key};
ghost use Rattle.cil_declare.specs.Runs.{AreRuns, IsNextRun};
ghost use Rattle.cil_names.specs.Entries.{by_name_cmp};
ghost use Rattle.cil_declare.specs.Wordless.{IsOfStatement, IsWordless};

use crate::content::are_same_parts;
use crate::row::Row;
use cil_base::NoMemory;
use cil_macros::{Instances, Part};
use cil_names::asked::parts_at;
use cil_names::reading::is_at;
use cil_names::same_kind;
use cil_names::worded::is_worded;
use cil_syntax::{Kind, NameSpace, Term};
use std::alloc::Global;

/// The rows of one name of a name space in a namespace.
#[derive(Clone, Copy)]
pub struct Run<'r, 'a> {
    /// The first of them.
    pub first: &'r Row<'a>,
    /// All of them.
    pub rows: &'r [Row<'a>],
    /// Whether one of them declares another symbol than the first. Blocks and macros of one name are told a step before.
    pub differing: bool,
}

/// The rows in the order of their keys.
pub fn sorted_rows<'a>(mut rows: Vec<Row<'a>>) -> Vec<Row<'a>>
    ensures same { IsPermutation rows.entry.items result.items }
    ensures sorted { IsSortedByKey row_key by_name_cmp result.items }
{
    rows.sort_unstable_by(|a, b| a.compare(b));
    rows
}

/// The runs of sorted rows. Each costs a search by halving, and a comparison of each row with the first.
pub fn runs_of<'r, 'a>(
    alloc: Global,
    instances: &Instances<'_, '_, 'a>,
    rows: &'r [Row<'a>],
) -> Result<Vec<Run<'r, 'a>>, NoMemory>
    requires sorted { IsSortedByKey row_key by_name_cmp rows.now }
    requires rows { AreRowsIn instances.now rows.now }
    ensures { IfOk result (λ runs. AreRuns instances.now rows.now runs.items) }
{
    let mut runs = Vec::new(alloc);
    let mut start = 0;
    while start < rows.len() {
        let run = run_at(alloc, instances, rows, start)?;
        runs.push(run)?;
        start += run.rows.len();
    }
    Ok(runs)
}

/// The run that begins at a place of sorted rows.
fn run_at<'r, 'a>(
    alloc: Global,
    instances: &Instances<'_, '_, 'a>,
    rows: &'r [Row<'a>],
    start: usize,
) -> Result<Run<'r, 'a>, NoMemory>
    requires sorted { IsSortedByKey row_key by_name_cmp rows.now }
    requires rows { AreRowsIn instances.now rows.now }
    requires within { start < length rows.now }
    ensures { IfOk result (IsNextRun instances.now rows.now start) }
{
    let rest = from(rows, start);
    let first = &rows[start];
    let same = &rest[..run_length(rest, first)];
    let differing = is_differing(alloc, instances, first, same)?;
    Ok(Run {
        first,
        rows: same,
        differing,
    })
}

fn from<'r, 'a>(rows: &'r [Row<'a>], start: usize) -> &'r [Row<'a>]
    requires { start ≤ length rows.now }
    ensures { result.now ≡ drop start rows.now }
{
    &rows[start..]
}

/// How many of sorted rows have the key of the first.
fn run_length(rest: &[Row], first: &Row) -> usize
    requires sorted { IsSortedByKey row_key by_name_cmp rest.now }
    requires some { 0 < length rest.now }
    requires first { first.now ≡ get_or rest.now 0 first.now }
    ensures within { result ≤ length rest.now }
    ensures first { Contains (take result rest.now) first.now }
    ensures same { (r : Row) → Contains (take result rest.now) r → row_key r ≡ row_key first.now }
    ensures above { (r : Row) → Contains (drop result rest.now) r → by_name_cmp (row_key first.now) (row_key r) ≡ Less }
{
    rest.partition_point(|row| !first.compare(row).is_lt())
}

/// Whether one of some rows with one key declares another symbol than the first. Only what is not said by one statement without
/// words is compared.
fn is_differing<'a>(
    alloc: Global,
    instances: &Instances<'_, '_, 'a>,
    first: &Row<'a>,
    rows: &[Row<'a>],
) -> Result<bool, NoMemory>
    requires first { IsRow instances.now first.now }
    requires rows { AreRowsIn instances.now rows.now }
    requires same { (r : Row) → Contains rows.now r → row_key r ≡ row_key first.now }
    ensures { IfOk result (TellsDiffering instances.now first.now rows.now) }
{
    let wordless = wordless(instances, first);
    for row in rows {
        if !is_same(alloc, instances, first, row, wordless)? {
            return Ok(true);
        }
    }
    Ok(false)
}

/// The number of the statement of a row, if no word is in it: then all its instances say the same. It costs a step for each
/// of its terms.
fn wordless(instances: &Instances, row: &Row) -> Option<usize>
    requires { IsRow instances.now row.now }
    ensures { IfSome result (λ statement. (at : ℕ) → row.now.at ≡ Some at → IsWordless instances.now at statement) }
{
    let Some(at) = row.at else {
        return None;
    };
    let statement = instances.statement_there(at);
    if is_worded(statement) {
        return None;
    }
    Some(instances.statement(at))
}

/// Whether two rows with one key declare the same, or are of macros. It is told whether the first is of a statement without
/// words.
fn is_same<'a>(
    alloc: Global,
    instances: &Instances<'_, '_, 'a>,
    a: &Row<'a>,
    b: &Row<'a>,
    wordless: Option<usize>,
) -> Result<bool, NoMemory>
    requires a { IsRow instances.now a.now }
    requires b { IsRow instances.now b.now }
    requires one { row_key b.now ≡ row_key a.now }
    requires wordless { IfSome wordless (λ statement. (at : ℕ) → a.now.at ≡ Some at → IsWordless instances.now at statement) }
    ensures { IfOk result (λ same. IsTrue same ↔ AreAlike (declaration_of instances.now a.now) (declaration_of instances.now b.now)) }
{
    if is_of_blocks(a.kind) {
        return Ok(true);
    }
    if !same_kind(a.kind, b.kind) {
        return Ok(false);
    }
    is_same_said(alloc, instances, a, b, wordless)
}

/// Whether two rows say the same behind the declared name.
fn is_same_said<'a>(
    alloc: Global,
    instances: &Instances<'_, '_, 'a>,
    a: &Row<'a>,
    b: &Row<'a>,
    wordless: Option<usize>,
) -> Result<bool, NoMemory>
    requires a { IsRow instances.now a.now }
    requires b { IsRow instances.now b.now }
    requires wordless { IfSome wordless (λ statement. (at : ℕ) → a.now.at ≡ Some at → IsWordless instances.now at statement) }
    ensures { IfOk result (λ same. IsTrue same ↔ (content_at instances.now a.now.at ≡ content_at instances.now b.now.at)) }
{
    let Some(place) = a.at else {
        return Ok(says_nothing(instances, b));
    };
    let Some(other) = b.at else {
        return Ok(says_nothing(instances, a));
    };
    if is_of(instances, other, wordless) {
        return Ok(true);
    }
    is_same_there(alloc, instances, place, other)
}

/// Whether an instance is of the statement of a number, if there is one.
fn is_of(instances: &Instances, at: usize, statement: Option<usize>) -> bool
    requires { at < length (items_in instances.now) }
    ensures { IsTrue result → (k : ℕ) × (statement ≡ Some k) × IsOfStatement instances.now at k }
{
    is_at(statement, instances.statement(at))
}

/// Whether a row says nothing behind the declared name.
fn says_nothing(instances: &Instances, row: &Row) -> bool
    requires { IsRow instances.now row.now }
    ensures { IsTrue result ↔ (content_at instances.now None ≡ content_at instances.now row.now.at) }
{
    match row.at {
        Some(at) => is_name_alone(instances.statement_there(at).args.as_slice()),
        None => true,
    }
}

/// Whether no term is behind the first, which is the declared name.
fn is_name_alone(terms: &[Term]) -> bool
    ensures { IsTrue result ↔ (length terms.now ≤ 1) }
{
    terms.len() <= 1
}

/// Whether two instances say the same behind the declared name, which is one part. It costs a step for each part of both.
fn is_same_there<'a>(
    alloc: Global,
    instances: &Instances<'_, '_, 'a>,
    a: usize,
    b: usize,
) -> Result<bool, NoMemory>
    requires a { IsNamed instances.now a }
    requires b { IsNamed instances.now b }
    ensures { IfOk result (λ same. IsTrue same ↔ (content_at instances.now (Some a) ≡ content_at instances.now (Some b))) }
{
    let one = parts_at(alloc, instances, a)?;
    let other = parts_at(alloc, instances, b)?;
    are_same_parts(
        alloc,
        instances,
        behind_first(one.as_slice()),
        behind_first(other.as_slice()),
    )
}

fn behind_first<'t, 'a>(parts: &'t [Part<'a>]) -> &'t [Part<'a>]
    ensures { result.now ≡ drop 1 parts.now }
{
    match parts {
        [] => parts,
        [_, rest @ ..] => rest,
    }
}

/// Whether a kind is that of blocks or of macros.
fn is_of_blocks(kind: Kind) -> bool
    ensures { IsTrue result ↔ (name_space kind ≡ name_spaces.Blocks) }
{
    kind.name_space() == NameSpace::Blocks
}
