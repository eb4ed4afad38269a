//! The declared names of instances, or the faults of declarations that differ.

ghost use Rattle.std.specs.Prelude.{◌≡◌, ◌∷◌, ◌++◌, [], IfOk, List, OnOk, map};
ghost use Rattle.std.specs.List.{flat_map, list_any};
ghost use Rattle.std.specs.List.Sorted.{IsSortedByKey};
ghost use Rattle.cil_faults.specs.Refusal.{Answers};
ghost use Rattle.cil_blocks.specs.Namespaces.{AreNamespaces};
ghost use Rattle.cil_macros.specs.Items.{items_in, namespaces_in};
ghost use Rattle.cil_declare.specs.declared.row.Row.{Row};
ghost use Rattle.cil_declare.specs.Rows.{AreAllRows, row_key};
ghost use Rattle.cil_declare.specs.Runs.{AreRunsOf, entry_of_run, is_always, rounds_by, said_by};
ghost use Rattle.cil_names.specs.Entries.{AreEntries, by_name_cmp};
ghost use Rattle.cil_names.specs.Faults.{ClashFault};

use crate::clash::clashes;
use crate::row::{Row, is_outside, round_of, rows_of};
use crate::run::{Run, runs_of, sorted_rows};
use cil_base::NoMemory;
use cil_macros::Instances;
use cil_names::{Entry, Names};
use cil_syntax::{Excerpt, Failure, refuse};
use std::alloc::Global;

/// The declared names of all instances, whatever is enabled. A sort is its cost, and a comparison of what the
/// declarations of one name say.
///
/// Errors: where declarations of one name differ in their kind or in what they say, a fault at each of them; or out of
/// memory.
pub fn declare<'a>(alloc: Global, instances: &Instances<'_, '_, 'a>) -> Result<Names<'a>, Failure>
    ensures { Answers (AreEntries (namespaces_in instances.now) (items_in instances.now)) (ClashFault (items_in instances.now)) result }
{
    // Numbers of namespaces are one to one.
    instances.namespaces().are_namespaces();
    let rows = sorted_rows(rows_of(alloc, instances)?);
    declared_by(alloc, instances, rows.as_slice())
}

/// The declared names of the sorted rows of all instances, or the faults of declarations that differ.
fn declared_by<'a>(
    alloc: Global,
    instances: &Instances<'_, '_, 'a>,
    rows: &[Row<'a>],
) -> Result<Names<'a>, Failure>
    requires namespaces { AreNamespaces (namespaces_in instances.now) }
    requires rows { AreAllRows instances.now rows.now }
    requires sorted { IsSortedByKey row_key by_name_cmp rows.now }
    ensures { Answers (AreEntries (namespaces_in instances.now) (items_in instances.now)) (ClashFault (items_in instances.now)) result }
{
    let runs = runs_of(alloc, instances, rows)?;
    named_by(alloc, instances, runs.as_slice())
}

/// The same of their runs.
fn named_by<'a>(
    alloc: Global,
    instances: &Instances<'_, '_, 'a>,
    runs: &[Run<'_, 'a>],
) -> Result<Names<'a>, Failure>
    requires { (rows : List Row) × AreRunsOf instances.now rows runs.now }
    ensures { Answers (AreEntries (namespaces_in instances.now) (items_in instances.now)) (ClashFault (items_in instances.now)) result }
{
    let faults = clashes(alloc, instances, runs)?;
    refuse(faults)?;
    let entries = entries_of(alloc, instances, runs)?;
    Ok(Names::of(alloc, entries)?)
}

/// The entries of runs.
fn entries_of<'a>(
    alloc: Global,
    instances: &Instances,
    runs: &[Run<'_, 'a>],
) -> Result<Vec<Entry<'a>>, NoMemory>
    ensures { IfOk result (λ entries. map said_by entries.items ≡ map (entry_of_run instances.now) runs.now) }
{
    let mut entries = Vec::new(alloc);
    for run in runs {
        push_entry(&mut entries, entry_of(alloc, instances, run)?)?;
    }
    Ok(entries)
}

fn push_entry<'a>(entries: &mut Vec<Entry<'a>>, entry: Entry<'a>) -> Result<(), NoMemory>
    ensures { OnOk result (entries.new.items ≡ entries.old.items ++ entry.entry ∷ []) }
{
    entries.push(entry)?;
    Ok(())
}

fn entry_of<'a>(
    alloc: Global,
    instances: &Instances,
    run: &Run<'_, 'a>,
) -> Result<Entry<'a>, NoMemory>
    ensures { IfOk result (λ entry. said_by entry ≡ entry_of_run instances.now run.now) }
{
    let rounds = rounds_of(alloc, instances, run.rows)?;
    Ok(Entry {
        space: run.first.space,
        name: Excerpt::of(run.first.name.as_slice()),
        kind: run.first.kind,
        always: any_always(instances, run.rows),
        rounds,
    })
}

/// Whether one of some rows declares outside all optionals.
fn any_always(instances: &Instances, rows: &[Row]) -> bool
    ensures { result ≡ list_any (is_always instances.now) rows.now }
{
    for row in rows {
        if is_outside(instances, row) {
            return true;
        }
    }
    false
}

/// The optionals round the declarations of rows, where there are some.
fn rounds_of(
    alloc: Global,
    instances: &Instances,
    rows: &[Row],
) -> Result<Vec<Vec<usize>>, NoMemory>
    ensures { IfOk result (λ rounds. map (λ round. round.items) rounds.items ≡ flat_map (rounds_by instances.now) rows.now) }
{
    let mut rounds = Vec::new(alloc);
    for row in rows {
        push_round(alloc, instances, &mut rounds, row)?;
    }
    Ok(rounds)
}

fn push_round(
    alloc: Global,
    instances: &Instances,
    rounds: &mut Vec<Vec<usize>>,
    row: &Row,
) -> Result<(), NoMemory>
    ensures { OnOk result (map (λ round. round.items) rounds.new.items ≡ map (λ round. round.items) rounds.old.items ++ rounds_by instances.now row.now) }
{
    if is_outside(instances, row) {
        return Ok(());
    }
    rounds.push(round_of(alloc, instances, row)?)?;
    Ok(())
}
