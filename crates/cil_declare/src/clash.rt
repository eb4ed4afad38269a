//! Declarations that differ: the faults of their statements.

ghost use Rattle.std.specs.Prelude.{◌≡◌, ◌++◌, Contains, IfOk, OnOk, Some};
ghost use Rattle.std.specs.List.{flat_map};
ghost use Rattle.cil_declare.specs.declared.row.Row.{Row};
ghost use Rattle.cil_declare.specs.declared.run.Run.{Run};
ghost use Rattle.cil_declare.specs.Rows.{AreRowsIn, IsRow, IsRowAt};
ghost use Rattle.cil_declare.specs.Runs.{faults_at, row_faults, run_faults};

use crate::row::Row;
use crate::run::Run;
use cil_base::NoMemory;
use cil_blocks::spelled::spelled;
use cil_macros::Instances;
use cil_syntax::{Fault, FaultCode, push_fault_in};
use std::alloc::Global;

/// The faults of runs whose rows differ: one for each declaring instance.
pub fn clashes(alloc: Global, instances: &Instances, runs: &[Run]) -> Result<Vec<Fault>, NoMemory>
    requires { (run : Run) → Contains runs.now run → AreRowsIn instances.now run.rows.now }
    ensures { IfOk result (λ faults. faults.items ≡ flat_map (run_faults instances.now) runs.now) }
{
    let mut faults = Vec::new(alloc);
    for run in runs {
        push_run(alloc, instances, &mut faults, run)?;
    }
    Ok(faults)
}

fn push_run(
    alloc: Global,
    instances: &Instances,
    faults: &mut Vec<Fault>,
    run: &Run,
) -> Result<(), NoMemory>
    requires { AreRowsIn instances.now run.now.rows.now }
    ensures { OnOk result (faults.new.items ≡ faults.old.items ++ run_faults instances.now run.now) }
{
    if !run.differing {
        return Ok(());
    }
    push_rows(alloc, instances, faults, run.rows)
}

fn push_rows(
    alloc: Global,
    instances: &Instances,
    faults: &mut Vec<Fault>,
    rows: &[Row],
) -> Result<(), NoMemory>
    requires { AreRowsIn instances.now rows.now }
    ensures { OnOk result (faults.new.items ≡ faults.old.items ++ flat_map (row_faults instances.now) rows.now) }
{
    for row in rows {
        push_row(alloc, instances, faults, row)?;
    }
    Ok(())
}

fn push_row(
    alloc: Global,
    instances: &Instances,
    faults: &mut Vec<Fault>,
    row: &Row,
) -> Result<(), NoMemory>
    requires { IsRow instances.now row.now }
    ensures { OnOk result (faults.new.items ≡ faults.old.items ++ row_faults instances.now row.now) }
{
    let Some(at) = row.at else {
        return Ok(());
    };
    push_clash(alloc, instances, faults, row, at)
}

/// Adds the fault of a row, which is that of the instance at a place.
fn push_clash(
    alloc: Global,
    instances: &Instances,
    faults: &mut Vec<Fault>,
    row: &Row,
    at: usize,
) -> Result<(), NoMemory>
    requires { IsRowAt instances.now at row.now }
    ensures { OnOk result (faults.new.items ≡ faults.old.items ++ faults_at instances.now (Some at)) }
{
    let statement = instances.statement_there(at);
    let Some(name) = statement.declared_name() else {
        return Ok(());
    };
    let space = spelled(alloc, instances.namespaces(), row.space)?;
    push_fault_in(alloc, faults, FaultCode::Clash, name.at, space, name.bytes)
}
