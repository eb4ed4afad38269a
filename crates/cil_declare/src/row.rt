//! The rows from which the declared names are gathered: one for each declaration of an instance, and one for object_r.

ghost use Rattle.std.specs.Prelude.{◌≡◌, ◌∷◌, ◌+◌, ◌++◌, ◌<◌, [], IfOk, OnOk, length};
ghost use Rattle.cil_macros.specs.Items.{items_in};
ghost use Rattle.cil_declare.specs.Rows.{AreAllRows, AreRowsUpTo, object_row, round_at, row_key};
ghost use Rattle.cil_declare.specs.Runs.{is_always};
ghost use Rattle.cil_names.specs.Entries.{by_name_cmp};

use cil_base::NoMemory;
use cil_macros::Instances;
use cil_syntax::{Excerpt, Kind};
use std::alloc::Global;
use std::cmp::Ordering;

/// A declaration: that of an instance, or that of object_r, which no statement declares.
#[derive(Drop)]
pub struct Row<'a> {
    /// The number of the namespace.
    pub space: usize,
    /// The declared name.
    pub name: Excerpt<'a>,
    /// The declared kind.
    pub kind: Kind,
    /// The place of the instance that declares it.
    pub at: Option<usize>,
}

/// The rows of all declarations of instances.
pub fn rows_of<'a>(
    alloc: Global,
    instances: &Instances<'_, '_, 'a>,
) -> Result<Vec<Row<'a>>, NoMemory>
    ensures { IfOk result (λ rows. AreAllRows instances.now rows.items) }
{
    let mut rows = Vec::new(alloc);
    push_row(&mut rows, object_row(instances))?;
    for at in 0..instances.len() {
        push_rows(instances, &mut rows, at)?;
    }
    Ok(rows)
}

/// The row of the role that every policy has. The instances are there for their lifetimes alone.
fn object_row<'a>(_instances: &Instances<'_, '_, 'a>) -> Row<'a>
    ensures { result ≡ object_row }
{
    Row {
        space: 0,
        name: Excerpt::of(b"object_r"),
        kind: Kind::Role,
        at: None,
    }
}

/// Adds the row of what the instance at a place declares.
fn push_rows<'a>(
    instances: &Instances<'_, '_, 'a>,
    rows: &mut Vec<Row<'a>>,
    at: usize,
) -> Result<(), NoMemory>
    requires { at < length (items_in instances.now) }
    ensures { OnOk result (AreRowsUpTo instances.now at rows.old.items → AreRowsUpTo instances.now (at + 1) rows.new.items) }
{
    let statement = instances.statement_there(at);
    let Some(kind) = statement.keyword.declares() else {
        return Ok(());
    };
    let Some(name) = statement.declared_name() else {
        return Ok(());
    };
    push_row(
        rows,
        Row {
            space: instances.space(at),
            name: Excerpt::of(name.bytes),
            kind,
            at: Some(at),
        },
    )
}

/// Adds a row.
fn push_row<'a>(rows: &mut Vec<Row<'a>>, row: Row<'a>) -> Result<(), NoMemory>
    ensures { OnOk result (rows.new.items ≡ rows.old.items ++ row.entry ∷ []) }
{
    rows.push(row)?;
    Ok(())
}

impl Row<'_> {
    /// The order of rows: by name, name space and namespace.
    pub fn compare(&self, other: &Row) -> Ordering
        ensures { result ≡ by_name_cmp (row_key self.now) (row_key other.now) }
    {
        self.name
            .as_slice()
            .cmp(other.name.as_slice())
            .then(self.kind.rank().cmp(&other.kind.rank()))
            .then(self.space.cmp(&other.space))
    }
}

/// Whether the declaring instance of a row is in no optional.
pub fn is_outside(instances: &Instances, row: &Row) -> bool
    ensures { result ≡ is_always instances.now row.now }
{
    match row.at {
        Some(at) => instances.is_outside(at),
        None => true,
    }
}

/// The numbers of the optionals round the declaring instance of a row.
pub fn round_of(alloc: Global, instances: &Instances, row: &Row) -> Result<Vec<usize>, NoMemory>
    ensures { IfOk result (λ round. round.items ≡ round_at instances.now row.now.at) }
{
    match row.at {
        Some(at) => instances.round(alloc, at),
        None => Ok(Vec::new(alloc)),
    }
}
