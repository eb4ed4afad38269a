//! The rules of one kind with their index: they stand in its order, and a list beside them has their order in the table.

ghost use Rattle.std.specs.Prelude.{◌≡◌, ℕ, Contains, IfOk, List, length, map};
ghost use Rattle.std.specs.List.Sorted.{IsSorted, IsStrictlySortedBy};
ghost use Rattle.cil_base.specs.Lists.{Lists};
ghost use Rattle.cil_rules.specs.conditions.Order.{branch_cmp};
ghost use Rattle.cil_rules.specs.Kept.{rule_named};
ghost use Rattle.cil_rules.specs.Order.{rule_cmp};
ghost use Rattle.cil_sets.specs.Answers.{set_cmp};
ghost use Rattle.cil_index.specs.Entries.{HasAll, IsColumn, entry_cmp};
ghost use Rattle.cil_index.specs.Layout.{AreAllPlaced, AreOfFirst, in_order, record_of_entry};
ghost use Rattle.cil_index.specs.Sections.{IsIndexed, rules_of};
ghost use Rattle.cil_index.specs.Sets.{AreNumbered};

use crate::index::{Index, entries_of, index_of};
use crate::key::Entry;
use crate::record::{Record, records_of};
use crate::sets::Sets;
use cil_base::{NoMemory, short};
use cil_rules::{Branch, NamedRule};
use std::alloc::Global;

/// Rules of one kind. Their records stand in the order of the index: the record of an aim has the place of the aim, and those under a heading are side by
/// side. For each rule in the order of the table, `order` has the place of its record; no search reads it.
#[derive(Debug, Drop)]
pub struct Indexed {
    pub records: Vec<Record>,
    pub order: Vec<u32>,
    pub index: Index,
}

/// Rules of one kind with their index. Errors: out of memory.
pub fn index_rules(
    alloc: Global,
    branches: &Vec<Branch>,
    sets: &Sets,
    numbers: &Vec<u32>,
    rules: &Vec<NamedRule>,
) -> Result<Indexed, NoMemory>
    requires { IsStrictlySortedBy branch_cmp branches.now.items }
    ensures index { IfOk result (IsIndexed sets.now) }
    ensures rules { IfOk result (λ r. (named : List (List ℕ)) → IsStrictlySortedBy set_cmp sets.now → AreNumbered sets.now named numbers.now.items
        → Lists rule_cmp (Contains (map (rule_named branches.now.items named) rules.now.items)) (rules_of branches.now.items sets.now r)) }
{
    let branches = branches.as_slice();
    let itself = short(sets.count())?;
    let records = records_of(
        alloc,
        branches,
        numbers.as_slice(),
        itself,
        rules.as_slice(),
    )?;
    index_records(alloc, sets, records.as_slice())
}

/// Records, in the order of the table, with their index. Errors: out of memory.
fn index_records(alloc: Global, sets: &Sets, records: &[Record]) -> Result<Indexed, NoMemory>
    ensures index { IfOk result (IsIndexed sets.now) }
    ensures records { IfOk result (λ r. in_order r.records.items r.order.items ≡ records.now) }
{
    let entries = entries_of(alloc, sets, records)?;
    let rules = laid_out(alloc, records, entries.as_slice())?;
    Ok(rules)
}

/// Records in the order of their entries, with the index that has these. Errors: out of memory.
fn laid_out(alloc: Global, records: &[Record], entries: &[Entry]) -> Result<Indexed, NoMemory>
    requires sorted { IsSorted entry_cmp entries.now }
    requires within { AreOfFirst (length records.now) entries.now }
    ensures index { IfOk result (λ r. HasAll entries.now r.index) }
    ensures records { IfOk result (λ r. IsColumn (record_of_entry records.now) entries.now r.records.items) }
    ensures order { IfOk result (λ r. AreAllPlaced (length records.now) entries.now r.order.items) }
{
    let index = index_of(alloc, entries)?;
    let order = order_of(alloc, records.len(), entries)?;
    let records = records_in(alloc, records, entries)?;
    Ok(Indexed {
        records,
        order,
        index,
    })
}

/// The records of entries, in the order of these. Errors: out of memory.
fn records_in(alloc: Global, records: &[Record], entries: &[Entry]) -> Result<Vec<Record>, NoMemory>
    requires { AreOfFirst (length records.now) entries.now }
    ensures { IfOk result (λ column. IsColumn (record_of_entry records.now) entries.now column.items) }
{
    let mut laid = Vec::with_capacity(alloc, entries.len())?;
    for entry in entries {
        laid.push(records[entry.place as usize])?;
    }
    Ok(laid)
}

/// For each record in the order of the table, the place of its entry. It costs a step for each. Errors: out of memory.
fn order_of(alloc: Global, count: usize, entries: &[Entry]) -> Result<Vec<u32>, NoMemory>
    requires { AreOfFirst count entries.now }
    ensures { IfOk result (λ order. AreAllPlaced count entries.now order.items) }
{
    let end = short(entries.len())?;
    let mut order = vec![in alloc; 0; count]?;
    for at in 0..end {
        order[entries[at as usize].place as usize] = at;
    }
    Ok(order)
}
