//! Faults at the names of declared aliases and attributes.

ghost use Rattle.std.specs.Prelude.{◌≡◌, ◌↔◌, ◌<◌, ◌⊎◌, ℕ, Contains, IsTrue, MatchOption, OnOk, false, get_or, length, true};
ghost use Rattle.cil_faults.specs.Reported.{fault_at};
ghost use Rattle.cil_faults.specs.declared.code.FaultCode as causes;
ghost use Rattle.cil_faults.specs.declared.fault.Fault.{Fault as AFault};
ghost use Rattle.cil_known.specs.macros.Items.{item_at, items_in, namespaces_in};
ghost use Rattle.cil_syntax.specs.Kinds.{is_wanted};
ghost use Rattle.cil_syntax.specs.Table.{entry_of};
ghost use Rattle.cil_known.specs.names.Entries.{AreEntries, is_in};
ghost use Rattle.cil_attrs.specs.Targets.{IsToldAt, IsToldIn};

use cil_base::NoMemory;
use cil_known::blocks_spelled::spelled;
use cil_known::{Instances, Lookup};
use cil_syntax::{DeclaredName, Fault, FaultCode, Keyword, Kind, Sign, push_fault_in};
use std::alloc::Global;

/// The symbols at whose names a fault is told.
#[derive(Clone, Copy)]
pub struct Told<'f> {
    /// Their kind.
    pub kind: Kind,
    /// What a word wants that may name any symbol of their name space.
    pub sign: Sign,
    /// Which of them: a flag for each entry.
    pub flags: &'f [bool],
}

/// Reports each enabled statement that declares such a symbol, at the name. A statement costs a step, and one that declares one
/// search by halving. Error: out of memory.
pub fn push_declared(
    alloc: Global,
    instances: &Instances,
    faults: &mut Vec<Fault>,
    lookup: &Lookup,
    told: &Told,
    code: FaultCode,
) -> Result<(), NoMemory>
    requires namespaces { lookup.now.namespaces.now ≡ namespaces_in instances.now }
    requires entries { AreEntries lookup.now.namespaces.now (items_in instances.now) lookup.now.names.now }
    requires wanted { is_wanted told.now.sign told.now.kind ≡ true }
    ensures { OnOk result ((f : AFault) → Contains faults.new.items f
        ↔ (Contains faults.old.items f ⊎ IsToldIn lookup.now.namespaces.now lookup.now.names.now (items_in instances.now) (is_in lookup.now.enabled.now) told.now.kind code told.now.flags.now f)) }
{
    for at in 0..instances.len() {
        push_declared_at(alloc, instances, faults, lookup, told, code, at)?;
    }
    Ok(())
}

fn push_declared_at(
    alloc: Global,
    instances: &Instances,
    faults: &mut Vec<Fault>,
    lookup: &Lookup,
    told: &Told,
    code: FaultCode,
    at: usize,
) -> Result<(), NoMemory>
    requires namespaces { lookup.now.namespaces.now ≡ namespaces_in instances.now }
    requires entries { AreEntries lookup.now.namespaces.now (items_in instances.now) lookup.now.names.now }
    requires wanted { is_wanted told.now.sign told.now.kind ≡ true }
    requires within { at < length (items_in instances.now) }
    ensures { OnOk result ((f : AFault) → Contains faults.new.items f
        ↔ (Contains faults.old.items f ⊎ IsToldAt lookup.now.namespaces.now lookup.now.names.now (items_in instances.now) (is_in lookup.now.enabled.now) told.now.kind code told.now.flags.now (item_at instances.now at) f)) }
{
    let Some(name) = flagged_name(instances, lookup, told, at) else {
        return Ok(());
    };
    let space = spelled(alloc, instances.namespaces(), instances.space(at))?;
    push_fault_in(alloc, faults, code, name.at, space, name.bytes)?;
    Ok(())
}

/// The name of such a symbol that the statement at a place declares.
fn flagged_name<'a>(
    instances: &Instances<'_, '_, 'a>,
    lookup: &Lookup,
    told: &Told,
    at: usize,
) -> Option<DeclaredName<'a>>
    requires namespaces { lookup.now.namespaces.now ≡ namespaces_in instances.now }
    requires entries { AreEntries lookup.now.namespaces.now (items_in instances.now) lookup.now.names.now }
    requires wanted { is_wanted told.now.sign told.now.kind ≡ true }
    requires within { at < length (items_in instances.now) }
    ensures { (code : causes.FaultCode) → MatchOption result
        ((f : AFault) → IsToldAt lookup.now.namespaces.now lookup.now.names.now (items_in instances.now) (is_in lookup.now.enabled.now) told.now.kind code told.now.flags.now (item_at instances.now at) f → ⊥)
        (λ name. (f : AFault) → IsToldAt lookup.now.namespaces.now lookup.now.names.now (items_in instances.now) (is_in lookup.now.enabled.now) told.now.kind code told.now.flags.now (item_at instances.now at) f
        ↔ (f ≡ fault_at code name.at (item_at instances.now at).space name.bytes.now)) }
{
    let statement = instances.statement_there(at);
    if !declares(statement.keyword, told.kind) {
        return None;
    }
    if !lookup.enabled.has_round(instances, at) {
        return None;
    }
    let Some(name) = statement.declared_name() else {
        return None;
    };
    let space = instances.space(at);
    let Some(d) = lookup
        .names
        .entry(lookup.namespaces, space, name.bytes, told.sign)
    else {
        return None;
    };
    if !is_flagged(told.flags, d) {
        return None;
    }
    Some(name)
}

/// Whether statements of this keyword declare symbols of this kind.
pub fn declares(keyword: Keyword, kind: Kind) -> bool
    ensures { IsTrue result ↔ Contains (entry_of keyword).declares kind }
{
    match keyword.declares() {
        Some(declared) => declared == kind,
        None => false,
    }
}

/// Whether the flag of an entry is set.
pub fn is_flagged(flags: &[bool], number: usize) -> bool
    ensures { result ≡ get_or flags.now number false }
{
    match flags.get(number) {
        Some(flag) => *flag,
        None => false,
    }
}
