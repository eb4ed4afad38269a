//! Classes with more permissions than a mask has bits, or with two commons.

ghost use Rattle.std.specs.Prelude.{◌≡◌, ◌<◌, IfOk, OnOk, length};
ghost use Rattle.cil_faults.specs.Refusal.{Answers};
ghost use Rattle.cil_macros.specs.Items.{items_in, namespaces_in};
ghost use Rattle.cil_base.specs.Lists.{Lists, text_cmp};
ghost use Rattle.cil_names.specs.Entries.{AreEntries, is_in};
ghost use Rattle.cil_names.specs.Shared.{AreShared};
ghost use Rattle.cil_names.specs.Unresolved.{listed_at};
ghost use Rattle.cil_classes.specs.Faults.{ClassFault, IsClassName};
ghost use Rattle.cil_classes.specs.Widths.{AreAsked, AreToldOf, AreTwice, IsPushed, IsWideAt, IsWrong, IsWrongAt};

use crate::commons::{Wrong, cause_of, class_word, flags_of_two, joined_at};
use crate::limit::push_many;
use cil_base::NoMemory;
use cil_macros::Instances;
use cil_macros::blocks_spelled::spelled;
use cil_names::{Lookup, Shared, is_set};
use cil_syntax::{Bytes, Failure, Fault, Sign, push_fault_in, refuse};
use std::alloc::Global;

/// How many permissions a class may have.
const MOST_PERMISSIONS: usize = 32;

/// Refuses enabled classes with more permissions than a mask has bits, at each of their statements, classes with two
/// different commons, at each statement that joins one to them, and more classes than a policy may have, where these are the
/// names of all. A class statement costs one search by halving, one of commons two look-ups of its words.
///
/// Errors: the faults, or out of memory.
pub fn check_classes(
    alloc: Global,
    instances: &Instances,
    lookup: &Lookup,
    permissions: &[Vec<Bytes>],
    shared: &[Shared],
    names: &[Bytes],
) -> Result<(), Failure>
    requires asked { AreAsked instances.now lookup.now permissions.now }
    requires shared { AreShared (namespaces_in instances.now) lookup.now.names.now (items_in instances.now) shared.now }
    requires names { Lists text_cmp (IsClassName (is_in lookup.now.enabled.now) (items_in instances.now)) names.now }
    ensures { Answers (λ done. Unit {0}) (ClassFault (is_in lookup.now.enabled.now) (items_in instances.now)) result }
{
    let mut faults = wrong_classes(alloc, instances, lookup, permissions, shared)?;
    push_many(alloc, &mut faults, names)?;
    refuse(faults)
}

/// Enabled classes with too many permissions, and classes to which two commons are joined.
fn wrong_classes(
    alloc: Global,
    instances: &Instances,
    lookup: &Lookup,
    permissions: &[Vec<Bytes>],
    shared: &[Shared],
) -> Result<Vec<Fault>, NoMemory>
    requires asked { AreAsked instances.now lookup.now permissions.now }
    requires shared { AreShared (namespaces_in instances.now) lookup.now.names.now (items_in instances.now) shared.now }
    ensures { IfOk result (λ faults. AreToldOf (IsWrong (is_in lookup.now.enabled.now) (items_in instances.now)) (items_in instances.now) faults.items) }
{
    // What is known of the numbers of namespaces.
    lookup.namespaces.are_namespaces();
    let twice = flags_of_two(alloc, lookup.names.entries().len(), shared)?;
    wrong_among(alloc, instances, lookup, permissions, twice.as_slice())
}

/// The same, where these are the flags of classes to which two commons are joined.
fn wrong_among(
    alloc: Global,
    instances: &Instances,
    lookup: &Lookup,
    permissions: &[Vec<Bytes>],
    twice: &[bool],
) -> Result<Vec<Fault>, NoMemory>
    requires asked { AreAsked instances.now lookup.now permissions.now }
    requires twice { AreTwice instances.now lookup.now.names.now twice.now }
    ensures { IfOk result (λ faults. AreToldOf (IsWrong (is_in lookup.now.enabled.now) (items_in instances.now)) (items_in instances.now) faults.items) }
{
    let mut faults = Vec::new(alloc);
    for at in 0..instances.len() {
        push_wrong(
            alloc,
            instances,
            &mut faults,
            lookup,
            permissions,
            twice,
            at,
        )?;
    }
    Ok(faults)
}

/// Reports what is wrong with the class of the statement at a place.
fn push_wrong(
    alloc: Global,
    instances: &Instances,
    faults: &mut Vec<Fault>,
    lookup: &Lookup,
    permissions: &[Vec<Bytes>],
    twice: &[bool],
    at: usize,
) -> Result<(), NoMemory>
    requires asked { AreAsked instances.now lookup.now permissions.now }
    requires twice { AreTwice instances.now lookup.now.names.now twice.now }
    requires within { at < length (items_in instances.now) }
    ensures { OnOk result (IsPushed (is_in lookup.now.enabled.now) instances.now at faults.old.items faults.new.items) }
{
    let Some(wrong) = wrong_at(alloc, instances, lookup, permissions, twice, at)? else {
        return Ok(());
    };
    let space = spelled(alloc, instances.namespaces(), instances.space(at))?;
    let code = cause_of(wrong.wide);
    push_fault_in(alloc, faults, code, wrong.at, space, wrong.bytes)
}

/// What is wrong with the class of the statement at a place: it has too many permissions, or two commons.
fn wrong_at<'a>(
    alloc: Global,
    instances: &Instances<'_, '_, 'a>,
    lookup: &Lookup,
    permissions: &[Vec<Bytes>],
    twice: &[bool],
    at: usize,
) -> Result<Option<Wrong<'a>>, NoMemory>
    requires asked { AreAsked instances.now lookup.now permissions.now }
    requires twice { AreTwice instances.now lookup.now.names.now twice.now }
    requires within { at < length (items_in instances.now) }
    ensures { IfOk result (IsWrongAt (is_in lookup.now.enabled.now) instances.now at) }
{
    if let Some(wide) = wide_class(instances, lookup, permissions, at) {
        return Ok(Some(wide));
    }
    let Some(one) = joined_at(alloc, instances, lookup.names, at)? else {
        return Ok(None);
    };
    if !is_set(twice, one.class) {
        return Ok(None);
    }
    Ok(class_word(instances, at))
}

/// That the enabled class which the statement at a place declares has too many permissions, if it has.
fn wide_class<'a>(
    instances: &Instances<'_, '_, 'a>,
    lookup: &Lookup,
    permissions: &[Vec<Bytes>],
    at: usize,
) -> Option<Wrong<'a>>
    requires asked { AreAsked instances.now lookup.now permissions.now }
    requires within { at < length (items_in instances.now) }
    ensures { IsWideAt (is_in lookup.now.enabled.now) instances.now at result }
{
    let statement = instances.statement_there(at);
    let Some(name) = statement.declared_class() else {
        return None;
    };
    if !lookup.enabled.has_round(instances, at) {
        return None;
    }
    let names = lookup.names;
    let space = instances.space(at);
    let Some(class) = names.entry(lookup.namespaces, space, name.bytes, Sign::Classes) else {
        return None;
    };
    if listed_count(permissions, class) <= MOST_PERMISSIONS {
        return None;
    }
    Some(Wrong {
        wide: true,
        at: name.at,
        bytes: name.bytes,
    })
}

/// How many permissions are listed for an entry.
pub fn listed_count(permissions: &[Vec<Bytes>], d: usize) -> usize
    ensures { result ≡ length (listed_at permissions.now d) }
{
    match permissions.get(d) {
        Some(list) => list.as_slice().len(),
        None => 0,
    }
}
