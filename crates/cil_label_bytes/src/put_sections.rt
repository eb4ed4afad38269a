//! Sections 1 to 5, put behind the bytes that are there.

ghost use Rattle.std.specs.Prelude.{◌≡◌, ◌≤◌, ◌++◌, [], OnOk, length};
ghost use Rattle.std.specs.Int.{w32, to_be_bytes};
ghost use Rattle.std.specs.List.{flat_map};
ghost use Rattle.cil_label_bytes.specs.Layout as layout;
ghost use Rattle.cil_label_bytes.specs.Names.{name};
ghost use Rattle.cil_format.specs.Fields.{text};
ghost use Rattle.cil_format.specs.Format.{both};

use crate::put_fields::{put_aliases, put_categories, put_names};
use cil_base::{Bytes, NoMemory};
use cil_format::{put_count, put_small, put_text};
use cil_labels::Labels;
use cil_mls::{Categories, Level, Range};
use std::alloc::Global;

/// Sections 1 to 5 of what tables hold of levels, and the names of users. Errors: out of memory. It costs 1,024 steps for each set.
pub fn put_labels(
    alloc: Global,
    out: &mut Vec<u8>,
    labels: &Labels,
    users: &[Bytes],
) -> Result<(), NoMemory>
    ensures { OnOk result (out.new.items ≡ out.old.items ++ (layout.labels labels.now.are_on).spell (record { levels = labels.now; users = users.now })) }
{
    put_listing(out, labels.categories())?;
    put_aliases(out, labels.category_aliases())?;
    put_sensitivities(alloc, out, labels.sensitivities(), labels.permitted())?;
    put_aliases(out, labels.sensitivity_aliases())?;
    put_users(alloc, out, labels.are_on(), users, labels.users())
}

/// A section of names.
fn put_listing(out: &mut Vec<u8>, names: &[Bytes]) -> Result<(), NoMemory>
    ensures { OnOk result (out.new.items ≡ out.old.items ++ (to_be_bytes w32 (length names.now) ++ flat_map text.spell names.now)) }
{
    put_count(out, names.len())?;
    put_names(out, names)
}

/// How many pairs two lists are: as many as the shorter one has items.
fn pairs<A: Drop, B: Drop>(names: &[A], others: &[B]) -> usize
    ensures value { result ≡ length (layout.zipped names.now others.now) }
    ensures first { result ≤ length names.now }
    ensures second { result ≤ length others.now }
{
    if names.len() < others.len() {
        names.len()
    } else {
        others.len()
    }
}

// ---- sensitivities

/// The section of sensitivities, each with what it permits.
fn put_sensitivities(
    alloc: Global,
    out: &mut Vec<u8>,
    names: &[Bytes],
    permitted: &[Categories],
) -> Result<(), NoMemory>
    ensures { OnOk result (out.new.items ≡ out.old.items
        ++ (to_be_bytes w32 (length (layout.zipped names.now permitted.now)) ++ flat_map (layout.sensitivity 0 []).spell (layout.zipped names.now permitted.now))) }
{
    let count = pairs(names, permitted);
    put_count(out, count)?;
    put_graded(alloc, out, names, permitted, count)
}

/// Sensitivities with what they permit, one behind the other.
fn put_graded(
    alloc: Global,
    out: &mut Vec<u8>,
    names: &[Bytes],
    permitted: &[Categories],
    count: usize,
) -> Result<(), NoMemory>
    requires first { count ≤ length names.now }
    requires second { count ≤ length permitted.now }
    requires all { count ≡ length (layout.zipped names.now permitted.now) }
    ensures { OnOk result (out.new.items ≡ out.old.items ++ flat_map (layout.sensitivity 0 []).spell (layout.zipped names.now permitted.now)) }
{
    for at in 0..count {
        put_text(out, names[at].as_slice())?;
        put_categories(alloc, out, &permitted[at])?;
    }
    Ok(())
}

// ---- users

/// The section of users, with their ranges where levels are on.
fn put_users(
    alloc: Global,
    out: &mut Vec<u8>,
    are_on: bool,
    names: &[Bytes],
    ranges: &[Range],
) -> Result<(), NoMemory>
    ensures { OnOk result (out.new.items ≡ out.old.items ++ (layout.users are_on 0 []).spell (names.now, ranges.now)) }
{
    if !are_on {
        return put_listing(out, names);
    }
    let count = pairs(names, ranges);
    put_count(out, count)?;
    put_ranged(alloc, out, names, ranges, count)
}

/// Users with their ranges, one behind the other.
fn put_ranged(
    alloc: Global,
    out: &mut Vec<u8>,
    names: &[Bytes],
    ranges: &[Range],
    count: usize,
) -> Result<(), NoMemory>
    requires first { count ≤ length names.now }
    requires second { count ≤ length ranges.now }
    requires all { count ≡ length (layout.zipped names.now ranges.now) }
    ensures { OnOk result (out.new.items ≡ out.old.items ++ flat_map (both name (λ n. layout.range 0 [])).spell (layout.zipped names.now ranges.now)) }
{
    for at in 0..count {
        put_text(out, names[at].as_slice())?;
        put_range(alloc, out, &ranges[at])?;
    }
    Ok(())
}

/// A range: its low level and its high one.
fn put_range(alloc: Global, out: &mut Vec<u8>, range: &Range) -> Result<(), NoMemory>
    ensures { OnOk result (out.new.items ≡ out.old.items ++ (layout.range 0 []).spell range.now) }
{
    put_level(alloc, out, &range.low)?;
    put_level(alloc, out, &range.high)
}

/// A level: its sensitivity and its categories.
fn put_level(alloc: Global, out: &mut Vec<u8>, level: &Level) -> Result<(), NoMemory>
    ensures { OnOk result (out.new.items ≡ out.old.items ++ (layout.level 0 []).spell level.now) }
{
    put_small(out, level.sensitivity as usize)?;
    put_categories(alloc, out, &level.categories)
}
