//! The index of rules: aims, in parts.

ghost use Rattle.std.specs.Prelude.{◌≡◌, ◌≤◌, ◌<◌, ◌+◌, Contains, IfOk, IsTrue, Some, get_or, length, slice_get};
ghost use Rattle.std.specs.List.Sorted.{IsSorted};
ghost use Rattle.cil_index.specs.declared.key.Entry.{Entry as AnEntry};
ghost use Rattle.cil_index.specs.Entries.{AreAllStarts, AreBefore, AreBounds, AreEntries, BeginAt, HasAll, HasEntries, IsColumn, IsLaidOut, entry_cmp, entry_of, heading_of, itself, other_side, part_of, target_key};
ghost use Rattle.cil_index.specs.declared.record.Record.{Record as ARecord};

use crate::key::{Entry, ITSELF, SEVERAL, TARGETS, aim, class_key, set_key};
use crate::record::Record;
use crate::search::are_few;
use crate::sets::Sets;
use cil_base::{NoMemory, short};
use std::alloc::Global;

/// The aims of rules, by their headings and by parts of the classes, and in their order within each part; and where each part begins. The record of the
/// aim at a place stands at the same place among the records. The heading of a rule that reaches one type alone is this type, and that of another the set of
/// its sources; its aim has the class and its other side. A search reads the aims alone, four bytes for each rule, and those of one part: the rules under a
/// heading on a few classes.
#[derive(Debug, Drop)]
pub struct Index {
    pub aims: Vec<u32>,
    starts: Vec<u32>,
}

/// The aims under a heading stand in so many parts, by what this number leaves of the class.
const PARTS: usize = 8;

/// Where some aims begin and end.
#[derive(Clone, Copy)]
pub struct Bounds {
    pub start: usize,
    pub to: usize,
}

impl Bounds {
    /// Whether there are so few, or none, that they are gone through one by one: that takes less time than to search them.
    pub fn are_few(&self) -> bool {
        are_few(self.start, self.to)
    }
}

impl Index {
    /// Where the aims under a heading stand that are of the class of an aim, among those of the other classes of its part. It costs no search.
    pub fn bounds(&self, heading: usize, aim: u32) -> Bounds
        requires { IsLaidOut self.now }
        ensures { AreBounds self.now (part_of heading aim) result }
    {
        let part = part_of(heading, aim);
        if part >= self.starts.len() {
            return Bounds { start: 0, to: 0 };
        }
        Bounds {
            start: start_at(&self.starts, part),
            to: start_at(&self.starts, part + 1),
        }
    }

    /// Whether there are no rules.
    pub fn is_empty(&self) -> bool
        ensures { IsTrue result → length self.now.aims.items ≡ 0 }
    {
        self.aims.len() == 0
    }

    /// How many starts there are: headings from this number on have no rules.
    pub fn room(&self) -> usize
        ensures { result ≡ length self.now.starts.items }
    {
        self.starts.len()
    }
}

/// The number of the part of a heading in which an aim stands. Where there is no room for it, the last number.
fn part_of(heading: usize, aim: u32) -> usize
    ensures low { result ≤ part_of heading aim }
    ensures same { result < 18446744073709551615 → result ≡ part_of heading aim }
{
    let class = (aim / TARGETS) as usize;
    heading.saturating_mul(PARTS).saturating_add(class % PARTS)
}

/// Where a part begins.
fn start_at(starts: &Vec<u32>, part: usize) -> usize
    ensures { result ≡ get_or starts.now.items part 0 }
{
    match starts.get(part) {
        Some(start) => *start as usize,
        None => 0,
    }
}

/// An entry for each record, sorted: in the order of the index. Errors: out of memory.
pub fn entries_of(alloc: Global, sets: &Sets, records: &[Record]) -> Result<Vec<Entry>, NoMemory>
    ensures { IfOk result (λ entries. AreEntries sets.now records.now entries.items) }
{
    let mut entries = unsorted(alloc, sets, records)?;
    entries.sort_unstable();
    Ok(entries)
}

/// The index that has these entries. Errors: out of memory.
pub fn index_of(alloc: Global, entries: &[Entry]) -> Result<Index, NoMemory>
    requires { IsSorted entry_cmp entries.now }
    ensures { IfOk result (HasAll entries.now) }
{
    let aims = aims_in(alloc, entries)?;
    let starts = starts_of(alloc, entries)?;
    Ok(Index { aims, starts })
}

/// The aims of entries. Errors: out of memory.
fn aims_in(alloc: Global, entries: &[Entry]) -> Result<Vec<u32>, NoMemory>
    ensures { IfOk result (λ column. IsColumn (λ e. e.aim) entries.now column.items) }
{
    let mut aims = Vec::with_capacity(alloc, entries.len())?;
    for entry in entries {
        aims.push(entry.aim)?;
    }
    Ok(aims)
}

/// An entry for each record, in their order.
fn unsorted(alloc: Global, sets: &Sets, records: &[Record]) -> Result<Vec<Entry>, NoMemory>
    ensures { IfOk result (λ index. HasEntries sets.now records.now index.items) }
{
    let mut entries = Vec::with_capacity(alloc, records.len())?;
    for place in 0..records.len() {
        entries.push(entry_at(sets, records, place)?)?;
    }
    Ok(entries)
}

/// The entry of the record at a place. Beyond 4,294,967,296 records, or parts, it is out of memory.
fn entry_at(sets: &Sets, records: &[Record], place: usize) -> Result<Entry, NoMemory>
    requires { place < length records.now }
    ensures { IfOk result (λ e. (k : ARecord) → slice_get records.now place ≡ Some k → e ≡ entry_of sets.now k place) }
{
    let kept = &records[place];
    let target = target_of(sets, kept);
    let heading = heading_of(sets, kept.source, target);
    let other = other_side(sets, kept.source, target);
    let aim = aim(class_key(kept.class as usize), other);
    let part = short(part_of(heading, aim))?;
    let place = short(place)?;
    Ok(Entry { part, aim, place })
}

/// The heading of a rule by the set of its sources and what stands for its target: a target that is one type alone, behind all sets, or else the sources.
fn heading_of(sets: &Sets, source: u32, target: u32) -> usize
    ensures { result ≡ heading_of sets.now source target }
{
    if target < SEVERAL {
        return sets.behind(target);
    }
    source as usize
}

/// What stands for the side of a rule that is not its heading: for the sources where the target is one type alone, or else for the target.
fn other_side(sets: &Sets, source: u32, target: u32) -> u32
    requires { target ≤ itself }
    ensures key { result ≡ other_side sets.now source target }
    ensures room { result ≤ itself }
{
    if target < SEVERAL {
        return sets.key(source, set_key(source));
    }
    target
}

/// What stands for the target of a record.
fn target_of(sets: &Sets, kept: &Record) -> u32
    ensures key { result ≡ target_key sets.now kept.now.target kept.now.source }
    ensures room { result ≤ itself }
{
    if sets.is_number(kept.target) {
        return sets.key(kept.target, set_key(kept.target));
    }
    sets.key(kept.source, ITSELF)
}

/// Where the entries of each part begin, and those of the one behind. It costs a step for each entry and each part. Errors: out of memory.
fn starts_of(alloc: Global, entries: &[Entry]) -> Result<Vec<u32>, NoMemory>
    requires { IsSorted entry_cmp entries.now }
    ensures { IfOk result (λ starts. AreAllStarts entries.now starts.items) }
{
    let parts = parts_of(entries);
    let mut starts = Vec::with_capacity(alloc, parts)?;
    let mut at = 0;
    for part in 0..parts {
        at = part_start(entries, at, part);
        starts.push(short(at)?)?;
    }
    Ok(starts)
}

/// So many numbers are there up to the one behind the last part.
fn parts_of(entries: &[Entry]) -> usize
    requires { IsSorted entry_cmp entries.now }
    ensures { (e : AnEntry) → Contains entries.now e → e.part + 1 < result }
{
    match entries.last() {
        Some(entry) => entry.part as usize + 2,
        None => 0,
    }
}

/// The place of the first entry of a part or a later one, from a place on before which all are of parts before it.
fn part_start(entries: &[Entry], from: usize, part: usize) -> usize
    requires sorted { IsSorted entry_cmp entries.now }
    requires within { from ≤ length entries.now }
    requires before { AreBefore entries.now part from }
    ensures { BeginAt entries.now part result }
{
    let mut at = from;
    while at < entries.len() {
        let entry = &entries[at];
        if entry.part as usize >= part {
            return at;
        }
        at += 1;
    }
    at
}
