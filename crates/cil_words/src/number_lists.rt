//! Lists of numbers, one after another, in four bytes for each number. A list that is there is mostly not added again.

ghost use Rattle.std.specs.Prelude.{◌≡◌, ◌≤◌, ◌+◌, ◌++◌, ◌∷◌, [], IsTrue, OnErr, OnOk, length, slice_get, slice_range};

use crate::slots::{guess_at, note, slot_of};
use cil_base::{NoMemory, short};
use std::alloc::Global;
use std::marker::Model;

/// Lists of numbers, four bytes for a list and for a number. Contracts see the lists.
#[derive(Drop)]
pub struct Lists {
    /// Where each list begins.
    starts: Vec<u32>,
    /// The lists, one after another.
    numbers: Vec<u32>,
    /// Where a list may be, plus 1, by a hash of its numbers; or 0.
    slots: Vec<u32>,
}

impl Model for Lists {
    ghost use Rattle.std.specs.Prelude.{List, ℕ, length};
    ghost use Rattle.cil_names.specs.Rows.{AreWithin, lists_at};

    ghost Value = { List (List ℕ) };

    ghost view = { λ a. lists_at a.starts.items a.numbers.items };

    ghost invariant = { λ a. AreWithin (length a.numbers.items) a.starts.items };
}

impl Lists {
    ghost use Rattle.std.specs.Prelude.{◌≡◌, ◌≤◌, ◌<◌, ◌++◌, ◌∷◌, [], IfOk, IfSome, OnOk, ℕ, get_or, length};
    ghost use Rattle.cil_words.specs.Cells.{IsPlaced};

    /// No lists.
    pub fn new(alloc: Global) -> Lists
        ensures { result ≡ [] }
    {
        Lists {
            starts: Vec::new(alloc),
            numbers: Vec::new(alloc),
            slots: Vec::new(alloc),
        }
    }

    /// How many lists there are.
    pub fn len(&self) -> usize
        ensures { result ≡ length self.now }
    {
        self.starts.len()
    }

    /// The list of this number, counted from 0; an empty one where there are not so many.
    pub fn row(&self, number: usize) -> &[u32]
        ensures { result.now ≡ get_or self.now number [] }
    {
        let starts = self.starts.as_slice();
        let numbers = self.numbers.as_slice();
        let Some(start) = number_at(starts, number) else {
            return &[];
        };
        let Some(end) = end_at(starts, number) else {
            return part(numbers, start, numbers.len());
        };
        part(numbers, start, end)
    }

    /// The number of a list. The list is added if no guess finds it. After an error it may be there in part, behind all others.
    pub fn place_of(&mut self, list: &[usize]) -> Result<usize, NoMemory>
        ensures placed { IfOk result (IsPlaced self.old self.new list.now) }
        ensures none_lost { length self.old ≤ length self.new }
    {
        let slot = slot_of(list);
        if let Some(place) = self.found(slot, list) {
            return Ok(place);
        }
        let place = self.add(list)?;
        note(&mut self.slots, slot, place);
        Ok(place)
    }

    /// Adds a list. Its number is that of the lists before.
    fn add(&mut self, list: &[usize]) -> Result<usize, NoMemory>
        ensures placed { IfOk result (IsPlaced self.old self.new list.now) }
        ensures none_lost { length self.old ≤ length self.new }
    {
        let place = self.len();
        self.push(list)?;
        Ok(place)
    }

    /// The number of a list, if a guess by its slot finds it.
    fn found(&self, slot: usize, list: &[usize]) -> Option<usize>
        ensures { IfSome result (IsPlaced self.now self.now list.now) }
    {
        if let Some(place) = self.tried(slot, list) {
            return Some(place);
        }
        self.tried(slot ^ 1, list)
    }

    /// The number that a slot tells, if the list is there.
    fn tried(&self, slot: usize, list: &[usize]) -> Option<usize>
        ensures { IfSome result (IsPlaced self.now self.now list.now) }
    {
        let place = guess_at(self.slots.as_slice(), slot)?;
        if place < self.len() && is_list(self.row(place), list) {
            return Some(place);
        }
        None
    }

    /// Adds a list. After an error it may be there in part, behind all others.
    fn push(&mut self, list: &[usize]) -> Result<(), NoMemory>
        ensures pushed { OnOk result (self.new ≡ self.old ++ list.now ∷ []) }
        ensures none_lost { length self.old ≤ length self.new }
    {
        let start = self.numbers.len();
        push_number(&mut self.starts, start)?;
        push_small(&mut self.numbers, list)
    }
}

/// Adds numbers, in four bytes each.
fn push_small(numbers: &mut Vec<u32>, list: &[usize]) -> Result<(), NoMemory>
    ensures pushed { OnOk result (numbers.new.items ≡ numbers.old.items ++ list.now) }
    ensures none_lost { length numbers.old.items ≤ length numbers.new.items }
{
    for number in list {
        push_number(numbers, *number)?;
    }
    Ok(())
}

/// Adds a number, in four bytes. Error: out of memory, also for a number that needs more.
pub fn push_number(numbers: &mut Vec<u32>, number: usize) -> Result<(), NoMemory>
    ensures pushed { OnOk result (numbers.new.items ≡ numbers.old.items ++ number ∷ []) }
    ensures err { OnErr result (numbers.new.items ≡ numbers.old.items) }
{
    let small = short(number)?;
    numbers.push(small)?;
    Ok(())
}

/// The number at a place.
pub fn number_at(numbers: &[u32], place: usize) -> Option<usize>
    ensures { result ≡ slice_get numbers.now place }
{
    match numbers.get(place) {
        Some(number) => Some(*number as usize),
        None => None,
    }
}

/// The place where the next list begins.
pub fn end_at(starts: &[u32], i: usize) -> Option<usize>
    ensures { result ≡ slice_get starts.now (i + 1) }
{
    if i < starts.len() {
        number_at(starts, i + 1)
    } else {
        None
    }
}

/// Whether these are the numbers of a list.
fn is_list(numbers: &[u32], list: &[usize]) -> bool
    ensures { IsTrue result → numbers.now ≡ list.now }
{
    if numbers.len() != list.len() {
        return false;
    }
    for i in 0..numbers.len() {
        if numbers[i] as usize != list[i] {
            return false;
        }
    }
    true
}

/// A part of some numbers; none where it ends before it begins.
fn part(numbers: &[u32], start: usize, end: usize) -> &[u32]
    requires { end ≤ length numbers.now }
    ensures { result.now ≡ slice_range numbers.now start end }
{
    if start <= end {
        &numbers[start..end]
    } else {
        &[]
    }
}
