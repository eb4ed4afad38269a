//! Texts in rows: lists that follow one another in byte order, so that a new text moves those of its row alone.

ghost use Rattle.std.specs.Prelude.{◌≡◌, ℕ, ◌+◌, ◌<◌, ◌≤◌, ◌↔◌, List, [], ◌∷◌, ◌++◌, length, Contains, IsTrue, IsOk, IfOk, IfErr, OnOk, OnErr, slice_index_or};
ghost use Rattle.std.specs.Global.{Vec};
ghost use Rattle.cil_modset.specs.Modules.{IsBelow, IsPlaceOf, IsRising, module_of, texts_of};
ghost use Rattle.cil_modset.specs.Rows.{AreInOrder, IsHomeOf, IsOffered, joined};

use crate::order::{is_below, is_same};
use cil_sexpr::{ReadError, read};
use std::alloc::{AllocError, Global};
use std::mem;

/// A row is halved when it has more texts than this and the number of rows together.
const LONG: usize = 1024;

/// The text of a number. It costs a step for each row before that of the text.
pub(crate) fn text_at(rows: &[Vec<Vec<u8>>], i: usize) -> &[u8]
    requires { i < length (joined rows.now) }
    ensures { result.now ≡ module_of (joined rows.now) i }
{
    let mut left = i;
    for row in rows {
        if left < row.len() {
            return row[left].as_slice();
        }
        left -= row.len();
    }
    unreachable!()
}

/// Whether a text is in one of the rows.
pub(crate) fn has(rows: &[Vec<Vec<u8>>], text: &[u8]) -> bool
    requires { AreInOrder rows.now }
    ensures { IsTrue result ↔ Contains (joined rows.now) text.now }
{
    if rows.is_empty() {
        return false;
    }
    let row = rows[home_of(rows, text)].as_slice();
    place_of(row, text).is_ok()
}

/// The row in which a text has its place, by a search by halving among the first texts of the rows.
fn home_of(rows: &[Vec<Vec<u8>>], text: &[u8]) -> usize
    requires some { 0 < length rows.now }
    requires order { AreInOrder rows.now }
    ensures { IsHomeOf rows.now text.now result }
{
    let mut home = 0;
    let mut end = rows.len();
    while home + 1 < end {
        let middle = home + (end - home) / 2;
        if begins_behind(rows[middle].as_slice(), text) {
            end = middle;
        } else {
            home = middle;
        }
    }
    home
}

/// Whether the first text of a row is behind a text.
fn begins_behind(row: &[Vec<u8>], text: &[u8]) -> bool
    requires { 0 < length row.now }
    ensures { IsTrue result ↔ IsBelow text.now (module_of (texts_of row.now) 0) }
{
    is_below(text, row[0].as_slice())
}

/// The index of a text in a sorted list, or else the index at which it would be inserted.
fn place_of(texts: &[Vec<u8>], text: &[u8]) -> Result<usize, usize>
    requires { IsRising (texts_of texts.now) }
    ensures found { OnOk result (Contains (texts_of texts.now) text.now) }
    ensures absent { IfErr result (IsPlaceOf (texts_of texts.now) text.now) }
{
    let place = texts.partition_point(|known| is_below(known.as_slice(), text));
    if place < texts.len() && is_same(texts[place].as_slice(), text) {
        Ok(place)
    } else {
        Err(place)
    }
}

/// Adds a text, if it is readable and in none of the rows, and returns whether it is new. Errors: the first fault of an
/// unreadable text, or out of memory.
pub(crate) fn add(
    alloc: Global,
    rows: &mut Vec<Vec<Vec<u8>>>,
    text: &[u8],
) -> Result<bool, ReadError>
    requires { AreInOrder rows.old.items }
    ensures order { AreInOrder rows.new.items }
    ensures offered { IsOffered (joined rows.old.items) text.now result (joined rows.new.items) }
{
    if rows.is_empty() {
        return add_first(alloc, rows, text);
    }
    let home = home_of(rows.as_slice(), text);
    let result = put(alloc, &mut rows[home], text);
    if rows[home].len() > LONG + rows.len() {
        // A row that there is no memory to halve stays as it is, until the next text comes to it.
        let _ = part(rows, home);
    }
    result
}

/// Makes the first row, of one text.
fn add_first(alloc: Global, rows: &mut Vec<Vec<Vec<u8>>>, text: &[u8]) -> Result<bool, ReadError>
    requires none { rows.old.items ≡ [] }
    ensures order { AreInOrder rows.new.items }
    ensures offered { IsOffered [] text.now result (joined rows.new.items) }
{
    read(alloc, text)?;
    let mut row = Vec::new(alloc);
    row.push(Vec::from_slice(alloc, text)?)?;
    rows.push(row)?;
    Ok(true)
}

/// Puts a text into a row, as `add` does.
fn put(alloc: Global, row: &mut Vec<Vec<u8>>, text: &[u8]) -> Result<bool, ReadError>
    requires { IsRising (texts_of row.old.items) }
    ensures { IsOffered (texts_of row.old.items) text.now result (texts_of row.new.items) }
{
    match place_of(row.as_slice(), text) {
        Ok(_) => Ok(false),
        Err(place) => {
            read(alloc, text)?;
            let copy = Vec::from_slice(alloc, text)?;
            row.insert(place, copy)?;
            Ok(true)
        }
    }
}

/// Makes two rows of one. Error: out of memory, and then the rows are as before.
fn part(rows: &mut Vec<Vec<Vec<u8>>>, k: usize) -> Result<(), AllocError>
    requires within { k < length rows.old.items }
    requires long { (d : Vec (Vec ℕ)) → 1 < length (slice_index_or rows.old.items k d).items }
    requires order { AreInOrder rows.old.items }
    ensures order { AreInOrder rows.new.items }
    ensures same { joined rows.new.items ≡ joined rows.old.items }
{
    rows.reserve(1)?;
    let back = halve(&mut rows[k])?;
    rows.insert(k + 1, back).unwrap();
    Ok(())
}

/// Takes the back half of a row, and leaves the front half no more memory than it needs. Error: out of memory.
fn halve(row: &mut Vec<Vec<u8>>) -> Result<Vec<Vec<u8>>, AllocError>
    requires { 1 < length row.old.items }
    ensures halves { IfOk result (λ back. row.new.items ++ back.items ≡ row.old.items) }
    ensures front { OnOk result (0 < length row.new.items) }
    ensures back { IfOk result (λ back. 0 < length back.items) }
    ensures err { OnErr result (row.new.items ≡ row.old.items) }
{
    let back = row.split_off(row.len() / 2)?;
    row.shrink_to_fit();
    Ok(back)
}

/// A copy of the rows. Error: out of memory.
pub(crate) fn copy_of_all(
    alloc: Global,
    rows: &[Vec<Vec<u8>>],
) -> Result<Vec<Vec<Vec<u8>>>, AllocError>
    requires { AreInOrder rows.now }
    ensures order { IfOk result (λ copy. AreInOrder copy.items) }
    ensures same { IfOk result (λ copy. joined copy.items ≡ joined rows.now) }
{
    let mut copy = Vec::with_capacity(alloc, rows.len())?;
    for row in rows {
        copy.push(copy_of(alloc, row.as_slice())?)?;
    }
    Ok(copy)
}

/// A copy of some texts.
fn copy_of(alloc: Global, texts: &[Vec<u8>]) -> Result<Vec<Vec<u8>>, AllocError>
    ensures { IfOk result (λ copy. texts_of copy.items ≡ texts_of texts.now) }
{
    let mut copy = Vec::with_capacity(alloc, texts.len())?;
    for text in texts {
        copy.push(Vec::from_slice(alloc, text.as_slice())?)?;
    }
    Ok(copy)
}

/// Takes all texts out of the rows, as one row. Error: out of memory.
pub(crate) fn take_all(
    alloc: Global,
    rows: &mut Vec<Vec<Vec<u8>>>,
    count: usize,
) -> Result<Vec<Vec<u8>>, AllocError>
    requires { length (joined rows.old.items) ≤ count }
    ensures ok { IfOk result (λ all. texts_of all.items ≡ joined rows.old.items) }
    ensures err { OnErr result (rows.new ≡ rows.old) }
{
    if rows.len() == 1 {
        return Ok(mem::replace(&mut rows[0], Vec::new(alloc)));
    }
    let mut all = Vec::with_capacity(alloc, count)?;
    for i in 0..rows.len() {
        all.append(&mut rows[i]).unwrap();
    }
    Ok(all)
}
