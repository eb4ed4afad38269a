//! Sections: how many records there are, and these, in their order.

ghost use Rattle.std.specs.Prelude.{◌≡◌, ℕ, ◌-◌, ◌^◌, nat_le, Bool, List, None, length, take};
ghost use Rattle.std.specs.Int.{w32};
ghost use Rattle.cil_format.specs.Ends.{last_of};
ghost use Rattle.cil_format.specs.Fields as fields;
ghost use Rattle.cil_format.specs.Format.{Format, checked, comes_after, number, rising_at, section};
ghost use Rattle.cil_format.specs.Takes.{Takes};
ghost use Rattle.cil_format.specs.declared.fault.TableFault.TheVariants.{OutOfRange};

use crate::fault::{TableError, TableFault};
use crate::fields::u32_at;
use std::alloc::Global;
use std::cmp::Ordering;

/// A kind of section: how its records are read, and in which order they stand. A value has what the sections before it say.
pub trait Section {
    /// What a record says.
    type Record: Drop;

    /// How a record is laid out.
    ghost format: { Self → Format Self.Record };

    /// When the bytes of a record come after those of another.
    ghost less: { List ℕ → List ℕ → Bool };

    /// The record at the front of the bytes, and the bytes behind it. Errors: the first fault, or out of memory.
    fn read<'a>(
        &self,
        alloc: Global,
        bytes: &'a [u8],
    ) -> Result<(Self::Record, &'a [u8]), TableError>
        ensures { Takes (λ x. (x.0, x.1.now)) result ((format self.now).read bytes.now) };

    /// Whether the bytes of the next record come after those of the last one.
    fn is_after(last: &[u8], next: &[u8]) -> bool
        ensures { result ≡ less last.now next.now };
}

/// Whether the bytes of a record come after those of the last one, if there is one.
fn comes_next<S: Section>(last: Option<&[u8]>, next: &[u8]) -> bool
    ensures { result ≡ comes_after S.less (last_of last.entry) next.now }
{
    match last {
        None => true,
        Some(last) => S::is_after(last, next),
    }
}

/// So many records, each after the one before it.
fn records_at<'a, S: Section>(
    alloc: Global,
    section: &S,
    bytes: &'a [u8],
    count: u32,
) -> Result<(Vec<S::Record>, &'a [u8]), TableError>
    ensures { Takes (λ x. (x.0.items, x.1.now)) result (rising_at S.less (S.format section.now).read None count bytes.now) }
{
    let mut records = Vec::new(alloc);
    let mut last: Option<&[u8]> = None;
    let mut rest = bytes;
    for _ in 0..count {
        let (record, after) = section.read(alloc, rest)?;
        let raw = front(rest, after.len());
        if !comes_next::<S>(last, raw) {
            return Err(TableError::Fault(TableFault::NotCanonical));
        }
        records.push(record)?;
        last = Some(raw);
        rest = after;
    }
    Ok((records, rest))
}

/// All but the last so many bytes.
fn front(bytes: &[u8], left: usize) -> &[u8]
    ensures { result.now ≡ take (length bytes.now - left) bytes.now }
{
    if left > bytes.len() {
        return &bytes[..0];
    }
    &bytes[..bytes.len() - left]
}

/// The number of records of a section, at most so many.
fn count_at(bytes: &[u8], most: u32) -> Result<(u32, &[u8]), TableError>
    ensures { Takes (λ x. (x.0, x.1.now)) result ((checked (λ n. nat_le n most) OutOfRange (number w32 (2 ^ 32))).read bytes.now) }
{
    let (count, rest) = u32_at(bytes)?;
    if count <= most {
        return Ok((count, rest));
    }
    Err(TableError::Fault(TableFault::OutOfRange))
}

/// A section of so many records at most. No room is taken for what is only counted: it ends at the first record that is not there.
pub fn section_at<'a, S: Section>(
    alloc: Global,
    kind: &S,
    bytes: &'a [u8],
    most: u32,
) -> Result<(Vec<S::Record>, &'a [u8]), TableError>
    ensures { Takes (λ x. (x.0.items, x.1.now)) result
        ((section S.less (λ n. nat_le n most) (S.format kind.now)).read bytes.now) }
{
    let (count, rest) = count_at(bytes, most)?;
    records_at(alloc, kind, rest, count)
}

/// Whether a text comes before another in byte order.
pub fn is_below(a: &[u8], b: &[u8]) -> bool
    ensures { result ≡ fields.below a.now b.now }
{
    a.cmp(b) == Ordering::Less
}

/// The text at the front of the bytes of a record.
pub fn text_in(bytes: &[u8]) -> &[u8]
    ensures { result.now ≡ fields.text_in bytes.now }
{
    if bytes.len() < 4 {
        return &bytes[..0];
    }
    let (size, rest) = bytes.split_at(4);
    let size = u32::from_be_bytes([size[0], size[1], size[2], size[3]]) as usize;
    if size > rest.len() {
        return rest;
    }
    &rest[..size]
}
