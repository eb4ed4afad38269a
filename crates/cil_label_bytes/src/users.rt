//! The section of users: names in byte order, each with its range where levels are on.

ghost use Rattle.std.specs.Prelude.{◌≡◌, [], IfOk};
ghost use Rattle.cil_format.specs.Fields.{by_text};
ghost use Rattle.cil_format.specs.Format.{both};
ghost use Rattle.cil_format.specs.Takes.{Takes};
ghost use Rattle.cil_label_bytes.specs.Layout as layout;
ghost use Rattle.cil_label_bytes.specs.Names.{name};

use crate::names::{name_at, owned_name_at};
use crate::ranges::{Bounds, range_at};
use cil_base::{Bytes, NoMemory};
use cil_format::{Section, TableError, is_below, section_at, text_in};
use cil_mls::Range;
use std::alloc::Global;

/// How many users there may be.
const MOST_USERS: u32 = 4096;

/// The names of users, and their ranges: one for each where levels are on, and else none.
#[derive(Drop)]
pub struct ReadUsers {
    /// The names, in byte order.
    pub names: Vec<Bytes>,
    /// The ranges, in the order of the names.
    pub ranges: Vec<Range>,
}

/// Users with ranges.
#[derive(Drop)]
struct RangedUsers<'b, 'p> {
    bounds: &'b Bounds<'p>,
}

impl<'b, 'p> Section for RangedUsers<'b, 'p> {
    type Record = (Bytes, Range);

    ghost format = { λ section. both name (λ n. layout.range section.bounds.now.categories section.bounds.now.permitted.now) };

    ghost less = { by_text };

    fn read<'a>(
        &self,
        alloc: Global,
        bytes: &'a [u8],
    ) -> Result<((Bytes, Range), &'a [u8]), TableError> {
        let (name, rest) = name_at(bytes)?;
        let (range, rest) = range_at(alloc, self.bounds, rest)?;
        let name = Bytes::copy_of(alloc, name)?;
        Ok(((name, range), rest))
    }

    fn is_after(last: &[u8], next: &[u8]) -> bool {
        is_below(text_in(last), text_in(next))
    }
}

/// Users without ranges.
#[derive(Drop)]
struct PlainUsers;

impl Section for PlainUsers {
    type Record = Bytes;

    ghost format = { λ section. name };

    ghost less = { by_text };

    fn read<'a>(&self, alloc: Global, bytes: &'a [u8]) -> Result<(Bytes, &'a [u8]), TableError> {
        owned_name_at(alloc, bytes)
    }

    fn is_after(last: &[u8], next: &[u8]) -> bool {
        is_below(text_in(last), text_in(next))
    }
}

/// The users, and the bytes behind them, where levels are on or off. Errors: the first fault, or out of memory.
pub fn users_at<'a>(
    alloc: Global,
    are_on: bool,
    bounds: &Bounds,
    bytes: &'a [u8],
) -> Result<(ReadUsers, &'a [u8]), TableError>
    ensures { Takes (λ x. ((x.0.names.items, x.0.ranges.items), x.1.now)) result
        ((layout.users are_on bounds.now.categories bounds.now.permitted.now).read bytes.now) }
{
    if are_on {
        return ranged_at(alloc, bounds, bytes);
    }
    plain_at(alloc, bytes)
}

/// Users with ranges.
fn ranged_at<'a>(
    alloc: Global,
    bounds: &Bounds,
    bytes: &'a [u8],
) -> Result<(ReadUsers, &'a [u8]), TableError>
    ensures { Takes (λ x. ((x.0.names.items, x.0.ranges.items), x.1.now)) result
        ((layout.ranged_users bounds.now.categories bounds.now.permitted.now).read bytes.now) }
{
    let (users, rest) = section_at(alloc, &RangedUsers { bounds }, bytes, MOST_USERS)?;
    Ok((parted(alloc, users)?, rest))
}

/// Users without ranges.
fn plain_at<'a>(alloc: Global, bytes: &'a [u8]) -> Result<(ReadUsers, &'a [u8]), TableError>
    ensures { Takes (λ x. ((x.0.names.items, x.0.ranges.items), x.1.now)) result (layout.plain_users.read bytes.now) }
{
    let (names, rest) = section_at(alloc, &PlainUsers, bytes, MOST_USERS)?;
    let ranges = Vec::new(alloc);
    Ok((ReadUsers { names, ranges }, rest))
}

/// Names and ranges of users, each in a list of its own.
fn parted(alloc: Global, users: Vec<(Bytes, Range)>) -> Result<ReadUsers, NoMemory>
    ensures { IfOk result (λ parts. (parts.names.items, parts.ranges.items) ≡ layout.lists_of users.items) }
{
    let mut names = Vec::new(alloc);
    let mut ranges = Vec::new(alloc);
    for (name, range) in users {
        names.push(name)?;
        ranges.push(range)?;
    }
    Ok(ReadUsers { names, ranges })
}
