//! Sections in an order of their own: names, and sensitivities with the categories that they permit.

ghost use Rattle.std.specs.Prelude.{◌≡◌, ◌^◌, [], IfOk, length, nat_le, true};
ghost use Rattle.std.specs.Int.{w32};
ghost use Rattle.cil_format.specs.Format.{both, checked, each_at, number};
ghost use Rattle.cil_format.specs.Takes.{Takes};
ghost use Rattle.cil_format.specs.declared.fault.TableFault.TheVariants.{OutOfRange};
ghost use Rattle.cil_label_bytes.specs.Layout as layout;
ghost use Rattle.cil_label_bytes.specs.Sets as sets;

use crate::name_list::{NameList, new_name_at};
use crate::sets::categories_below;
use cil_format::{TableError, TableFault, u32_at};
use cil_mls::Categories;
use std::alloc::Global;

/// How many categories there may be.
const MOST_CATEGORIES: u32 = 1024;

/// How many sensitivities there may be.
const MOST_SENSITIVITIES: u32 = 256;

/// Sensitivities in their order. There is a set for each name.
#[derive(Drop)]
pub struct Sensitivities<'a> {
    /// Their names.
    pub names: NameList<'a>,
    /// What each of them permits.
    pub permitted: Vec<Categories>,
}

/// The categories, and the bytes behind them. Errors: the first fault, or out of memory.
pub fn categories_at<'a>(
    alloc: Global,
    bytes: &'a [u8],
) -> Result<(NameList<'a>, &'a [u8]), TableError>
    ensures { Takes (λ x. (x.0, x.1.now)) result (layout.categories.read bytes.now) }
{
    let (count, rest) = count_at(bytes, MOST_CATEGORIES)?;
    names_at(alloc, rest, count)
}

/// The sensitivities, and the bytes behind them, where there are so many categories. Errors: the first fault, or out of memory.
pub fn sensitivities_at<'a>(
    alloc: Global,
    bytes: &'a [u8],
    categories: usize,
) -> Result<(Sensitivities<'a>, &'a [u8]), TableError>
    ensures { Takes (λ x. ((x.0.names, x.0.permitted.items), x.1.now)) result ((layout.sensitivities categories).read bytes.now) }
{
    let (count, rest) = count_at(bytes, MOST_SENSITIVITIES)?;
    levels_at(alloc, rest, count, categories)
}

/// So many names, each once.
fn names_at<'a>(
    alloc: Global,
    bytes: &'a [u8],
    count: u32,
) -> Result<(NameList<'a>, &'a [u8]), TableError>
    ensures { Takes (λ x. (x.0, x.1.now)) result (each_at (λ done rest. (layout.new_name done).read rest) [] count bytes.now) }
{
    let mut names = NameList::new(alloc);
    let mut rest = bytes;
    for _ in 0..count {
        let (name, after) = new_name_at(&names, rest)?;
        names.add(name)?;
        rest = after;
    }
    Ok((names, rest))
}

/// So many sensitivities, each once.
fn levels_at<'a>(
    alloc: Global,
    bytes: &'a [u8],
    count: u32,
    categories: usize,
) -> Result<(Sensitivities<'a>, &'a [u8]), TableError>
    ensures read { Takes (λ x. (layout.zipped x.0.names x.0.permitted.items, x.1.now)) result
        (each_at (λ done rest. (layout.sensitivity categories done).read rest) [] count bytes.now) }
    ensures paired { IfOk result (λ x. length x.0.names ≡ length x.0.permitted.items) }
{
    let mut names = NameList::new(alloc);
    let mut permitted = Vec::new(alloc);
    let mut rest = bytes;
    for _ in 0..count {
        let ((name, set), after) = sensitivity_at(alloc, &names, rest, categories)?;
        names.add(name)?;
        permitted.push(set)?;
        rest = after;
    }
    Ok((Sensitivities { names, permitted }, rest))
}

/// A sensitivity that is not among those with these names: its name, and the categories that it permits.
fn sensitivity_at<'a>(
    alloc: Global,
    names: &NameList,
    bytes: &'a [u8],
    categories: usize,
) -> Result<((&'a [u8], Categories), &'a [u8]), TableError>
    ensures read { Takes (λ x. ((x.0.0.now, x.0.1), x.1.now)) result
        ((both (layout.new_name names.now) (λ name. sets.categories_below categories)).read bytes.now) }
    ensures fresh { IfOk result (λ x. layout.is_new names.now x.0.0.now ≡ true) }
{
    let (name, rest) = new_name_at(names, bytes)?;
    let (set, rest) = categories_below(alloc, rest, categories)?;
    Ok(((name, set), rest))
}

/// The number of records of a section, at most so many.
fn count_at(bytes: &[u8], most: u32) -> Result<(u32, &[u8]), TableError>
    ensures { Takes (λ x. (x.0, x.1.now)) result ((checked (λ n. nat_le n most) OutOfRange (number w32 (2 ^ 32))).read bytes.now) }
{
    let (count, rest) = u32_at(bytes)?;
    if count <= most {
        return Ok((count, rest));
    }
    Err(TableError::Fault(TableFault::OutOfRange))
}
