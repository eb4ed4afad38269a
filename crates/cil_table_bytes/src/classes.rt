//! Sections of classes and booleans.

ghost use Rattle.std.specs.Prelude.{◌≡◌};
ghost use Rattle.cil_format.specs.Fields.{by_text, texts_rise};
ghost use Rattle.cil_format.specs.Format.{many};
ghost use Rattle.cil_format.specs.Takes.{Takes};
ghost use Rattle.cil_label_bytes.specs.Names.{permission};
ghost use Rattle.cil_table_bytes.specs.Names as layout;

use cil_base::{Bytes, Names};
use cil_format::{
    Section, TableError, TableFault, byte_below, is_below, section_at, text_in, u8_at,
};
use cil_label_bytes::{owned_name_at, permission_at};
use cil_tables::{Boolean, Class};
use std::alloc::Global;

/// How many permissions a class may have.
const MOST_PERMISSIONS: u8 = 32;

/// How many classes there may be.
const MOST_CLASSES: u32 = 1024;

/// How many booleans there may be.
const MOST_BOOLEANS: u32 = 4096;

/// A copy of a permission.
fn owned_permission_at(alloc: Global, bytes: &[u8]) -> Result<(Bytes, &[u8]), TableError>
    ensures { Takes (λ x. (x.0, x.1.now)) result (permission.read bytes.now) }
{
    let (name, rest) = permission_at(bytes)?;
    Ok((Bytes::copy_of(alloc, name)?, rest))
}

/// So many permissions.
fn permissions_from(
    alloc: Global,
    bytes: &[u8],
    count: u8,
) -> Result<(Vec<Bytes>, &[u8]), TableError>
    ensures { Takes (λ x. (x.0.items, x.1.now)) result ((many permission count).read bytes.now) }
{
    let mut permissions = Vec::new(alloc);
    let mut rest = bytes;
    for _ in 0..count {
        let (name, after) = owned_permission_at(alloc, rest)?;
        permissions.push(name)?;
        rest = after;
    }
    Ok((permissions, rest))
}

/// Whether each text is above the one before it.
fn are_rising(texts: &[Bytes]) -> bool
    ensures { result ≡ texts_rise texts.now }
{
    for at in 1..texts.len() {
        if !is_below(texts[at - 1].as_slice(), texts[at].as_slice()) {
            return false;
        }
    }
    true
}

/// The permissions of a class.
fn permissions_at(alloc: Global, bytes: &[u8]) -> Result<(Names, &[u8]), TableError>
    ensures { Takes (λ x. (x.0, x.1.now)) result (layout.permissions.read bytes.now) }
{
    let (count, rest) = u8_at(bytes)?;
    if count > MOST_PERMISSIONS {
        return Err(TableError::Fault(TableFault::OutOfRange));
    }
    let (permissions, rest) = permissions_from(alloc, rest, count)?;
    if are_rising(&permissions) {
        return Ok((Names::from_vec(permissions), rest));
    }
    Err(TableError::Fault(TableFault::NotCanonical))
}

/// Records that are a class.
struct Classes;

impl Section for Classes {
    type Record = Class;

    ghost format = { λ section. layout.class_row };

    ghost less = { by_text };

    fn read<'a>(&self, alloc: Global, bytes: &'a [u8]) -> Result<(Class, &'a [u8]), TableError> {
        let (name, rest) = owned_name_at(alloc, bytes)?;
        let (permissions, rest) = permissions_at(alloc, rest)?;
        Ok((Class { name, permissions }, rest))
    }

    fn is_after(last: &[u8], next: &[u8]) -> bool {
        is_below(text_in(last), text_in(next))
    }
}

/// The classes, and the bytes behind them. Errors: the first fault, or out of memory.
pub fn classes_at(alloc: Global, bytes: &[u8]) -> Result<(Vec<Class>, &[u8]), TableError>
    ensures { Takes (λ x. (x.0.items, x.1.now)) result (layout.classes.read bytes.now) }
{
    section_at(alloc, &Classes, bytes, MOST_CLASSES)
}

/// A byte that says yes or no, and the bytes behind it. Errors: the first fault.
pub fn flag_at(bytes: &[u8]) -> Result<(bool, &[u8]), TableError>
    ensures { Takes (λ x. (x.0, x.1.now)) result (layout.flag.read bytes.now) }
{
    let (byte, rest) = byte_below(bytes, 2)?;
    Ok((byte == 1, rest))
}

/// Records that are a boolean.
struct Booleans;

impl Section for Booleans {
    type Record = Boolean;

    ghost format = { λ section. layout.boolean };

    ghost less = { by_text };

    fn read<'a>(&self, alloc: Global, bytes: &'a [u8]) -> Result<(Boolean, &'a [u8]), TableError> {
        let (name, rest) = owned_name_at(alloc, bytes)?;
        let (default, rest) = flag_at(rest)?;
        Ok((Boolean { name, default }, rest))
    }

    fn is_after(last: &[u8], next: &[u8]) -> bool {
        is_below(text_in(last), text_in(next))
    }
}

/// The booleans, and the bytes behind them. Errors: the first fault, or out of memory.
pub fn booleans_at(alloc: Global, bytes: &[u8]) -> Result<(Vec<Boolean>, &[u8]), TableError>
    ensures { Takes (λ x. (x.0.items, x.1.now)) result (layout.booleans.read bytes.now) }
{
    section_at(alloc, &Booleans, bytes, MOST_BOOLEANS)
}
