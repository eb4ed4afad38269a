//! Sections of names in byte order: roles, and types with their aliases.

ghost use Rattle.std.specs.Prelude.{◌≡◌, IfOk, nat_le};
ghost use Rattle.std.specs.List.Sorted.{IsStrictlySortedBy};
ghost use Rattle.cil_base.specs.Lists.{text_cmp};
ghost use Rattle.cil_format.specs.Fields.{by_text};
ghost use Rattle.cil_format.specs.Format.{section};
ghost use Rattle.cil_format.specs.Takes.{Takes};
ghost use Rattle.cil_label_bytes.specs.Layout.{is_new, new_name};
ghost use Rattle.cil_label_bytes.specs.Names.{name};
ghost use Rattle.cil_table_bytes.specs.Names as layout;

use cil_base::{Bytes, number_of};
use cil_format::{Section, TableError, TableFault, is_below, section_at, small_at, text_in};
use cil_label_bytes::{name_at, owned_name_at};
use cil_tables::Alias;
use std::alloc::Global;
use std::marker::Model;

/// How many roles there may be.
const MOST_ROLES: u32 = 4096;

/// How many types there may be.
const MOST_TYPES: u32 = 65_535;

/// The role of objects.
const OBJECT_ROLE: &[u8] = b"object_r";

/// Records that are a name.
struct Names;

impl Section for Names {
    type Record = Bytes;

    ghost format = { λ section. name };

    ghost less = { by_text };

    fn read<'a>(&self, alloc: Global, bytes: &'a [u8]) -> Result<(Bytes, &'a [u8]), TableError> {
        owned_name_at(alloc, bytes)
    }

    fn is_after(last: &[u8], next: &[u8]) -> bool {
        is_below(text_in(last), text_in(next))
    }
}

/// So many names at most, in byte order.
fn names_at(alloc: Global, bytes: &[u8], most: u32) -> Result<(Vec<Bytes>, &[u8]), TableError>
    ensures read { Takes (λ x. (x.0.items, x.1.now)) result ((section by_text (λ n. nat_le n most) name).read bytes.now) }
    ensures rising { IfOk result (λ x. IsStrictlySortedBy text_cmp x.0.items) }
{
    let (names, rest) = section_at(alloc, &Names, bytes, most)?;
    Ok((names, rest))
}

/// The roles, and the bytes behind them. Errors: the first fault, or out of memory.
pub fn roles_at(alloc: Global, bytes: &[u8]) -> Result<(Vec<Bytes>, &[u8]), TableError>
    ensures read { Takes (λ x. (x.0.items, x.1.now)) result (layout.roles.read bytes.now) }
    ensures rising { IfOk result (λ x. IsStrictlySortedBy text_cmp x.0.items) }
{
    let (roles, rest) = names_at(alloc, bytes, MOST_ROLES)?;
    if has_object_role(&roles) {
        return Ok((roles, rest));
    }
    Err(TableError::Fault(TableFault::OutOfRange))
}

/// Whether the role of objects is among some.
fn has_object_role(roles: &[Bytes]) -> bool
    ensures { result ≡ layout.has_object_role roles.now }
{
    roles.iter().any(|role| role.as_slice() == OBJECT_ROLE)
}

/// The types, and the bytes behind them. Errors: the first fault, or out of memory.
pub fn types_at(alloc: Global, bytes: &[u8]) -> Result<(Vec<Bytes>, &[u8]), TableError>
    ensures read { Takes (λ x. (x.0.items, x.1.now)) result (layout.types.read bytes.now) }
    ensures rising { IfOk result (λ x. IsStrictlySortedBy text_cmp x.0.items) }
{
    names_at(alloc, bytes, MOST_TYPES)
}

/// The aliases of types with these names.
#[derive(Drop)]
struct AliasesOf<'n> {
    names: &'n [Bytes],
}

impl<'n> Model for AliasesOf<'n> {
    ghost use Rattle.std.specs.Prelude.{List, ℕ};
    ghost use Rattle.std.specs.List.Sorted.{IsStrictlySortedBy};
    ghost use Rattle.cil_base.specs.Lists.{text_cmp};

    ghost Value = { List (List ℕ) };

    ghost view = { λ a. a.names.now };

    ghost invariant = { λ a. IsStrictlySortedBy text_cmp a.names.now };
}

impl<'n> Section for AliasesOf<'n> {
    type Record = Alias;

    ghost format = { layout.alias };

    ghost less = { by_text };

    fn read<'a>(&self, alloc: Global, bytes: &'a [u8]) -> Result<(Alias, &'a [u8]), TableError> {
        let names = self.names;
        let (name, rest) = new_name_at(names, bytes)?;
        let (target, rest) = small_at(rest, names.len())?;
        let alias = Alias {
            name: Bytes::copy_of(alloc, name)?,
            target: target as usize,
        };
        Ok((alias, rest))
    }

    fn is_after(last: &[u8], next: &[u8]) -> bool
        ensures { result ≡ by_text last.now next.now }
    {
        is_below(text_in(last), text_in(next))
    }
}

/// A name that is none of some in byte order, and the bytes behind it.
fn new_name_at<'a>(names: &[Bytes], bytes: &'a [u8]) -> Result<(&'a [u8], &'a [u8]), TableError>
    requires { IsStrictlySortedBy text_cmp names.now }
    ensures { Takes (λ x. (x.0.now, x.1.now)) result ((new_name names.now).read bytes.now) }
{
    let (name, rest) = name_at(bytes)?;
    if is_missing(names, name) {
        return Ok((name, rest));
    }
    Err(TableError::Fault(TableFault::OutOfRange))
}

/// Whether a name is none of some in byte order.
fn is_missing(names: &[Bytes], name: &[u8]) -> bool
    requires { IsStrictlySortedBy text_cmp names.now }
    ensures { result ≡ is_new names.now name.now }
{
    match number_of(names, name) {
        Some(_) => false,
        None => true,
    }
}

/// The aliases of types with these names, and the bytes behind them. Errors: the first fault, or out of memory.
pub fn aliases_at<'a>(
    alloc: Global,
    names: &Vec<Bytes>,
    bytes: &'a [u8],
) -> Result<(Vec<Alias>, &'a [u8]), TableError>
    requires { IsStrictlySortedBy text_cmp names.now.items }
    ensures { Takes (λ x. (x.0.items, x.1.now)) result ((layout.aliases names.now.items).read bytes.now) }
{
    let section = AliasesOf {
        names: names.as_slice(),
    };
    section_at(alloc, &section, bytes, u32::MAX)
}
