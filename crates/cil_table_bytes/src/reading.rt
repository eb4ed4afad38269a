//! Tables from their bytes.

ghost use Rattle.std.specs.Prelude.{◌≡◌, IfOk, List, Ok};
ghost use Rattle.cil_format.specs.Takes.{Takes};
ghost use Rattle.cil_constraint_bytes.specs.Bounds as constrained;
ghost use Rattle.cil_constraint_bytes.specs.Layout.{constraints};
ghost use Rattle.cil_rule_bytes.specs.Bounds as ruled;
ghost use Rattle.cil_rule_bytes.specs.Layout.{rule_sections};
ghost use Rattle.cil_tables.specs.Parts.{table_of as table_of_parts};
ghost use Rattle.cil_tables.specs.Table.{Table};
ghost use Rattle.cil_table_bytes.specs.Layout as layout;
ghost use Rattle.cil_table_bytes.specs.Names as names;
ghost use Rattle.cil_table_bytes.specs.Parts.{linked_by, named_by, read_by};

use crate::classes::{booleans_at, classes_at, flag_at};
use crate::links::links_at;
use crate::names::{aliases_at, roles_at, types_at};
use cil_base::{Bytes, Names, NoMemory};
use cil_constraint_bytes::{Bounds as ConstraintBounds, Constraint, constraints_at};
use cil_format::{TableError, TableFault, this_byte};
use cil_label_bytes::{ReadLabels, labels_at};
use cil_rule_bytes::{Bounds as RuleBounds, Sections, sections_at};
use cil_tables::{Alias, Boolean, Class, Links, TableParts, Tables};
use std::alloc::Global;

/// What sections 6 to 10 name.
#[derive(Drop)]
pub struct Named {
    pub roles: Vec<Bytes>,
    pub types: Vec<Bytes>,
    pub type_aliases: Vec<Alias>,
    pub classes: Vec<Class>,
    pub booleans: Vec<Boolean>,
}

/// What sections 11 to 13 link.
#[derive(Drop)]
pub struct Linked {
    pub user_roles: Links,
    pub role_types: Links,
    pub role_allows: Links,
}

/// What sections 14 to 17 rule.
#[derive(Drop)]
pub struct Ruled {
    pub rules: Sections,
    pub constraints: Vec<Constraint>,
}

/// What all sections say.
#[derive(Drop)]
pub struct ReadTable {
    pub labels: ReadLabels,
    pub named: Named,
    pub linked: Linked,
    pub ruled: Ruled,
}

/// The bytes by which tables are known.
#[tactic(auto, unfolding(crate::specs::Layout::magic))]
fn magic_at(bytes: &[u8]) -> Result<&[u8], TableError>
    ensures { Takes (λ x. (layout.magic_bytes, x.now)) result (layout.magic.read bytes.now) }
{
    let rest = this_byte(bytes, b'C', TableFault::BadMagic)?;
    let rest = this_byte(rest, b'I', TableFault::BadMagic)?;
    let rest = this_byte(rest, b'L', TableFault::BadMagic)?;
    let rest = this_byte(rest, b'T', TableFault::BadMagic)?;
    this_byte(rest, 1, TableFault::BadVersion)
}

/// Whether contexts have levels, and the bytes behind the header.
fn header_at(bytes: &[u8]) -> Result<(bool, &[u8]), TableError>
    ensures { Takes (λ x. (x.0, x.1.now)) result (layout.header.read bytes.now) }
{
    let rest = magic_at(bytes)?;
    flag_at(rest)
}

/// Sections 6 to 10.
#[tactic(auto, unfolding(crate::specs::Layout::names))]
fn named_at(alloc: Global, bytes: &[u8]) -> Result<(Named, &[u8]), TableError>
    ensures { Takes (λ x. (named_by x.0, x.1.now)) result (layout.names.read bytes.now) }
{
    let (roles, rest) = roles_at(alloc, bytes)?;
    let (types, rest) = types_at(alloc, rest)?;
    let (type_aliases, rest) = aliases_at(alloc, &types, rest)?;
    let (classes, rest) = classes_at(alloc, rest)?;
    let (booleans, rest) = booleans_at(alloc, rest)?;
    let named = Named {
        roles,
        types,
        type_aliases,
        classes,
        booleans,
    };
    Ok((named, rest))
}

/// How many there are of what links are between.
#[derive(Clone, Copy)]
struct Counts {
    users: usize,
    roles: usize,
    types: usize,
}

/// Sections 11 to 13.
#[tactic(auto, unfolding(crate::specs::Layout::linked))]
fn linked_at(alloc: Global, counts: Counts, bytes: &[u8]) -> Result<(Linked, &[u8]), TableError>
    ensures { Takes (λ x. (linked_by x.0, x.1.now)) result ((layout.linked counts.users counts.roles counts.types).read bytes.now) }
{
    let (user_roles, rest) = links_at(alloc, counts.users, counts.roles, bytes)?;
    let (role_types, rest) = links_at(alloc, counts.roles, counts.types, rest)?;
    let (role_allows, rest) = links_at(alloc, counts.roles, counts.roles, rest)?;
    let linked = Linked {
        user_roles,
        role_types,
        role_allows,
    };
    Ok((linked, rest))
}

/// How many permissions each class has. Errors: out of memory.
fn widths_in(alloc: Global, classes: &[Class]) -> Result<Vec<usize>, NoMemory>
    ensures { IfOk result (λ widths. widths.items ≡ names.widths_of classes.now) }
{
    let mut widths = Vec::with_capacity(alloc, classes.len())?;
    for class in classes {
        widths.push(class.permissions.as_slice().len())?;
    }
    Ok(widths)
}

/// How many permissions each class has that was named. Errors: out of memory.
fn widths_of(alloc: Global, named: &Named) -> Result<Vec<usize>, NoMemory>
    ensures { IfOk result (λ widths. widths.items ≡ names.widths_of named.now.classes.items) }
{
    widths_in(alloc, named.classes.as_slice())
}

/// What rules may say by number.
fn rule_bounds<'w>(named: &Named, widths: &'w [usize]) -> RuleBounds<'w>
    requires { widths.now ≡ names.widths_of named.now.classes.items }
    ensures { ruled.limits_of result ≡ layout.rule_limits (named_by named.now) }
{
    RuleBounds {
        types: named.types.len(),
        booleans: named.booleans.len(),
        widths,
    }
}

/// What constraints may say by number.
fn constraint_bounds<'w>(
    are_on: bool,
    users: usize,
    named: &Named,
    widths: &'w [usize],
) -> ConstraintBounds<'w>
    requires { widths.now ≡ names.widths_of named.now.classes.items }
    ensures { constrained.limits_of result ≡ layout.constraint_limits are_on users (named_by named.now) }
{
    ConstraintBounds {
        widths,
        users,
        roles: named.roles.len(),
        types: named.types.len(),
        are_on,
    }
}

/// Sections 14 to 16.
fn rules_at<'a>(
    alloc: Global,
    named: &Named,
    widths: &Vec<usize>,
    bytes: &'a [u8],
) -> Result<(Sections, &'a [u8]), TableError>
    requires { widths.now.items ≡ names.widths_of named.now.classes.items }
    ensures { Takes (λ x. (x.0, x.1.now)) result ((rule_sections (layout.rule_limits (named_by named.now))).read bytes.now) }
{
    let bounds = rule_bounds(named, widths.as_slice());
    sections_at(alloc, &bounds, bytes)
}

/// What constraints may say by number, beside what was named.
#[derive(Clone, Copy)]
struct Setting {
    /// Whether contexts have levels.
    are_on: bool,
    /// How many users there are.
    users: usize,
}

/// Section 17.
fn constraints_from<'a>(
    alloc: Global,
    setting: Setting,
    named: &Named,
    widths: &Vec<usize>,
    bytes: &'a [u8],
) -> Result<(Vec<Constraint>, &'a [u8]), TableError>
    requires { widths.now.items ≡ names.widths_of named.now.classes.items }
    ensures { Takes (λ x. (x.0.items, x.1.now)) result ((constraints (layout.constraint_limits setting.are_on setting.users (named_by named.now))).read bytes.now) }
{
    let Setting { are_on, users } = setting;
    let bounds = constraint_bounds(are_on, users, named, widths.as_slice());
    constraints_at(alloc, &bounds, bytes)
}

/// Sections 14 to 17.
fn ruled_at<'a>(
    alloc: Global,
    setting: Setting,
    named: &Named,
    bytes: &'a [u8],
) -> Result<(Ruled, &'a [u8]), TableError>
    ensures { Takes (λ x. ((x.0.rules, x.0.constraints.items), x.1.now)) result ((layout.ruled setting.are_on setting.users (named_by named.now)).read bytes.now) }
{
    let widths = widths_of(alloc, named)?;
    let (rules, rest) = rules_at(alloc, named, &widths, bytes)?;
    let (constraints, rest) = constraints_from(alloc, setting, named, &widths, rest)?;
    Ok((Ruled { rules, constraints }, rest))
}

/// What all sections say.
#[tactic(auto, unfolding(crate::specs::Layout::sections))]
fn sections_from(
    alloc: Global,
    are_on: bool,
    bytes: &[u8],
) -> Result<(ReadTable, &[u8]), TableError>
    ensures { Takes (λ x. (read_by x.0, x.1.now)) result ((layout.sections are_on).read bytes.now) }
{
    let (labels, rest) = labels_at(alloc, bytes, are_on)?;
    let users = labels.users.as_slice().len();
    let (named, rest) = named_at(alloc, rest)?;
    let counts = Counts {
        users,
        roles: named.roles.len(),
        types: named.types.len(),
    };
    let (linked, rest) = linked_at(alloc, counts, rest)?;
    let (ruled, rest) = ruled_at(alloc, Setting { are_on, users }, &named, rest)?;
    let read = ReadTable {
        labels,
        named,
        linked,
        ruled,
    };
    Ok((read, rest))
}

/// What all of the bytes say.
#[tactic(auto, unfolding(crate::specs::Layout::table_in))]
fn table_in(alloc: Global, bytes: &[u8]) -> Result<ReadTable, TableError>
    ensures { Takes read_by result (layout.table_in bytes.now) }
{
    let (are_on, rest) = header_at(bytes)?;
    let (read, rest) = sections_from(alloc, are_on, rest)?;
    if rest.is_empty() {
        return Ok(read);
    }
    Err(TableError::Fault(TableFault::Trailing))
}

/// The parts of tables that were read.
fn parts_of(read: ReadTable) -> TableParts
    ensures { table_of_parts result ≡ read_by read }
{
    let ReadTable {
        labels,
        named,
        linked,
        ruled,
    } = read;
    let ReadLabels {
        labels: levels,
        users,
    } = labels;
    let Named {
        roles,
        types,
        type_aliases,
        classes,
        booleans,
    } = named;
    let Linked {
        user_roles,
        role_types,
        role_allows,
    } = linked;
    let Ruled { rules, constraints } = ruled;
    TableParts {
        levels,
        users,
        roles: Names::from_vec(roles),
        types: Names::from_vec(types),
        type_aliases,
        classes,
        booleans,
        user_roles,
        role_types,
        role_allows,
        rules,
        constraints,
    }
}

/// The tables that these bytes lay out. It costs a step for each byte, a hash for some names, and what sorting the rules costs. Errors:
/// the first fault from the left, or out of memory.
pub fn decode(alloc: Global, bytes: &[u8]) -> Result<Tables, TableError>
    // What is answered is the table whose bytes these are.
    ensures found { IfOk result (λ t. layout.IsCanonical bytes.now t) }
    // The bytes of a table are refused for want of memory alone.
    ensures only { (t : Table) → layout.IsCanonical bytes.now t → Takes (λ x. x) result (Ok t) }
    ensures fault { Takes (λ x. x) result (layout.table_in bytes.now) }
{
    let read = table_in(alloc, bytes)?;
    Ok(Tables::of(parts_of(read)))
}
