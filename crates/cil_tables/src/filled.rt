//! What the enabled statements of a policy give that forbids none of its own rules.

ghost use Rattle.std.specs.Prelude.{◌≡◌, map};
ghost use Rattle.cil_classes.specs.ClassRows.{AreClasses};
ghost use Rattle.cil_classes.specs.Row.{AreOrderlyRows};
ghost use Rattle.cil_faults.specs.Refusal.{Answers};
ghost use Rattle.cil_macros.specs.Items.{items_in, namespaces_in};
ghost use Rattle.cil_names.specs.Entries.{AreOrdered};
ghost use Rattle.cil_known.specs.Known.{IsKnown, enabled_in, row_in};
ghost use Rattle.cil_known.specs.Numbers.{AreApart, names_of};
ghost use Rattle.cil_names.specs.Rows.{IsTableOf};
ghost use Rattle.cil_neverallow.specs.NeverFaults.{NeverFault};
ghost use Rattle.cil_tables.specs.Filled.{IsFilled};
ghost use Rattle.cil_tables.specs.Sections.{table_from};
ghost use Rattle.cil_tables.specs.Standings.{AllStand};
ghost use Rattle.cil_tables.specs.Table.{IsOrderly};

use crate::booleans::booleans_of;
use crate::forbidden::check_forbidden;
use crate::sections::{Given, given_of};
use crate::standings::Standings;
use crate::tables::{Boolean, Tables};
use cil_base::Names;
use cil_classes::{Class, Classes, given_permissions};
use cil_faults::Failure;
use cil_known::{Known, Numbering, Sections};
use cil_level_rows::Labels;
use cil_macros::Instances;
use std::alloc::Global;

/// The sections of a table that statements give.
#[derive(Drop)]
pub struct Filled {
    /// The booleans.
    pub booleans: Vec<Boolean>,
    /// Links, aliases, rules and constraints.
    pub given: Given,
}

/// What the enabled statements give, where these are the sections of names and of classes, and words stand for these numbers.
///
/// Errors: the faults of rules that the policy forbids itself, or out of memory.
pub(crate) fn fill_sections(
    alloc: Global,
    instances: &Instances,
    known: &Known,
    names: &Sections,
    stand: &Standings,
    classes: &[Class],
) -> Result<Filled, Failure>
    requires namespaces { known.now.lookup.namespaces.now ≡ namespaces_in instances.now }
    requires ordered { AreOrdered known.now.lookup.namespaces.now known.now.lookup.names.now }
    requires table { IsTableOf (map (row_in known.now) (items_in instances.now)) known.now.words.now }
    requires known { IsKnown known.now (items_in instances.now) (names_of names.now) }
    requires apart { AreApart known.now.lookup.names.now (enabled_in known.now) known.now.numbers.now }
    requires stand { AllStand known.now (items_in instances.now) (names_of names.now) stand.now }
    requires classes { AreClasses (items_in instances.now) (enabled_in known.now) names.now.classes.items classes.now }
    requires rows { AreOrderlyRows classes.now }
    ensures { Answers (IsFilled (items_in instances.now) (enabled_in known.now) (names_of names.now) classes.now) (NeverFault (items_in instances.now) (enabled_in known.now)) result }
{
    let held = given_permissions(alloc, instances, known, classes)?;
    let types = names.types.as_slice();
    check_forbidden(alloc, instances, known, types, stand, classes, &held)?;
    let given = given_of(alloc, instances, known, stand, classes, &held)?;
    let booleans = booleans_of(alloc, instances, known, names.booleans.as_slice())?;
    Ok(Filled { booleans, given })
}

/// The tables of these sections.
pub(crate) fn tables_from(
    numbering: Numbering,
    classes: Classes,
    filled: Filled,
    levels: Labels,
) -> Tables
    requires { IsOrderly (table_from numbering.sections classes.rows.items filled.booleans.items filled.given levels) }
    ensures { result ≡ table_from numbering.sections classes.rows.items filled.booleans.items filled.given levels }
{
    let Numbering {
        sections,
        numbers: _,
    } = numbering;
    let Sections {
        users,
        roles,
        types,
        classes: _,
        booleans: _,
        sensitivities: _,
        categories: _,
    } = sections;
    let Classes { rows } = classes;
    let Filled { booleans, given } = filled;
    let Given {
        user_roles,
        role_types,
        role_allows,
        type_aliases,
        rules,
        constraints,
    } = given;
    Tables {
        levels,
        users: Names::from_vec(users),
        roles: Names::from_vec(roles),
        types: Names::from_vec(types),
        type_aliases,
        classes: rows,
        booleans,
        user_roles,
        role_types,
        role_allows,
        rules,
        constraints,
    }
}
