//! The sections of a table that statements give: links, aliases, rules and constraints.

ghost use Rattle.std.specs.Prelude.{ℕ, IfOk, List, map};
ghost use Rattle.std.specs.List.Sorted.{IsStrictlySortedBy};
ghost use Rattle.cil_syntax.specs.declared.kind.Kind as kinds;
ghost use Rattle.cil_syntax.specs.declared.kind.Kind.TheVariants as variants;
ghost use Rattle.cil_macros.specs.Items.{items_in};
ghost use Rattle.cil_names.specs.Entries.{AreOrdered};
ghost use Rattle.cil_known.specs.Known.{IsKnown, enabled_in, row_in};
ghost use Rattle.cil_known.specs.Numbers.{AreApart};
ghost use Rattle.cil_names.specs.Rows.{IsTableOf};
ghost use Rattle.cil_classes.specs.ClassRows.{AreClasses};
ghost use Rattle.cil_classes.specs.Held.{IsAssigned};
ghost use Rattle.cil_classes.specs.NodeOrder.{node_cmp};
ghost use Rattle.cil_neverallow.specs.rules.ForNames.{ForNames};
ghost use Rattle.cil_classes.specs.Row.{AreOrderlyRows};
ghost use Rattle.cil_neverallow.specs.conditions.Numbered.{AreBranchesOf};
ghost use Rattle.cil_tables.specs.Compiled.{AreConstraints, AreRules};
ghost use Rattle.cil_tables.specs.Sections.{AreGiven, AreNamedRules};
ghost use Rattle.cil_tables.specs.Standings.{AllStand};

use crate::aliases::aliases_of;
use crate::holders::Links;
use crate::links::{Joins, links_of};
use crate::standings::Standings;
use crate::tables::Alias;
use cil_base::NoMemory;
use cil_classes::{Class, GivenPermissions};
use cil_constraints::{Constraint, Standing, constraints};
use cil_known::Known;
use cil_level_rows::is_switched;
use cil_macros::Instances;
use cil_neverallow::{Branches, NamedRules, Sections, branches_of, rules};
use cil_sets::Numbers;
use cil_syntax::{Keyword, Kind};
use std::alloc::Global;

/// What statements give.
#[derive(Drop)]
pub struct Given {
    /// The users with their roles.
    pub user_roles: Links,
    /// The roles with their types.
    pub role_types: Links,
    /// The roles with those to which they may change.
    pub role_allows: Links,
    /// The aliases of types.
    pub type_aliases: Vec<Alias>,
    /// The rules, each section with its index.
    pub rules: Sections,
    /// The constraints.
    pub constraints: Vec<Constraint>,
}

/// What the enabled statements give, where words stand for these numbers, and class permissions give these permissions. Error: out of memory.
pub(crate) fn given_of(
    alloc: Global,
    instances: &Instances,
    known: &Known,
    stand: &Standings,
    classes: &[Class],
    permissions: &GivenPermissions,
) -> Result<Given, NoMemory>
    requires table { IsTableOf (map (row_in known.now) (items_in instances.now)) known.now.words.now }
    requires ordered { AreOrdered known.now.lookup.namespaces.now known.now.lookup.names.now }
    requires rows { AreOrderlyRows classes.now }
    requires nodes { IsStrictlySortedBy node_cmp permissions.now.nodes.items }
    ensures { IfOk result (λ given. (names : kinds.Kind → List (List ℕ)) → IsKnown known.now (items_in instances.now) names
        → AreApart known.now.lookup.names.now (enabled_in known.now) known.now.numbers.now → AllStand known.now (items_in instances.now) names stand.now
        → AreClasses (items_in instances.now) (enabled_in known.now) (names variants.Class) classes.now
        → IsAssigned known.now (items_in instances.now) classes.now permissions.now
        → AreGiven (items_in instances.now) (enabled_in known.now) names classes.now given) }
{
    let users = stand.users.as_slice();
    let roles = stand.roles.as_slice();
    let types = stand.types.as_slice();
    let user_roles = links_of(alloc, instances, known, USER_ROLES, users, roles)?;
    let role_types = links_of(alloc, instances, known, ROLE_TYPES, roles, types)?;
    let role_allows = links_of(alloc, instances, known, ROLE_ALLOWS, roles, roles)?;
    let type_aliases = aliases_of(alloc, known, types)?;
    let constraints = constraints_given(alloc, instances, known, stand, classes, permissions)?;
    let rules = rules_given(alloc, instances, known, types, classes, permissions)?;
    Ok(Given {
        user_roles,
        role_types,
        role_allows,
        type_aliases,
        rules,
        constraints,
    })
}

/// The constraints of the enabled statements, where words stand for these users, roles and types, and class permissions give these
/// permissions. Error: out of memory.
fn constraints_given(
    alloc: Global,
    instances: &Instances,
    known: &Known,
    stand: &Standings,
    classes: &[Class],
    permissions: &GivenPermissions,
) -> Result<Vec<Constraint>, NoMemory>
    requires table { IsTableOf (map (row_in known.now) (items_in instances.now)) known.now.words.now }
    requires rows { AreOrderlyRows classes.now }
    requires nodes { IsStrictlySortedBy node_cmp permissions.now.nodes.items }
    ensures { IfOk result (λ list. (names : kinds.Kind → List (List ℕ)) → IsKnown known.now (items_in instances.now) names
        → AreApart known.now.lookup.names.now (enabled_in known.now) known.now.numbers.now → AllStand known.now (items_in instances.now) names stand.now
        → AreClasses (items_in instances.now) (enabled_in known.now) (names variants.Class) classes.now
        → IsAssigned known.now (items_in instances.now) classes.now permissions.now
        → AreConstraints (items_in instances.now) (enabled_in known.now) names classes.now list.items) }
{
    let levels_on = is_switched(instances, known, true);
    let sets = Standing {
        users: stand.users.as_slice(),
        roles: stand.roles.as_slice(),
        types: stand.types.as_slice(),
    };
    let list = constraints(
        alloc,
        instances,
        known,
        &sets,
        classes,
        permissions,
        levels_on,
    )?;
    Ok(list)
}

/// The rules of the enabled statements, where words stand for these types, and class permissions give these permissions. Error: out of
/// memory.
fn rules_given(
    alloc: Global,
    instances: &Instances,
    known: &Known,
    types: &[Numbers],
    classes: &[Class],
    permissions: &GivenPermissions,
) -> Result<Sections, NoMemory>
    requires table { IsTableOf (map (row_in known.now) (items_in instances.now)) known.now.words.now }
    requires rows { AreOrderlyRows classes.now }
    requires nodes { IsStrictlySortedBy node_cmp permissions.now.nodes.items }
    ensures { IfOk result (λ rules. ForNames known.now (items_in instances.now) types.now classes.now permissions.now (λ names.
        AreRules (items_in instances.now) (enabled_in known.now) (names variants.Type_) classes.now (names variants.Boolean) rules)) }
{
    let branches = branches_of(alloc, instances, known)?;
    let rules = named_rules(
        alloc,
        instances,
        known,
        types,
        classes,
        permissions,
        &branches,
    )?;
    let rows = branches.into_rows();
    let sections = Sections::of(alloc, &rules, types, rows)?;
    Ok(sections)
}

/// The same as they are handed on, where conditions have these branches. Error: out of memory.
fn named_rules(
    alloc: Global,
    instances: &Instances,
    known: &Known,
    types: &[Numbers],
    classes: &[Class],
    permissions: &GivenPermissions,
    branches: &Branches,
) -> Result<NamedRules, NoMemory>
    requires table { IsTableOf (map (row_in known.now) (items_in instances.now)) known.now.words.now }
    requires rows { AreOrderlyRows classes.now }
    requires nodes { IsStrictlySortedBy node_cmp permissions.now.nodes.items }
    ensures { IfOk result (λ rules. ForNames known.now (items_in instances.now) types.now classes.now permissions.now (λ names.
        AreBranchesOf instances.now (enabled_in known.now) (names variants.Boolean) branches.now
        → AreNamedRules (items_in instances.now) (enabled_in known.now) (names variants.Type_) classes.now (names variants.Boolean) branches.now.rows types.now rules)) }
{
    let allow = rules(
        alloc,
        instances,
        known,
        types,
        classes,
        permissions,
        branches,
        Keyword::Allow,
    )?;
    let auditallow = rules(
        alloc,
        instances,
        known,
        types,
        classes,
        permissions,
        branches,
        Keyword::AuditAllow,
    )?;
    let dontaudit = rules(
        alloc,
        instances,
        known,
        types,
        classes,
        permissions,
        branches,
        Keyword::DontAudit,
    )?;
    Ok(NamedRules {
        allow: allow.into_list(),
        auditallow: auditallow.into_list(),
        dontaudit: dontaudit.into_list(),
    })
}

/// The statements that give users their roles.
const USER_ROLES: Joins = Joins {
    keyword: Keyword::UserRole,
    holder_kind: Kind::User,
    held_kind: Kind::Role,
};

/// The statements that give roles their types.
const ROLE_TYPES: Joins = Joins {
    keyword: Keyword::RoleType,
    holder_kind: Kind::Role,
    held_kind: Kind::Type_,
};

/// The statements that let roles change to others.
const ROLE_ALLOWS: Joins = Joins {
    keyword: Keyword::RoleAllow,
    holder_kind: Kind::Role,
    held_kind: Kind::Role,
};
