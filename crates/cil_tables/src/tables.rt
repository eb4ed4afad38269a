//! The tables of a compiled policy: what its modules say, as sorted lists of names and numbers.
//!
//! Each section is the list of a set in a stated order, so equal policies have equal tables. A symbol is numbered by
//! its place in its section, counted from 0.

ghost use Rattle.std.specs.Prelude.{◌≡◌, refl};
ghost use Rattle.std.specs.Cmp.{eq_by_cmp_equiv, partial_equiv_from_equiv, partial_order_from_total};
ghost use Rattle.std.specs.Ordering.{as_partial_cmp, eq_by_cmp};
ghost use Rattle.cil_tables.specs.Table.{alias_cmp, alias_total, link_cmp, link_total};

use crate::holders::Links;
use cil_base::{Bytes, Names};
use cil_classes::Class;
use cil_constraints::Constraint;
use cil_level_rows::Labels;
use cil_neverallow::Sections;
use std::cmp::Ordering;
use std::marker::Model;

/// A user that has a role, a role that has a type, or a role that may change to another.
#[derive(Clone, Copy, Debug)]
pub struct Link {
    /// The number of the user, or of the role.
    pub holder: usize,
    /// The number of the role, of the type, or of the other role.
    pub held: usize,
}

impl PartialEq for Link {
    ghost eq = { eq_by_cmp link_cmp };

    ghost laws = { partial_equiv_from_equiv (eq_by_cmp_equiv link_total) };

    fn eq(&self, other: &Link) -> bool {
        self.cmp(other) == Ordering::Equal
    }
}

impl Eq for Link {
    ghost laws = { eq_by_cmp_equiv link_total };
}

impl PartialOrd for Link {
    ghost partial_cmp = { as_partial_cmp link_cmp };

    ghost laws = { partial_order_from_total link_total };

    fn partial_cmp(&self, other: &Link) -> Option<Ordering> {
        Some(self.cmp(other))
    }
}

impl Ord for Link {
    ghost cmp = { link_cmp };

    ghost total = { link_total };

    ghost matches_partial_cmp = { λ a b. refl };

    ghost matches_eq = { λ a b. refl };

    fn cmp(&self, other: &Link) -> Ordering {
        self.holder
            .cmp(&other.holder)
            .then(self.held.cmp(&other.held))
    }
}

/// Another name of a type.
#[derive(Debug, Drop)]
pub struct Alias {
    /// The qualified name.
    pub name: Bytes,
    /// The number of the type.
    pub target: usize,
}

impl PartialEq for Alias {
    ghost eq = { eq_by_cmp alias_cmp };

    ghost laws = { partial_equiv_from_equiv (eq_by_cmp_equiv alias_total) };

    fn eq(&self, other: &Alias) -> bool {
        self.cmp(other) == Ordering::Equal
    }
}

impl Eq for Alias {
    ghost laws = { eq_by_cmp_equiv alias_total };
}

impl PartialOrd for Alias {
    ghost partial_cmp = { as_partial_cmp alias_cmp };

    ghost laws = { partial_order_from_total alias_total };

    fn partial_cmp(&self, other: &Alias) -> Option<Ordering> {
        Some(self.cmp(other))
    }
}

impl Ord for Alias {
    ghost cmp = { alias_cmp };

    ghost total = { alias_total };

    ghost matches_partial_cmp = { λ a b. refl };

    ghost matches_eq = { λ a b. refl };

    fn cmp(&self, other: &Alias) -> Ordering {
        self.name
            .as_slice()
            .cmp(other.name.as_slice())
            .then(self.target.cmp(&other.target))
    }
}

/// A boolean, and what it is at first.
#[derive(Debug, Drop)]
pub struct Boolean {
    /// The qualified name.
    pub name: Bytes,
    /// Whether it is on at first.
    pub default: bool,
}

/// What tables are put together from. Each list is in the order in which tables have it.
#[derive(Drop)]
pub struct TableParts {
    /// Sensitivities, categories and the ranges of users.
    pub levels: Labels,
    /// The names of the users, in byte order.
    pub users: Names,
    /// The names of the roles, in byte order.
    pub roles: Names,
    /// The names of the types, in byte order.
    pub types: Names,
    /// The aliases of the types, in byte order of their names.
    pub type_aliases: Vec<Alias>,
    /// The rows of the classes, in byte order of their names.
    pub classes: Vec<Class>,
    /// The booleans, in byte order of their names.
    pub booleans: Vec<Boolean>,
    /// The users with their roles.
    pub user_roles: Links,
    /// The roles with their types.
    pub role_types: Links,
    /// The roles with those to which they may change.
    pub role_allows: Links,
    /// The rules, each section with its index.
    pub rules: Sections,
    /// The constraints, in their order.
    pub constraints: Vec<Constraint>,
}

/// The tables of a policy.
#[derive(Debug, Drop)]
pub struct Tables {
    pub(crate) levels: Labels,
    pub(crate) users: Names,
    pub(crate) roles: Names,
    pub(crate) types: Names,
    pub(crate) type_aliases: Vec<Alias>,
    pub(crate) classes: Vec<Class>,
    pub(crate) booleans: Vec<Boolean>,
    pub(crate) user_roles: Links,
    pub(crate) role_types: Links,
    pub(crate) role_allows: Links,
    pub(crate) rules: Sections,
    pub(crate) constraints: Vec<Constraint>,
}

impl Model for Tables {
    ghost use Rattle.cil_tables.specs.Table.{Table, IsOrderly};

    ghost Value = { Table };

    ghost view = { λ a. record {
      levels = a.levels;
      users = a.users;
      roles = a.roles;
      types = a.types;
      type_aliases = a.type_aliases.items;
      classes = a.classes.items;
      booleans = a.booleans.items;
      user_roles = a.user_roles;
      role_types = a.role_types;
      role_allows = a.role_allows;
      rules = a.rules;
      constraints = a.constraints.items;
    } };

    ghost invariant = { λ a. IsOrderly record {
      levels = a.levels;
      users = a.users;
      roles = a.roles;
      types = a.types;
      type_aliases = a.type_aliases.items;
      classes = a.classes.items;
      booleans = a.booleans.items;
      user_roles = a.user_roles;
      role_types = a.role_types;
      role_allows = a.role_allows;
      rules = a.rules;
      constraints = a.constraints.items;
    } };
}

impl Tables {
    ghost use Rattle.std.specs.Prelude.{◌≡◌};
    ghost use Rattle.cil_tables.specs.Parts.{table_of};
    ghost use Rattle.cil_tables.specs.Table.{IsOrderly};

    /// The tables of these parts, without a copy.
    pub fn of(parts: TableParts) -> Tables
        requires { IsOrderly (table_of parts) }
        ensures { result ≡ table_of parts }
    {
        let TableParts {
            levels,
            users,
            roles,
            types,
            type_aliases,
            classes,
            booleans,
            user_roles,
            role_types,
            role_allows,
            rules,
            constraints,
        } = parts;
        Tables {
            levels,
            users,
            roles,
            types,
            type_aliases,
            classes,
            booleans,
            user_roles,
            role_types,
            role_allows,
            rules,
            constraints,
        }
    }

    /// Sensitivities, categories and the ranges of users.
    pub fn levels(&self) -> &Labels
        ensures levels { result.now ≡ self.now.levels }
    {
        &self.levels
    }

    /// The names of the users, in byte order.
    pub fn users(&self) -> &[Bytes]
        ensures names { result.now ≡ self.now.users }
        ensures orderly { IsOrderly self.now }
    {
        self.users.as_slice()
    }

    /// The names of the roles, in byte order.
    pub fn roles(&self) -> &[Bytes]
        ensures names { result.now ≡ self.now.roles }
        ensures orderly { IsOrderly self.now }
    {
        self.roles.as_slice()
    }

    /// The names of the types, in byte order.
    pub fn types(&self) -> &[Bytes]
        ensures names { result.now ≡ self.now.types }
        ensures orderly { IsOrderly self.now }
    {
        self.types.as_slice()
    }

    /// The aliases of the types, in byte order of their names.
    pub fn type_aliases(&self) -> &[Alias]
        ensures aliases { result.now ≡ self.now.type_aliases }
        ensures orderly { IsOrderly self.now }
    {
        self.type_aliases.as_slice()
    }

    /// The rows of the classes, in byte order of their names.
    pub fn classes(&self) -> &[Class]
        ensures rows { result.now ≡ self.now.classes }
        ensures orderly { IsOrderly self.now }
    {
        self.classes.as_slice()
    }

    /// The booleans, in byte order of their names.
    pub fn booleans(&self) -> &[Boolean]
        ensures booleans { result.now ≡ self.now.booleans }
        ensures orderly { IsOrderly self.now }
    {
        self.booleans.as_slice()
    }

    /// The users with their roles.
    pub fn user_roles(&self) -> &Links
        ensures links { result.now ≡ self.now.user_roles }
        ensures orderly { IsOrderly self.now }
    {
        &self.user_roles
    }

    /// The roles with their types.
    pub fn role_types(&self) -> &Links
        ensures links { result.now ≡ self.now.role_types }
        ensures orderly { IsOrderly self.now }
    {
        &self.role_types
    }

    /// The roles with those to which they may change.
    pub fn role_allows(&self) -> &Links
        ensures links { result.now ≡ self.now.role_allows }
        ensures orderly { IsOrderly self.now }
    {
        &self.role_allows
    }

    /// The rules, each section with its index.
    pub fn rules(&self) -> &Sections
        ensures rules { result.now ≡ self.now.rules }
    {
        &self.rules
    }

    /// The constraints, in their order: those on one class stand together.
    pub fn constraints(&self) -> &[Constraint]
        ensures constraints { result.now ≡ self.now.constraints }
        ensures orderly { IsOrderly self.now }
    {
        self.constraints.as_slice()
    }
}
