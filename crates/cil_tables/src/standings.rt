//! What the words of users, roles and types stand for, as numbers, or what is wrong with their aliases and attributes.

ghost use Rattle.std.specs.Prelude.{◌≡◌, ℕ, IfOk, List, map};
ghost use Rattle.cil_faults.specs.Refusal.{Answers};
ghost use Rattle.cil_macros.specs.Item.{Item};
ghost use Rattle.cil_macros.specs.Items.{items_in, namespaces_in};
ghost use Rattle.cil_known.specs.declared.known.Known.{Known as Lookups};
ghost use Rattle.cil_known.specs.Known.{IsKnown, enabled_in, row_in};
ghost use Rattle.cil_known.specs.Numbers.{AreApart, names_of};
ghost use Rattle.cil_names.specs.Rows.{IsTableOf};
ghost use Rattle.cil_tables.specs.SetsStep.{MembersFault};
ghost use Rattle.cil_tables.specs.Standings.{AllStand, AreAllMembers};

use cil_base::NoMemory;
use cil_faults::{Both, Failure, together};
use cil_known::{Known, Sections};
use cil_level_rows::{Members, Roles, Types, Users, members, standing_of};
use cil_macros::Instances;
use cil_sets::Numbers;
use std::alloc::Global;

/// For each declared name the numbers of the users, of the roles and of the types for which its words stand.
#[derive(Drop)]
pub struct Standings {
    /// Of users.
    pub users: Vec<Numbers>,
    /// Of roles.
    pub roles: Vec<Numbers>,
    /// Of types.
    pub types: Vec<Numbers>,
}

/// The members of the aliases and attributes of users, roles and types.
#[derive(Drop)]
pub struct AllMembers {
    /// Of users.
    pub users: Members,
    /// Of roles.
    pub roles: Members,
    /// Of types.
    pub types: Members,
}

/// What words stand for, where these are the names of users, roles and types.
///
/// Errors: the faults of aliases and attributes, and too many users, roles or types; or out of memory.
pub(crate) fn standings_of(
    alloc: Global,
    instances: &Instances,
    known: &Known,
    sections: &Sections,
) -> Result<Standings, Failure>
    requires namespaces { known.now.lookup.namespaces.now ≡ namespaces_in instances.now }
    requires table { IsTableOf (map (row_in known.now) (items_in instances.now)) known.now.words.now }
    requires known { IsKnown known.now (items_in instances.now) (names_of sections.now) }
    requires apart { AreApart known.now.lookup.names.now (enabled_in known.now) known.now.numbers.now }
    ensures { Answers (AllStand known.now (items_in instances.now) (names_of sections.now)) (MembersFault (enabled_in known.now) (items_in instances.now)) result }
{
    let all = all_members(alloc, instances, known, sections)?;
    let standings = all_sets(alloc, &all, sections)?;
    Ok(standings)
}

/// The members of all aliases and attributes, or the faults of all three name spaces.
fn all_members(
    alloc: Global,
    instances: &Instances,
    known: &Known,
    sections: &Sections,
) -> Result<AllMembers, Failure>
    requires namespaces { known.now.lookup.namespaces.now ≡ namespaces_in instances.now }
    requires table { IsTableOf (map (row_in known.now) (items_in instances.now)) known.now.words.now }
    requires known { IsKnown known.now (items_in instances.now) (names_of sections.now) }
    requires apart { AreApart known.now.lookup.names.now (enabled_in known.now) known.now.numbers.now }
    ensures { Answers (AreAllMembers known.now (items_in instances.now) (names_of sections.now)) (MembersFault (enabled_in known.now) (items_in instances.now)) result }
{
    let users = members::<Users>(alloc, instances, known, sections.users.as_slice());
    let roles = members::<Roles>(alloc, instances, known, sections.roles.as_slice());
    let types = members::<Types>(alloc, instances, known, sections.types.as_slice());
    let both_roles_types = together(roles, types);
    let Both {
        first: users,
        second: others,
    } = together(users, both_roles_types)?;
    let Both {
        first: roles,
        second: types,
    } = others;
    Ok(AllMembers {
        users,
        roles,
        types,
    })
}

/// What words stand for, by the members of aliases and attributes. Error: out of memory.
fn all_sets(alloc: Global, all: &AllMembers, sections: &Sections) -> Result<Standings, NoMemory>
    ensures { IfOk result (λ standings. (k : Lookups) (xs : List Item) → IsKnown k xs (names_of sections.now) → AreAllMembers k xs (names_of sections.now) all.now
        → AllStand k xs (names_of sections.now) standings) }
{
    let users = standing_of(alloc, all.users.held(), sections.users.len())?;
    let roles = standing_of(alloc, all.roles.held(), sections.roles.len())?;
    let types = standing_of(alloc, all.types.held(), sections.types.len())?;
    Ok(Standings {
        users,
        roles,
        types,
    })
}
