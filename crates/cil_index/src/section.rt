//! The rules of a policy, by kind, with their indexes.

ghost use Rattle.std.specs.Prelude.{◌≡◌, ◌↔◌, ℕ, Contains, IfOk, IsBitSet, length, map};
ghost use Rattle.std.specs.List.Sorted.{IsStrictlySortedBy};
ghost use Rattle.cil_base.specs.Lists.{Lists};
ghost use Rattle.cil_rules.specs.conditions.Bits.{is_on};
ghost use Rattle.cil_rules.specs.conditions.Order.{branch_cmp};
ghost use Rattle.cil_rules.specs.Covers.{HasCover};
ghost use Rattle.cil_rules.specs.Kept.{rule_named};
ghost use Rattle.cil_rules.specs.Order.{rule_cmp};
ghost use Rattle.cil_index.specs.Found.{CoversAt};
ghost use Rattle.cil_index.specs.Memberships.{AreMemberships};
ghost use Rattle.cil_index.specs.Sections.{IsIndexed, rules_of};

use crate::asked::{Asked, Searched};
use crate::cover::covered;
use crate::indexed::{Indexed, index_rules};
use crate::listed::ListedRules;
use crate::matches::mask_at;
use crate::memberships::Memberships;
use crate::sets::{Sets, numbers_of};
use cil_base::NoMemory;
use cil_rules::{Branch, NamedRule, Settings};
use cil_sets::Numbers;
use std::alloc::Global;
use std::marker::Model;

/// The rules of a policy, by kind. Contracts see them as their lists, in the order of the table. A rule takes 28 bytes, for its record, its aim and its place
/// in the order of the table, however many types its sets have and however long its condition is; each set of several types, the numbers of those that have
/// a type, and each branch are kept once for all kinds.
#[derive(Debug, Drop)]
pub struct Sections {
    branches: Vec<Branch>,
    sets: Sets,
    memberships: Memberships,
    allow: Indexed,
    auditallow: Indexed,
    dontaudit: Indexed,
}

impl Model for Sections {
    ghost use Rattle.cil_index.specs.Memberships.{AreMemberships};
    ghost use Rattle.cil_index.specs.Sections.{IsIndexed, RuleSections, rules_of};

    ghost Value = { RuleSections };

    ghost view = { λ a. record { allow = rules_of a.branches.items a.sets a.allow; auditallow = rules_of a.branches.items a.sets a.auditallow; dontaudit = rules_of a.branches.items a.sets a.dontaudit } };

    ghost invariant = { λ a. AreMemberships a.sets a.memberships × IsIndexed a.sets a.allow × IsIndexed a.sets a.auditallow × IsIndexed a.sets a.dontaudit };
}

/// Rules as they are handed on, by kind.
#[derive(Debug, Drop)]
pub struct NamedRules {
    /// Those that allow.
    pub allow: Vec<NamedRule>,
    /// Those by which the use of a permission is recorded.
    pub auditallow: Vec<NamedRule>,
    /// Those by which the denial of a permission is not recorded.
    pub dontaudit: Vec<NamedRule>,
}

impl Sections {
    /// These rules in their order, each once, where these are the sets of declared names and the branches of conditions. It costs a look-up of
    /// each set, two sorts of the rules by numbers, and a search by halving for each set among them. Errors: out of memory.
    pub fn of(
        alloc: Global,
        rules: &NamedRules,
        named: &[Numbers],
        branches: Vec<Branch>,
    ) -> Result<Sections, NoMemory>
        requires { IsStrictlySortedBy branch_cmp branches.items }
        ensures allow { IfOk result (λ s. Lists rule_cmp (Contains (map (rule_named branches.items named.now) rules.now.allow.items)) s.allow) }
        ensures auditallow { IfOk result (λ s. Lists rule_cmp (Contains (map (rule_named branches.items named.now) rules.now.auditallow.items)) s.auditallow) }
        ensures dontaudit { IfOk result (λ s. Lists rule_cmp (Contains (map (rule_named branches.items named.now) rules.now.dontaudit.items)) s.dontaudit) }
    {
        let sets = Sets::of(alloc, named)?;
        let memberships = Memberships::of(alloc, &sets)?;
        let numbers = numbers_of(alloc, &sets, named)?;
        let allow = index_rules(alloc, &branches, &sets, &numbers, &rules.allow)?;
        let auditallow = index_rules(alloc, &branches, &sets, &numbers, &rules.auditallow)?;
        let dontaudit = index_rules(alloc, &branches, &sets, &numbers, &rules.dontaudit)?;
        Ok(Sections {
            branches,
            sets,
            memberships,
            allow,
            auditallow,
            dontaudit,
        })
    }

    /// The permissions that are allowed on a class and a pair of types, by these settings. It takes no memory. Rules that reach one type alone are found by
    /// this type, and others by the set of their sources: so for the target, for each set that has the source, and for each of more than 1,024 types,
    /// it costs a step for each of some rules, or two searches where these are many, a step for each on the class whose other side is several types, a
    /// test of each that may be on both types, and a step for each part of the condition of one that covers.
    pub fn allowed(&self, settings: &Settings, asked: &Asked) -> u32
        ensures { (bit : ℕ) → IsBitSet result bit ↔ HasCover (is_on settings.now) self.now.allow asked.now.source asked.now.target asked.now.class bit }
    {
        covered_in(
            &self.branches,
            &self.sets,
            &self.memberships,
            &self.allow,
            settings,
            asked,
        )
    }

    /// The permissions whose use is recorded. It costs what `allowed` costs.
    pub fn recorded(&self, settings: &Settings, asked: &Asked) -> u32
        ensures { (bit : ℕ) → IsBitSet result bit ↔ HasCover (is_on settings.now) self.now.auditallow asked.now.source asked.now.target asked.now.class bit }
    {
        covered_in(
            &self.branches,
            &self.sets,
            &self.memberships,
            &self.auditallow,
            settings,
            asked,
        )
    }

    /// The permissions whose denial is not recorded. It costs what `allowed` costs.
    pub fn excepted(&self, settings: &Settings, asked: &Asked) -> u32
        ensures { (bit : ℕ) → IsBitSet result bit ↔ HasCover (is_on settings.now) self.now.dontaudit asked.now.source asked.now.target asked.now.class bit }
    {
        covered_in(
            &self.branches,
            &self.sets,
            &self.memberships,
            &self.dontaudit,
            settings,
            asked,
        )
    }

    /// The permissions that one of the rules that allow covers, by its place in the table. It takes no memory.
    pub fn allowed_at(&self, settings: &Settings, asked: &Asked, place: usize) -> u32
        ensures { (bit : ℕ) → IsBitSet result bit ↔ CoversAt (is_on settings.now) self.now.allow asked.now.source asked.now.target asked.now.class place bit }
    {
        let searched = Searched {
            branches: self.branches.as_slice(),
            sets: &self.sets,
            memberships: &self.memberships,
            records: self.allow.records.as_slice(),
        };
        match self.allow.order.get(place) {
            Some(at) => mask_at(&searched, settings, asked, *at as usize),
            None => 0,
        }
    }

    /// How many rules allow something.
    pub fn allow_len(&self) -> usize
        ensures { result ≡ length self.now.allow }
    {
        self.allow.order.len()
    }

    /// The rules that allow, to be gone through in the order of the table. It takes no memory.
    pub fn allow(&self) -> ListedRules<'_>
        ensures { result ≡ self.now.allow }
    {
        ListedRules::of(&self.branches, &self.sets, &self.allow)
    }

    /// Those by which the use of a permission is recorded, in the same way.
    pub fn auditallow(&self) -> ListedRules<'_>
        ensures { result ≡ self.now.auditallow }
    {
        ListedRules::of(&self.branches, &self.sets, &self.auditallow)
    }

    /// Those by which the denial of a permission is not recorded, in the same way.
    pub fn dontaudit(&self) -> ListedRules<'_>
        ensures { result ≡ self.now.dontaudit }
    {
        ListedRules::of(&self.branches, &self.sets, &self.dontaudit)
    }
}

/// What rules of one kind cover.
fn covered_in(
    branches: &Vec<Branch>,
    sets: &Sets,
    memberships: &Memberships,
    rules: &Indexed,
    settings: &Settings,
    asked: &Asked,
) -> u32
    requires memberships { AreMemberships sets.now memberships.now }
    requires index { IsIndexed sets.now rules.now }
    ensures { (bit : ℕ) → IsBitSet result bit ↔ HasCover (is_on settings.now) (rules_of branches.now.items sets.now rules.now) asked.now.source asked.now.target asked.now.class bit }
{
    let searched = Searched {
        branches: branches.as_slice(),
        sets,
        memberships,
        records: rules.records.as_slice(),
    };
    covered(&searched, &rules.index, settings, asked)
}
