//! The rules of one kind one by one, in the order of the table.

ghost use Rattle.std.specs.Prelude.{◌≡◌, ◌<◌, Some, length, slice_get};
ghost use Rattle.cil_rules.specs.Kept.{branch_named};
ghost use Rattle.cil_index.specs.Kept.{target_at};
ghost use Rattle.cil_index.specs.Layout.{IsOrder};
ghost use Rattle.cil_index.specs.Listed.{branch_listed, rule_listed, target_listed};
ghost use Rattle.cil_index.specs.Sections.{rules_of};

use crate::indexed::Indexed;
use crate::sets::Sets;
use cil_rules::Branch;
use cil_sets::Numbers;
use std::marker::Model;

/// A set of types where it is kept, without a copy. Contracts see it by `members_of`, the rising list of its types.
#[derive(Clone, Copy)]
pub enum TypeSet<'s> {
    /// No types.
    Empty,
    /// Just the type of this number.
    One(u32),
    /// Two types or more.
    Several(&'s Numbers),
}

/// What a rule reaches. Contracts see it by `target_listed`.
#[derive(Clone, Copy)]
pub enum ListedTarget<'s> {
    /// The types of a set.
    Types(TypeSet<'s>),
    /// The source type itself.
    Itself,
}

/// A rule, with its branch and its sets where they are kept. Contracts see it by `rule_listed`.
#[derive(Clone, Copy)]
pub struct ListedRule<'s> {
    /// The branch in which it counts; `None` for a rule that counts always.
    pub branch: Option<&'s Branch>,
    /// Its source types.
    pub source: TypeSet<'s>,
    /// What it reaches.
    pub target: ListedTarget<'s>,
    /// The number of its class.
    pub class: u32,
    /// Its permissions: bit i is the i-th of the class.
    pub mask: u32,
}

/// The rules of one kind, to be gone through. Contracts see them as their list, in the order of the table. It is three references, and takes no memory.
#[derive(Drop)]
pub struct ListedRules<'s> {
    branches: &'s Vec<Branch>,
    sets: &'s Sets,
    rules: &'s Indexed,
}

impl<'s> Model for ListedRules<'s> {
    ghost use Rattle.std.specs.Prelude.{List};
    ghost use Rattle.cil_rules.specs.Rule.{Rule};
    ghost use Rattle.cil_index.specs.Layout.{IsOrder};
    ghost use Rattle.cil_index.specs.Sections.{rules_of};

    ghost Value = { List Rule };

    ghost view = { λ a. rules_of a.branches.now.items a.sets.now a.rules.now };

    ghost invariant = { λ a. IsOrder a.rules.now.records.items a.rules.now.order.items };
}

impl<'s> ListedRules<'s> {
    /// These rules, whose places in the order of the table are those of records.
    pub(crate) fn of(
        branches: &'s Vec<Branch>,
        sets: &'s Sets,
        rules: &'s Indexed,
    ) -> ListedRules<'s>
        requires { IsOrder rules.now.records.items rules.now.order.items }
        ensures { result ≡ rules_of branches.now.items sets.now rules.now }
    {
        ListedRules {
            branches,
            sets,
            rules,
        }
    }

    /// How many there are.
    pub fn len(&self) -> usize
        ensures { result ≡ length self.now }
    {
        self.rules.order.len()
    }

    /// The rule at a place, counted from 0. It costs some look-ups by number, and takes no memory.
    pub fn rule(&self, place: usize) -> ListedRule<'s>
        requires { place < length self.now }
        ensures { slice_get self.now place ≡ Some (rule_listed result) }
    {
        let at = self.rules.order[place];
        let kept = self.rules.records[at as usize];
        ListedRule {
            branch: branch_at(self.branches, kept.branch),
            source: self.sets.set(kept.source),
            target: target_at(self.sets, kept.target),
            class: kept.class,
            mask: kept.mask,
        }
    }
}

/// The branch of a number, from 1 on; none for 0 and where there is none of this number.
fn branch_at(branches: &Vec<Branch>, number: u32) -> Option<&Branch>
    ensures { branch_listed result ≡ branch_named branches.now.items number }
{
    if number == 0 {
        return None;
    }
    branches.get((number - 1) as usize)
}

/// What the number of a target stands for: its set, or the source itself where no set has this number.
fn target_at(sets: &Sets, number: u32) -> ListedTarget<'_>
    ensures { target_listed result ≡ target_at sets.now number }
{
    if sets.is_number(number) {
        return ListedTarget::Types(sets.set(number));
    }
    ListedTarget::Itself
}
