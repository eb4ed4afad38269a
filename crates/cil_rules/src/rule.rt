//! Rules as they are handed on, by declared names.

ghost use Rattle.std.specs.Prelude.{◌≡◌, ◌<◌, length};
ghost use Rattle.cil_classes.specs.blocks.Namespaces.{IsNumber};
ghost use Rattle.cil_macros.specs.Items.{item_at, items_in, namespaces_in};
ghost use Rattle.cil_rules.specs.Listed.{rule_at};

use cil_macros::Instances;
use cil_syntax::Spot;
use std::marker::Model;

/// What a rule reaches.
#[derive(Clone, Copy, Debug)]
pub enum Reach {
    /// Types, by the number of the set that has them.
    Types(u32),
    /// The source type itself.
    Itself,
}

/// A rule: permissions of one class. In place of its types it has the numbers of the declared names that stand for them, so it takes the
/// same memory however many types there are.
#[derive(Clone, Copy, Debug)]
pub struct NamedRule {
    /// The number of the instance of the statement that says it: its place among all that is placed, counted from 0.
    pub instance: u32,
    /// The number of the branch in which it counts, from 1 on; 0 for a rule that counts always.
    pub branch: u32,
    /// The number of the declared name of the source.
    pub source: u32,
    /// What the rule reaches, by the number of a declared name.
    pub target: Reach,
    /// The number of the class.
    pub class: u32,
    /// The permissions: bit i is the i-th permission of the class.
    pub mask: u32,
}

// Policies have hundreds of thousands of rules.
const _: () = prove!(size_of::<NamedRule>() <= 28);

/// The rules of the statements with one first word, by rising place of their statement, and those of one statement by rising class.
/// Contracts see them as their list.
#[derive(Debug, Drop)]
pub struct Rules {
    rules: Vec<NamedRule>,
}

impl Model for Rules {
    ghost use Rattle.std.specs.Prelude.{List};
    ghost use Rattle.cil_rules.specs.declared.rule.NamedRule.{NamedRule};

    ghost Value = { List NamedRule };

    ghost view = { λ a. a.rules.items };
}

impl Rules {
    /// These rules.
    pub fn of(rules: Vec<NamedRule>) -> Rules
        ensures { result ≡ rules.items }
    {
        Rules { rules }
    }

    /// All rules, in order.
    pub fn as_slice(&self) -> &[NamedRule]
        ensures { result.now ≡ self.now }
    {
        self.rules.as_slice()
    }

    /// All rules, in order, as a list.
    pub fn into_list(self) -> Vec<NamedRule>
        ensures { result.items ≡ self }
    {
        self.rules
    }

    /// Where the statement of a rule is written: the number of its module, and its place in it.
    pub fn at(&self, instances: &Instances, number: usize) -> Spot
        requires number { number < length self.now }
        requires within { (rule_at self.now number).instance < length (items_in instances.now) }
        ensures { result ≡ (item_at instances.now (rule_at self.now number).instance).at }
    {
        instances
            .statement_there(self.rules[number].instance as usize)
            .at
    }

    /// The number of the namespace in which the statement of a rule is placed.
    pub fn space(&self, instances: &Instances, number: usize) -> usize
        requires { number < length self.now }
        ensures { IsNumber (namespaces_in instances.now) (item_at instances.now (rule_at self.now number).instance).space result }
    {
        instances.space(self.rules[number].instance as usize)
    }
}
