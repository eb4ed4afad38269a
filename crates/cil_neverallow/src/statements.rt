//! Statements with the rules that they give. The rules of all are in one list, so a statement takes no memory of its own.

ghost use Rattle.std.specs.Prelude.{◌≡◌, ◌<◌, ◌++◌, ◌∷◌, [], Contains, IfOk, List, OnOk, false, length, map, true};
ghost use Rattle.std.specs.List.Sorted.{IsStrictlySortedBy};
ghost use Rattle.cil_syntax.specs.declared.kind.Kind.TheVariants as variants;
ghost use Rattle.cil_macros.specs.Items.{item_at, items_in, says_as_written};
ghost use Rattle.cil_index.specs.known.Known.{enabled_in, row_in};
ghost use Rattle.cil_index.specs.names.Resolves.{is_mapping};
ghost use Rattle.cil_index.specs.names.Rows.{IsTableOf};
ghost use Rattle.cil_index.specs.classes.NodeOrder.{node_cmp};
ghost use Rattle.cil_index.specs.classes.Row.{AreOrderlyRows};
ghost use Rattle.cil_index.specs.rules.NamedRule.{NamedRule as ARule};
ghost use Rattle.cil_index.specs.rules.ForNames.{ForNames};
ghost use Rattle.cil_index.specs.rules.Records.{CaseBy, IsRuleOf, ignored};
ghost use Rattle.cil_neverallow.specs.Stated.{AreHereOr, AreKept, IsAdded, IsRunIn, Stated, stated_at, stated_in, stated_of};

use crate::permissions::name_some;
use cil_base::NoMemory;
use cil_index::{Class, ClassId, GivenPermissions, Known, NamedRule, push_rules};
use cil_macros::Instances;
use cil_sets::Numbers;
use cil_syntax::Keyword;
use std::alloc::Global;
use std::marker::Model;

/// Where the rules of a statement begin and end.
#[derive(Clone, Copy, Debug)]
pub struct Run {
    pub place: usize,
    pub from: usize,
    pub to: usize,
}

/// A statement by its place among the instances, and its rules.
#[derive(Clone, Copy)]
pub struct Part<'s> {
    pub place: usize,
    pub rules: &'s [NamedRule],
}

/// Statements with their rules. Contracts see them as their list.
#[derive(Debug, Drop)]
pub struct Statements {
    rules: Vec<NamedRule>,
    runs: Vec<Run>,
}

impl Model for Statements {
    ghost use Rattle.std.specs.Prelude.{List, map};
    ghost use Rattle.cil_neverallow.specs.Stated.{AreRunsIn, Stated, stated_in};

    ghost Value = { List Stated };

    ghost view = { λ a. map (stated_in a.rules.items) a.runs.items };

    ghost invariant = { λ a. AreRunsIn a.rules.items a.runs.items };
}

impl Statements {
    /// No statements.
    pub fn new(alloc: Global) -> Statements
        ensures { result ≡ [] }
    {
        Statements {
            rules: Vec::new(alloc),
            runs: Vec::new(alloc),
        }
    }

    /// How many statements there are.
    pub fn len(&self) -> usize
        ensures { result ≡ length self.now }
    {
        self.runs.len()
    }

    /// The statement of this number, counted from 0.
    pub fn get(&self, number: usize) -> Part<'_>
        requires { number < length self.now }
        ensures { stated_of result ≡ stated_at self.now number }
    {
        let run = self.runs[number];
        Part {
            place: run.place,
            rules: rules_in(self.rules.as_slice(), run),
        }
    }

    /// All rules.
    pub fn all_rules(&self) -> &[NamedRule]
        ensures { (st : Stated) (r : ARule) → Contains self.now st → Contains st.rules r → Contains result.now r }
    {
        let _ = &self.runs;
        self.rules.as_slice()
    }

    /// Adds a statement behind the others. Error: out of memory.
    pub fn push(&mut self, place: usize, rules: &[NamedRule]) -> Result<(), NoMemory>
        ensures { OnOk result (self.new ≡ self.old ++ record { place = place; rules = rules.now } ∷ []) }
    {
        let from = self.rules.len();
        self.rules.extend_from_slice(rules)?;
        let to = self.rules.len();
        self.runs.push(Run { place, from, to })?;
        Ok(())
    }
}

/// A part of the rules.
fn rules_in(rules: &[NamedRule], run: Run) -> &[NamedRule]
    requires { IsRunIn rules.now run }
    ensures { result.now ≡ (stated_in rules.now run).rules }
{
    &rules[run.from..run.to]
}

/// The enabled statements with this first word that cover something, whatever branch of a booleanif they are in, each with its rules, where
/// the words of each declared name stand for these types. Of these only such that have a rule with one of the permissions of the masks, or
/// on a class without a mask: so with no masks all of them. The others take no memory. Error: out of memory.
pub fn statements_of(
    alloc: Global,
    instances: &Instances,
    masks: &[u32],
    known: &Known,
    types: &[Numbers],
    classes: &[Class],
    given: &GivenPermissions,
    keyword: Keyword,
) -> Result<Statements, NoMemory>
    requires table { IsTableOf (map (row_in known.now) (items_in instances.now)) known.now.words.now }
    requires rows { AreOrderlyRows classes.now }
    requires nodes { IsStrictlySortedBy node_cmp given.now.nodes.items }
    requires written { says_as_written keyword ≡ true }
    requires plain { is_mapping keyword ≡ false }
    ensures within { IfOk result (λ kept. (st : Stated) → Contains kept st → st.place < length (items_in instances.now)) }
    ensures statements { IfOk result (λ kept. ForNames known.now (items_in instances.now) types.now classes.now given.now (λ names.
        AreKept masks.now (CaseBy (items_in instances.now) (enabled_in known.now) keyword ignored)
        (IsRuleOf (items_in instances.now) (enabled_in known.now) (names variants.Type_) classes.now ignored) types.now (item_at instances.now) (length (items_in instances.now)) kept)) }
{
    let mut kept = Statements::new(alloc);
    let mut rules = Vec::new(alloc);
    let mut given_masks = Vec::new(alloc);
    for at in 0..instances.len() {
        add_at(
            alloc,
            instances,
            masks,
            &mut kept,
            &mut rules,
            &mut given_masks,
            at,
            known,
            types,
            classes,
            given,
            keyword,
        )?;
    }
    Ok(kept)
}

/// Adds the statement at a place, if it is an enabled one with this first word that has a rule with one of the permissions of the masks, or
/// on a class without a mask. The other two lists are room for its rules, and for the masks that its class permission gives.
fn add_at(
    alloc: Global,
    instances: &Instances,
    masks: &[u32],
    kept: &mut Statements,
    rules: &mut Vec<NamedRule>,
    given_masks: &mut Vec<(ClassId, u32)>,
    at: usize,
    known: &Known,
    types: &[Numbers],
    classes: &[Class],
    given: &GivenPermissions,
    keyword: Keyword,
) -> Result<(), NoMemory>
    requires within { at < length (items_in instances.now) }
    requires table { IsTableOf (map (row_in known.now) (items_in instances.now)) known.now.words.now }
    requires rows { AreOrderlyRows classes.now }
    requires nodes { IsStrictlySortedBy node_cmp given.now.nodes.items }
    requires written { says_as_written keyword ≡ true }
    requires plain { is_mapping keyword ≡ false }
    ensures places { OnOk result (AreHereOr kept.old at kept.new) }
    ensures added { OnOk result (ForNames known.now (items_in instances.now) types.now classes.now given.now (λ names.
        IsAdded masks.now (CaseBy (items_in instances.now) (enabled_in known.now) keyword ignored)
        (IsRuleOf (items_in instances.now) (enabled_in known.now) (names variants.Type_) classes.now ignored) types.now (item_at instances.now at) at kept.old kept.new)) }
{
    rules.clear();
    let words = known.words.row(at);
    push_rules(
        alloc,
        instances,
        rules,
        given_masks,
        at,
        words,
        known,
        types,
        classes,
        given,
        0,
        keyword,
    )?;
    // Most statements have no rule with such a permission: nothing is copied of them.
    let named = rules.as_slice();
    if !name_some(masks, named) {
        return Ok(());
    }
    kept.push(at, named)?;
    Ok(())
}
