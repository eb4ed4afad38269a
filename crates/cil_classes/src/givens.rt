//! What the statements of a policy give to class permissions and to permissions of class maps, by numbers.

ghost use Rattle.std.specs.Prelude.{◌≡◌, ◌<◌, ℕ, Contains, IfOk, List, MatchOption, None, Some, length, map, true};
ghost use Rattle.std.specs.List.Sorted.{IsStrictlySortedBy};
ghost use Rattle.cil_base.specs.Records.{AreRecordsOf, IsRecordOf};
ghost use Rattle.cil_syntax.specs.declared.kind.Keyword.TheVariants as keywords;
ghost use Rattle.cil_syntax.specs.declared.kind.Kind as kinds;
ghost use Rattle.cil_syntax.specs.declared.kind.Kind.TheVariants as variants;
ghost use Rattle.cil_syntax.specs.declared.term.Word.{Word as AWord};
ghost use Rattle.cil_syntax.specs.Said.{all_said, args_of};
ghost use Rattle.cil_syntax.specs.Scopes.{ScopedWord};
ghost use Rattle.cil_macros.proofs.FormLemmas.{all_across};
ghost use Rattle.cil_macros.specs.Item.{Item, is_enabled};
ghost use Rattle.cil_macros.specs.Items.{item_at, items_in};
ghost use Rattle.cil_macros.specs.ListTerms.{AreAlike};
ghost use Rattle.cil_known.specs.declared.known.Known.{Known as Lookups};
ghost use Rattle.cil_known.specs.Known.{IsKnown, enabled_in, row_in};
ghost use Rattle.cil_known.specs.Numbers.{AreApart};
ghost use Rattle.cil_names.specs.Rows.{IsTableOf};
ghost use Rattle.cil_classes.specs.ClassRows.{AreClasses};
ghost use Rattle.cil_classes.specs.Givings.{Gift, GivesTo, HaveNodes, IsGivenFor, IsGivingAt, IsGivingOf, IsListed, IsNodeFor};
ghost use Rattle.cil_classes.specs.NodeOrder.{node_cmp};
ghost use Rattle.cil_classes.specs.Parts.{AreNodes};
ghost use Rattle.cil_classes.specs.Row.{AreOrderlyRows};

use crate::assigned::Given;
use crate::gift_terms::{mapped_term, set_term};
use crate::nodes::{Node, place_of};
use crate::parts::{entry_of, part_of};
use crate::row::Class;
use crate::widths::listed_count;
use cil_base::NoMemory;
use cil_known::{Known, behind_first, meaning_at};
use cil_macros::Instances;
use cil_names::{Meaning, same_keyword};
use cil_syntax::{Keyword, Kind, Statement, Term};
use std::alloc::Global;

/// What a statement gives.
#[derive(Clone, Copy)]
pub struct Giving<'t, 'a, 's> {
    /// To what.
    pub node: Node,
    /// The class permission that gives it.
    pub term: &'t Term<'a>,
    /// The module of the statement.
    pub module: u64,
    /// Meanings that begin with those of the words of the term.
    pub words: &'s [Meaning],
}

/// The nodes of all to which enabled statements give something: rising, each once. A statement costs a few steps; at the end the
/// nodes are sorted. Error: out of memory.
pub fn nodes_of(alloc: Global, instances: &Instances, known: &Known) -> Result<Vec<Node>, NoMemory>
    requires table { IsTableOf (map (row_in known.now) (items_in instances.now)) known.now.words.now }
    ensures rising { IfOk result (λ nodes. IsStrictlySortedBy node_cmp nodes.items) }
    ensures nodes { IfOk result (λ nodes. (names : kinds.Kind → List (List ℕ)) → IsKnown known.now (items_in instances.now) names → AreNodes known.now nodes.items) }
    ensures all { IfOk result (λ nodes. (names : kinds.Kind → List (List ℕ)) → IsKnown known.now (items_in instances.now) names → HaveNodes known.now (items_in instances.now) nodes.items) }
{
    let mut nodes = unsorted(alloc, instances, known)?;
    nodes.sort_unstable();
    nodes.dedup();
    Ok(nodes)
}

/// The same, in the order of the statements.
fn unsorted(alloc: Global, instances: &Instances, known: &Known) -> Result<Vec<Node>, NoMemory>
    requires table { IsTableOf (map (row_in known.now) (items_in instances.now)) known.now.words.now }
    ensures { IfOk result (λ nodes. (names : kinds.Kind → List (List ℕ)) → IsKnown known.now (items_in instances.now) names
        → AreRecordsOf (GivesTo (items_in instances.now) (enabled_in known.now)) (IsNodeFor known.now) (items_in instances.now) nodes.items) }
{
    let mut nodes = Vec::new(alloc);
    for at in 0..instances.len() {
        if let Some(node) = node_at(alloc, instances, at, known.words.row(at), known)? {
            nodes.push(node)?;
        }
    }
    Ok(nodes)
}

/// To what the statement at a place gives something, if it is an enabled one that does.
fn node_at(
    alloc: Global,
    instances: &Instances,
    at: usize,
    words: &[Meaning],
    known: &Known,
) -> Result<Option<Node>, NoMemory>
    requires within { at < length (items_in instances.now) }
    ensures { IfOk result (λ node. (xs : List Item) (names : kinds.Kind → List (List ℕ)) → IsKnown known.now xs names → words.now ≡ row_in known.now (item_at instances.now at)
        → IsRecordOf (GivesTo xs (enabled_in known.now)) (IsNodeFor known.now) (item_at instances.now at) node) }
{
    if let Some(giving) = giving_at(instances, at, words, known) {
        return Ok(node_of(giving));
    }
    let terms = instances.terms(alloc, at)?;
    Ok(node_of(mapping_giving(known, terms.as_slice(), 0, words)))
}

/// The node of what a statement gives, if it gives something.
fn node_of(giving: Option<Giving<'_, '_, '_>>) -> Option<Node>
    ensures { (k : Lookups) (xs : List Item) (f : AWord → ScopedWord) (x : Item) → MatchOption giving.entry ((g : Gift) → GivesTo xs (enabled_in k) x g → ⊥) (IsGivingOf k xs f x)
        → IsRecordOf (GivesTo xs (enabled_in k)) (IsNodeFor k) x result }
{
    let Some(giving) = giving else {
        return None;
    };
    Some(giving.node)
}

/// What enabled statements give, in their order, where each to which they give something has a node. Error: out of memory.
pub fn givens_of(
    alloc: Global,
    instances: &Instances,
    known: &Known,
    classes: &[Class],
    nodes: &[Node],
) -> Result<Vec<Given>, NoMemory>
    requires table { IsTableOf (map (row_in known.now) (items_in instances.now)) known.now.words.now }
    requires rows { AreOrderlyRows classes.now }
    requires rising { IsStrictlySortedBy node_cmp nodes.now }
    ensures { IfOk result (λ givens. (names : kinds.Kind → List (List ℕ)) → IsKnown known.now (items_in instances.now) names
        → AreApart known.now.lookup.names.now (enabled_in known.now) known.now.numbers.now
        → AreClasses (items_in instances.now) (enabled_in known.now) (names variants.Class) classes.now → AreNodes known.now nodes.now → HaveNodes known.now (items_in instances.now) nodes.now
        → AreRecordsOf (GivesTo (items_in instances.now) (enabled_in known.now)) (IsGivenFor known.now (items_in instances.now) classes.now nodes.now) (items_in instances.now) givens.items) }
{
    let mut givens = Vec::new(alloc);
    for at in 0..instances.len() {
        if let Some(given) = given_at(
            alloc,
            instances,
            at,
            known.words.row(at),
            known,
            classes,
            nodes,
        )? {
            givens.push(given)?;
        }
    }
    Ok(givens)
}

/// What the statement at a place gives, if it is an enabled one that gives something.
fn given_at(
    alloc: Global,
    instances: &Instances,
    at: usize,
    words: &[Meaning],
    known: &Known,
    classes: &[Class],
    nodes: &[Node],
) -> Result<Option<Given>, NoMemory>
    requires within { at < length (items_in instances.now) }
    requires rows { AreOrderlyRows classes.now }
    requires rising { IsStrictlySortedBy node_cmp nodes.now }
    ensures { IfOk result (λ given. (xs : List Item) (names : kinds.Kind → List (List ℕ)) → IsKnown known.now xs names
        → AreApart known.now.lookup.names.now (enabled_in known.now) known.now.numbers.now
        → AreClasses xs (enabled_in known.now) (names variants.Class) classes.now → AreNodes known.now nodes.now → HaveNodes known.now xs nodes.now → Contains xs (item_at instances.now at)
        → words.now ≡ row_in known.now (item_at instances.now at)
        → IsRecordOf (GivesTo xs (enabled_in known.now)) (IsGivenFor known.now xs classes.now nodes.now) (item_at instances.now at) given) }
{
    if let Some(giving) = giving_at(instances, at, words, known) {
        return given_of(alloc, known, classes, nodes, giving);
    }
    let terms = instances.terms(alloc, at)?;
    let giving = mapping_giving(known, terms.as_slice(), 0, words);
    given_of(alloc, known, classes, nodes, giving)
}

/// The same, where this is what a statement gives.
fn given_of(
    alloc: Global,
    known: &Known,
    classes: &[Class],
    nodes: &[Node],
    giving: Option<Giving<'_, '_, '_>>,
) -> Result<Option<Given>, NoMemory>
    requires rows { AreOrderlyRows classes.now }
    requires rising { IsStrictlySortedBy node_cmp nodes.now }
    ensures { IfOk result (λ given. (xs : List Item) (names : kinds.Kind → List (List ℕ)) → IsKnown known.now xs names
        → AreApart known.now.lookup.names.now (enabled_in known.now) known.now.numbers.now
        → AreClasses xs (enabled_in known.now) (names variants.Class) classes.now → AreNodes known.now nodes.now → HaveNodes known.now xs nodes.now → (x : Item) (f : AWord → ScopedWord) → Contains xs x
        → MatchOption giving.entry ((g : Gift) → GivesTo xs (enabled_in known.now) x g → ⊥) (IsGivingOf known.now xs f x)
        → IsRecordOf (GivesTo xs (enabled_in known.now)) (IsGivenFor known.now xs classes.now nodes.now) x given) }
{
    let Some(giving) = giving else {
        return Ok(None);
    };
    let Some(to) = place_of(nodes, giving.node) else {
        return Ok(None);
    };
    let part = part_of(
        alloc,
        known,
        classes,
        nodes,
        giving.term,
        giving.module,
        giving.words,
    )?;
    Ok(Some(Given { to, part }))
}

/// What the statement at a place gives, if it is an enabled one that gives something to a class permission or to a permission that
/// its class map has. It costs no look-up. Not answered is an enabled classmapping that may have a list where a word is written.
fn giving_at<'p, 'a, 's>(
    instances: &Instances<'_, 'p, 'a>,
    at: usize,
    words: &'s [Meaning],
    known: &Known,
) -> Option<Option<Giving<'p, 'a, 's>>>
    requires within { at < length (items_in instances.now) }
    ensures { MatchOption result (IsListed (enabled_in known.now) (item_at instances.now at))
        (IsGivingAt known.now instances.now at words.now) }
{
    let statement = instances.statement_there(at);
    if !known.is_enabled(instances, at) {
        return Some(None);
    }
    if same_keyword(statement.keyword, Keyword::ClassPermissionSet) {
        return Some(set_giving(known, statement, words));
    }
    if !same_keyword(statement.keyword, Keyword::ClassMapping) {
        return Some(None);
    }
    if instances.may_have_list(at) {
        return None;
    }
    let module = statement.at.module;
    Some(mapping_giving(known, statement.args.as_slice(), module, words))
}

/// What a classpermissionset gives.
fn set_giving<'p, 'a, 's>(
    known: &Known,
    statement: &'p Statement<'a>,
    words: &'s [Meaning],
) -> Option<Giving<'p, 'a, 's>>
    ensures { (xs : List Item) (names : kinds.Kind → List (List ℕ)) (x : Item) (f : AWord → ScopedWord) → IsKnown known.now xs names → is_enabled (enabled_in known.now) x ≡ true
        → x.keyword ≡ keywords.ClassPermissionSet → x.args ≡ all_across f (args_of statement.now) → words.now ≡ row_in known.now x
        → MatchOption result ((g : Gift) → GivesTo xs (enabled_in known.now) x g → ⊥) (IsGivingOf known.now xs f x) }
{
    let module = statement.at.module;
    let Some(term) = set_term(statement.args.as_slice()) else {
        return None;
    };
    let Some(entry) = entry_of(known, Kind::ClassPermission, meaning_at(words, 0)) else {
        return None;
    };
    Some(Giving {
        node: Node { entry, number: 0 },
        term,
        module,
        words: behind_first(words),
    })
}

/// What a classmapping gives that says these terms, or others in whose place they stand.
fn mapping_giving<'t, 'a, 's>(
    known: &Known,
    terms: &'t [Term<'a>],
    module: u64,
    words: &'s [Meaning],
) -> Option<Giving<'t, 'a, 's>>
    ensures { (xs : List Item) (names : kinds.Kind → List (List ℕ)) (x : Item) (f : AWord → ScopedWord) → IsKnown known.now xs names → is_enabled (enabled_in known.now) x ≡ true
        → x.keyword ≡ keywords.ClassMapping → AreAlike (all_across f (all_said «module» terms.now)) x.args → words.now ≡ row_in known.now x
        → MatchOption result ((g : Gift) → GivesTo xs (enabled_in known.now) x g → ⊥) (IsGivingOf known.now xs f x) }
{
    let Some(term) = mapped_term(terms) else {
        return None;
    };
    let Some(entry) = entry_of(known, Kind::ClassMap, meaning_at(words, 0)) else {
        return None;
    };
    let Some(number) = meaning_at(words, 1) else {
        return None;
    };
    if number >= listed_count(known.permissions, entry) {
        return None;
    }
    Some(Giving {
        node: Node { entry, number },
        term,
        module,
        words: behind_first(behind_first(words)),
    })
}
