//! Sets of categories that depend on themselves.

ghost use Rattle.std.specs.Prelude.{◌≡◌, ◌↔◌, ◌<◌, ◌≤◌, ℕ, Contains, IfOk, IsPermutation, IsTrue, List, MatchOption, OnOk, Some, length, map, true};
ghost use Rattle.std.specs.List.Sorted.{IsNonDecreasingBy};
ghost use Rattle.cil_settle.specs.Cycles.{Leads};
ghost use Rattle.cil_faults.specs.Refusal.{Answers};
ghost use Rattle.cil_syntax.specs.declared.kind.Kind as kinds;
ghost use Rattle.cil_syntax.specs.declared.kind.Kind.TheVariants as variants;
ghost use Rattle.cil_syntax.specs.Table.{entry_of};
ghost use Rattle.cil_attrs.specs.macros.Item.{all_words_in};
ghost use Rattle.cil_attrs.specs.macros.Items.{item_at, items_in, namespaces_in};
ghost use Rattle.cil_attrs.specs.names.Resolves.{Word, all_wanted_in};
ghost use Rattle.cil_attrs.specs.names.Rows.{IsTableOf};
ghost use Rattle.cil_attrs.specs.known.Known.{IsKnown, enabled_in, row_in};
ghost use Rattle.cil_mls.specs.CategorySets.{CircularSet};
ghost use Rattle.cil_mls.specs.Pairs.{LeadMore};
ghost use Rattle.cil_mls.specs.SetEdges.{AreCircularSets, DeclaresJust, DeclaresNone, IsSetEdge, IsSetEdgeIn, is_set, is_set_at};

use cil_attrs::{
    Entry, Instances, Known, Meaning, Told, are_plain, declares, names_laws as laws, push_declared,
};
use cil_base::NoMemory;
use cil_faults::{Failure, FaultCode, refuse};
use cil_settle::{Edge, cycles_of};
use cil_syntax::{Kind, Sign};
use std::alloc::Global;

/// Refuses sets of categories that depend on themselves. A set depends on those that its declarations name, and on what these depend
/// on. It costs a step for each statement and for each word of a set, a sort of the names of sets in sets, and a walk over them.
///
/// Errors: these faults, or out of memory. A declaration that said a list or named permissions would be out of memory too: there is
/// none, since sets of categories stand outside macros and no statement of this kind is read so.
pub(crate) fn check_category_sets(
    alloc: Global,
    instances: &Instances,
    known: &Known,
) -> Result<(), Failure>
    requires namespaces { known.now.lookup.namespaces.now ≡ namespaces_in instances.now }
    requires table { IsTableOf (map (row_in known.now) (items_in instances.now)) known.now.words.now }
    requires known { (sections : kinds.Kind → List (List ℕ)) × IsKnown known.now (items_in instances.now) sections }
    ensures { Answers (λ done. Unit {0}) (CircularSet (items_in instances.now) (enabled_in known.now)) result }
{
    let circular = circular_sets(alloc, instances, known)?;
    let told = Told {
        kind: Kind::CategorySet,
        sign: Sign::CategorySets,
        flags: circular.as_slice(),
    };
    let mut faults = Vec::new(alloc);
    push_declared(
        alloc,
        instances,
        &mut faults,
        &known.lookup,
        &told,
        FaultCode::SetCycle,
    )?;
    refuse(faults)
}

/// A flag for each entry: whether it is that of a set of categories that depends on itself. Error: out of memory.
fn circular_sets(alloc: Global, instances: &Instances, known: &Known) -> Result<Vec<bool>, NoMemory>
    requires namespaces { known.now.lookup.namespaces.now ≡ namespaces_in instances.now }
    requires table { IsTableOf (map (row_in known.now) (items_in instances.now)) known.now.words.now }
    requires known { (sections : kinds.Kind → List (List ℕ)) × IsKnown known.now (items_in instances.now) sections }
    ensures { IfOk result (λ flags. AreCircularSets known.now (items_in instances.now) flags.items) }
{
    // What is known of a word: it means the entry that it names.
    laws::means_what_it_names();
    let edges = set_edges(alloc, instances, known)?;
    let entries = known.lookup.names.entries();
    let cycles = cycles_of(alloc, entries.len(), edges.as_slice())?;
    Ok(cycles.on)
}

/// An edge from each set of categories to each that its declarations name, sorted by the sets that they leave. Error: out of memory.
pub fn set_edges(alloc: Global, instances: &Instances, known: &Known) -> Result<Vec<Edge>, NoMemory>
    requires namespaces { known.now.lookup.namespaces.now ≡ namespaces_in instances.now }
    requires table { IsTableOf (map (row_in known.now) (items_in instances.now)) known.now.words.now }
    requires known { (sections : kinds.Kind → List (List ℕ)) × IsKnown known.now (items_in instances.now) sections }
    ensures sorted { IfOk result (λ edges. IsNonDecreasingBy (λ e. e.from) edges.items) }
    ensures edges { IfOk result (λ edges. (a b : ℕ) → Leads edges.items a b ↔ IsSetEdgeIn known.now (items_in instances.now) a b) }
{
    let edges = unsorted_edges(alloc, instances, known)?;
    Ok(sorted(edges))
}

fn sorted(mut edges: Vec<Edge>) -> Vec<Edge>
    ensures sorted { IsNonDecreasingBy (λ e. e.from) result.items }
    ensures same { IsPermutation edges.items result.items }
{
    edges.sort_unstable_by_key(|edge| edge.from);
    edges
}

/// The same in the order of the statements.
fn unsorted_edges(
    alloc: Global,
    instances: &Instances,
    known: &Known,
) -> Result<Vec<Edge>, NoMemory>
    requires namespaces { known.now.lookup.namespaces.now ≡ namespaces_in instances.now }
    requires table { IsTableOf (map (row_in known.now) (items_in instances.now)) known.now.words.now }
    requires known { (sections : kinds.Kind → List (List ℕ)) × IsKnown known.now (items_in instances.now) sections }
    ensures { IfOk result (λ edges. (a b : ℕ) → Leads edges.items a b ↔ IsSetEdgeIn known.now (items_in instances.now) a b) }
{
    let mut edges = Vec::new(alloc);
    for at in 0..instances.len() {
        push_set(instances, known, at, known.words.row(at), &mut edges)?;
    }
    Ok(edges)
}

/// Adds the edges of the statement at a place, whose words mean this.
fn push_set(
    instances: &Instances,
    known: &Known,
    at: usize,
    words: &[Meaning],
    edges: &mut Vec<Edge>,
) -> Result<(), NoMemory>
    requires namespaces { known.now.lookup.namespaces.now ≡ namespaces_in instances.now }
    requires known { (sections : kinds.Kind → List (List ℕ)) × IsKnown known.now (items_in instances.now) sections }
    requires within { at < length (items_in instances.now) }
    requires row { words.now ≡ row_in known.now (item_at instances.now at) }
    ensures { OnOk result (LeadMore edges.old.items edges.new.items (IsSetEdge known.now (items_in instances.now) (item_at instances.now at))) }
{
    let Some(set) = set_declared(instances, known, at) else {
        return Ok(());
    };
    if !asks_words(instances, at) {
        return Err(NoMemory);
    }
    push_named(known.lookup.names.entries(), set, words, edges)?;
    Ok(())
}

/// The entry of the set of categories that the statement at a place declares, if it is an enabled one.
pub fn set_declared(instances: &Instances, known: &Known, at: usize) -> Option<usize>
    requires namespaces { known.now.lookup.namespaces.now ≡ namespaces_in instances.now }
    requires known { (sections : kinds.Kind → List (List ℕ)) × IsKnown known.now (items_in instances.now) sections }
    requires within { at < length (items_in instances.now) }
    ensures { MatchOption result (DeclaresNone known.now (items_in instances.now) (item_at instances.now at)) (DeclaresJust known.now (items_in instances.now) (item_at instances.now at)) }
{
    let statement = instances.statement_there(at);
    if !declares(statement.keyword, Kind::CategorySet) {
        return None;
    }
    if !known.is_enabled(instances, at) {
        return None;
    }
    let Some(name) = statement.declared_name() else {
        return None;
    };
    let space = instances.space(at);
    known.lookup.names.entry(
        known.lookup.namespaces,
        space,
        name.bytes,
        Sign::CategorySets,
    )
}

/// Whether what the statement at a place asks for are its words: it says no list and names no permissions.
fn asks_words(instances: &Instances, at: usize) -> bool
    requires within { at < length (items_in instances.now) }
    requires set { Contains (entry_of (item_at instances.now at).keyword).declares variants.CategorySet }
    ensures { IsTrue result → all_wanted_in (item_at instances.now at).args ≡ map Word (all_words_in (item_at instances.now at).args) }
{
    if !instances.says_words(at) {
        return false;
    }
    let statement = instances.statement_there(at);
    are_plain(statement.args.as_slice())
}

/// Adds an edge from a set to each set that one of some words means.
fn push_named(
    entries: &[Entry],
    set: usize,
    words: &[Meaning],
    edges: &mut Vec<Edge>,
) -> Result<(), NoMemory>
    ensures { OnOk result (LeadMore edges.old.items edges.new.items (λ a b. (a ≡ set) × Contains words.now (Some b) × (is_set_at entries.now b ≡ true))) }
{
    for place in 0..words.len() {
        push_edge(entries, set, words[place].entry(), edges)?;
    }
    Ok(())
}

fn push_edge(
    entries: &[Entry],
    set: usize,
    meaning: Option<usize>,
    edges: &mut Vec<Edge>,
) -> Result<(), NoMemory>
    ensures { OnOk result (LeadMore edges.old.items edges.new.items (λ a b. (a ≡ set) × (meaning ≡ Some b) × (is_set_at entries.now b ≡ true))) }
{
    let Some(to) = meaning else {
        return Ok(());
    };
    if !is_set_at(entries, to) {
        return Ok(());
    }
    edges.push(Edge {
        from: set,
        to,
        counted: false,
    })?;
    Ok(())
}

/// Whether the entry of a number is that of a set of categories.
fn is_set_at(entries: &[Entry], number: usize) -> bool
    ensures { result ≡ is_set_at entries.now number }
{
    match entries.get(number) {
        Some(entry) => is_set(entry),
        None => false,
    }
}

fn is_set(entry: &Entry) -> bool
    ensures { result ≡ is_set entry.now }
{
    matches!(entry.kind, Kind::CategorySet)
}
