//! What a class permission gives, by the numbers of its words: permissions of a class, or all that some nodes have.

ghost use Rattle.std.specs.Prelude.{◌≡◌, ◌↔◌, ◌<◌, ◌≤◌, ◌⊎◌, ℕ, Contains, IfOk, List, MatchOption, None, OnOk, get_or, length, true};
ghost use Rattle.std.specs.List.Sorted.{IsStrictlySortedBy};
ghost use Rattle.cil_base.specs.Lists.{text_cmp};
ghost use Rattle.cil_syntax.specs.declared.kind.Kind as kinds;
ghost use Rattle.cil_syntax.specs.declared.kind.Kind.TheVariants as variants;
ghost use Rattle.cil_syntax.specs.declared.term.Word.{Word as AWord};
ghost use Rattle.cil_syntax.specs.Said.{said_of};
ghost use Rattle.cil_syntax.specs.Scopes.{ScopedWord};
ghost use Rattle.cil_syntax.specs.Terms.{Leaf};
ghost use Rattle.cil_macros.specs.Item.{Item, words_in};
ghost use Rattle.cil_known.specs.Known.{BeginWith, IsKnown, StandsForNothing, enabled_in, meant_in};
ghost use Rattle.cil_known.specs.Members.{HasNoSets};
ghost use Rattle.cil_known.specs.Numbers.{AreApart};
ghost use Rattle.cil_names.specs.Unresolved.{term_with};
ghost use Rattle.cil_classes.specs.ClassRows.{AreClasses};
ghost use Rattle.cil_classes.specs.NodeOrder.{node_cmp};
ghost use Rattle.cil_classes.specs.Numbers.{AreNumbered};
ghost use Rattle.cil_classes.specs.Parts.{AreAmong, AreLed, AreNodes, IsEntryFor, IsForm, IsHeldAt, IsPartIn};
ghost use Rattle.cil_classes.specs.Row.{AreOrderlyRows};

use crate::assigned::Part;
use crate::expression::holds;
use crate::given::given_by;
use crate::nodes::{Node, Run, place_of, run_of};
use crate::row::Class;
use cil_base::NoMemory;
use cil_known::{Known, behind_first, meaning_at};
use cil_names::{Meaning, laws, same_kind};
use cil_syntax::{Kind, Term};
use std::alloc::Global;

/// What a class permission of a statement of this module gives, by meanings that begin with those of its words. A word costs a
/// step, and each node of a class map a walk over the expression. Error: out of memory.
pub fn part_of(
    alloc: Global,
    known: &Known,
    classes: &[Class],
    nodes: &[Node],
    term: &Term,
    module: u64,
    words: &[Meaning],
) -> Result<Part, NoMemory>
    requires rows { AreOrderlyRows classes.now }
    requires rising { IsStrictlySortedBy node_cmp nodes.now }
    ensures { IfOk result (λ part. (xs : List Item) (names : kinds.Kind → List (List ℕ)) (f : AWord → ScopedWord) → IsKnown known.now xs names
        → AreApart known.now.lookup.names.now (enabled_in known.now) known.now.numbers.now → AreClasses xs (enabled_in known.now) (names variants.Class) classes.now → AreNodes known.now nodes.now
        → BeginWith known.now f (said_of «module» term.now) words.now → IsPartIn known.now xs classes.now nodes.now part (term_with f «module» term.now)) }
{
    if let Some(given) = given_by(known, classes, term, module, words) {
        return Ok(Part {
            class: given.class,
            mask: given.mask,
            from: Vec::new(alloc),
        });
    }
    let from = led_to(alloc, known, nodes, term, module, words)?;
    Ok(Part {
        class: 0,
        mask: 0,
        from,
    })
}

/// The nodes of all to which a class permission leads.
fn led_to(
    alloc: Global,
    known: &Known,
    nodes: &[Node],
    term: &Term,
    module: u64,
    words: &[Meaning],
) -> Result<Vec<usize>, NoMemory>
    requires rising { IsStrictlySortedBy node_cmp nodes.now }
    ensures { IfOk result (λ from. (xs : List Item) (names : kinds.Kind → List (List ℕ)) (f : AWord → ScopedWord) → IsKnown known.now xs names → AreNodes known.now nodes.now
        → BeginWith known.now f (said_of «module» term.now) words.now → AreLed known.now xs nodes.now (term_with f «module» term.now) from.items) }
{
    match term {
        Term::Leaf(_) => named_nodes(alloc, known, nodes, words),
        Term::Name(_, _) => Ok(Vec::new(alloc)),
        Term::Form(_, _, _) => mapped_nodes(alloc, known, nodes, term, module, words),
    }
}

/// The node of the class permission that a word names, if it has one.
fn named_nodes(
    alloc: Global,
    known: &Known,
    nodes: &[Node],
    words: &[Meaning],
) -> Result<Vec<usize>, NoMemory>
    requires rising { IsStrictlySortedBy node_cmp nodes.now }
    ensures { IfOk result (λ from. (xs : List Item) (names : kinds.Kind → List (List ℕ)) (w : ScopedWord) → IsKnown known.now xs names → AreNodes known.now nodes.now
        → get_or words.now 0 None ≡ meant_in known.now w → AreLed known.now xs nodes.now (Leaf w) from.items) }
{
    let Some(entry) = entry_of(known, Kind::ClassPermission, meaning_at(words, 0)) else {
        return Ok(Vec::new(alloc));
    };
    let Some(v) = place_of(nodes, Node { entry, number: 0 }) else {
        return Ok(Vec::new(alloc));
    };
    let from = vec![in alloc; v; 1]?;
    Ok(from)
}

/// The nodes of the permissions of a class map that are in the value of an expression.
fn mapped_nodes(
    alloc: Global,
    known: &Known,
    nodes: &[Node],
    term: &Term,
    module: u64,
    words: &[Meaning],
) -> Result<Vec<usize>, NoMemory>
    requires rising { IsStrictlySortedBy node_cmp nodes.now }
    ensures { IfOk result (λ from. (xs : List Item) (names : kinds.Kind → List (List ℕ)) (f : AWord → ScopedWord) → IsKnown known.now xs names → AreNodes known.now nodes.now
        → BeginWith known.now f (said_of «module» term.now) words.now → IsForm term.now → AreLed known.now xs nodes.now (term_with f «module» term.now) from.items) }
{
    let Some(parts) = term.class_parts(module) else {
        return Ok(Vec::new(alloc));
    };
    let Some(entry) = entry_of(known, Kind::ClassMap, meaning_at(words, 0)) else {
        return Ok(Vec::new(alloc));
    };
    let run = run_of(nodes, entry);
    if run.start >= run.end {
        return Ok(Vec::new(alloc));
    }
    let rest = behind_first(words);
    held_nodes(alloc, nodes, run, parts.permissions, rest)
}

/// The places of those nodes of a run whose permissions are in the value of an expression, by numbers that begin with those of
/// its words.
fn held_nodes(
    alloc: Global,
    nodes: &[Node],
    run: Run,
    expression: &Term,
    words: &[Meaning],
) -> Result<Vec<usize>, NoMemory>
    requires within { run.end ≤ length nodes.now }
    ensures { IfOk result (λ from. (f : AWord → ScopedWord) (m : ℕ) (permissions : List (List ℕ)) → IsStrictlySortedBy text_cmp permissions
        → AreNumbered permissions f (words_in (said_of m expression.now)) words.now → AreAmong permissions nodes.now run
        → (v : ℕ) → Contains from.items v ↔ ((run.start ≤ v) × (v < run.end) × IsHeldAt permissions nodes.now (term_with f m expression.now) v)) }
{
    let mut from = Vec::new(alloc);
    for v in run.start..run.end {
        let number = nodes[v].number;
        push_if(&mut from, v, holds(expression, words, number))?;
    }
    Ok(from)
}

/// Adds a place, if it is wanted.
fn push_if(from: &mut Vec<usize>, v: usize, wanted: bool) -> Result<(), NoMemory>
    ensures { OnOk result ((u : ℕ) → Contains from.new.items u ↔ (Contains from.old.items u ⊎ ((wanted ≡ true) × (v ≡ u)))) }
{
    if !wanted {
        return Ok(());
    }
    from.push(v)?;
    Ok(())
}

/// The entry of this kind that a word of this meaning names, if it names one.
pub fn entry_of(known: &Known, kind: Kind, meaning: Option<usize>) -> Option<usize>
    requires plain { HasNoSets kind }
    ensures { (xs : List Item) (names : kinds.Kind → List (List ℕ)) (w : ScopedWord) → IsKnown known.now xs names → meaning ≡ meant_in known.now w
        → MatchOption result (StandsForNothing xs (enabled_in known.now) kind w) (IsEntryFor known.now xs kind w) }
{
    laws::means_what_it_names();
    let Some(d) = meaning else {
        return None;
    };
    let Some(entry) = known.lookup.names.entries().get(d) else {
        return None;
    };
    if !same_kind(entry.kind, kind) {
        return None;
    }
    Some(d)
}
