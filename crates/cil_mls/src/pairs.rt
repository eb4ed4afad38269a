//! What order statements say of the numbers of items: an edge from each item that is listed to the next.

ghost use Rattle.std.specs.Prelude.{◌≡◌, ◌↔◌, ◌<◌, ℕ, Contains, IfOk, MatchOption, OnOk, false, length, map, true};
ghost use Rattle.cil_settle.specs.Cycles.{Leads};
ghost use Rattle.cil_syntax.specs.Said.{all_said, said_of};
ghost use Rattle.cil_syntax.specs.Terms.{cons, nil};
ghost use Rattle.cil_attrs.specs.macros.Items.{item_at, items_in, may_say_lists, says_as_written};
ghost use Rattle.cil_attrs.specs.known.Known.{row_in, set_meant};
ghost use Rattle.cil_attrs.specs.names.Resolves.{is_mapping};
ghost use Rattle.cil_attrs.specs.names.Rows.{IsTableOf};
ghost use Rattle.cil_mls.specs.Pairs.{IsNextBefore, IsPairBy, IsPairIn, LeadMore, are_word_list, are_words, is_listed, is_word, is_word_list};

use cil_attrs::{Instances, Known, Meaning, same_keyword};
use cil_base::NoMemory;
use cil_sets::Numbers;
use cil_settle::Edge;
use cil_syntax::{Keyword, Op, Term};
use std::alloc::Global;

/// The edges that the enabled statements of a keyword give, where the words of each declared name stand for these numbers: from each
/// word of a list to the next. A word costs two copies of the set for which it stands. Error: out of memory.
pub fn pairs_of(
    alloc: Global,
    instances: &Instances,
    known: &Known,
    standing: &[Numbers],
    keyword: Keyword,
) -> Result<Vec<Edge>, NoMemory>
    requires table { IsTableOf (map (row_in known.now) (items_in instances.now)) known.now.words.now }
    requires written { says_as_written keyword ≡ true }
    requires named { may_say_lists keyword ≡ false }
    requires plain { is_mapping keyword ≡ false }
    ensures { IfOk result (λ edges. (a b : ℕ) → Leads edges.items a b ↔ IsPairIn known.now standing.now keyword (items_in instances.now) a b) }
{
    let mut edges = Vec::new(alloc);
    for at in 0..instances.len() {
        let words = known.words.row(at);
        push_statement(
            alloc, instances, known, standing, keyword, at, words, &mut edges,
        )?;
    }
    Ok(edges)
}

/// Adds the edges of the statement at a place, whose words mean this.
fn push_statement(
    alloc: Global,
    instances: &Instances,
    known: &Known,
    standing: &[Numbers],
    keyword: Keyword,
    at: usize,
    words: &[Meaning],
    edges: &mut Vec<Edge>,
) -> Result<(), NoMemory>
    requires within { at < length (items_in instances.now) }
    requires row { words.now ≡ row_in known.now (item_at instances.now at) }
    requires written { says_as_written keyword ≡ true }
    requires named { may_say_lists keyword ≡ false }
    requires plain { is_mapping keyword ≡ false }
    ensures { OnOk result (LeadMore edges.old.items edges.new.items (IsPairBy known.now standing.now keyword (item_at instances.now at))) }
{
    let statement = instances.statement_there(at);
    if !same_keyword(statement.keyword, keyword) {
        return Ok(());
    }
    if !known.is_enabled(instances, at) {
        return Ok(());
    }
    if !lists_words(statement.args.as_slice()) {
        return Ok(());
    }
    push_neighbours(alloc, words, standing, edges)?;
    Ok(())
}

/// Adds an edge from what each of some words stands for to what the next stands for.
fn push_neighbours(
    alloc: Global,
    words: &[Meaning],
    standing: &[Numbers],
    edges: &mut Vec<Edge>,
) -> Result<(), NoMemory>
    ensures { OnOk result (LeadMore edges.old.items edges.new.items (IsNextBefore standing.now words.now (length words.now))) }
{
    let mut at = 1;
    while at < words.len() {
        push_pair(
            alloc,
            words[at - 1].entry(),
            words[at].entry(),
            standing,
            edges,
        )?;
        at += 1;
    }
    Ok(())
}

/// Adds an edge from each number for which a word of the one meaning stands to each for which one of the other does.
fn push_pair(
    alloc: Global,
    low: Option<usize>,
    high: Option<usize>,
    standing: &[Numbers],
    edges: &mut Vec<Edge>,
) -> Result<(), NoMemory>
    ensures { OnOk result (LeadMore edges.old.items edges.new.items (λ a b. Contains (set_meant standing.now low) a × Contains (set_meant standing.now high) b)) }
{
    let low = numbers_meant(alloc, standing, low)?;
    let high = numbers_meant(alloc, standing, high)?;
    push_between(low.as_slice(), high.as_slice(), edges)?;
    Ok(())
}

/// The numbers for which a word of a meaning stands.
fn numbers_meant(
    alloc: Global,
    standing: &[Numbers],
    meaning: Option<usize>,
) -> Result<Vec<usize>, NoMemory>
    ensures { IfOk result (λ numbers. numbers.items ≡ set_meant standing.now meaning) }
{
    let Some(entry) = meaning else {
        return Ok(Vec::new(alloc));
    };
    match standing.get(entry) {
        Some(set) => set.to_vec(alloc),
        None => Ok(Vec::new(alloc)),
    }
}

/// Adds an edge from each of some numbers to each of others.
fn push_between(low: &[usize], high: &[usize], edges: &mut Vec<Edge>) -> Result<(), NoMemory>
    ensures { OnOk result (LeadMore edges.old.items edges.new.items (λ a b. Contains low.now a × Contains high.now b)) }
{
    for from in low {
        push_from(*from, high, edges)?;
    }
    Ok(())
}

/// Adds an edge from a number to each of others.
fn push_from(from: usize, high: &[usize], edges: &mut Vec<Edge>) -> Result<(), NoMemory>
    ensures { OnOk result (LeadMore edges.old.items edges.new.items (λ a b. (a ≡ from) × Contains high.now b)) }
{
    for to in high {
        edges.push(Edge {
            from,
            to: *to,
            counted: false,
        })?;
    }
    Ok(())
}

/// Whether terms are a list of words alone.
fn lists_words(terms: &[Term]) -> bool
    ensures { (m : ℕ) → result ≡ are_word_list (all_said m terms.now) }
{
    let Some(term) = only(terms) else {
        return false;
    };
    is_word_list(term)
}

/// The one term of some.
pub(crate) fn only<'t, 'a>(terms: &'t [Term<'a>]) -> Option<&'t Term<'a>>
    ensures { (m : ℕ) → MatchOption result (length terms.now ≡ 1 → ⊥) (λ t. all_said m terms.now ≡ cons (said_of m t.now) nil) }
{
    match terms {
        [] => None,
        [term] => Some(term),
        [_, _, ..] => None,
    }
}

/// Whether a term is a list of words.
fn is_word_list(term: &Term) -> bool
    ensures { (m : ℕ) → result ≡ is_word_list (said_of m term.now) }
{
    match term {
        Term::Form(op, _, parts) => {
            if !is_listed(*op) {
                return false;
            }
            are_words(parts.as_slice())
        }
        _ => false,
    }
}

fn is_listed(op: Op) -> bool
    ensures { result ≡ is_listed op }
{
    matches!(op, Op::Listed)
}

/// Whether all of some terms are words.
fn are_words(parts: &[Term]) -> bool
    ensures { (m : ℕ) → result ≡ are_words (all_said m parts.now) }
{
    for part in parts {
        if !is_word(part) {
            return false;
        }
    }
    true
}

fn is_word(part: &Term) -> bool
    ensures { (m : ℕ) → result ≡ is_word (said_of m part.now) }
{
    matches!(part, Term::Leaf(_))
}
