//! The faults of all terms of a statement: of each form inside of what it says.

ghost use Rattle.std.specs.Prelude.{◌≡◌, ◌++◌, ◌∷◌, ◌<◌, ◌≤◌, ℕ, All, IfOk, List, MatchOption, OnOk, Some, drop, length};
ghost use Rattle.cil_syntax.specs.Said.{all_said, said_of};
ghost use Rattle.cil_faults.specs.declared.spot.Spot as spots;
ghost use Rattle.cil_syntax.specs.declared.term.Op as ops;
ghost use Rattle.cil_syntax.specs.declared.term.Word.{Word as AWord};
ghost use Rattle.cil_syntax.specs.Scopes.{ScopedWord};
ghost use Rattle.cil_syntax.specs.Terms.{Term as ATerm, Terms};
ghost use Rattle.cil_macros.specs.Item.{all_replaced, replaced};
ghost use Rattle.cil_macros.specs.Items.{items_in};
ghost use Rattle.cil_macros.specs.Listed.{Part as APart, all_parts_of, opens, part_there, parts_of, parts_there, scoped_by, word};
ghost use Rattle.cil_macros.specs.ListTerms.{AreAlike, IsAlike};
ghost use Rattle.cil_macros.specs.Placed.{Placed};
ghost use Rattle.cil_mls.specs.Values.{IsFew};
ghost use Rattle.cil_ranges.specs.Walked.{AddsBackwards, AddsOrder, AddsOwn, AddsTurned, AddsUnpermitted, WalksForm, WalksTerm, WalksTerms};

use crate::own::{Judge, Judged, is_backwards, is_turned, is_unpermitted, judged_as};
use crate::slices::behind_one;
use crate::told::push_told;
use cil_base::NoMemory;
use cil_known::{behind, behind_first};
use cil_macros::{Instances, Part, PlacedWord};
use cil_mls::are_plain;
use cil_names::Meaning;
use cil_syntax::{Fault, FaultCode, Op, Spot, Term};
use std::alloc::Global;

/// What is ahead in a statement: the meanings of what it asks for, and its parts as it says them.
#[derive(Clone, Copy)]
pub struct Ahead<'r, 'a> {
    /// The meanings.
    pub words: &'r [Meaning],
    /// The parts.
    pub parts: &'r [Part<'a>],
}

/// The statement whose terms are walked, and what they are judged by.
#[derive(Clone, Copy)]
pub struct Walk<'w, 's, 'p, 'a> {
    /// The statements.
    pub instances: &'w Instances<'s, 'p, 'a>,
    /// The place of this one.
    pub at: usize,
    /// What levels are judged by.
    pub judge: Judge<'w>,
}

/// Where the list begins that is the first of some parts.
fn opening(parts: &[Part]) -> Option<Spot>
    ensures { (ps : List Placed) (at : spots.Spot) (op : ops.Op) (xs : List APart) → parts_there ps parts.now ≡ opens at op ∷ xs → result ≡ Some at }
{
    match parts {
        [] => None,
        [first, ..] => begins(first),
    }
}

fn begins(part: &Part) -> Option<Spot>
    ensures { (ps : List Placed) (at : spots.Spot) (op : ops.Op) → part_there ps part.now ≡ opens at op → result ≡ Some at }
{
    match part {
        Part::Opens(at, _) => Some(*at),
        _ => None,
    }
}

/// The word that is the second of some parts: the first in a list.
fn naming<'r, 'a>(parts: &'r [Part<'a>]) -> Option<&'r PlacedWord<'a>>
    ensures { (ps : List Placed) (at : spots.Spot) (op : ops.Op) (w : ScopedWord) (xs : List APart) → parts_there ps parts.now ≡ opens at op ∷ word w ∷ xs
        → MatchOption result ⊥ (λ there. scoped_by ps there.now ≡ w) }
{
    match parts {
        [] => None,
        [_] => None,
        [_, second, ..] => word_there(second),
    }
}

/// The word that a part is.
pub fn word_there<'r, 'a>(part: &'r Part<'a>) -> Option<&'r PlacedWord<'a>>
    ensures { (ps : List Placed) (w : ScopedWord) → part_there ps part.now ≡ word w → MatchOption result ⊥ (λ there. scoped_by ps there.now ≡ w) }
{
    match part {
        Part::Word(there) => Some(there),
        _ => None,
    }
}

/// The parts behind those of a term.
#[cycle(past)]
fn parts_past<'r, 'a>(parts: &'r [Part<'a>], term: &Term) -> &'r [Part<'a>]
    ensures { (ps : List Placed) (f : AWord → ScopedWord) (m : ℕ) (u : ATerm ScopedWord) (xs : List APart) → IsAlike (replaced (λ at. at) f (said_of m term.now)) u
        → parts_there ps parts.now ≡ parts_of u ++ xs → parts_there ps result.now ≡ xs }
{
    match term {
        Term::Leaf(_) => behind_one(parts),
        Term::Name(_, _) => behind_one(parts),
        Term::Form(_, _, inner) => {
            behind_one(parts_past_all(behind_one(parts), inner.as_slice()))
        }
    }
}

/// The parts behind those of some terms.
#[cycle(past)]
fn parts_past_all<'r, 'a>(parts: &'r [Part<'a>], terms: &[Term]) -> &'r [Part<'a>]
    ensures { (ps : List Placed) (f : AWord → ScopedWord) (m : ℕ) (us : Terms ScopedWord) (xs : List APart) → AreAlike (all_replaced (λ at. at) f (all_said m terms.now)) us
        → parts_there ps parts.now ≡ all_parts_of us ++ xs → parts_there ps result.now ≡ xs }
{
    let mut rest = parts;
    for term in terms {
        rest = parts_past(rest, term);
    }
    rest
}

/// Adds what is wrong with a level with these parts.
fn push_unpermitted(
    alloc: Global,
    walk: &Walk,
    faults: &mut Vec<Fault>,
    terms: &[Term],
    ahead: &Ahead,
) -> Result<(), NoMemory>
    requires within { walk.now.at < length (items_in walk.now.instances.now) }
    requires count { walk.now.judge.named.scale.categories.count ≤ 1024 }
    requires few { All IsFew walk.now.judge.named.scale.categories.held.now }
    ensures { OnOk result (AddsUnpermitted walk.now terms.now ahead.now faults.old.items faults.new.items) }
{
    if !are_plain(terms) {
        return Err(NoMemory);
    }
    if !is_unpermitted(&walk.judge, terms, ahead.words) {
        return Ok(());
    }
    let Some(there) = naming(ahead.parts) else {
        return Err(NoMemory);
    };
    push_told(
        alloc,
        walk.instances,
        walk.at,
        faults,
        FaultCode::LevelCategory,
        there.word.at,
        there.word.bytes.as_slice(),
    )
}

/// Adds what is wrong with a range of levels with these parts.
fn push_turned(
    alloc: Global,
    walk: &Walk,
    faults: &mut Vec<Fault>,
    terms: &[Term],
    ahead: &Ahead,
) -> Result<(), NoMemory>
    requires within { walk.now.at < length (items_in walk.now.instances.now) }
    requires count { walk.now.judge.named.scale.categories.count ≤ 1024 }
    requires few { All IsFew walk.now.judge.named.scale.categories.held.now }
    ensures { OnOk result (AddsTurned walk.now terms.now ahead.now faults.old.items faults.new.items) }
{
    if !are_plain(terms) {
        return Err(NoMemory);
    }
    if !is_turned(&walk.judge.named, terms, ahead.words) {
        return Ok(());
    }
    push_order(alloc, walk, faults, ahead.parts)
}

/// Adds what is wrong with a range of categories with these parts.
fn push_backwards(
    alloc: Global,
    walk: &Walk,
    faults: &mut Vec<Fault>,
    terms: &[Term],
    ahead: &Ahead,
) -> Result<(), NoMemory>
    requires within { walk.now.at < length (items_in walk.now.instances.now) }
    ensures { OnOk result (AddsBackwards walk.now terms.now ahead.now faults.old.items faults.new.items) }
{
    if !are_plain(terms) {
        return Err(NoMemory);
    }
    if !is_backwards(&walk.judge.named.scale, terms, ahead.words) {
        return Ok(());
    }
    push_order(alloc, walk, faults, ahead.parts)
}

/// Adds that the range that begins these parts is turned.
fn push_order(
    alloc: Global,
    walk: &Walk,
    faults: &mut Vec<Fault>,
    parts: &[Part],
) -> Result<(), NoMemory>
    requires within { walk.now.at < length (items_in walk.now.instances.now) }
    ensures { OnOk result (AddsOrder walk.now parts.now faults.old.items faults.new.items) }
{
    let Some(at) = opening(parts) else {
        return Err(NoMemory);
    };
    push_told(
        alloc,
        walk.instances,
        walk.at,
        faults,
        FaultCode::RangeOrder,
        at,
        &[],
    )
}

/// Adds what is wrong with a form itself.
fn push_own(
    alloc: Global,
    walk: &Walk,
    faults: &mut Vec<Fault>,
    op: Op,
    terms: &[Term],
    ahead: &Ahead,
) -> Result<(), NoMemory>
    requires within { walk.now.at < length (items_in walk.now.instances.now) }
    requires count { walk.now.judge.named.scale.categories.count ≤ 1024 }
    requires few { All IsFew walk.now.judge.named.scale.categories.held.now }
    ensures { OnOk result (AddsOwn walk.now terms.now ahead.now faults.old.items faults.new.items op) }
{
    match judged_as(op) {
        Judged::Level => push_unpermitted(alloc, walk, faults, terms, ahead),
        Judged::Levels => push_turned(alloc, walk, faults, terms, ahead),
        Judged::Categories => push_backwards(alloc, walk, faults, terms, ahead),
        Judged::Nothing => Ok(()),
    }
}

/// Adds what is wrong inside of a term, and answers what is behind it.
#[cycle(walk)]
fn push_term<'r, 'a>(
    alloc: Global,
    walk: &Walk,
    faults: &mut Vec<Fault>,
    term: &Term,
    ahead: Ahead<'r, 'a>,
) -> Result<Ahead<'r, 'a>, NoMemory>
    requires within { walk.now.at < length (items_in walk.now.instances.now) }
    requires count { walk.now.judge.named.scale.categories.count ≤ 1024 }
    requires few { All IsFew walk.now.judge.named.scale.categories.held.now }
    ensures { IfOk result (λ rest. WalksTerm walk.now ahead.entry faults.old.items faults.new.items rest term.now) }
{
    match term {
        Term::Leaf(_) => Ok(Ahead {
            words: behind_first(ahead.words),
            parts: behind_one(ahead.parts),
        }),
        Term::Name(_, _) => Ok(Ahead {
            words: ahead.words,
            parts: behind_one(ahead.parts),
        }),
        Term::Form(op, _, parts) => {
            if op.is_class_list() {
                return Ok(Ahead {
                    words: behind(ahead.words, term, 0),
                    parts: parts_past(ahead.parts, term),
                });
            }
            push_form(alloc, walk, faults, *op, parts.as_slice(), ahead)
        }
    }
}

/// The same of a form with these parts that is no class with its permissions.
#[cycle(walk)]
fn push_form<'r, 'a>(
    alloc: Global,
    walk: &Walk,
    faults: &mut Vec<Fault>,
    op: Op,
    terms: &[Term],
    ahead: Ahead<'r, 'a>,
) -> Result<Ahead<'r, 'a>, NoMemory>
    requires within { walk.now.at < length (items_in walk.now.instances.now) }
    requires count { walk.now.judge.named.scale.categories.count ≤ 1024 }
    requires few { All IsFew walk.now.judge.named.scale.categories.held.now }
    ensures { IfOk result (λ rest. WalksForm walk.now ahead.entry faults.old.items faults.new.items rest op terms.now) }
{
    push_own(alloc, walk, faults, op, terms, &ahead)?;
    let inside = Ahead {
        words: ahead.words,
        parts: behind_one(ahead.parts),
    };
    let rest = push_terms(alloc, walk, faults, terms, inside)?;
    Ok(Ahead {
        words: rest.words,
        parts: behind_one(rest.parts),
    })
}

/// The same of some terms.
#[cycle(walk)]
pub fn push_terms<'r, 'a>(
    alloc: Global,
    walk: &Walk,
    faults: &mut Vec<Fault>,
    terms: &[Term],
    ahead: Ahead<'r, 'a>,
) -> Result<Ahead<'r, 'a>, NoMemory>
    requires within { walk.now.at < length (items_in walk.now.instances.now) }
    requires count { walk.now.judge.named.scale.categories.count ≤ 1024 }
    requires few { All IsFew walk.now.judge.named.scale.categories.held.now }
    ensures { IfOk result (λ rest. WalksTerms walk.now ahead.entry faults.old.items faults.new.items rest terms.now) }
{
    let mut rest = ahead;
    for term in terms {
        rest = push_term(alloc, walk, faults, term, rest)?;
    }
    Ok(rest)
}
