//! What one statement gives a set: the set that its first word names, and the expression whose value it gets. It costs no look-up.

ghost use Rattle.std.specs.Prelude.{◌≡◌, ◌↔◌, ◌&&◌, ◌||◌, ◌<◌, ℕ, IfOk, IfSome, List, MatchOption, None, Option, false, length, map};
ghost use Rattle.cil_syntax.specs.declared.kind.Keyword as keywords;
ghost use Rattle.cil_syntax.specs.declared.kind.Kind as kinds;
ghost use Rattle.cil_syntax.specs.declared.term.Word.{Word as AWord};
ghost use Rattle.cil_syntax.specs.Forms.{word_and_term as the_word_and_term};
ghost use Rattle.cil_syntax.specs.Said.{all_said, said_of};
ghost use Rattle.cil_syntax.specs.Scopes.{ScopedWord};
ghost use Rattle.cil_syntax.specs.Terms.{Leaf, cons, nil};
ghost use Rattle.cil_known.specs.macros.Item.{Item};
ghost use Rattle.cil_known.specs.macros.Items.{item_at, items_in, says_as_written, word_at};
ghost use Rattle.cil_known.specs.Known.{IsKnown, meant_in, row_in};
ghost use Rattle.std.specs.Option.{option_map_or};
ghost use Rattle.cil_known.specs.names.Rows.{IsTableOf};
ghost use Rattle.cil_known.specs.Spaces.{Sets, SpaceOf, any_sets};
ghost use Rattle.cil_attrs.specs.Givers.{AreGifts, AreSets, AreWritten, GivesNothing, IsGift, IsNamedSet, IsSets, HasKinds, NamesNoSet};
ghost use Rattle.cil_attrs.specs.Holding.{is_kind};

use crate::making::Given;
use cil_base::NoMemory;
use cil_known::{
    Instances, Known, Meaning, behind_first, meaning_at, names_laws as laws, same_keyword,
};
use cil_syntax::{Keyword, Kind, Term, word_and_terms};
use std::alloc::Global;

/// A kind of sets, and the statements that give them members.
#[derive(Clone, Copy)]
pub struct SetKind {
    pub kind: Kind,
    pub giving: Keyword,
}

/// A name space: the kind of its items, and its aliases and attributes.
#[derive(Clone, Copy)]
pub struct SpaceKinds {
    pub item: Kind,
    pub aliases: Option<SetKind>,
    pub attributes: Option<SetKind>,
}

/// What all statements give sets, in the order of the statements. A statement costs a step, and one that gives something the length
/// of the way round it to the outermost optional. Error: out of memory.
pub fn givens_of<'s, 'k, 'a>(
    alloc: Global,
    instances: &Instances<'_, 's, 'a>,
    known: &Known<'k, '_>,
    space: &SpaceKinds,
) -> Result<Vec<Given<'s, 'k, 'a>>, NoMemory>
    requires table { IsTableOf (map (row_in known.now) (items_in instances.now)) known.now.words.now }
    requires written { AreWritten space.now }
    ensures { IfOk result (λ givens. (names : kinds.Kind → List (List ℕ)) (which : SpaceOf) → IsKnown known.now (items_in instances.now) names → HasKinds space.now which
        → AreGifts known.now (items_in instances.now) which instances.now (items_in instances.now) givens.items) }
{
    let mut givens = Vec::new(alloc);
    for at in 0..instances.len() {
        if let Some(given) = given_at(instances, at, known.words.row(at), known, space) {
            givens.push(given)?;
        }
    }
    Ok(givens)
}

/// What the statement at a place gives a set, by what its words mean; none where it gives nothing.
pub fn given_at<'s, 'k, 'a>(
    instances: &Instances<'_, 's, 'a>,
    at: usize,
    words: &'k [Meaning],
    known: &Known,
    space: &SpaceKinds,
) -> Option<Given<'s, 'k, 'a>>
    requires within { at < length (items_in instances.now) }
    requires written { AreWritten space.now }
    ensures at { IfSome result (λ g. g.at ≡ at) }
    ensures gift { (xs : List Item) (names : kinds.Kind → List (List ℕ)) (which : SpaceOf) → IsKnown known.now xs names → HasKinds space.now which → words.now ≡ row_in known.now (item_at instances.now at)
        → MatchOption result (GivesNothing known.now xs which (item_at instances.now at)) (IsGift known.now xs which (item_at instances.now at) (word_at instances.now at)) }
{
    let statement = instances.statement_there(at);
    if !is_giving(space, statement.keyword) {
        return None;
    }
    if !known.is_enabled(instances, at) {
        return None;
    }
    let module = statement.at.module;
    let Some(term) = term_behind_word(statement.args.as_slice(), module) else {
        return None;
    };
    let Some(set) = set_named(known, space, statement.keyword, meaning_at(words, 0)) else {
        return None;
    };
    Some(Given {
        set,
        at,
        term,
        module,
        words: behind_first(words),
    })
}

/// The term behind the word in front, if there are just these two.
fn term_behind_word<'t, 'a>(terms: &'t [Term<'a>], module: u64) -> Option<&'t Term<'a>>
    ensures { MatchOption result (the_word_and_term (all_said «module» terms.now) ≡ None) (λ t. (w : AWord) × (all_said «module» terms.now ≡ cons (Leaf w) (cons (said_of «module» t.now) nil))) }
{
    let found = word_and_terms(terms, module)?;
    only(found.terms)
}

/// The one term of some.
fn only<'t, 'a>(terms: &'t [Term<'a>]) -> Option<&'t Term<'a>>
    ensures { (m : ℕ) → MatchOption result (length terms.now ≡ 1 → ⊥) (λ t. all_said m terms.now ≡ cons (said_of m t.now) nil) }
{
    match terms {
        [] => None,
        [term] => Some(term),
        [_, _, ..] => None,
    }
}

/// The set that a word of this meaning names, if statements of this keyword give such sets their members.
fn set_named(
    known: &Known,
    space: &SpaceKinds,
    keyword: Keyword,
    meaning: Option<usize>,
) -> Option<usize>
    ensures { (xs : List Item) (names : kinds.Kind → List (List ℕ)) (which : SpaceOf) (w : ScopedWord) → IsKnown known.now xs names → HasKinds space.now which → meaning ≡ meant_in known.now w
        → MatchOption result (NamesNoSet known.now xs which keyword w) (IsNamedSet known.now xs which keyword w) }
{
    // What is known of a word: it means the entry that it names.
    laws::means_what_it_names();
    let d = meaning?;
    let entry = known.lookup.names.entries().get(d)?;
    if !gives(space, keyword, entry.kind) {
        return None;
    }
    Some(d)
}

/// Whether statements of this keyword give sets of some kind their members.
fn is_giving(space: &SpaceKinds, keyword: Keyword) -> bool
    ensures { (which : SpaceOf) → HasKinds space.now which → result ≡ any_sets which (λ j. j.giving keyword) }
{
    let of_aliases = gives_any(space.aliases, keyword);
    let of_attributes = gives_any(space.attributes, keyword);
    either(of_aliases, of_attributes)
}

fn gives_any(sets: Option<SetKind>, keyword: Keyword) -> bool
    ensures { (j : Option Sets) → AreSets sets j → result ≡ option_map_or (λ i. i.giving keyword) j false }
{
    match sets {
        Some(sets) => same_keyword(keyword, sets.giving),
        None => false,
    }
}

/// Whether statements of this keyword give sets of this kind their members.
fn gives(space: &SpaceKinds, keyword: Keyword, kind: Kind) -> bool
    ensures { (which : SpaceOf) → HasKinds space.now which → result ≡ any_sets which (λ j. j.giving keyword && is_kind kind j.kind) }
{
    let of_aliases = gives_kind(space.aliases, keyword, kind);
    let of_attributes = gives_kind(space.attributes, keyword, kind);
    either(of_aliases, of_attributes)
}

fn gives_kind(sets: Option<SetKind>, keyword: Keyword, kind: Kind) -> bool
    ensures { (j : Option Sets) → AreSets sets j → result ≡ option_map_or (λ i. i.giving keyword && is_kind kind i.kind) j false }
{
    match sets {
        Some(sets) => gives_one(sets, keyword, kind),
        None => false,
    }
}

fn gives_one(sets: SetKind, keyword: Keyword, kind: Kind) -> bool
    ensures { (j : Sets) → IsSets sets j → result ≡ (j.giving keyword && is_kind kind j.kind) }
{
    if !same_keyword(keyword, sets.giving) {
        return false;
    }
    is_same_kind(kind, sets.kind)
}

pub fn is_same_kind(a: Kind, b: Kind) -> bool
    ensures { result ≡ is_kind a b }
{
    a == b
}

fn either(a: bool, b: bool) -> bool
    ensures { result ≡ (a || b) }
{
    a || b
}
