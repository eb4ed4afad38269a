//! What is known of the statement at a place: where it is, which macro it calls, and whether the call is unfolded.

ghost use Rattle.std.specs.Prelude.{◌≡◌, ◌+◌, ◌<◌, ◌≤◌, IfOk, IfSome, IsTrue, MatchOption, None, OnOk, Some, is_some, length, slice_get};
ghost use Rattle.cil_syntax.specs.Program.{statement_of};
ghost use Rattle.cil_blocks.specs.Contents.{Standing, first_word};
ghost use Rattle.cil_blocks.specs.Entries.{nothing};
ghost use Rattle.cil_blocks.specs.Namespaces.{AreNamespaces, IsNumber};
ghost use Rattle.cil_blocks.specs.Places.{AreStandings, entries_in, spaces_in};
ghost use Rattle.cil_macros.specs.Calls.{bounds_of_call, called_macro, is_repeated};
ghost use Rattle.cil_macros.specs.Macros.{all_standing};
ghost use Rattle.cil_macros.specs.Placed.{Placed};
ghost use Rattle.cil_macros.specs.Unfoldings.{IsFront};
ghost use Rattle.cil_macros.specs.Walks.{AreBrought, HasScope, HaveOneScope, IsScope, IsScopePlace, IsSource, SaysMeant, SaysUnfolded, placed_in, written_in};

use crate::arguments::arguments_fit;
use crate::chain::{Brought, is_repeated, statement_at};
use crate::macros::{is_call_at, macro_called};
use crate::nearest::{spot_of, stated};
use crate::placed_word::PlacedWord;
use crate::source::Source;
use cil_base::NoMemory;
use cil_blocks::{ScopeList, Spaces};
use cil_syntax::{Statement, word_and_terms};
use std::alloc::Global;

/// The statement at a place.
pub fn stated_at<'p, 'a>(
    spaces: &Spaces<'p, 'a>,
    brought: &Brought,
    at: usize,
) -> Option<&'p Statement<'a>>
    requires standings { AreStandings spaces.now }
    requires within { at < length (entries_in spaces.now) + length brought.now.entries.items }
    ensures { (p : Placed) → slice_get (placed_in spaces.now brought.now.entries.items) at ≡ Some p
        → MatchOption result (p.standing.statement ≡ nothing) (λ x. p.standing.statement.statement ≡ statement_of x.now) }
{
    let number = statement_at(spaces.entries(), brought.entries.as_slice(), at);
    let Some(statement) = spaces.statements().get(number) else {
        return None;
    };
    Some(statement)
}

/// The statement that stands at a rank.
pub fn standing_at<'p, 'a>(spaces: &Spaces<'p, 'a>, rank: usize) -> Option<&'p Statement<'a>>
    requires { AreStandings spaces.now }
    ensures { (m : Standing) → slice_get (all_standing spaces.now) rank ≡ Some m
        → MatchOption result (m.statement ≡ nothing) (λ x. m.statement.statement ≡ statement_of x.now) }
{
    stated(spaces.statements(), spaces.entries(), rank)
}

/// The first word of the statement at a place: of a call that of its macro. It is looked up where the call is.
pub fn front_at<'a>(spaces: &Spaces<'_, 'a>, brought: &Brought, at: usize) -> Option<PlacedWord<'a>>
    requires standings { AreStandings spaces.now }
    requires within { at < length (entries_in spaces.now) + length brought.now.entries.items }
    ensures { (p : Placed) → slice_get (placed_in spaces.now brought.now.entries.items) at ≡ Some p
        → MatchOption result (first_word p.standing.statement.statement.args ≡ None) (IsFront at p) }
{
    let Some(statement) = stated_at(spaces, brought, at) else {
        return None;
    };
    let Some(front) = word_and_terms(statement.args.as_slice(), statement.at.module) else {
        return None;
    };
    Some(PlacedWord {
        word: front.word,
        scope: Some(at),
    })
}

/// The number of the namespace in which the statement of a rank stands.
fn standing_space(spaces: &Spaces, rank: usize) -> usize
    requires standings { AreStandings spaces.now }
    requires standing { rank < length (entries_in spaces.now) }
    ensures { (m : Standing) → slice_get (all_standing spaces.now) rank ≡ Some m → IsNumber (spaces_in spaces.now) m.space result }
{
    let Some(space) = spaces.space(rank) else {
        unreachable!()
    };
    space
}

/// The number of the namespace in which the statement at a place is put.
pub fn space_at(spaces: &Spaces, brought: &Brought, at: usize) -> usize
    requires standings { AreStandings spaces.now }
    requires brought { AreBrought spaces.now brought.now }
    requires within { at < length (entries_in spaces.now) + length brought.now.entries.items }
    ensures { (p : Placed) → slice_get (placed_in spaces.now brought.now.entries.items) at ≡ Some p → IsNumber (spaces_in spaces.now) p.standing.space result }
{
    let standing = spaces.entries().len();
    if at < standing {
        return standing_space(spaces, at);
    }
    let Some(body) = brought.body_at(standing, at) else {
        unreachable!()
    };
    body.space
}

/// The place of what has the same scope as the statement at a place: that place itself, or that of a call round it.
pub fn scope_place(spaces: &Spaces, brought: &Brought, at: usize) -> usize
    requires brought { AreBrought spaces.now brought.now }
    requires within { at < length (entries_in spaces.now) + length brought.now.entries.items }
    ensures { IsScopePlace (placed_in spaces.now brought.now.entries.items) at result }
{
    let Some(body) = brought.body_at(spaces.entries().len(), at) else {
        return at;
    };
    match body.scope {
        None => at,
        Some(place) => place,
    }
}

/// Whether the statements at two places have one scope, as far as their places tell.
pub fn have_one_scope(spaces: &Spaces, brought: &Brought, at: usize, other: usize) -> bool
    requires standings { AreStandings spaces.now }
    requires namespaces { AreNamespaces (spaces_in spaces.now) }
    requires brought { AreBrought spaces.now brought.now }
    requires one { at < length (entries_in spaces.now) + length brought.now.entries.items }
    requires other { other < length (entries_in spaces.now) + length brought.now.entries.items }
    ensures { IsTrue result → HaveOneScope (placed_in spaces.now brought.now.entries.items) at other }
{
    let standing = spaces.entries().len();
    let from = scope_place(spaces, brought, at);
    let to = scope_place(spaces, brought, other);
    if from.max(to) >= standing {
        return from == to;
    }
    spaces.have_one_place(from, to)
}

/// Fills a list with the scope of the statement at a place.
pub fn scope_at(
    alloc: Global,
    spaces: &Spaces,
    brought: &Brought,
    at: usize,
    scope: &mut ScopeList,
) -> Result<(), NoMemory>
    requires standings { AreStandings spaces.now }
    requires namespaces { AreNamespaces (spaces_in spaces.now) }
    requires brought { AreBrought spaces.now brought.now }
    requires within { at < length (entries_in spaces.now) + length brought.now.entries.items }
    ensures { OnOk result ((p : Placed) → slice_get (placed_in spaces.now brought.now.entries.items) at ≡ Some p
        → IsScope (spaces_in spaces.now) p.standing.scope scope.new) }
{
    let from = scope_place(spaces, brought, at);
    if from < spaces.entries().len() {
        spaces.scope_into(alloc, from, scope)?;
        return Ok(());
    }
    called_scope_at(alloc, spaces, brought, from, scope)?;
    Ok(())
}

/// The same of a statement that a call brings: the scope of the place of its macro comes first, then those of the places of the
/// macros round it, and last that of the call that stands. Macros whose scope changes nothing are passed over.
fn called_scope_at(
    alloc: Global,
    spaces: &Spaces,
    brought: &Brought,
    at: usize,
    scope: &mut ScopeList,
) -> Result<(), NoMemory>
    requires standings { AreStandings spaces.now }
    requires namespaces { AreNamespaces (spaces_in spaces.now) }
    requires brought { AreBrought spaces.now brought.now }
    requires within { at < length (entries_in spaces.now) + length brought.now.entries.items }
    requires behind { length (entries_in spaces.now) ≤ at }
    ensures { OnOk result ((p : Placed) → slice_get (placed_in spaces.now brought.now.entries.items) at ≡ Some p
        → IsScope (spaces_in spaces.now) p.standing.scope scope.new) }
{
    let standing = spaces.entries().len();
    scope.clear();
    let mut place = at;
    while let Some(body) = brought.body_at(standing, place) {
        spaces.add_scope(alloc, body.macro_rank, scope)?;
        place = scope_place(spaces, brought, body.call);
    }
    spaces.add_scope(alloc, place, scope)?;
    scope.close()?;
    Ok(())
}

/// The rank of the macro that the statement at a place calls: none if it is no call, or names no macro. The scope of a call is
/// put in the list.
pub fn macro_at(
    alloc: Global,
    source: &Source,
    brought: &Brought,
    at: usize,
    scope: &mut ScopeList,
) -> Result<Option<usize>, NoMemory>
    requires source { IsSource source.now }
    requires brought { AreBrought source.now.spaces.now brought.now }
    requires within { at < length (entries_in source.now.spaces.now) + length brought.now.entries.items }
    ensures meant { IfOk result (SaysMeant source.now.spaces.now brought.now.entries.items at) }
    ensures scope { IfOk result (λ o. IfSome o (λ k. HasScope source.now.spaces.now brought.now.entries.items at scope.new)) }
{
    let number = statement_at(source.spaces.entries(), brought.entries.as_slice(), at);
    if !is_call_at(source.spaces.statements(), number) {
        return Ok(None);
    }
    scope_at(alloc, source.spaces, brought, at, scope)?;
    let called = macro_called(source.spaces, source.macros, number, scope.as_slice());
    Ok(called)
}

/// The rank of the macro that the statement at a place calls, where the call is unfolded: its arguments fit, and it did not
/// come through this macro itself. Then the scope of the call is in the list.
pub fn unfolded_at(
    alloc: Global,
    source: &Source,
    brought: &Brought,
    at: usize,
    scope: &mut ScopeList,
) -> Result<Option<usize>, NoMemory>
    requires source { IsSource source.now }
    requires brought { AreBrought source.now.spaces.now brought.now }
    requires within { at < length (entries_in source.now.spaces.now) + length brought.now.entries.items }
    ensures unfolded { IfOk result (SaysUnfolded source.now.spaces.now brought.now.entries.items at) }
    ensures scope { IfOk result (λ o. IfSome o (λ k. HasScope source.now.spaces.now brought.now.entries.items at scope.new)) }
{
    let Some(called) = macro_at(alloc, source, brought, at, scope)? else {
        return Ok(None);
    };
    if comes_again(source, brought, at, called) {
        return Ok(None);
    }
    if !has_arguments(source, brought, at, called) {
        return Ok(None);
    }
    Ok(Some(called))
}

/// Whether the statement at a place came through this macro already.
pub fn comes_again(source: &Source, brought: &Brought, at: usize, called: usize) -> bool
    requires source { IsSource source.now }
    requires brought { AreBrought source.now.spaces.now brought.now }
    requires within { at < length (entries_in source.now.spaces.now) + length brought.now.entries.items }
    requires standing { called < length (entries_in source.now.spaces.now) }
    ensures { (p : Placed) (m : Standing) → slice_get (placed_in source.now.spaces.now brought.now.entries.items) at ≡ Some p
        → slice_get (all_standing source.now.spaces.now) called ≡ Some m → result ≡ is_repeated p m }
{
    let statements = source.spaces.statements();
    let entries = source.spaces.entries();
    let spot = spot_of(statements, entries, called);
    is_repeated(statements, entries, brought, at, spot)
}

/// Whether the call at a place has the arguments that this macro asks.
pub fn has_arguments(source: &Source, brought: &Brought, at: usize, called: usize) -> bool
    requires source { IsSource source.now }
    requires within { at < length (entries_in source.now.spaces.now) + length brought.now.entries.items }
    requires standing { called < length (entries_in source.now.spaces.now) }
    ensures { (p : Placed) (m : Standing) → slice_get (placed_in source.now.spaces.now brought.now.entries.items) at ≡ Some p
        → slice_get (all_standing source.now.spaces.now) called ≡ Some m → called_macro (all_standing source.now.spaces.now) p ≡ Some m
        → result ≡ is_some (bounds_of_call (written_in source.now.spaces.now) p m) }
{
    let Some(call) = stated_at(source.spaces, brought, at) else {
        return false;
    };
    let Some(called) = standing_at(source.spaces, called) else {
        return false;
    };
    arguments_fit(called, call)
}
