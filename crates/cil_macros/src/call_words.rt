//! The words of a call: that of its macro, and its arguments that are looked up. The body of a call is found by a search by
//! halving among all bodies; its words cost a step for each argument.

ghost use Rattle.std.specs.Prelude.{◌≡◌, ◌+◌, ◌<◌, ◌++◌, IfOk, IfSome, IsTrue, List, MatchOption, None, OnOk, Some, length, map, slice_get};
ghost use Rattle.cil_syntax.specs.Said.{args_of};
ghost use Rattle.cil_blocks.specs.Contents.{first_word};
ghost use Rattle.cil_blocks.specs.Places.{entries_in};
ghost use Rattle.cil_macros.specs.Calls.{unfolded};
ghost use Rattle.cil_macros.specs.Items.{argument_words, call_words, is_text, leaves, macro_words, scoped_by, unfolded_values, unfolded_words, word_in_argument};
ghost use Rattle.cil_macros.specs.Macros.{all_standing};
ghost use Rattle.cil_macros.specs.Meant.{bounds_by, kind_sign, meant_term, value_there};
ghost use Rattle.cil_macros.specs.Parameters.{macro_parameters};
ghost use Rattle.cil_macros.specs.Placed.{Placed};
ghost use Rattle.cil_macros.specs.Scene.{IsOpened, IsScene, placed_of_scene};
ghost use Rattle.cil_macros.specs.Unfoldings.{IsUnfolding};
ghost use Rattle.cil_macros.specs.Walks.{AreCallsRising, HasNoBody, IsBodyOf, written_in};

use crate::arguments::{listed, sign_of};
use crate::calls::{front_at, standing_at};
use crate::entry::Body;
use crate::meant::{Argument, Meant};
use crate::openings::Opening;
use crate::placed_word::{PlacedWord, asked_word};
use crate::scene::Scene;
use cil_base::NoMemory;
use cil_syntax::{Op, Sign, Statement};
use std::alloc::Global;

/// The words of the call at a place: that of its macro and, where the call is unfolded, its arguments that are looked up.
pub(crate) fn call_words_at<'a>(
    alloc: Global,
    scene: &Scene<'_, '_, 'a>,
    openings: &[Opening<'a>],
    at: usize,
) -> Result<Vec<PlacedWord<'a>>, NoMemory>
    requires opened { IsOpened scene.now openings.now }
    requires within { at < length (entries_in scene.now.spaces.now) + length scene.now.brought.now.entries.items }
    ensures { IfOk result (λ words. (p : Placed) → slice_get (placed_of_scene scene.now) at ≡ Some p
        → map (scoped_by (placed_of_scene scene.now)) words.items ≡ call_words (written_in scene.now.spaces.now) (all_standing scene.now.spaces.now) p p.standing.statement.statement.args) }
{
    let mut words = Vec::new(alloc);
    add_macro(scene, at, &mut words)?;
    add_arguments(scene, openings, at, &mut words)?;
    Ok(words)
}

/// Adds the word of the macro that the statement at a place calls. It is looked up where the call is.
fn add_macro<'a>(
    scene: &Scene<'_, '_, 'a>,
    at: usize,
    words: &mut Vec<PlacedWord<'a>>,
) -> Result<(), NoMemory>
    requires scene { IsScene scene.now }
    requires within { at < length (entries_in scene.now.spaces.now) + length scene.now.brought.now.entries.items }
    ensures { OnOk result ((p : Placed) → slice_get (placed_of_scene scene.now) at ≡ Some p
        → map (scoped_by (placed_of_scene scene.now)) words.new.items ≡ map (scoped_by (placed_of_scene scene.now)) words.old.items ++ macro_words p (first_word p.standing.statement.statement.args)) }
{
    let Some(front) = front_at(scene.spaces, scene.brought, at) else {
        return Ok(());
    };
    words.push(front)?;
    Ok(())
}

/// Adds the arguments of the call at a place that are looked up, where the call is unfolded.
fn add_arguments<'a>(
    scene: &Scene<'_, '_, 'a>,
    openings: &[Opening<'a>],
    at: usize,
    words: &mut Vec<PlacedWord<'a>>,
) -> Result<(), NoMemory>
    requires opened { IsOpened scene.now openings.now }
    requires within { at < length (entries_in scene.now.spaces.now) + length scene.now.brought.now.entries.items }
    ensures { OnOk result ((p : Placed) → slice_get (placed_of_scene scene.now) at ≡ Some p
        → map (scoped_by (placed_of_scene scene.now)) words.new.items ≡ map (scoped_by (placed_of_scene scene.now)) words.old.items
        ++ unfolded_words (unfolded (written_in scene.now.spaces.now) (all_standing scene.now.spaces.now) p)) }
{
    let Some(unfolding) = unfolding_at(scene, openings, at) else {
        return Ok(());
    };
    add_looked_up(unfolding.called, unfolding.arguments, words)?;
    Ok(())
}

/// A call that is unfolded: its macro, and what its arguments are.
#[derive(Clone, Copy)]
pub struct Unfolding<'o, 'p, 'a> {
    /// The macro.
    pub called: &'p Statement<'a>,
    /// What its arguments are, one for each parameter.
    pub arguments: &'o [Argument<'a>],
}

/// The call at a place, if it is unfolded.
pub(crate) fn unfolding_at<'o, 'p, 'a>(
    scene: &Scene<'_, 'p, 'a>,
    openings: &'o [Opening<'a>],
    at: usize,
) -> Option<Unfolding<'o, 'p, 'a>>
    requires opened { IsOpened scene.now openings.now }
    requires within { at < length (entries_in scene.now.spaces.now) + length scene.now.brought.now.entries.items }
    ensures { (p : Placed) → slice_get (placed_of_scene scene.now) at ≡ Some p
        → MatchOption result (unfolded (written_in scene.now.spaces.now) (all_standing scene.now.spaces.now) p ≡ None) (λ u. IsUnfolding scene.now p u.called.now u.arguments.now) }
{
    let bodies = scene.brought.bodies.as_slice();
    let Some(number) = body_of(bodies, at) else {
        return None;
    };
    let rank = scene.brought.bodies[number].macro_rank;
    let Some(called) = standing_at(scene.spaces, rank) else {
        return None;
    };
    Some(Unfolding {
        called,
        arguments: openings[number].arguments.as_slice(),
    })
}

/// The number of the body of the call at a place, if it has one.
pub(crate) fn body_of(bodies: &[Body], at: usize) -> Option<usize>
    requires { AreCallsRising bodies.now }
    ensures body { MatchOption result (HasNoBody bodies.now at) (IsBodyOf bodies.now at) }
    ensures within { IfSome result (λ number. number < length bodies.now) }
{
    let number = bodies.partition_point(|body| body.call < at);
    let body = bodies.get(number)?;
    if body.call != at {
        return None;
    }
    Some(number)
}

/// Whether what the call at a place says of its arguments are words: none of them is a list.
pub(crate) fn call_says_words_at(scene: &Scene, openings: &[Opening], at: usize) -> bool
    requires opened { IsOpened scene.now openings.now }
    requires within { at < length (entries_in scene.now.spaces.now) + length scene.now.brought.now.entries.items }
    ensures { IsTrue result → (p : Placed) → slice_get (placed_of_scene scene.now) at ≡ Some p
        → unfolded_values (unfolded (written_in scene.now.spaces.now) (all_standing scene.now.spaces.now) p) ≡ leaves (unfolded_words (unfolded (written_in scene.now.spaces.now) (all_standing scene.now.spaces.now) p)) }
{
    let bodies = scene.brought.bodies.as_slice();
    match body_of(bodies, at) {
        None => true,
        Some(number) => !openings[number].lists,
    }
}

/// Adds those of the arguments of a macro that are looked up.
fn add_looked_up<'a>(
    called: &Statement<'a>,
    arguments: &[Argument<'a>],
    words: &mut Vec<PlacedWord<'a>>,
) -> Result<(), NoMemory>
    ensures { OnOk result ((ps : List Placed) → map (scoped_by ps) words.new.items
        ≡ map (scoped_by ps) words.old.items ++ argument_words (bounds_by ps (macro_parameters (args_of called.now)) arguments.now)) }
{
    let mut taken = 0;
    for term in listed(called) {
        if let Some(parameter) = term.parameter(called.at.module) {
            let Some(argument) = arguments.get(taken) else {
                return Ok(());
            };
            add_argument(parameter.kind, argument, words)?;
            taken += 1;
        }
    }
    Ok(())
}

/// Adds an argument of a kind, if it is a word that is looked up.
fn add_argument<'a>(
    kind: Op,
    argument: &Argument<'a>,
    words: &mut Vec<PlacedWord<'a>>,
) -> Result<(), NoMemory>
    ensures { OnOk result ((ps : List Placed) → map (scoped_by ps) words.new.items
        ≡ map (scoped_by ps) words.old.items ++ word_in_argument (value_there ps kind argument.now)) }
{
    match argument {
        Argument::Plain(meant) => add_word(kind, meant, words)?,
        Argument::List(_) => {}
    }
    Ok(())
}

/// Adds what an argument of a kind means, if it is a word that is looked up: no text.
fn add_word<'a>(
    kind: Op,
    meant: &Meant<'a>,
    words: &mut Vec<PlacedWord<'a>>,
) -> Result<(), NoMemory>
    ensures { OnOk result ((ps : List Placed) → map (scoped_by ps) words.new.items
        ≡ map (scoped_by ps) words.old.items ++ word_in_argument (meant_term ps (kind_sign kind) meant.now)) }
{
    let sign = sign_of(kind);
    if is_text(sign) {
        return Ok(());
    }
    let Some(place) = meant.scope else {
        return Ok(());
    };
    words.push(asked_word(sign, meant, place))?;
    Ok(())
}

/// Whether a word of a sign is a text, which is not looked up.
pub(crate) fn is_text(sign: Sign) -> bool
    ensures { result ≡ is_text sign }
{
    matches!(sign, Sign::Text)
}
