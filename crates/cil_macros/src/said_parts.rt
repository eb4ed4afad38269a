//! What a placed statement says, part by part, with the arguments put in: for statements in whose words an argument may be a list, so that
//! no layer above goes into one. Costs a step for each part.

ghost use Rattle.std.specs.Prelude.{◌≡◌, ◌+◌, ◌<◌, ◌++◌, IfOk, List, OnOk, Some, length, slice_get};
ghost use Rattle.cil_syntax.specs.Said.{args_of};
ghost use Rattle.cil_blocks.specs.Contents.{first_word};
ghost use Rattle.cil_blocks.specs.Places.{entries_in};
ghost use Rattle.cil_macros.specs.Calls.{unfolded};
ghost use Rattle.cil_macros.specs.Items.{call_says, unfolded_values, values_of};
ghost use Rattle.cil_macros.specs.Listed.{all_parts_of, parts_there};
ghost use Rattle.cil_macros.specs.Macros.{all_standing};
ghost use Rattle.cil_macros.specs.Meant.{AreWhole, IsWhole, bounds_by, kind_sign, meant_term, value_there};
ghost use Rattle.cil_macros.specs.Parameters.{macro_parameters};
ghost use Rattle.cil_macros.specs.Placed.{Placed};
ghost use Rattle.cil_macros.specs.SaidParts.{SaysParts, macro_parts, value_parts};
ghost use Rattle.cil_macros.specs.Scene.{IsOpened, IsScene, placed_of_scene};
ghost use Rattle.cil_macros.specs.Walks.{written_in};

use crate::arguments::{is_text_op, listed, sign_of};
use crate::call_words::{is_text, unfolding_at};
use crate::calls::{front_at, stated_at};
use crate::list_values::{Caller, push_for, push_list};
use crate::listed::{Part, push_copy, push_part};
use crate::macros::is_call;
use crate::meaning::meaning_at;
use crate::meant::{Argument, Meant};
use crate::openings::Opening;
use crate::placed_word::{Said, asked_word, said_of_meaning};
use crate::scene::Scene;
use crate::term_parts::push_terms;
use cil_base::NoMemory;
use cil_syntax::{Op, Statement, Term, Word};
use std::alloc::Global;

/// What the statement at a place says, part by part, if it is one that may say lists.
pub(crate) fn said_parts_at<'a>(
    alloc: Global,
    scene: &Scene<'_, '_, 'a>,
    openings: &[Opening<'a>],
    at: usize,
) -> Result<Vec<Part<'a>>, NoMemory>
    requires opened { IsOpened scene.now openings.now }
    requires within { at < length (entries_in scene.now.spaces.now) + length scene.now.brought.now.entries.items }
    ensures { IfOk result (λ parts. SaysParts scene.now at parts.items) }
{
    let Some(statement) = stated_at(scene.spaces, scene.brought, at) else {
        return Ok(Vec::new(alloc));
    };
    if is_call(statement.keyword) {
        return call_parts(alloc, scene, openings, at);
    }
    let caller = Caller {
        scene,
        openings,
        at,
        module: statement.at.module,
    };
    caller.said_parts(alloc, statement.args.as_slice())
}

impl<'c, 's, 'p, 'a> Caller<'c, 's, 'p, 'a> {
    ghost use Rattle.std.specs.Prelude.{◌≡◌, IfOk, OnOk, Some, slice_get};
    ghost use Rattle.cil_syntax.specs.Said.{all_said};
    ghost use Rattle.cil_macros.specs.Items.{said_by};
    ghost use Rattle.cil_macros.specs.Listed.{all_parts_of, parts_there};
    ghost use Rattle.cil_macros.specs.Placed.{Placed, all_filled};
    ghost use Rattle.cil_macros.specs.Puts.{PutsPart, PutsParts, SaysWord};
    ghost use Rattle.cil_macros.specs.Scene.{IsKnown, placed_of_scene};
    ghost use Rattle.cil_macros.specs.Walks.{written_in};

    /// Adds what a word says where the statement is.
    fn push_said(&self, parts: &mut Vec<Part<'a>>, word: &Word<'a>) -> Result<(), NoMemory>
        requires { IsKnown self.now.scene.now self.now.openings.now self.now.at }
        ensures { OnOk result (SaysWord self.now.scene.now self.now.at word.now parts.old.items parts.new.items) }
    {
        let meaning = meaning_at(self.scene, self.openings, self.at, word);
        match said_of_meaning(word, meaning) {
            Said::Word(said) => push_part(parts, Part::Word(said)),
            Said::List(list) => push_for(parts, word.sign, list),
        }
    }

    /// Adds a part: a word as what it says where the statement is, anything else as it is.
    fn say_one(&self, parts: &mut Vec<Part<'a>>, asked: &Part<'a>) -> Result<(), NoMemory>
        requires { IsKnown self.now.scene.now self.now.openings.now self.now.at }
        ensures { OnOk result (PutsPart said_by self.now.scene.now self.now.at asked.now parts.old.items parts.new.items) }
    {
        match asked {
            Part::Word(word) => self.push_said(parts, &word.word),
            Part::Text(_, _) => push_copy(parts, asked),
            Part::Opens(_, _) => push_copy(parts, asked),
            Part::Closes => push_copy(parts, asked),
        }
    }

    /// Adds parts as they are written, each word as what it says where the statement is.
    fn say(&self, parts: &mut Vec<Part<'a>>, asked: &[Part<'a>]) -> Result<(), NoMemory>
        requires { IsKnown self.now.scene.now self.now.openings.now self.now.at }
        ensures { OnOk result (PutsParts said_by self.now.scene.now self.now.at asked.now parts.old.items parts.new.items) }
    {
        for part in asked {
            self.say_one(parts, part)?;
        }
        Ok(())
    }

    /// What some terms of the statement say, part by part.
    fn said_parts(&self, alloc: Global, terms: &[Term<'a>]) -> Result<Vec<Part<'a>>, NoMemory>
        requires { IsKnown self.now.scene.now self.now.openings.now self.now.at }
        ensures { IfOk result (λ parts. (p : Placed) → slice_get (placed_of_scene self.now.scene.now) self.now.at ≡ Some p
            → parts_there (placed_of_scene self.now.scene.now) parts.items ≡ all_parts_of (all_filled (said_by (written_in self.now.scene.now.spaces.now) p) (all_said self.now.«module» terms.now))) }
    {
        let mut asked = Vec::new(alloc);
        push_terms(&mut asked, self.module, terms)?;
        let mut parts = Vec::new(alloc);
        self.say(&mut parts, asked.as_slice())?;
        Ok(parts)
    }
}

// ---- calls

/// What the call at a place says: the word of its macro and, where it is unfolded, its arguments that are looked up.
fn call_parts<'a>(
    alloc: Global,
    scene: &Scene<'_, '_, 'a>,
    openings: &[Opening<'a>],
    at: usize,
) -> Result<Vec<Part<'a>>, NoMemory>
    requires opened { IsOpened scene.now openings.now }
    requires within { at < length (entries_in scene.now.spaces.now) + length scene.now.brought.now.entries.items }
    ensures { IfOk result (λ parts. (p : Placed) → slice_get (placed_of_scene scene.now) at ≡ Some p
        → parts_there (placed_of_scene scene.now) parts.items ≡ all_parts_of (call_says (written_in scene.now.spaces.now) (all_standing scene.now.spaces.now) p p.standing.statement.statement.args)) }
{
    let mut parts = Vec::new(alloc);
    push_macro(scene, at, &mut parts)?;
    push_arguments(scene, openings, at, &mut parts)?;
    Ok(parts)
}

/// Adds the word of the macro that the statement at a place calls. It is looked up where the call is.
fn push_macro<'a>(
    scene: &Scene<'_, '_, 'a>,
    at: usize,
    parts: &mut Vec<Part<'a>>,
) -> Result<(), NoMemory>
    requires scene { IsScene scene.now }
    requires within { at < length (entries_in scene.now.spaces.now) + length scene.now.brought.now.entries.items }
    ensures { OnOk result ((p : Placed) → slice_get (placed_of_scene scene.now) at ≡ Some p
        → parts_there (placed_of_scene scene.now) parts.new.items ≡ parts_there (placed_of_scene scene.now) parts.old.items ++ macro_parts p (first_word p.standing.statement.statement.args)) }
{
    let Some(front) = front_at(scene.spaces, scene.brought, at) else {
        return Ok(());
    };
    push_part(parts, Part::Word(front))?;
    Ok(())
}

/// Adds the arguments of the call at a place that are looked up, where the call is unfolded.
fn push_arguments<'a>(
    scene: &Scene<'_, '_, 'a>,
    openings: &[Opening<'a>],
    at: usize,
    parts: &mut Vec<Part<'a>>,
) -> Result<(), NoMemory>
    requires opened { IsOpened scene.now openings.now }
    requires within { at < length (entries_in scene.now.spaces.now) + length scene.now.brought.now.entries.items }
    ensures { OnOk result ((p : Placed) → slice_get (placed_of_scene scene.now) at ≡ Some p
        → parts_there (placed_of_scene scene.now) parts.new.items ≡ parts_there (placed_of_scene scene.now) parts.old.items
        ++ all_parts_of (unfolded_values (unfolded (written_in scene.now.spaces.now) (all_standing scene.now.spaces.now) p))) }
{
    let Some(unfolding) = unfolding_at(scene, openings, at) else {
        return Ok(());
    };
    push_values(unfolding.called, unfolding.arguments, parts)?;
    Ok(())
}

/// Adds those of the arguments of a macro that are looked up.
fn push_values<'a>(
    called: &Statement<'a>,
    arguments: &[Argument<'a>],
    parts: &mut Vec<Part<'a>>,
) -> Result<(), NoMemory>
    ensures { OnOk result ((ps : List Placed) → AreWhole ps arguments.now
        → parts_there ps parts.new.items ≡ parts_there ps parts.old.items ++ all_parts_of (values_of (bounds_by ps (macro_parameters (args_of called.now)) arguments.now))) }
{
    let mut taken = 0;
    for term in listed(called) {
        if let Some(parameter) = term.parameter(called.at.module) {
            let Some(argument) = arguments.get(taken) else {
                return Ok(());
            };
            push_value(parameter.kind, argument, parts)?;
            taken += 1;
        }
    }
    Ok(())
}

/// Adds an argument of a kind, if it is no text.
fn push_value<'a>(
    kind: Op,
    argument: &Argument<'a>,
    parts: &mut Vec<Part<'a>>,
) -> Result<(), NoMemory>
    ensures { OnOk result ((ps : List Placed) → IsWhole ps argument.now
        → parts_there ps parts.new.items ≡ parts_there ps parts.old.items ++ value_parts (value_there ps kind argument.now)) }
{
    match argument {
        Argument::Plain(meant) => push_word(kind, meant, parts)?,
        Argument::List(list) => {
            if is_text_op(list.op) {
                return Ok(());
            }
            push_list(parts, list)?;
        }
    }
    Ok(())
}

/// Adds what an argument of a kind means, if it is a word that is looked up: no text.
fn push_word<'a>(kind: Op, meant: &Meant<'a>, parts: &mut Vec<Part<'a>>) -> Result<(), NoMemory>
    ensures { OnOk result ((ps : List Placed)
        → parts_there ps parts.new.items ≡ parts_there ps parts.old.items ++ value_parts (meant_term ps (kind_sign kind) meant.now)) }
{
    let sign = sign_of(kind);
    if is_text(sign) {
        return Ok(());
    }
    let Some(place) = meant.scope else {
        return Ok(());
    };
    push_part(parts, Part::Word(asked_word(sign, meant, place)))?;
    Ok(())
}
