//! Calls with an argument that is a list, or `all`, where only a name may stand. A body without an argument that is a list costs a step;
//! of any other each statement costs a step for each of its words and those of the arguments of its call.

ghost use Rattle.std.specs.Prelude.{◌≡◌, ◌+◌, ◌<◌, IfOk, OnOk, length};
ghost use Rattle.std.specs.List.{list_any};
ghost use Rattle.cil_syntax.specs.declared.kind.Sign.TheVariants as signs;
ghost use Rattle.cil_blocks.specs.Places.{entries_in};
ghost use Rattle.cil_macros.specs.ListPlaces.{ArePlaces, AreWrongMarks, IsNextMarked, SaysWrong};
ghost use Rattle.cil_macros.specs.Placed.{takes_lists};
ghost use Rattle.cil_macros.specs.Scene.{IsOpened};

use crate::arguments::{is_text_op, listed, may_be_list, sign_of};
use crate::call_words::unfolding_at;
use crate::calls::stated_at;
use crate::list_parts::{is_every, push_items};
use crate::list_values::Caller;
use crate::listed::Part;
use crate::macros::is_call;
use crate::meaning::meaning_at;
use crate::meant::Meaning;
use crate::openings::Opening;
use crate::scene::Scene;
use crate::term_parts::push_terms;
use cil_base::NoMemory;
use cil_syntax::{Excerpt, Op, Sign, Spot, Statement, Term, Word};
use std::alloc::Global;

/// A mark for each call that is unfolded with such an argument, by its place. None where no argument is a list.
pub fn list_marks<'a>(
    alloc: Global,
    scene: &Scene<'_, '_, 'a>,
    openings: &[Opening<'a>],
) -> Result<Vec<bool>, NoMemory>
    requires { IsOpened scene.now openings.now }
    ensures { IfOk result (λ marks. AreWrongMarks scene.now (length scene.now.brought.now.entries.items) marks.items) }
{
    if !have_lists(openings) {
        return Ok(Vec::new(alloc));
    }
    let many = scene.brought.entries.len();
    let mut marks = vec![in alloc; false; scene.spaces.entries().len() + many]?;
    for rank in 0..many {
        mark(alloc, scene, openings, rank, &mut marks)?;
    }
    Ok(marks)
}

/// Whether an argument of a body is a list.
fn have_lists(openings: &[Opening]) -> bool
    ensures { result ≡ list_any (λ o. o.lists) openings.now }
{
    for opening in openings {
        if opening.lists {
            return true;
        }
    }
    false
}

/// Marks the call of the body of a statement that is brought, if a word of that statement stands for such an argument.
fn mark<'a>(
    alloc: Global,
    scene: &Scene<'_, '_, 'a>,
    openings: &[Opening<'a>],
    rank: usize,
    marks: &mut Vec<bool>,
) -> Result<(), NoMemory>
    requires opened { IsOpened scene.now openings.now }
    requires within { rank < length scene.now.brought.now.entries.items }
    requires places { ArePlaces scene.now marks.old.items }
    ensures { OnOk result (IsNextMarked scene.now rank marks.old.items marks.new.items) }
{
    let called = scene.brought.entries[rank];
    let Some(opening) = openings.get(called.body) else {
        return Ok(());
    };
    if !opening.lists {
        return Ok(());
    }
    let place = scene.spaces.entries().len() + rank;
    let wrong = is_wrong_at(alloc, scene, openings, place)?;
    if !wrong {
        return Ok(());
    }
    let body = scene.brought.bodies[called.body];
    marks[body.call] = true;
    Ok(())
}

/// Whether a word of the statement at a place stands for such an argument.
fn is_wrong_at<'a>(
    alloc: Global,
    scene: &Scene<'_, '_, 'a>,
    openings: &[Opening<'a>],
    at: usize,
) -> Result<bool, NoMemory>
    requires opened { IsOpened scene.now openings.now }
    requires within { at < length (entries_in scene.now.spaces.now) + length scene.now.brought.now.entries.items }
    ensures { IfOk result (SaysWrong scene.now at) }
{
    let Some(statement) = stated_at(scene.spaces, scene.brought, at) else {
        return Ok(false);
    };
    let caller = Caller {
        scene,
        openings,
        at,
        module: statement.at.module,
    };
    if is_call(statement.keyword) {
        return caller.has_wrong_argument(alloc, statement);
    }
    caller.has_wrong_word(alloc, statement.args.as_slice())
}

/// Whether a list may stand where a word of a sign does.
fn takes_lists(sign: Sign) -> bool
    ensures { result ≡ takes_lists sign }
{
    matches!(
        sign,
        Sign::ClassPermissions
            | Sign::MappedPermissions
            | Sign::CategorySets
            | Sign::Levels
            | Sign::LevelRanges
    )
}

impl<'c, 's, 'p, 'a> Caller<'c, 's, 'p, 'a> {
    ghost use Rattle.std.specs.Prelude.{◌≡◌, ◌+◌, ◌<◌, [], List, IfOk, Some, length, slice_get};
    ghost use Rattle.std.specs.List.{list_any};
    ghost use Rattle.cil_syntax.specs.declared.term.Word.{Word as AWord};
    ghost use Rattle.cil_syntax.specs.Said.{all_said, args_of, said_of};
    ghost use Rattle.cil_syntax.specs.Terms.{Term as ATerm};
    ghost use Rattle.cil_blocks.specs.Places.{entries_in};
    ghost use Rattle.cil_macros.specs.Calls.{bound, unfolded};
    ghost use Rattle.cil_macros.specs.ExpandFaults.{asked_words, unfolded_places};
    ghost use Rattle.cil_macros.specs.Item.{all_words_in, words_in};
    ghost use Rattle.cil_macros.specs.ListPlaces.{is_wrong_part, is_wrong_word};
    ghost use Rattle.cil_macros.specs.Listed.{part_there};
    ghost use Rattle.cil_macros.specs.Macros.{all_standing};
    ghost use Rattle.cil_macros.specs.Parameters.{call_arguments, cell_in, argument_kind, macro_parameters, read_argument};
    ghost use Rattle.cil_macros.specs.Placed.{Bound, Placed, meaning};
    ghost use Rattle.cil_macros.specs.Puts.{bare_parts};
    ghost use Rattle.cil_macros.specs.Scene.{IsKnown, IsOpened, placed_of_scene};
    ghost use Rattle.cil_macros.specs.Walks.{written_in};

    /// Whether a word stands for such an argument.
    fn is_wrong_word(&self, word: &Word<'a>) -> bool
        requires { IsKnown self.now.scene.now self.now.openings.now self.now.at }
        ensures { (p : Placed) → slice_get (placed_of_scene self.now.scene.now) self.now.at ≡ Some p → result ≡ is_wrong_word (written_in self.now.scene.now.spaces.now) p word.now }
    {
        match meaning_at(self.scene, self.openings, self.at, word) {
            Meaning::Plain(_) => false,
            Meaning::List(list) => !is_text_op(list.op) && !takes_lists(word.sign),
        }
    }

    /// Whether a part is such a word.
    fn is_wrong_part(&self, part: &Part<'a>) -> bool
        requires { IsKnown self.now.scene.now self.now.openings.now self.now.at }
        ensures { (p : Placed) → slice_get (placed_of_scene self.now.scene.now) self.now.at ≡ Some p
            → result ≡ is_wrong_part (meaning (written_in self.now.scene.now.spaces.now) p) (part_there [] part.now) }
    {
        match part {
            Part::Word(word) => self.is_wrong_word(&word.word),
            Part::Text(_, _) => false,
            Part::Opens(_, _) => false,
            Part::Closes => false,
        }
    }

    /// Whether one of some parts is such a word.
    fn has_wrong_part(&self, parts: &[Part<'a>]) -> bool
        requires { IsKnown self.now.scene.now self.now.openings.now self.now.at }
        ensures { (p : Placed) → slice_get (placed_of_scene self.now.scene.now) self.now.at ≡ Some p
            → result ≡ list_any (is_wrong_part (meaning (written_in self.now.scene.now.spaces.now) p)) (bare_parts parts.now) }
    {
        for part in parts {
            if self.is_wrong_part(part) {
                return true;
            }
        }
        false
    }

    /// Whether a word of some terms of the statement is one.
    fn has_wrong_word(&self, alloc: Global, terms: &[Term<'a>]) -> Result<bool, NoMemory>
        requires { IsKnown self.now.scene.now self.now.openings.now self.now.at }
        ensures { IfOk result (λ b. (p : Placed) → slice_get (placed_of_scene self.now.scene.now) self.now.at ≡ Some p
            → b ≡ list_any (is_wrong_word (written_in self.now.scene.now.spaces.now) p) (all_words_in (all_said self.now.«module» terms.now))) }
    {
        let mut parts = Vec::new(alloc);
        push_terms(&mut parts, self.module, terms)?;
        Ok(self.has_wrong_part(parts.as_slice()))
    }

    /// Whether a word of the arguments of the call is one, where the call is unfolded.
    fn has_wrong_argument(&self, alloc: Global, call: &Statement<'a>) -> Result<bool, NoMemory>
        requires opened { IsOpened self.now.scene.now self.now.openings.now }
        requires within { self.now.at < length (entries_in self.now.scene.now.spaces.now) + length self.now.scene.now.brought.now.entries.items }
        requires here { call.now.at.«module» ≡ self.now.«module» }
        ensures { IfOk result (λ b. (p : Placed) → slice_get (placed_of_scene self.now.scene.now) self.now.at ≡ Some p → args_of call.now ≡ p.standing.statement.statement.args
            → b ≡ list_any (is_wrong_word (written_in self.now.scene.now.spaces.now) p)
            (unfolded_places (args_of call.now) (unfolded (written_in self.now.scene.now.spaces.now) (all_standing self.now.scene.now.spaces.now) p))) }
    {
        let Some(unfolding) = unfolding_at(self.scene, self.openings, self.at) else {
            return Ok(false);
        };
        self.is_wrong_call(alloc, unfolding.called, call)
    }

    /// The same, where this macro is called.
    fn is_wrong_call(
        &self,
        alloc: Global,
        called: &Statement<'a>,
        call: &Statement<'a>,
    ) -> Result<bool, NoMemory>
        requires known { IsKnown self.now.scene.now self.now.openings.now self.now.at }
        requires here { call.now.at.«module» ≡ self.now.«module» }
        ensures { IfOk result (λ b. (p : Placed) (bs : List Bound) → slice_get (placed_of_scene self.now.scene.now) self.now.at ≡ Some p
            → bound (written_in self.now.scene.now.spaces.now) p (macro_parameters (args_of called.now)) (call_arguments (args_of call.now)) ≡ Some bs
            → b ≡ list_any (is_wrong_word (written_in self.now.scene.now.spaces.now) p) (asked_words (macro_parameters (args_of called.now)) (call_arguments (args_of call.now)))) }
    {
        let arguments = listed(call);
        let mut taken = 0;
        for term in listed(called) {
            if let Some(parameter) = term.parameter(called.at.module) {
                let Some(argument) = arguments.get(taken) else {
                    return Ok(false);
                };
                let wrong = self.is_wrong_argument(alloc, parameter.kind, argument)?;
                if wrong {
                    return Ok(true);
                }
                taken += 1;
            }
        }
        Ok(false)
    }

    /// Whether a word of an argument of a kind is one.
    fn is_wrong_argument(
        &self,
        alloc: Global,
        kind: Op,
        argument: &Term<'a>,
    ) -> Result<bool, NoMemory>
        requires { IsKnown self.now.scene.now self.now.openings.now self.now.at }
        ensures { IfOk result (λ b. (p : Placed) (value : ATerm AWord) → slice_get (placed_of_scene self.now.scene.now) self.now.at ≡ Some p
            → read_argument (argument_kind kind) (cell_in (said_of self.now.«module» argument.now)) ≡ Some value
            → b ≡ list_any (is_wrong_word (written_in self.now.scene.now.spaces.now) p) (words_in value)) }
    {
        match argument {
            Term::Leaf(word) => {
                if is_every(kind, word.bytes.as_slice()) {
                    return Ok(false);
                }
                let own = Word {
                    at: Spot::of(self.module, word.at),
                    bytes: Excerpt::of(word.bytes.as_slice()),
                    sign: sign_of(kind),
                };
                Ok(self.is_wrong_word(&own))
            }
            Term::Name(_, _) => Ok(false),
            Term::Form(_, _, items) => {
                if !may_be_list(kind) {
                    return Ok(false);
                }
                let mut parts = Vec::new(alloc);
                push_items(&mut parts, self.module, kind, items.as_slice())?;
                Ok(self.has_wrong_part(parts.as_slice()))
            }
        }
    }
}
