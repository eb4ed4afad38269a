//! What each body of a macro has from its call: the place of the outermost call, and what its arguments mean. A body costs a
//! step for each argument, since those of the bodies round it are known.

ghost use Rattle.std.specs.Prelude.{◌≡◌, ◌+◌, ◌<◌, IfOk, Some, length, slice_get, ℕ};
ghost use Rattle.cil_syntax.specs.Said.{all_said};
ghost use Rattle.cil_blocks.specs.Places.{entries_in};
ghost use Rattle.cil_macros.specs.Calls.{Unfolded, home_of, unfolded};
ghost use Rattle.cil_macros.specs.Macros.{all_standing};
ghost use Rattle.std.specs.List.{list_any};
ghost use Rattle.cil_macros.specs.Meant.{AreArguments, is_list, scope_there};
ghost use Rattle.cil_macros.specs.Openings.{AreOpenings, IsOpening};
ghost use Rattle.cil_macros.specs.Parameters.{macro_parameters, string_in};
ghost use Rattle.cil_macros.specs.Placed.{Placed};
ghost use Rattle.cil_macros.specs.Scene.{IsKnown, IsScene, placed_of_scene};
ghost use Rattle.cil_macros.specs.Walks.{placed_in, written_in};

use crate::arguments::{listed, may_be_list, sign_of};
use crate::calls::{standing_at, stated_at};
use crate::entry::Body;
use crate::list_parts::is_every;
use crate::list_values::Caller;
use crate::listed::Listed;
use crate::meaning::{body_number, meaning_at};
use crate::meant::{Argument, Meant};
use crate::scene::Scene;
use cil_base::NoMemory;
use cil_syntax::{Excerpt, Op, Spot, Statement, Term, Word};
use std::alloc::Global;

/// What the body of a macro has from its call.
#[derive(Drop)]
pub struct Opening<'a> {
    /// The place of the outermost call: the one that stands in no body.
    pub home: usize,
    /// What the arguments are, one for each parameter of the macro.
    pub arguments: Vec<Argument<'a>>,
    /// Whether one of them is a list.
    pub lists: bool,
}

/// What the body of a macro takes its arguments from.
#[derive(Clone, Copy)]
struct Call<'c, 's, 'p, 'a> {
    scene: &'c Scene<'s, 'p, 'a>,
    openings: &'c [Opening<'a>],
    at: usize,
}

/// What each body has from its call, in the order of the bodies.
pub fn openings_of<'a>(
    alloc: Global,
    scene: &Scene<'_, '_, 'a>,
) -> Result<Vec<Opening<'a>>, NoMemory>
    requires { IsScene scene.now }
    ensures each { IfOk result (λ os. AreOpenings (written_in scene.now.spaces.now) (all_standing scene.now.spaces.now) (placed_of_scene scene.now) scene.now.brought.now.bodies.items os.items) }
    ensures many { IfOk result (λ os. length os.items ≡ length scene.now.brought.now.bodies.items) }
{
    let mut openings = Vec::new(alloc);
    for body in scene.brought.bodies.as_slice() {
        let opening = opening_of(alloc, scene, openings.as_slice(), body)?;
        openings.push(opening)?;
    }
    Ok(openings)
}

/// What the next body has from its call, where it is known of those before it.
fn opening_of<'a>(
    alloc: Global,
    scene: &Scene<'_, '_, 'a>,
    openings: &[Opening<'a>],
    body: &Body,
) -> Result<Opening<'a>, NoMemory>
    requires scene { IsScene scene.now }
    requires next { slice_get scene.now.brought.now.bodies.items (length openings.now) ≡ Some body.now }
    requires opened { AreOpenings (written_in scene.now.spaces.now) (all_standing scene.now.spaces.now) (placed_of_scene scene.now) scene.now.brought.now.bodies.items openings.now }
    ensures { IfOk result (IsOpening (written_in scene.now.spaces.now) (all_standing scene.now.spaces.now) (placed_of_scene scene.now) body.now) }
{
    let call = Call {
        scene,
        openings,
        at: body.call,
    };
    let home = home_at(scene, openings, body.call);
    let arguments = call.arguments(alloc, body.macro_rank)?;
    let lists = has_list(arguments.as_slice());
    Ok(Opening {
        home,
        arguments,
        lists,
    })
}

/// The place of the outermost call: the place itself, of a call that stands in no body.
fn home_at(scene: &Scene, openings: &[Opening], at: usize) -> usize
    requires { IsKnown scene.now openings.now at }
    ensures { (p : Placed) → slice_get (placed_of_scene scene.now) at ≡ Some p → scope_there (slice_get (placed_of_scene scene.now) result) ≡ home_of p.standing.scope p.body }
{
    let standing = scene.spaces.entries().len();
    match body_number(scene.brought, standing, at) {
        None => at,
        Some(number) => openings[number].home,
    }
}

/// Whether an argument is a list.
fn has_list(arguments: &[Argument]) -> bool
    ensures { result ≡ list_any is_list arguments.now }
{
    for argument in arguments {
        if argument.is_list() {
            return true;
        }
    }
    false
}

impl<'c, 's, 'p, 'a> Call<'c, 's, 'p, 'a> {
    ghost use Rattle.std.specs.Prelude.{◌≡◌, ◌+◌, ◌<◌, List, IfOk, Some, length, slice_get};
    ghost use Rattle.cil_faults.specs.Spots.{spot_at};
    ghost use Rattle.cil_syntax.specs.declared.term.Op.{Op as AnOp};
    ghost use Rattle.cil_syntax.specs.Said.{all_said, args_of, said_of};
    ghost use Rattle.cil_syntax.specs.Terms.{Form, Leaf};
    ghost use Rattle.cil_blocks.specs.Places.{entries_in};
    ghost use Rattle.cil_macros.specs.Calls.{Unfolded, bound, home_of, unfolded};
    ghost use Rattle.cil_macros.specs.Macros.{all_standing};
    ghost use Rattle.cil_macros.specs.Meant.{AreArguments, scope_there};
    ghost use Rattle.cil_macros.specs.Scene.{IsKnown, SaysValue, placed_of_scene};
    ghost use Rattle.cil_macros.specs.Parameters.{call_arguments, macro_parameters};
    ghost use Rattle.cil_macros.specs.Placed.{Bound, Placed};
    ghost use Rattle.cil_macros.specs.Walks.{placed_in, written_in};

    /// What the arguments mean, where the macro of a rank is called.
    fn arguments(&self, alloc: Global, called: usize) -> Result<Vec<Argument<'a>>, NoMemory>
        requires call { IsKnown self.now.scene.now self.now.openings.now self.now.at }
        requires standing { called < length (entries_in self.now.scene.now.spaces.now) }
        ensures { IfOk result (λ ms. (p : Placed) (u : Unfolded) → slice_get (placed_of_scene self.now.scene.now) self.now.at ≡ Some p
            → unfolded (written_in self.now.scene.now.spaces.now) (all_standing self.now.scene.now.spaces.now) p ≡ Some u → slice_get (all_standing self.now.scene.now.spaces.now) called ≡ Some u.macro
            → AreArguments (placed_of_scene self.now.scene.now) (macro_parameters u.macro.statement.statement.args) u.bounds ms.items) }
    {
        let Some(called) = standing_at(self.scene.spaces, called) else {
            return Ok(Vec::new(alloc));
        };
        let Some(call) = stated_at(self.scene.spaces, self.scene.brought, self.at) else {
            return Ok(Vec::new(alloc));
        };
        self.meanings(alloc, called, call)
    }

    /// What the arguments of a call mean, one for each parameter of its macro.
    fn meanings(
        &self,
        alloc: Global,
        called: &Statement<'a>,
        call: &Statement<'a>,
    ) -> Result<Vec<Argument<'a>>, NoMemory>
        requires { IsKnown self.now.scene.now self.now.openings.now self.now.at }
        ensures { IfOk result (λ ms. (p : Placed) (bs : List Bound) → slice_get (placed_of_scene self.now.scene.now) self.now.at ≡ Some p
            → bound (written_in self.now.scene.now.spaces.now) p (macro_parameters (args_of called.now)) (call_arguments (args_of call.now)) ≡ Some bs
            → AreArguments (placed_of_scene self.now.scene.now) (macro_parameters (args_of called.now)) bs ms.items) }
    {
        let arguments = listed(call);
        let mut meanings = Vec::new(alloc);
        for term in listed(called) {
            if let Some(parameter) = term.parameter(called.at.module) {
                let Some(argument) = arguments.get(meanings.len()) else {
                    return Ok(meanings);
                };
                let value = self.argument_value(alloc, parameter.kind, argument, call.at.module)?;
                meanings.push(value)?;
            }
        }
        Ok(meanings)
    }

    /// What an argument of a kind is, which is written in this module.
    fn argument_value(
        &self,
        alloc: Global,
        kind: Op,
        argument: &Term<'a>,
        module: u64,
    ) -> Result<Argument<'a>, NoMemory>
        requires { IsKnown self.now.scene.now self.now.openings.now self.now.at }
        ensures { IfOk result (SaysValue self.now.scene.now self.now.at kind (said_of «module» argument.now)) }
    {
        match argument {
            Term::Leaf(word) => { self.word_value(alloc, kind, &word.in_module(module)) }
            Term::Name(at, bytes) => Ok(Argument::Plain(Meant::string(
                Spot::of(module, *at),
                bytes.as_slice(),
            ))),
            Term::Form(_, at, parts) => {
                self.form_value(alloc, kind, *at, parts.as_slice(), module)
            }
        }
    }

    /// What an argument is that is a word: the set of everything, or what the word means. A list that is handed on is copied, a
    /// step for each part.
    fn word_value(&self, alloc: Global, kind: Op, word: &Word<'a>) -> Result<Argument<'a>, NoMemory>
        requires { IsKnown self.now.scene.now self.now.openings.now self.now.at }
        ensures { IfOk result (SaysValue self.now.scene.now self.now.at kind (Leaf word.now)) }
    {
        if is_every(kind, word.bytes.as_slice()) {
            return Ok(Argument::List(Listed {
                at: word.at,
                op: Op::All,
                parts: Vec::new(alloc),
            }));
        }
        let own = Word {
            at: word.at,
            bytes: Excerpt::of(word.bytes.as_slice()),
            sign: sign_of(kind),
        };
        let meaning = meaning_at(self.scene, self.openings, self.at, &own);
        meaning.as_argument(alloc)
    }

    /// What an argument is that joins some parts: a list where its kind has lists, and otherwise a string.
    fn form_value(
        &self,
        alloc: Global,
        kind: Op,
        at: u32,
        parts: &[Term<'a>],
        module: u64,
    ) -> Result<Argument<'a>, NoMemory>
        requires { IsKnown self.now.scene.now self.now.openings.now self.now.at }
        ensures { IfOk result (λ a. (op : AnOp) → SaysValue self.now.scene.now self.now.at kind (Form (spot_at «module» at) op (all_said «module» parts.now)) a) }
    {
        if !may_be_list(kind) {
            return Ok(Argument::Plain(Meant::string(Spot::of(module, at), string_in(parts))));
        }
        let caller = Caller {
            scene: self.scene,
            openings: self.openings,
            at: self.at,
            module,
        };
        let list = caller.list(alloc, kind, at, parts)?;
        Ok(Argument::List(list))
    }
}

/// The bytes of a string, which is a name in a term of its own.
fn string_in<'a>(parts: &[Term<'a>]) -> &'a [u8]
    ensures { (n : ℕ) → result.now ≡ string_in (all_said n parts.now) }
{
    match parts.first() {
        Some(Term::Name(_, bytes)) => bytes.as_slice(),
        _ => b"",
    }
}
