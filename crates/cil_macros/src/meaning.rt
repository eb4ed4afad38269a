//! What a word means where it is placed: its argument, or itself in a scope. A word of a body costs a hash, and where it
//! is no argument one for each kind that it may name.

ghost use Rattle.std.specs.Prelude.{◌≡◌, ◌+◌, ◌<◌, IsTrue, List, MatchOption, None, Some, find, length, slice_get, true};
ghost use Rattle.cil_syntax.specs.Terms.{Leaf};
ghost use Rattle.cil_syntax.specs.Written.{Written, is_macro};
ghost use Rattle.cil_syntax.specs.declared.kind.Sign.{Sign};
ghost use Rattle.cil_syntax.specs.declared.term.Word.{Word as AWord};
ghost use Rattle.cil_blocks.specs.Contents.{Standing};
ghost use Rattle.cil_blocks.specs.Entries.{statement_at};
ghost use Rattle.cil_blocks.specs.Places.{entries_in};
ghost use Rattle.cil_macros.specs.Entries.{AreBodies, placed_of};
ghost use Rattle.cil_macros.specs.Macros.{all_standing};
ghost use Rattle.cil_macros.specs.Meant.{AreArguments, IsWholeMeaning, meaning_there, meant_in};
ghost use Rattle.cil_macros.specs.Items.{said_by, word_of};
ghost use Rattle.cil_macros.specs.NamedParameters.{AreNamed};
ghost use Rattle.cil_macros.specs.Openings.{IsNumbered};
ghost use Rattle.cil_macros.specs.Parameters.{macro_parameters};
ghost use Rattle.cil_macros.specs.Placed.{Bound, Placed, is_served, meaning};
ghost use Rattle.cil_macros.specs.Scene.{IsArgument, IsKnown, placed_of_scene};
ghost use Rattle.cil_macros.specs.Walks.{placed_in, written_in};

use crate::chain::{Brought, standing_statement};
use crate::meant::{Argument, Meaning, Meant};
use crate::openings::Opening;
use crate::parameters::Parameters;
use crate::scene::Scene;
use cil_syntax::Word;

/// What a word of the statement at a place means there, where it is known what the bodies round it have from their calls.
pub fn meaning_at<'o, 'a>(
    scene: &Scene<'_, '_, 'a>,
    openings: &'o [Opening<'a>],
    at: usize,
    word: &Word<'a>,
) -> Meaning<'o, 'a>
    requires { IsKnown scene.now openings.now at }
    ensures says { (p : Placed) → slice_get (placed_of_scene scene.now) at ≡ Some p
        → meaning_there (placed_of_scene scene.now) word.now.sign result ≡ meaning (written_in scene.now.spaces.now) p word.now }
    ensures whole { IsWholeMeaning (placed_of_scene scene.now) result }
{
    let standing = scene.spaces.entries().len();
    let Some(number) = body_number(scene.brought, standing, at) else {
        return itself(word, at);
    };
    let opening = &openings[number];
    let called = standing_statement(
        scene.spaces.entries(),
        scene.brought.bodies[number].macro_rank,
    );
    if let Some(argument) = argument_for(&scene.declared.parameters, opening, called, word) {
        return argument.meaning();
    }
    if scene.declared.has(called, word.bytes.as_slice(), word.sign) {
        return itself(word, opening.home);
    }
    itself(word, at)
}

/// What a word means that means itself, in the scope of what is placed somewhere.
fn itself<'o, 'a>(word: &Word<'a>, scope: usize) -> Meaning<'o, 'a>
    ensures says { (ps : List Placed) (sign : Sign) → meaning_there ps sign result ≡ meant_in ps sign word.now.at word.now.bytes (Some scope) }
    ensures whole { (ps : List Placed) → IsWholeMeaning ps result }
{
    Meaning::Plain(Meant::word(word.at, word.bytes.as_slice(), scope))
}

/// Whether each word of the statement at a place says a word there: no argument of its body is a list. It costs one step.
pub fn says_words_at(scene: &Scene, openings: &[Opening], at: usize) -> bool
    requires { IsKnown scene.now openings.now at }
    ensures { IsTrue result → (p : Placed) (w : AWord) → slice_get (placed_of_scene scene.now) at ≡ Some p
        → said_by (written_in scene.now.spaces.now) p w ≡ Leaf (word_of (written_in scene.now.spaces.now) p w) }
{
    let standing = scene.spaces.entries().len();
    match body_number(scene.brought, standing, at) {
        None => true,
        Some(number) => !openings[number].lists,
    }
}

/// The argument for which a word stands in the body of the macro that is the statement of a number.
fn argument_for<'o, 'a>(
    parameters: &Parameters,
    opening: &'o Opening<'a>,
    called: usize,
    word: &Word<'a>,
) -> Option<&'o Argument<'a>>
    ensures { (ws : List Written) (ps : List Placed) (bs : List Bound) → AreNamed ws parameters.now → is_macro (statement_at ws called).statement.keyword ≡ true
        → AreArguments ps (macro_parameters (statement_at ws called).statement.args) bs opening.now.arguments.items
        → MatchOption result (find (is_served word.now) bs ≡ None) (λ argument. IsArgument ps word.now bs argument.now) }
{
    let number = parameters.number_for(called, word)?;
    let argument = opening.arguments.get(number)?;
    Some(argument)
}

/// The number of the body of what is placed somewhere, if a call brought it: what stands comes first, so many.
pub fn body_number(brought: &Brought, standing: usize, at: usize) -> Option<usize>
    requires { at < standing + length brought.now.entries.items }
    ensures { MatchOption result (at < standing) (IsNumbered brought.now.entries.items standing at) }
{
    if at < standing {
        return None;
    }
    Some(brought.entries[at - standing].body)
}
