//! The value of the expression of a statement.

ghost use Rattle.std.specs.Prelude.{◌≡◌, ℕ, ◌<◌, ◌≤◌, All, IfOk, List, Option, false, length, map, true};
ghost use Rattle.cil_syntax.specs.declared.term.Word.{Word as AWord};
ghost use Rattle.cil_syntax.specs.Said.{all_said};
ghost use Rattle.cil_macros.specs.Item.{all_words_in};
ghost use Rattle.cil_macros.specs.Items.{SaysWords, item_at, items_in, says_as_written};
ghost use Rattle.cil_names.specs.Resolves.{is_mapping};
ghost use Rattle.cil_names.specs.Rows.{IsTableOf};
ghost use Rattle.cil_known.specs.Known.{meant_in, row_in};
ghost use Rattle.cil_mls.specs.Bits.{in_words};
ghost use Rattle.cil_mls.specs.Values.{IsFew};
ghost use Rattle.cil_levels.specs.Made.{in_second};

use cil_base::NoMemory;
use cil_known::Known;
use cil_macros::Instances;
use cil_mls::{Categories, Evaluator, are_plain, value};
use cil_names::Meaning;
use cil_syntax::Term;

/// The value of the second of the two terms that the statement at a place says, by what names hold; none where it says others. It
/// costs a few steps for each term.
///
/// Errors: out of memory. A statement that said a list or named permissions would be out of memory too: there is none, since such
/// statements stand outside macros and no expression over categories is read so.
pub fn second_value(
    instances: &Instances,
    known: &Known,
    by: &Evaluator,
    at: usize,
) -> Result<Categories, NoMemory>
    requires table { IsTableOf (map (row_in known.now) (items_in instances.now)) known.now.words.now }
    requires within { at < length (items_in instances.now) }
    requires written { says_as_written (item_at instances.now at).keyword ≡ true }
    requires plain { is_mapping (item_at instances.now at).keyword ≡ false }
    requires count { by.now.count ≤ 1024 }
    requires few { All IsFew by.now.held.now }
    ensures value { IfOk result (λ set. (c : ℕ) → c < 1024
        → in_words set.words c ≡ in_second by.now.held.now by.now.count (meant_in known.now) c (item_at instances.now at).args) }
    ensures words { IfOk result (λ set. SaysWords instances.now at) }
    ensures row { IfOk result (λ set. row_in known.now (item_at instances.now at) ≡ map (meant_in known.now) (all_words_in (item_at instances.now at).args)) }
{
    if !instances.says_words(at) {
        return Err(NoMemory);
    }
    let statement = instances.statement_there(at);
    let terms = statement.args.as_slice();
    if !are_plain(terms) {
        return Err(NoMemory);
    }
    Ok(value_behind(by, terms, known.words.row(at)))
}

/// The value of the second of two terms, whose words mean this.
fn value_behind(by: &Evaluator, terms: &[Term], words: &[Meaning]) -> Categories
    requires count { by.now.count ≤ 1024 }
    requires few { All IsFew by.now.held.now }
    ensures { (m : ℕ) (g : AWord → Option ℕ) → words.now ≡ map g (all_words_in (all_said m terms.now)) → (c : ℕ) → c < 1024
        → in_words result.words c ≡ in_second by.now.held.now by.now.count g c (all_said m terms.now) }
{
    match terms {
        [] => Categories::none(),
        [_] => Categories::none(),
        [first, second] => {
            let behind = value(by, first, words).rest;
            value(by, second, behind).value
        }
        [_, _, _, ..] => Categories::none(),
    }
}
