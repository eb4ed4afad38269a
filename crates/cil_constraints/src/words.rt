//! The sets of numbers for which words stand, by what they mean.

ghost use Rattle.std.specs.Prelude.{◌≡◌, ℕ, Contains, IfOk, OnOk, Option};
ghost use Rattle.cil_classes.specs.known.Known.{set_meant};
ghost use Rattle.cil_constraints.specs.Walk.{AreListedAdded, AreWordsAdded, IsSetOf, IsUnited, IsWordAdded};

use cil_base::NoMemory;
use cil_classes::{Meaning, behind, behind_first, meaning_at};
use cil_sets::{Joining, Numbers};
use cil_syntax::Term;
use std::alloc::Global;

/// The numbers for which a word or the words of a list stand, by meanings that begin with those of the words. It costs a step for each
/// block of the set and of that of each word.
pub(crate) fn set_of(
    alloc: Global,
    sets: &[Numbers],
    operand: &Term,
    module: u64,
    words: &[Meaning],
) -> Result<Numbers, NoMemory>
    ensures { IfOk result (λ set. IsSetOf sets.now «module» operand.now words.now set) }
{
    let mut set = Numbers::new(alloc);
    add_listed(alloc, &mut set, sets, operand, module, words)?;
    Ok(set)
}

/// Adds the numbers for which a word or the words of a list stand.
fn add_listed(
    alloc: Global,
    set: &mut Numbers,
    sets: &[Numbers],
    operand: &Term,
    module: u64,
    words: &[Meaning],
) -> Result<(), NoMemory>
    ensures { OnOk result (AreListedAdded sets.now «module» operand.now words.now set.old set.new) }
{
    match operand {
        Term::Leaf(_) => add_meant(alloc, set, sets, meaning_at(words, 0)),
        Term::Name(_, _) => Ok(()),
        Term::Form(_, _, parts) => add_words(alloc, set, sets, parts.as_slice(), module, words),
    }
}

/// Adds the numbers for which those of some terms stand that are words.
fn add_words(
    alloc: Global,
    set: &mut Numbers,
    sets: &[Numbers],
    parts: &[Term],
    module: u64,
    words: &[Meaning],
) -> Result<(), NoMemory>
    ensures { OnOk result (AreWordsAdded sets.now «module» parts.now words.now set.old set.new) }
{
    let mut rest = words;
    for part in parts {
        rest = add_word(alloc, set, sets, part, module, rest)?;
    }
    Ok(())
}

/// Adds the numbers for which a term stands that is a word, and answers the meanings behind those of the term.
fn add_word<'w>(
    alloc: Global,
    set: &mut Numbers,
    sets: &[Numbers],
    part: &Term,
    module: u64,
    words: &'w [Meaning],
) -> Result<&'w [Meaning], NoMemory>
    ensures { IfOk result (λ rest. IsWordAdded sets.now «module» part.now words.now rest.now set.old set.new) }
{
    match part {
        Term::Leaf(_) => {
            add_meant(alloc, set, sets, meaning_at(words, 0))?;
            Ok(behind_first(words))
        }
        Term::Name(_, _) => Ok(words),
        Term::Form(_, _, _) => Ok(behind(words, part, module)),
    }
}

/// Adds the set of a word of this meaning.
fn add_meant(
    alloc: Global,
    set: &mut Numbers,
    sets: &[Numbers],
    meaning: Option<usize>,
) -> Result<(), NoMemory>
    ensures { OnOk result (IsUnited (Contains (set_meant sets.now meaning)) set.old set.new) }
{
    let Some(d) = meaning else {
        return Ok(());
    };
    let Some(other) = sets.get(d) else {
        return Ok(());
    };
    unite(alloc, set, other)
}

/// Adds the members of another set.
fn unite(alloc: Global, set: &mut Numbers, other: &Numbers) -> Result<(), NoMemory>
    ensures { OnOk result (IsUnited (Contains other.now) set.old set.new) }
{
    let both = set.joined(alloc, Joining::Union, other)?;
    *set = both;
    Ok(())
}
