//! The members of sets, by the statements that give them, in an order in which each set is made before it is named.

ghost use Rattle.std.specs.Prelude.{◌≡◌, ◌||◌, ◌<◌, ℕ, Contains, IfOk, List, OnOk, Option, Some, length, set, slice_get};
ghost use Rattle.std.specs.List.{list_any};
ghost use Rattle.cil_syntax.specs.declared.term.Word.{Word as AWord};
ghost use Rattle.cil_attrs.specs.declared.making.Given.{Given as AGiven};
ghost use Rattle.cil_attrs.specs.declared.evaluator.Held.TheVariants.{Nothing, Set};
ghost use Rattle.cil_attrs.specs.Evaluated.{BeginWith, in_term};
ghost use Rattle.cil_attrs.specs.Made.{AreInOrder, AreSetsAt, HaveMeanings, IsGiven, IsSetAt, held_at, is_made_by, said};

use crate::evaluator::{Evaluator, Held};
use cil_base::NoMemory;
use cil_known::Meaning;
use cil_sets::Numbers;
use cil_syntax::Term;
use std::alloc::Global;
use std::mem;

/// What a statement gives a set.
#[derive(Clone, Copy)]
pub struct Given<'s, 'k, 'a> {
    /// The number of the entry of the set.
    pub set: usize,
    /// The place of the statement.
    pub at: usize,
    /// The expression whose value the set gets.
    pub term: &'s Term<'a>,
    /// The number of the module of the statement.
    pub module: u64,
    /// The meanings of the words of the expression.
    pub words: &'k [Meaning],
}

/// What each entry holds where each set has got what these give it. In the order of the statements no expression names the set
/// that it is given to, nor one that a later statement gives something. It costs an evaluation of each expression. Error: out of
/// memory.
pub fn made(
    alloc: Global,
    all: &Numbers,
    begun: Vec<Held>,
    givens: &[Given],
) -> Result<Vec<Held>, NoMemory>
    requires sets { AreSetsAt begun.items givens.now }
    requires order { AreInOrder givens.now }
    ensures len { IfOk result (λ held. length held.items ≡ length begun.items) }
    ensures given { IfOk result (λ held. (g : AGiven → AWord → Option ℕ) → HaveMeanings g givens.now
        → (d v : ℕ) → held_at held.items d v ≡ (held_at begun.items d v || list_any (is_made_by g held.items all.now d v) givens.now)) }
{
    let mut held = begun;
    for given in givens {
        give(alloc, all, &mut held, given)?;
    }
    Ok(held)
}

/// Adds to a set what a statement gives it.
fn give(alloc: Global, all: &Numbers, held: &mut Vec<Held>, given: &Given) -> Result<(), NoMemory>
    requires { IsSetAt held.old.items given.now.set }
    ensures { OnOk result (IsGiven all.now held.old.items held.new.items given.now) }
{
    let mut members = taken(alloc, held, given.set);
    let evaluator = Evaluator {
        all,
        held: held.as_slice(),
        alloc,
    };
    evaluator.add(&mut members, given.term, given.words)?;
    held[given.set] = Held::Set(members);
    Ok(())
}

/// Takes the members of a set out, so that its entry holds nothing.
fn taken(alloc: Global, held: &mut Vec<Held>, place: usize) -> Numbers
    requires { IsSetAt held.old.items place }
    ensures members { slice_get held.old.items place ≡ Some (Set result) }
    ensures rest { held.new.items ≡ set held.old.items place Nothing }
{
    match mem::replace(&mut held[place], Held::Nothing) {
        Held::Set(members) => members,
        Held::Nothing => Numbers::new(alloc),
        Held::Item(_) => Numbers::new(alloc),
    }
}
