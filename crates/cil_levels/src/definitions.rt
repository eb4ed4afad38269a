//! The declarations of sets of categories, in an order in which each set is made before it is named.

ghost use Rattle.std.specs.Prelude.{◌≡◌, ◌+◌, ℕ, ◌<◌, IfOk, IsPermutation, List, OnOk, get_or, length};
ghost use Rattle.std.specs.List.Sorted.{IsNonDecreasingBy};
ghost use Rattle.cil_syntax.specs.declared.kind.Kind as kinds;
ghost use Rattle.cil_macros.specs.Items.{items_in, namespaces_in};
ghost use Rattle.cil_known.specs.Known.{IsKnown};
ghost use Rattle.cil_levels.specs.Made.{AreDefined};

use cil_base::NoMemory;
use cil_known::Known;
use cil_macros::Instances;
use cil_mls::set_declared;
use std::alloc::Global;

/// A declaration of a set of categories.
#[derive(Clone, Copy)]
pub struct Definition {
    /// The number of the name of the set.
    pub set: usize,
    /// The place of the statement.
    pub at: usize,
}

/// The enabled declarations of sets of categories, in the order of the statements. It costs a step for each statement. Error: out of
/// memory.
pub fn definitions_of(
    alloc: Global,
    instances: &Instances,
    known: &Known,
) -> Result<Vec<Definition>, NoMemory>
    requires namespaces { known.now.lookup.namespaces.now ≡ namespaces_in instances.now }
    requires known { (sections : kinds.Kind → List (List ℕ)) × IsKnown known.now (items_in instances.now) sections }
    ensures { IfOk result (λ all. AreDefined known.now instances.now (length (items_in instances.now)) all.items) }
{
    let mut all = Vec::new(alloc);
    for at in 0..instances.len() {
        push_definition(instances, known, at, &mut all)?;
    }
    Ok(all)
}

/// Adds the statement at a place if it is such a declaration.
fn push_definition(
    instances: &Instances,
    known: &Known,
    at: usize,
    all: &mut Vec<Definition>,
) -> Result<(), NoMemory>
    requires namespaces { known.now.lookup.namespaces.now ≡ namespaces_in instances.now }
    requires known { (sections : kinds.Kind → List (List ℕ)) × IsKnown known.now (items_in instances.now) sections }
    requires within { at < length (items_in instances.now) }
    ensures { OnOk result (AreDefined known.now instances.now at all.old.items → AreDefined known.now instances.now (at + 1) all.new.items) }
{
    let Some(set) = set_declared(instances, known, at) else {
        return Ok(());
    };
    all.push(Definition { set, at })?;
    Ok(())
}

/// The declarations, sorted by the ranks of the sets.
pub fn ranked(mut all: Vec<Definition>, ranks: &[usize]) -> Vec<Definition>
    ensures sorted { IsNonDecreasingBy (λ x. get_or ranks.now x.set 0) result.items }
    ensures same { IsPermutation all.items result.items }
{
    all.sort_unstable_by_key(|definition| rank_at(ranks, definition.set));
    all
}

/// The rank of a set.
fn rank_at(ranks: &[usize], set: usize) -> usize
    ensures { result ≡ get_or ranks.now set 0 }
{
    match ranks.get(set) {
        Some(rank) => *rank,
        None => 0,
    }
}
