//! The branches of all booleanifs of a policy, each once. n booleanifs with m tokens in all cost a walk over the tokens and a sort of 2n
//! branches, and no look-up of a word.

ghost use Rattle.std.specs.Prelude.{◌≡◌, ◌+◌, ◌++◌, ◌∷◌, ◌<◌, [], ℕ, Contains, IfOk, List, OnOk, Some, false, find, map, nat_eq, slice_get, true};
ghost use Rattle.std.specs.List.{flat_map};
ghost use Rattle.std.specs.List.Sorted.{IsStrictlySortedBy};
ghost use Rattle.cil_base.specs.Lists.{Lists};
ghost use Rattle.cil_syntax.specs.declared.kind.Kind as kinds;
ghost use Rattle.cil_syntax.specs.declared.kind.Kind.TheVariants as variants;
ghost use Rattle.cil_known.specs.macros.Items.{items_in};
ghost use Rattle.cil_known.specs.Known.{IsKnown, enabled_in, row_in};
ghost use Rattle.cil_known.specs.names.Rows.{IsTableOf};
ghost use Rattle.cil_conditions.specs.Gathered.{ArePlacesOf, IsPlaceOf, both_in};
ghost use Rattle.cil_conditions.specs.Numbered.{AreBranchesOf, number_for, place_cmp};
ghost use Rattle.cil_conditions.specs.Order.{branch_cmp};

use crate::branch::Branch;
use crate::found::{Found, found_in};
use cil_base::{NoMemory, short};
use cil_known::{Instances, Known};
use std::alloc::Global;
use std::marker::Model;

/// Where the branches of a booleanif are among all.
#[derive(Clone, Copy, Debug)]
struct Place {
    /// The place of the booleanif, among all that is placed.
    at: u32,
    /// The number of its branch of true.
    when_true: u32,
    /// The number of its branch of false.
    when_false: u32,
}

// Policies have thousands of booleanifs.
const _: () = prove!(size_of::<Place>() <= 16);

/// The branches of booleanifs: each once, in their order; and for each booleanif whose condition names booleans the numbers of its two
/// branches.
#[derive(Debug, Drop)]
pub struct Branches {
    rows: Vec<Branch>,
    places: Vec<Place>,
}

impl Model for Branches {
    ghost use Rattle.std.specs.List.Sorted.{IsStrictlySortedBy};
    ghost use Rattle.cil_conditions.specs.Numbered.{NumberedBranches, place_cmp};
    ghost use Rattle.cil_conditions.specs.Order.{branch_cmp};

    ghost Value = { NumberedBranches };

    ghost view = { λ a. record { rows = a.rows.items; places = a.places.items } };

    ghost invariant = { λ a. IsStrictlySortedBy branch_cmp a.rows.items × IsStrictlySortedBy place_cmp a.places.items };
}

impl Branches {
    ghost use Rattle.std.specs.Prelude.{◌≡◌};
    ghost use Rattle.std.specs.List.Sorted.{IsStrictlySortedBy};
    ghost use Rattle.cil_conditions.specs.Numbered.{number_in};
    ghost use Rattle.cil_conditions.specs.Order.{branch_cmp};

    /// All branches, in their order. The number of a branch is its place.
    pub fn rows(&self) -> &[Branch]
        ensures rows { result.now ≡ self.now.rows }
        ensures rising { IsStrictlySortedBy branch_cmp result.now }
    {
        self.rows.as_slice()
    }

    /// The branches, without a copy.
    pub fn into_rows(self) -> Vec<Branch>
        ensures rows { result.items ≡ self.rows }
        ensures rising { IsStrictlySortedBy branch_cmp result.items }
    {
        self.rows
    }

    /// The number of the branch of this value of the booleanif at a place, among all that is placed; none where there is no such booleanif,
    /// or its condition has a word that names no boolean. It costs a search by halving and takes no memory.
    pub fn number(&self, at: usize, value: bool) -> Option<usize>
        ensures { result ≡ number_in self.now at value }
    {
        match place_at(self.places.as_slice(), at) {
            Some(place) => Some(number_for(place, value)),
            None => None,
        }
    }
}

/// The branches of the booleanifs of a policy, enabled or not. Error: out of memory.
pub fn branches_of(
    alloc: Global,
    instances: &Instances,
    known: &Known,
) -> Result<Branches, NoMemory>
    requires table { IsTableOf (map (row_in known.now) (items_in instances.now)) known.now.words.now }
    ensures { IfOk result (λ b. (names : kinds.Kind → List (List ℕ)) → IsKnown known.now (items_in instances.now) names
        → AreBranchesOf instances.now (enabled_in known.now) (names variants.Boolean) b) }
{
    let found = found_in(alloc, instances, known)?;
    let rows = rows_of(alloc, found.as_slice())?;
    let places = places_of(alloc, rows.as_slice(), found.as_slice())?;
    Ok(Branches { rows, places })
}

// ---- each once

/// The branches of some booleanifs, each once, in their order.
fn rows_of(alloc: Global, found: &[Found]) -> Result<Vec<Branch>, NoMemory>
    ensures { IfOk result (λ rows. Lists branch_cmp (Contains (flat_map both_in found.now)) rows.items) }
{
    let mut rows = Vec::with_capacity(alloc, found.len())?;
    for one in found {
        push_both(alloc, &mut rows, one)?;
    }
    Ok(listed(rows))
}

/// Adds both branches of a booleanif.
fn push_both(alloc: Global, rows: &mut Vec<Branch>, one: &Found) -> Result<(), NoMemory>
    ensures { OnOk result (rows.new.items ≡ rows.old.items ++ both_in one.now) }
{
    push_branch(alloc, rows, &one.when_true)?;
    push_branch(alloc, rows, &one.when_false)?;
    Ok(())
}

/// Adds a branch.
fn push_branch(alloc: Global, rows: &mut Vec<Branch>, branch: &Branch) -> Result<(), NoMemory>
    ensures { OnOk result (rows.new.items ≡ rows.old.items ++ branch.now ∷ []) }
{
    let condition = branch.condition.try_clone(alloc)?;
    rows.push(Branch {
        condition,
        value: branch.value,
    })?;
    Ok(())
}

/// Some branches in their order, each once.
fn listed(mut rows: Vec<Branch>) -> Vec<Branch>
    ensures { Lists branch_cmp (Contains rows.items) result.items }
{
    rows.sort_unstable();
    rows.dedup();
    rows
}

// ---- their numbers

/// For each booleanif where its branches are.
fn places_of(alloc: Global, rows: &[Branch], found: &[Found]) -> Result<Vec<Place>, NoMemory>
    requires { Lists branch_cmp (Contains (flat_map both_in found.now)) rows.now }
    ensures { IfOk result (λ places. ArePlacesOf rows.now found.now places.items) }
{
    let mut places = Vec::with_capacity(alloc, found.len())?;
    for one in found {
        let place = place_of(rows, one)?;
        places.push(place)?;
    }
    Ok(places)
}

/// Where the branches of a booleanif are.
fn place_of(rows: &[Branch], one: &Found) -> Result<Place, NoMemory>
    requires rising { IsStrictlySortedBy branch_cmp rows.now }
    requires when_true { Contains rows.now one.now.when_true }
    requires when_false { Contains rows.now one.now.when_false }
    ensures { IfOk result (IsPlaceOf rows.now one.now) }
{
    Ok(Place {
        at: one.at,
        when_true: number_of(rows, &one.when_true)?,
        when_false: number_of(rows, &one.when_false)?,
    })
}

/// The number of a branch that is among them. It costs a search by halving. Errors: out of memory, which is the answer if there are more than
/// 4,294,967,296.
fn number_of(rows: &[Branch], branch: &Branch) -> Result<u32, NoMemory>
    requires rising { IsStrictlySortedBy branch_cmp rows.now }
    requires there { Contains rows.now branch.now }
    ensures { IfOk result (λ n. slice_get rows.now n ≡ Some branch.now) }
{
    match rows.binary_search(branch) {
        Ok(place) => short(place),
        Err(_) => unreachable!(),
    }
}

// ---- the numbers of one booleanif

/// Where the branches of the booleanif at a place are.
fn place_at(places: &[Place], at: usize) -> Option<Place>
    requires { IsStrictlySortedBy place_cmp places.now }
    ensures { result ≡ find (λ p. nat_eq p.at at) places.now }
{
    match places.binary_search_by(|place| (place.at as usize).cmp(&at)) {
        Ok(number) => Some(places[number]),
        Err(_) => None,
    }
}

/// The number of the branch of this value.
fn number_for(place: Place, value: bool) -> usize
    ensures { result ≡ number_for value place }
{
    if value {
        place.when_true as usize
    } else {
        place.when_false as usize
    }
}
