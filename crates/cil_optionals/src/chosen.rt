//! The greatest set of optionals whose words all name something.

ghost use Rattle.std.specs.Prelude.{◌≡◌, ◌↔◌, IfOk, IsTrue, []};
ghost use Rattle.cil_macros.specs.Items.{items_in, namespaces_in};
ghost use Rattle.cil_names.specs.Entries.{AreEntries, is_in};
ghost use Rattle.cil_names.specs.Unresolved.{ArePermissions};
ghost use Rattle.cil_optionals.specs.Certificate.{IsRight};
ghost use Rattle.cil_optionals.specs.Counts.{lookups, removals};
ghost use Rattle.cil_optionals.specs.First.{AreFirst};
ghost use Rattle.cil_optionals.specs.FirstParts.{AreFirstIn};
ghost use Rattle.cil_optionals.specs.Greatest.{IsGreatest};
ghost use Rattle.cil_optionals.specs.PartCounts.{AreLookups};
ghost use Rattle.cil_optionals.specs.Parts.{IsShown, parts_in};
ghost use Rattle.cil_words.specs.Table.{AreAsks, could_in};

use crate::checking::is_shown;
use crate::counts::lookups_of;
use crate::first::first_reasons;
use crate::guesses::{Walk, guess_by};
use crate::laws;
use crate::parts::{Parts, parts_of};
use crate::reason::Reason;
use crate::removal::by_removal;
use cil_base::NoMemory;
use cil_macros::Instances;
use cil_names::laws::resolves_by_candidates;
use cil_names::{Entry, Names, OptSet};
use cil_syntax::Bytes;
use cil_words::{Asks, asks_of};
use std::alloc::Global;

/// A set of optionals, and why each other one is left out.
#[derive(Debug, Drop)]
pub struct Chosen {
    /// The optionals that are in force.
    pub enabled: OptSet,
    /// A reason for each optional that is left out, in an order in which they can be removed.
    pub reasons: Vec<Reason>,
}

/// A choice of optionals, and how many steps it took.
#[derive(Debug, Drop)]
pub struct Counted {
    /// The choice.
    pub chosen: Chosen,
    /// How many optionals were removed: each that is left out, once.
    pub removals: u64,
    /// How many look-ups it took: one for each declaring statement that is left out, and one for each word of a statement in an
    /// optional with each declared name that it could mean and that is left out.
    pub lookups: u64,
}

/// The greatest set of optionals in which each has its parent and all words of its own statements name something, with a reason
/// for each optional that is left out: the first that holds when its turn comes. (CIL Reference Guide, "Container Statements",
/// "optional".) It makes the table of what all instances ask for, and drops it. Error: out of memory.
pub fn greatest<'r, 'a>(
    alloc: Global,
    instances: &'r Instances<'_, '_, 'a>,
    names: &'r Names<'a>,
    permissions: &'r [Vec<Bytes>],
) -> Result<Chosen, NoMemory>
    requires entries { AreEntries (namespaces_in instances.now) (items_in instances.now) names.now }
    requires permissions { ArePermissions (namespaces_in instances.now) names.now (items_in instances.now) permissions.now }
    ensures right { IfOk result (λ c. IsRight (items_in instances.now) (is_in c.enabled) c.reasons.items) }
    ensures greatest { IfOk result (λ c. IsGreatest (items_in instances.now) (is_in c.enabled)) }
    ensures first { IfOk result (λ c. AreFirst (items_in instances.now) [] c.reasons.items) }
{
    let asks = asks_of(alloc, instances, names, permissions)?;
    let chosen = greatest_of(alloc, instances, names, &asks)?;
    Ok(chosen)
}

/// The same, by the table of what all instances ask for. Error: out of memory.
pub fn greatest_of<'r, 'a>(
    alloc: Global,
    instances: &'r Instances<'_, '_, 'a>,
    names: &'r Names<'a>,
    asks: &'r Asks,
) -> Result<Chosen, NoMemory>
    requires entries { AreEntries (namespaces_in instances.now) (items_in instances.now) names.now }
    requires asks { AreAsks (namespaces_in instances.now) names.now (items_in instances.now) (could_in asks.now) }
    ensures right { IfOk result (λ c. IsRight (items_in instances.now) (is_in c.enabled) c.reasons.items) }
    ensures greatest { IfOk result (λ c. IsGreatest (items_in instances.now) (is_in c.enabled)) }
    ensures first { IfOk result (λ c. AreFirst (items_in instances.now) [] c.reasons.items) }
{
    let counted = counted_of(alloc, instances, names, asks)?;
    Ok(counted.chosen)
}

/// The greatest set of optionals, as `greatest` gives it, and how many steps it took. The steps are counted at the visits of the
/// walk that chooses; each entry that goes out is visited once, from each declaring statement and to each word that could name it.
/// Error: out of memory.
pub fn greatest_counted<'r, 'a>(
    alloc: Global,
    instances: &'r Instances<'_, '_, 'a>,
    names: &'r Names<'a>,
    permissions: &'r [Vec<Bytes>],
) -> Result<Counted, NoMemory>
    requires entries { AreEntries (namespaces_in instances.now) (items_in instances.now) names.now }
    requires permissions { ArePermissions (namespaces_in instances.now) names.now (items_in instances.now) permissions.now }
    ensures right { IfOk result (λ c. IsRight (items_in instances.now) (is_in c.chosen.enabled) c.chosen.reasons.items) }
    ensures greatest { IfOk result (λ c. IsGreatest (items_in instances.now) (is_in c.chosen.enabled)) }
    ensures first { IfOk result (λ c. AreFirst (items_in instances.now) [] c.chosen.reasons.items) }
    ensures removals { IfOk result (λ c. c.removals ≡ removals (items_in instances.now) (is_in c.chosen.enabled)) }
    ensures lookups { IfOk result (λ c. c.lookups ≡ lookups (items_in instances.now) (is_in c.chosen.enabled)) }
{
    let asks = asks_of(alloc, instances, names, permissions)?;
    let counted = counted_of(alloc, instances, names, &asks)?;
    Ok(counted)
}

/// The same, by the table of what all instances ask for.
fn counted_of<'r, 'a>(
    alloc: Global,
    instances: &'r Instances<'_, '_, 'a>,
    names: &'r Names<'a>,
    asks: &'r Asks,
) -> Result<Counted, NoMemory>
    requires entries { AreEntries (namespaces_in instances.now) (items_in instances.now) names.now }
    requires asks { AreAsks (namespaces_in instances.now) names.now (items_in instances.now) (could_in asks.now) }
    ensures right { IfOk result (λ c. IsRight (items_in instances.now) (is_in c.chosen.enabled) c.chosen.reasons.items) }
    ensures greatest { IfOk result (λ c. IsGreatest (items_in instances.now) (is_in c.chosen.enabled)) }
    ensures first { IfOk result (λ c. AreFirst (items_in instances.now) [] c.chosen.reasons.items) }
    ensures removals { IfOk result (λ c. c.removals ≡ removals (items_in instances.now) (is_in c.chosen.enabled)) }
    ensures lookups { IfOk result (λ c. c.lookups ≡ lookups (items_in instances.now) (is_in c.chosen.enabled)) }
{
    laws::right_is_greatest();
    resolves_by_candidates();
    let parts = parts_of(instances, names, asks);
    let walk = counted_by(alloc, instances, &parts, names.entries())?;
    Ok(Counted {
        removals: walk.chosen.reasons.len() as u64,
        lookups: walk.lookups as u64,
        chosen: walk.chosen,
    })
}

/// The greatest set, by the parts of all statements, with the first reason of each optional that is left out.
fn counted_by(
    alloc: Global,
    instances: &Instances,
    parts: &Parts,
    entries: &[Entry],
) -> Result<Walk, NoMemory>
    ensures shown { IfOk result (λ w. IsShown (parts_in parts.now) entries.now (is_in w.chosen.enabled) w.chosen.reasons.items) }
    ensures first { IfOk result (λ w. AreFirstIn (parts_in parts.now) entries.now w.chosen.reasons.items) }
    ensures lookups { IfOk result (λ w. AreLookups (items_in instances.now) (parts_in parts.now) entries.now (is_in w.chosen.enabled) w.lookups) }
{
    let Walk { chosen, lookups } = walked(alloc, instances, parts, entries)?;
    let reasons = first_reasons(alloc, parts, entries, &chosen)?;
    let Chosen {
        enabled,
        reasons: _,
    } = chosen;
    Ok(Walk {
        chosen: Chosen { enabled, reasons },
        lookups,
    })
}

/// The greatest set, with some right reasons: a guess, if a check says that it and its look-ups are right.
fn walked(
    alloc: Global,
    instances: &Instances,
    parts: &Parts,
    entries: &[Entry],
) -> Result<Walk, NoMemory>
    ensures shown { IfOk result (λ w. IsShown (parts_in parts.now) entries.now (is_in w.chosen.enabled) w.chosen.reasons.items) }
    ensures lookups { IfOk result (λ w. AreLookups (items_in instances.now) (parts_in parts.now) entries.now (is_in w.chosen.enabled) w.lookups) }
{
    let guessed = guess_by(alloc, parts, entries)?;
    if is_counted(alloc, instances, parts, entries, &guessed)? {
        return Ok(guessed);
    }
    let chosen = by_removal(alloc, parts, entries)?;
    let lookups = lookups_of(alloc, instances, parts, entries, &chosen.enabled)?;
    Ok(Walk { chosen, lookups })
}

/// Whether a guess is right, and took the look-ups that belong to what it leaves out.
fn is_counted(
    alloc: Global,
    instances: &Instances,
    parts: &Parts,
    entries: &[Entry],
    guessed: &Walk,
) -> Result<bool, NoMemory>
    ensures shown { IfOk result (λ b. IsTrue b → IsShown (parts_in parts.now) entries.now (is_in guessed.now.chosen.enabled) guessed.now.chosen.reasons.items) }
    ensures lookups { IfOk result (λ b. IsTrue b → AreLookups (items_in instances.now) (parts_in parts.now) entries.now (is_in guessed.now.chosen.enabled) guessed.now.lookups) }
{
    let lookups = lookups_of(alloc, instances, parts, entries, &guessed.chosen.enabled)?;
    if guessed.lookups != lookups {
        return Ok(false);
    }
    is_shown(alloc, parts, entries, &guessed.chosen)
}

/// Whether a choice is the right one: its reasons hold one after the other, and all is well with the optionals that are left.
/// Error: out of memory.
pub fn check<'r, 'a>(
    alloc: Global,
    instances: &'r Instances<'_, '_, 'a>,
    names: &'r Names<'a>,
    permissions: &'r [Vec<Bytes>],
    chosen: &Chosen,
) -> Result<bool, NoMemory>
    requires entries { AreEntries (namespaces_in instances.now) (items_in instances.now) names.now }
    requires permissions { ArePermissions (namespaces_in instances.now) names.now (items_in instances.now) permissions.now }
    ensures { IfOk result (λ b. IsTrue b ↔ IsRight (items_in instances.now) (is_in chosen.now.enabled) chosen.now.reasons.items) }
{
    resolves_by_candidates();
    let asks = asks_of(alloc, instances, names, permissions)?;
    let parts = parts_of(instances, names, &asks);
    let right = is_shown(alloc, &parts, names.entries(), chosen)?;
    Ok(right)
}
