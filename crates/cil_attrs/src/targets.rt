//! What statements say of aliases: for which item, or for which other alias, each stands. Each entry costs 18 bytes meanwhile, and
//! each statement a step and 24 bytes.

ghost use Rattle.std.specs.Prelude.{◌≡◌, ◌↔◌, ◌<◌, ◌⊎◌, ◌++◌, ℕ, Contains, IfOk, IsTrue, List, None, OnOk, Option, Some, false, get_or, length, map, not, slice_get, true};
ghost use Rattle.std.specs.Option.{is_some, option_map_or};
ghost use Rattle.cil_syntax.specs.declared.kind.Kind as kinds;
ghost use Rattle.cil_known.specs.macros.Items.{items_in};
ghost use Rattle.cil_known.specs.Known.{IsKnown, row_in};
ghost use Rattle.cil_known.specs.names.Rows.{IsTableOf};
ghost use Rattle.cil_known.specs.Spaces.{Sets};
ghost use Rattle.cil_attrs.specs.declared.targets.Step.{Step as AStep};
ghost use Rattle.cil_attrs.specs.Givers.{IsSets, SaysItsTerms};
ghost use Rattle.cil_attrs.specs.Made.{said};
ghost use Rattle.cil_attrs.specs.Targets.{AreLast, AreSteps, HasOther, IsFlagged, IsOther, leaf_meaning, steps_by, steps_in, target_among, target_by, is_target};

use crate::giver::{SetKind, SpaceKinds, givens_of, is_same_kind};
use crate::making::Given;
use cil_base::NoMemory;
use cil_known::{Entry, Instances, Known, meaning_at, names_laws as laws};
use cil_syntax::{Kind, Term};
use std::alloc::Global;

/// What one statement says of an alias.
#[derive(Clone, Copy)]
pub struct Step {
    /// The number of the entry of the alias.
    pub alias: usize,
    /// The number of the entry of the item or of the other alias for which it stands.
    pub target: usize,
    /// The place of the statement.
    pub at: usize,
}

/// What enabled statements say of the aliases of these items. Error: out of memory.
pub fn steps_of(
    alloc: Global,
    instances: &Instances,
    known: &Known,
    item: Kind,
    aliases: SetKind,
) -> Result<Vec<Step>, NoMemory>
    requires table { IsTableOf (map (row_in known.now) (items_in instances.now)) known.now.words.now }
    requires written { SaysItsTerms aliases.giving }
    ensures { IfOk result (λ steps. (sections : kinds.Kind → List (List ℕ)) (j : Sets) → IsKnown known.now (items_in instances.now) sections → IsSets aliases j
        → AreSteps known.now instances.now item j steps.items) }
{
    // What is known of a word: it means the entry that it names.
    laws::means_what_it_names();
    let alone = SpaceKinds {
        item,
        aliases: Some(aliases),
        attributes: None,
    };
    let givens = givens_of(alloc, instances, known, &alone)?;
    let steps = steps_in(
        alloc,
        known.lookup.names.entries(),
        item,
        aliases.kind,
        givens.as_slice(),
    )?;
    Ok(steps)
}

fn steps_in(
    alloc: Global,
    entries: &[Entry],
    item: Kind,
    alias: Kind,
    givens: &[Given],
) -> Result<Vec<Step>, NoMemory>
    ensures { IfOk result (λ steps. steps.items ≡ steps_in entries.now item alias givens.now) }
{
    let mut steps = Vec::new(alloc);
    for given in givens {
        push_step(&mut steps, entries, item, alias, given)?;
    }
    Ok(steps)
}

fn push_step(
    steps: &mut Vec<Step>,
    entries: &[Entry],
    item: Kind,
    alias: Kind,
    given: &Given,
) -> Result<(), NoMemory>
    ensures { OnOk result (steps.new.items ≡ steps.old.items ++ steps_by entries.now item alias given.now) }
{
    let Some(target) = target_by(entries, item, alias, given) else {
        return Ok(());
    };
    steps.push(Step {
        alias: given.set,
        target,
        at: given.at,
    })?;
    Ok(())
}

/// The item or the alias that a statement names behind its first word.
fn target_by(entries: &[Entry], item: Kind, alias: Kind, given: &Given) -> Option<usize>
    ensures { result ≡ target_by entries.now item alias given.now }
{
    target_among(entries, item, alias, leaf_meaning(given))
}

fn leaf_meaning(given: &Given) -> Option<usize>
    ensures { result ≡ leaf_meaning (said given.now) given.now.words.now }
{
    match given.term {
        Term::Leaf(_) => meaning_at(given.words, 0),
        Term::Name(_, _) => None,
        Term::Form(_, _, _) => None,
    }
}

fn target_among(entries: &[Entry], item: Kind, alias: Kind, meaning: Option<usize>) -> Option<usize>
    ensures { result ≡ target_among entries.now item alias meaning }
{
    let Some(d) = meaning else {
        return None;
    };
    if is_target_at(entries, item, alias, d) {
        return Some(d);
    }
    None
}

fn is_target_at(entries: &[Entry], item: Kind, alias: Kind, d: usize) -> bool
    ensures { result ≡ option_map_or (is_target item alias) (slice_get entries.now d) false }
{
    match entries.get(d) {
        Some(entry) => is_same_kind(entry.kind, item) || is_same_kind(entry.kind, alias),
        None => false,
    }
}

/// For each entry where the last of its steps leads; none where it has none. Error: out of memory.
pub fn lasts_of(
    alloc: Global,
    entries: usize,
    steps: &[Step],
) -> Result<Vec<Option<usize>>, NoMemory>
    requires { (s : AStep) → Contains steps.now s → s.alias < entries }
    ensures len { IfOk result (λ lasts. length lasts.items ≡ entries) }
    ensures lasts { IfOk result (λ lasts. AreLast steps.now lasts.items) }
{
    let mut lasts = nowhere(alloc, entries)?;
    for step in steps {
        lasts[step.alias] = Some(step.target);
    }
    Ok(lasts)
}

/// As many entries, none with a step.
fn nowhere(alloc: Global, entries: usize) -> Result<Vec<Option<usize>>, NoMemory>
    ensures len { IfOk result (λ lasts. length lasts.items ≡ entries) }
    ensures none { IfOk result (λ lasts. (d : ℕ) → get_or lasts.items d None ≡ None) }
{
    let mut lasts = Vec::with_capacity(alloc, entries)?;
    for entry in 0..entries {
        let _entry = entry;
        lasts.push(None)?;
    }
    Ok(lasts)
}

/// A flag for each entry that has no step. Error: out of memory.
pub fn open_flags(alloc: Global, lasts: &[Option<usize>]) -> Result<Vec<bool>, NoMemory>
    ensures { IfOk result (λ flags. flags.items ≡ map (λ o. not (is_some o)) lasts.now) }
{
    let mut flags = Vec::with_capacity(alloc, lasts.len())?;
    for last in lasts {
        flags.push(last.is_none())?;
    }
    Ok(flags)
}

/// A flag for each entry whose steps lead to different ones. Error: out of memory.
pub fn twice_flags(
    alloc: Global,
    steps: &[Step],
    lasts: &[Option<usize>],
) -> Result<Vec<bool>, NoMemory>
    requires { (s : AStep) → Contains steps.now s → s.alias < length lasts.now }
    ensures { IfOk result (λ flags. (d : ℕ) → IsFlagged flags.items d ↔ HasOther steps.now lasts.now d) }
{
    let mut flags = no_flags(alloc, lasts.len())?;
    for step in steps {
        flag_other(&mut flags, step, lasts);
    }
    Ok(flags)
}

/// Flags the entry of a step that leads elsewhere than the last one.
fn flag_other(flags: &mut Vec<bool>, step: &Step, lasts: &[Option<usize>])
    requires { step.now.alias < length flags.old.items }
    ensures len { length flags.new.items ≡ length flags.old.items }
    ensures flagged { (d : ℕ) → IsFlagged flags.new.items d ↔ (IsFlagged flags.old.items d ⊎ IsOther lasts.now d step.now) }
{
    if is_last(step, lasts) {
        return;
    }
    flags[step.alias] = true;
}

fn is_last(step: &Step, lasts: &[Option<usize>]) -> bool
    ensures { IsTrue result ↔ (get_or lasts.now step.now.alias None ≡ Some step.now.target) }
{
    match last_at(lasts, step.alias) {
        Some(target) => target == step.target,
        None => false,
    }
}

fn last_at(lasts: &[Option<usize>], entry: usize) -> Option<usize>
    ensures { result ≡ get_or lasts.now entry None }
{
    match lasts.get(entry) {
        Some(last) => *last,
        None => None,
    }
}

/// As many flags, none set.
fn no_flags(alloc: Global, entries: usize) -> Result<Vec<bool>, NoMemory>
    ensures len { IfOk result (λ flags. length flags.items ≡ entries) }
    ensures none { IfOk result (λ flags. (d : ℕ) → get_or flags.items d false ≡ false) }
{
    let mut flags = Vec::with_capacity(alloc, entries)?;
    for entry in 0..entries {
        let _entry = entry;
        flags.push(false)?;
    }
    Ok(flags)
}
