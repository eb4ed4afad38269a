//! What is wrong with the sets of a name space.

ghost use Rattle.std.specs.Prelude.{◌≡◌, ◌↔◌, ◌<◌, ◌⊎◌, ℕ, Contains, List, None, OnOk, Option, Some, length, map, not, true};
ghost use Rattle.std.specs.Option.{is_some};
ghost use Rattle.cil_base.specs.Lists.{Lists, text_cmp};
ghost use Rattle.cil_faults.specs.Refusal.{Answers};
ghost use Rattle.cil_faults.specs.declared.code.FaultCode.TheVariants as causes;
ghost use Rattle.cil_faults.specs.declared.fault.Fault.{Fault as AFault};
ghost use Rattle.cil_syntax.specs.declared.kind.Kind as kinds;
ghost use Rattle.cil_syntax.specs.Kinds.{is_wanted};
ghost use Rattle.cil_known.specs.macros.Item.{Item, OptSet};
ghost use Rattle.cil_known.specs.macros.Items.{items_in, namespaces_in, says_as_written};
ghost use Rattle.cil_known.specs.names.Entries.{AreEntries, is_in};
ghost use Rattle.cil_known.specs.Known.{IsKnown, enabled_in, row_in};
ghost use Rattle.cil_known.specs.names.Rows.{IsTableOf};
ghost use Rattle.cil_known.specs.Spaces.{Sets, SpaceOf};
ghost use Rattle.cil_attrs.specs.declared.giver.SetKind.{SetKind as ASetKind};
ghost use Rattle.cil_attrs.specs.declared.targets.Step.{Step as AStep};
ghost use Rattle.cil_attrs.specs.Givers.{AreSets, HasKinds, IsSets};
ghost use Rattle.cil_attrs.specs.Laws.{IsSpace};
ghost use Rattle.cil_attrs.specs.Limits.{said_limit};
ghost use Rattle.cil_attrs.specs.Members.{IsIn};
ghost use Rattle.cil_attrs.specs.SetFaults.{AliasTwice, CircularSet, IsItemName, OpenAlias, SetFault, TooMany, limit_of};
ghost use Rattle.cil_attrs.specs.Targets.{AreCircular, HasOther, IsFlagged, IsToldAmong, IsToldIn, IsToldOf, SaysTwo};

use crate::declared::{Told, is_flagged, push_declared};
use crate::giver::{SetKind, SpaceKinds};
use crate::space::Limit;
use crate::targets::{Step, lasts_of, open_flags, steps_of, twice_flags};
use cil_base::{Bytes, NoMemory};
use cil_faults::Spot;
use cil_known::blocks_spelled::spelled;
use cil_known::{Instances, Known, Lookup};
use cil_syntax::{Failure, Fault, FaultCode, Kind, Sign, push_fault, push_fault_in, refuse};
use std::alloc::Global;

/// Refuses what is wrong with the sets of a name space, before any set is made, where the entries of sets that depend on
/// themselves are flagged. A statement costs a few steps, and one that declares an alias or an attribute a few searches by halving.
///
/// Errors: the faults (aliases without a target or with two, sets that depend on themselves, too many items), or out of memory.
pub fn check_sets(
    alloc: Global,
    instances: &Instances,
    known: &Known,
    names: &[Bytes],
    space: &SpaceKinds,
    sign: Sign,
    limit: Option<Limit>,
    circular: &[bool],
) -> Result<(), Failure>
    requires namespaces { known.now.lookup.namespaces.now ≡ namespaces_in instances.now }
    requires table { IsTableOf (map (row_in known.now) (items_in instances.now)) known.now.words.now }
    requires space { IsSpace space.now sign }
    requires limit { limit_of space.now.item ≡ said_limit limit }
    requires known { (sections : kinds.Kind → List (List ℕ)) × (which : SpaceOf) × IsIn known.now instances.now space.now names.now sections which }
    requires circular { (which : SpaceOf) → HasKinds space.now which → AreCircular known.now (items_in instances.now) which circular.now }
    ensures { (sections : kinds.Kind → List (List ℕ)) (which : SpaceOf) → IsIn known.now instances.now space.now names.now sections which
        → Answers (λ done. Unit {0}) (SetFault (items_in instances.now) (enabled_in known.now) which) result }
{
    let mut faults = Vec::new(alloc);
    push_many(alloc, &mut faults, names, limit)?;
    push_targets(alloc, instances, &mut faults, known, space, sign)?;
    push_circular(
        alloc,
        instances,
        &mut faults,
        &known.lookup,
        sign,
        space.aliases,
        circular,
        FaultCode::AliasCycle,
    )?;
    push_circular(
        alloc,
        instances,
        &mut faults,
        &known.lookup,
        sign,
        space.attributes,
        circular,
        FaultCode::SetCycle,
    )?;
    refuse(faults)
}

/// Reports more items than there may be, if there is a limit.
fn push_many(
    alloc: Global,
    faults: &mut Vec<Fault>,
    names: &[Bytes],
    limit: Option<Limit>,
) -> Result<(), NoMemory>
    ensures { OnOk result ((xs : List Item) (s : OptSet) (which : SpaceOf) → limit_of which.item ≡ said_limit limit → Lists text_cmp (IsItemName xs s which.item) names.now
        → (f : AFault) → Contains faults.new.items f ↔ (Contains faults.old.items f ⊎ TooMany xs s which f)) }
{
    let Some(limit) = limit else {
        return Ok(());
    };
    push_over(alloc, faults, names, limit)?;
    Ok(())
}

/// Reports more items than a limit allows.
fn push_over(
    alloc: Global,
    faults: &mut Vec<Fault>,
    names: &[Bytes],
    limit: Limit,
) -> Result<(), NoMemory>
    ensures { OnOk result ((xs : List Item) (s : OptSet) (which : SpaceOf) → limit_of which.item ≡ Some (limit.most, limit.word.now) → Lists text_cmp (IsItemName xs s which.item) names.now
        → (f : AFault) → Contains faults.new.items f ↔ (Contains faults.old.items f ⊎ TooMany xs s which f)) }
{
    if names.len() <= limit.most {
        return Ok(());
    }
    push_fault(
        alloc,
        faults,
        FaultCode::TooMany,
        Spot { module: 0, at: 0 },
        limit.word,
    )?;
    Ok(())
}

/// Reports aliases that stand for nothing, and those that stand for two different things.
fn push_targets(
    alloc: Global,
    instances: &Instances,
    faults: &mut Vec<Fault>,
    known: &Known,
    space: &SpaceKinds,
    sign: Sign,
) -> Result<(), NoMemory>
    requires namespaces { known.now.lookup.namespaces.now ≡ namespaces_in instances.now }
    requires table { IsTableOf (map (row_in known.now) (items_in instances.now)) known.now.words.now }
    requires space { IsSpace space.now sign }
    requires entries { AreEntries known.now.lookup.namespaces.now (items_in instances.now) known.now.lookup.names.now }
    requires known { (names : List (List ℕ)) × (sections : kinds.Kind → List (List ℕ)) × (which : SpaceOf) × IsIn known.now instances.now space.now names sections which }
    ensures { OnOk result ((names : List (List ℕ)) (sections : kinds.Kind → List (List ℕ)) (which : SpaceOf) → IsIn known.now instances.now space.now names sections which
        → (f : AFault) → Contains faults.new.items f
        ↔ ((Contains faults.old.items f ⊎ OpenAlias (items_in instances.now) (enabled_in known.now) which f) ⊎ AliasTwice (items_in instances.now) (enabled_in known.now) which f)) }
{
    let Some(aliases) = space.aliases else {
        return Ok(());
    };
    push_alias_targets(alloc, instances, faults, known, space, sign, aliases)?;
    Ok(())
}

fn push_alias_targets(
    alloc: Global,
    instances: &Instances,
    faults: &mut Vec<Fault>,
    known: &Known,
    space: &SpaceKinds,
    sign: Sign,
    aliases: SetKind,
) -> Result<(), NoMemory>
    requires namespaces { known.now.lookup.namespaces.now ≡ namespaces_in instances.now }
    requires table { IsTableOf (map (row_in known.now) (items_in instances.now)) known.now.words.now }
    requires space { IsSpace space.now sign }
    requires entries { AreEntries known.now.lookup.namespaces.now (items_in instances.now) known.now.lookup.names.now }
    requires known { (names : List (List ℕ)) × (sections : kinds.Kind → List (List ℕ)) × (which : SpaceOf) × IsIn known.now instances.now space.now names sections which }
    requires aliases { space.now.aliases ≡ Some aliases }
    ensures { OnOk result ((names : List (List ℕ)) (sections : kinds.Kind → List (List ℕ)) (which : SpaceOf) → IsIn known.now instances.now space.now names sections which
        → (f : AFault) → Contains faults.new.items f
        ↔ ((Contains faults.old.items f ⊎ OpenAlias (items_in instances.now) (enabled_in known.now) which f) ⊎ AliasTwice (items_in instances.now) (enabled_in known.now) which f)) }
{
    let steps = steps_of(alloc, instances, known, space.item, aliases)?;
    let lasts = lasts_of(alloc, known.lookup.names.entries().len(), steps.as_slice())?;
    push_open(
        alloc,
        instances,
        faults,
        &known.lookup,
        sign,
        aliases.kind,
        lasts.as_slice(),
    )?;
    push_twice(alloc, instances, faults, steps.as_slice(), lasts.as_slice())?;
    Ok(())
}

/// Reports declared aliases without a step.
fn push_open(
    alloc: Global,
    instances: &Instances,
    faults: &mut Vec<Fault>,
    lookup: &Lookup,
    sign: Sign,
    kind: Kind,
    lasts: &[Option<usize>],
) -> Result<(), NoMemory>
    requires namespaces { lookup.now.namespaces.now ≡ namespaces_in instances.now }
    requires entries { AreEntries lookup.now.namespaces.now (items_in instances.now) lookup.now.names.now }
    requires wanted { is_wanted sign kind ≡ true }
    ensures { OnOk result ((f : AFault) → Contains faults.new.items f
        ↔ (Contains faults.old.items f
        ⊎ IsToldIn lookup.now.namespaces.now lookup.now.names.now (items_in instances.now) (is_in lookup.now.enabled.now) kind causes.AliasOpen (map (λ o. not (is_some o)) lasts.now) f)) }
{
    let flags = open_flags(alloc, lasts)?;
    let told = Told {
        kind,
        sign,
        flags: flags.as_slice(),
    };
    push_declared(
        alloc,
        instances,
        faults,
        lookup,
        &told,
        FaultCode::AliasOpen,
    )?;
    Ok(())
}

/// Reports each statement that says a target of an alias that has two.
fn push_twice(
    alloc: Global,
    instances: &Instances,
    faults: &mut Vec<Fault>,
    steps: &[Step],
    lasts: &[Option<usize>],
) -> Result<(), NoMemory>
    requires within { (s : AStep) → Contains steps.now s → s.alias < length lasts.now }
    requires said { (s : AStep) → Contains steps.now s → SaysTwo instances.now s }
    ensures { OnOk result ((f : AFault) → Contains faults.new.items f ↔ (Contains faults.old.items f ⊎ IsToldAmong instances.now (HasOther steps.now lasts.now) steps.now f)) }
{
    let flags = twice_flags(alloc, steps, lasts)?;
    push_flagged(alloc, instances, faults, steps, flags.as_slice())?;
    Ok(())
}

fn push_flagged(
    alloc: Global,
    instances: &Instances,
    faults: &mut Vec<Fault>,
    steps: &[Step],
    flags: &[bool],
) -> Result<(), NoMemory>
    requires { (s : AStep) → Contains steps.now s → SaysTwo instances.now s }
    ensures { OnOk result ((f : AFault) → Contains faults.new.items f ↔ (Contains faults.old.items f ⊎ IsToldAmong instances.now (IsFlagged flags.now) steps.now f)) }
{
    for step in steps {
        push_step(alloc, instances, faults, step, flags)?;
    }
    Ok(())
}

fn push_step(
    alloc: Global,
    instances: &Instances,
    faults: &mut Vec<Fault>,
    step: &Step,
    flags: &[bool],
) -> Result<(), NoMemory>
    requires { SaysTwo instances.now step.now }
    ensures { OnOk result ((f : AFault) → Contains faults.new.items f ↔ (Contains faults.old.items f ⊎ IsToldOf instances.now (IsFlagged flags.now) step.now f)) }
{
    if !is_flagged(flags, step.alias) {
        return Ok(());
    }
    let statement = instances.statement_there(step.at);
    let Some(words) = statement.two_words() else {
        return Ok(());
    };
    let said = instances.word(step.at, &words.first);
    let space = spelled(alloc, instances.namespaces(), instances.space(step.at))?;
    push_fault_in(
        alloc,
        faults,
        FaultCode::AliasTwice,
        said.word.at,
        space,
        said.word.bytes.as_slice(),
    )?;
    Ok(())
}

/// Reports declared sets of a kind that depend on themselves.
fn push_circular(
    alloc: Global,
    instances: &Instances,
    faults: &mut Vec<Fault>,
    lookup: &Lookup,
    sign: Sign,
    sets: Option<SetKind>,
    circular: &[bool],
    code: FaultCode,
) -> Result<(), NoMemory>
    requires namespaces { lookup.now.namespaces.now ≡ namespaces_in instances.now }
    requires entries { AreEntries lookup.now.namespaces.now (items_in instances.now) lookup.now.names.now }
    requires wanted { (a : ASetKind) → sets ≡ Some a → is_wanted sign a.kind ≡ true }
    ensures none { OnOk result (sets ≡ None → (f : AFault) → Contains faults.new.items f ↔ Contains faults.old.items f) }
    ensures some { OnOk result ((a : ASetKind) → sets ≡ Some a → (f : AFault) → Contains faults.new.items f
        ↔ (Contains faults.old.items f ⊎ IsToldIn lookup.now.namespaces.now lookup.now.names.now (items_in instances.now) (is_in lookup.now.enabled.now) a.kind code circular.now f)) }
{
    let Some(sets) = sets else {
        return Ok(());
    };
    let told = Told {
        kind: sets.kind,
        sign,
        flags: circular,
    };
    push_declared(alloc, instances, faults, lookup, &told, code)?;
    Ok(())
}
