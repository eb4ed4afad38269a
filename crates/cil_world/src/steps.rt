//! What an event does to its host and to the bundles that are kept, and what it is answered.

ghost use Rattle.std.specs.Prelude.{◌≡◌, ◌⊎◌, ℕ, List, Some, IfOk, MatchOption, slice_get};
ghost use Rattle.cil_host.specs.Machine.{State};
ghost use Rattle.cil_host.specs.Permissions.{AreNamesOf};
ghost use Rattle.cil_world.specs.Answers.{Asks};
ghost use Rattle.cil_world.specs.Masks.{AreSpelled};
ghost use Rattle.cil_world.specs.Steps.{Hands, Keeps, Lacks, LeavesOut, Steps};

use crate::event::Event;
use crate::masks::spelled;
use crate::reply::Reply;
use cil_base::{Bytes, NoMemory};
use cil_host::{Decision, Host};
use std::alloc::Global;
use std::hash::{BuildHasherDefault, FoldHasher};

/// What makes the hashers of a host's cache: the default of a `HashMap`.
pub(crate) type Hashers = BuildHasherDefault<FoldHasher>;

/// Answers an event at its host. Error: there is no memory for the list of exports, so that the run cannot go on.
pub(crate) fn step(
    alloc: Global,
    host: &mut Host<Hashers>,
    exports: &mut Vec<Option<Bytes>>,
    event: &Event<'_>,
) -> Result<Reply, NoMemory>
    ensures { IfOk result (λ reply. Steps event.now host.old exports.old.items reply host.new exports.new.items) }
{
    match event {
        Event::Install { text, .. } => Ok(Reply::of_install(host.install(alloc, text.as_slice()))),
        Event::Export { .. } => export(alloc, host, exports),
        Event::Deliver { export, .. } => Ok(deliver(alloc, host, exports.as_slice(), *export)),
        Event::Load { .. } => Ok(Reply::of_load(host.load(alloc))),
        Event::Set { name, value, .. } => {
            Ok(Reply::of_set(host.set_boolean(name.as_slice(), *value)))
        }
        Event::Ask {
            source,
            target,
            class,
            ..
        } => Ok(ask(
            alloc,
            host,
            source.as_slice(),
            target.as_slice(),
            class.as_slice(),
        )),
        Event::Restart { .. } => {
            host.restart(alloc);
            Ok(Reply::Done)
        }
    }
}

/// Puts the modules of a host into a bundle, and keeps it. If there is no memory for the bundle, its place is kept empty. Error: there is no memory for
/// the place.
fn export(
    alloc: Global,
    host: &Host<Hashers>,
    exports: &mut Vec<Option<Bytes>>,
) -> Result<Reply, NoMemory>
    ensures { IfOk result (λ reply. Keeps host.now exports.old.items reply exports.new.items ⊎ LeavesOut exports.old.items reply exports.new.items) }
{
    match host.export(alloc) {
        Ok(bundle) => {
            let length = bundle.len() as u64;
            exports.push(Some(Bytes::from_vec(bundle)))?;
            Ok(Reply::Exported(length))
        }
        Err(NoMemory) => {
            exports.push(None)?;
            Ok(Reply::NoMemory)
        }
    }
}

/// Imports the bundle of an export, if there is one.
fn deliver(alloc: Global, host: &mut Host<Hashers>, exports: &[Option<Bytes>], export: u64) -> Reply
    ensures { Hands exports.now export host.old result host.new ⊎ Lacks exports.now export host.old result host.new }
{
    match bundle_of(exports, export) {
        Some(bundle) => Reply::of_import(host.import(alloc, bundle)),
        None => Reply::NoSuch,
    }
}

/// The bundle of an export; none if the export is not made yet, or failed.
fn bundle_of(exports: &[Option<Bytes>], export: u64) -> Option<&[u8]>
    ensures { MatchOption result ((bytes : List ℕ) → slice_get exports.now export ≡ Some (Some bytes) → ⊥)
        (λ bytes. slice_get exports.now export ≡ Some (Some bytes.now)) }
{
    match exports.get(export as usize)? {
        Some(bundle) => Some(bundle.as_slice()),
        None => None,
    }
}

/// Asks for a decision, and spells it by the names of permissions.
fn ask(alloc: Global, host: &mut Host<Hashers>, source: &[u8], target: &[u8], class: &[u8]) -> Reply
    ensures answer { Asks host.old source.now target.now class.now result }
    ensures stays { host.new ≡ host.old }
{
    match host.query(source, target, class) {
        Ok(decision) => match decided(alloc, host.permissions(class), decision) {
            Ok(reply) => reply,
            Err(NoMemory) => Reply::NoMemory,
        },
        Err(fault) => Reply::Query(fault),
    }
}

/// The reply of a decision. Error: out of memory.
fn decided(alloc: Global, names: &[Bytes], decision: Decision) -> Result<Reply, NoMemory>
    ensures { (h : State) (class_ : List ℕ) → AreNamesOf h class_ names.now → IfOk result (AreSpelled h class_ decision) }
{
    let allowed = spelled(alloc, names, decision.allowed)?;
    let auditallow = spelled(alloc, names, decision.auditallow)?;
    let auditdeny = spelled(alloc, names, decision.auditdeny)?;
    Ok(Reply::Decided {
        allowed,
        auditallow,
        auditdeny,
    })
}
