//! Hosts, and the bundles that they have exported.

ghost use Rattle.std.specs.Prelude.{◌≡◌, ◌<◌, ◌++◌, ◌∷◌, ℕ, [], None, length, IfOk, if◌then◌else◌};
ghost use Rattle.cil_world.specs.Steps.{IsNext, host_at};
ghost use Rattle.cil_world.specs.Answers.{fresh};
ghost use Rattle.cil_world.specs.Events.{is_export};

use crate::event::Event;
use crate::reply::Reply;
use crate::steps::{Hashers, step};
use cil_base::{Bytes, NoMemory};
use cil_host::Host;
use std::alloc::Global;
use std::hash::BuildHasherDefault;

/// How many decisions the cache of a host may hold.
const CAPACITY: usize = 512;

/// Hosts, and the bundles that they have exported.
#[derive(Debug, Drop)]
pub(crate) struct World {
    /// The hosts, by their numbers.
    pub(crate) hosts: Vec<Host<Hashers>>,
    /// The bundle of each export, by its number; none where the export failed.
    pub(crate) exports: Vec<Option<Bytes>>,
}

impl World {
    /// So many hosts without modules, and no exports. Error: out of memory.
    pub(crate) fn new(alloc: Global, count: u32) -> Result<World, NoMemory>
        ensures count { IfOk result (λ world. length world.hosts.items ≡ count) }
        ensures hosts { IfOk result (λ world. (h : ℕ) → h < count → host_at world.hosts.items h ≡ fresh) }
        ensures exports { IfOk result (λ world. world.exports.items ≡ []) }
    {
        let mut hosts = Vec::new(alloc);
        for _ in 0..count {
            hosts.push(Host::new(alloc, CAPACITY, BuildHasherDefault::new())?)?;
        }
        Ok(World {
            hosts,
            exports: Vec::new(alloc),
        })
    }

    /// Answers an event. Error: there is no memory for the list of exports, so that the run cannot go on.
    pub(crate) fn answer(&mut self, alloc: Global, event: &Event<'_>) -> Result<Reply, NoMemory>
        ensures { IfOk result (λ reply. IsNext event.now self.old.hosts.items self.old.exports.items reply self.new.hosts.items self.new.exports.items) }
    {
        let number = event.host() as usize;
        if number >= self.hosts.len() {
            return skip(&mut self.exports, event);
        }
        step(alloc, &mut self.hosts[number], &mut self.exports, event)
    }
}

/// Passes over an event whose host is not there. An export takes its number all the same. Error: there is no memory for it.
fn skip(exports: &mut Vec<Option<Bytes>>, event: &Event<'_>) -> Result<Reply, NoMemory>
    ensures { IfOk result (λ reply. (reply ≡ Reply.NoSuch) × (exports.new.items ≡ (if is_export event.now then exports.old.items ++ None ∷ [] else exports.old.items))) }
{
    if event.is_export() {
        exports.push(None)?;
    }
    Ok(Reply::NoSuch)
}
