//! A run: events, one after the other, and their replies.

ghost use Rattle.std.specs.Prelude.{IfOk};
ghost use Rattle.cil_world.specs.Run.{IsRun};

use crate::event::Event;
use crate::reply::Reply;
use crate::world::World;
use cil_base::NoMemory;
use cil_host::{modset_laws as bundles, sexpr_laws as texts};
use std::alloc::Global;

/// What each event is answered, where so many hosts begin without modules and the events happen one after the other. A host keeps up to 512 decisions in its cache.
/// An event whose host or export is not there is answered `NoSuch` and changes nothing; an event that is answered `NoMemory` has changed nothing.
/// All bundles are kept, since any may still be delivered.
///
/// Error: out of memory for the hosts, for the list of replies or for the list of exports.
pub fn run_world(alloc: Global, hosts: u32, events: &[Event<'_>]) -> Result<Vec<Reply>, NoMemory>
    ensures { IfOk result (λ replies. IsRun hosts events.now replies.items) }
{
    // What is known of texts and bundles: those that are right have no fault.
    texts::never_both();
    bundles::never_both();
    let mut world = World::new(alloc, hosts)?;
    let mut replies = Vec::with_capacity(alloc, events.len())?;
    for event in events {
        let reply = world.answer(alloc, event)?;
        replies.push(reply)?;
    }
    Ok(replies)
}
