//! Worlds worked by hand: hosts that exchange bundles, events that name nothing, booleans and queries, and a growth that is refused.

use crate::{Event, Excerpt, Reply, run_world};
use cil_base::Bytes;
use cil_host::{Installed, QueryFault};
use std::alloc::Global;
use std::test::Fail;

/// What an event should be answered.
#[derive(Clone, Copy, Debug)]
enum Want {
    New,
    Known,
    Exported(u64),
    Added(u64),
    /// A policy whose tables have so many bytes.
    Loaded(u64),
    Done,
    /// The names of permissions that are allowed, recorded, and recorded if denied.
    Decided(&'static str, &'static str, &'static str),
    /// A text whose first fault is at this byte.
    Unreadable(u64),
    /// So many faults.
    Faults(usize),
    Query(QueryFault),
    NoSuch,
}

/// Whether a reply is the one that is wanted.
fn is(reply: &Reply, want: Want) -> bool {
    match want {
        Want::New => is_installed(reply, Installed::New),
        Want::Known => is_installed(reply, Installed::Known),
        Want::Exported(wanted) => has_length(reply, wanted),
        Want::Added(wanted) => has_added(reply, wanted),
        Want::Loaded(wanted) => has_loaded(reply, wanted),
        Want::Done => is_done(reply),
        Want::Decided(allowed, auditallow, auditdeny) => decides(
            reply, allowed, auditallow, auditdeny,
        ),
        Want::Unreadable(at) => is_unreadable(reply, at),
        Want::Faults(count) => has_faults(reply, count),
        Want::Query(fault) => declines(reply, fault),
        Want::NoSuch => names_nothing(reply),
    }
}

fn is_installed(reply: &Reply, wanted: Installed) -> bool {
    match reply {
        Reply::Installed(installed) => *installed == wanted,
        _ => false,
    }
}

fn has_length(reply: &Reply, wanted: u64) -> bool {
    match reply {
        Reply::Exported(length) => *length == wanted,
        _ => false,
    }
}

fn has_added(reply: &Reply, wanted: u64) -> bool {
    match reply {
        Reply::Added(added) => *added == wanted,
        _ => false,
    }
}

fn has_loaded(reply: &Reply, wanted: u64) -> bool {
    match reply {
        Reply::Loaded(loaded) => loaded.length == wanted,
        _ => false,
    }
}

fn is_done(reply: &Reply) -> bool {
    match reply {
        Reply::Done => true,
        _ => false,
    }
}

fn reads(bytes: &Bytes, wanted: &str) -> bool {
    bytes.as_slice() == wanted.as_bytes()
}

fn decides(reply: &Reply, first: &str, second: &str, third: &str) -> bool {
    match reply {
        Reply::Decided {
            allowed,
            auditallow,
            auditdeny,
        } => reads(allowed, first) && reads(auditallow, second) && reads(auditdeny, third),
        _ => false,
    }
}

fn is_unreadable(reply: &Reply, at: u64) -> bool {
    match reply {
        Reply::Unreadable(fault) => fault.at == at,
        _ => false,
    }
}

fn has_faults(reply: &Reply, count: usize) -> bool {
    match reply {
        Reply::Faults(faults) => faults.len() == count,
        _ => false,
    }
}

fn declines(reply: &Reply, wanted: QueryFault) -> bool {
    match reply {
        Reply::Query(fault) => *fault == wanted,
        _ => false,
    }
}

fn names_nothing(reply: &Reply) -> bool {
    match reply {
        Reply::NoSuch => true,
        _ => false,
    }
}

fn lacks_memory(reply: &Reply) -> bool {
    match reply {
        Reply::NoMemory => true,
        _ => false,
    }
}

/// Whether two replies are of one policy: two loads with one length and one digest.
fn are_alike(one: &Reply, other: &Reply) -> bool {
    match (one, other) {
        (Reply::Loaded(one), Reply::Loaded(other)) => *one == *other,
        _ => false,
    }
}

/// The replies to some events, if there was memory for all of them.
fn answered(alloc: Global, hosts: u32, events: &[Event<'_>]) -> Option<Vec<Reply>> {
    let replies = run_world(alloc, hosts, events).ok()?;
    for reply in &replies {
        if lacks_memory(reply) {
            return None;
        }
    }
    Some(replies)
}

/// The replies to some events, at once or in a second run.
fn replies_of(alloc: Global, hosts: u32, events: &[Event<'_>]) -> Option<Vec<Reply>> {
    match answered(alloc, hosts, events) {
        Some(replies) => Some(replies),
        None => answered(alloc, hosts, events),
    }
}

/// The first event whose reply is not the one that is wanted. There are as many replies as are wanted if it is none of them.
fn first_wrong(replies: &[Reply], wanted: &[Want]) -> usize {
    for number in 0..wanted.len() {
        if number >= replies.len() || !is(&replies[number], wanted[number]) {
            return number;
        }
    }
    replies.len()
}

fn install(host: u32, text: &[u8]) -> Event<'_> {
    Event::Install {
        host,
        text: Excerpt::of(text),
    }
}

fn set<'a>(host: u32, name: &'a [u8], value: bool) -> Event<'a> {
    Event::Set {
        host,
        name: Excerpt::of(name),
        value,
    }
}

/// Asks what a type may do to a file of another type.
fn ask<'a>(host: u32, source: &'a [u8], target: &'a [u8]) -> Event<'a> {
    Event::Ask {
        host,
        source: Excerpt::of(source),
        target: Excerpt::of(target),
        class: Excerpt::of(b"file"),
    }
}

const TYPE_A: &[u8] = b"(type a)";

const TYPE_B: &[u8] = b"(type b)";

/// Three hosts: the second gets what the first exported, twice; the third loses what it had; the first and the second hold the same in the end.
#[test]
fn hosts_with_the_same_modules_load_the_same(rt: HostRuntime) -> Result<(), Fail> {
    let events = [
        install(0, TYPE_A),
        Event::Export { host: 0 },
        install(1, TYPE_B),
        Event::Deliver { export: 0, host: 1 },
        Event::Deliver { export: 0, host: 1 },
        Event::Export { host: 1 },
        install(2, TYPE_B),
        Event::Restart { host: 2 },
        Event::Deliver { export: 0, host: 2 },
        install(0, TYPE_B),
        Event::Load { host: 0 },
        Event::Load { host: 1 },
        Event::Load { host: 2 },
        Event::Deliver { export: 7, host: 0 },
    ];
    let wanted = [
        Want::New,
        Want::Exported(29),
        Want::New,
        Want::Added(1),
        Want::Added(0),
        Want::Exported(45),
        Want::New,
        Want::Done,
        Want::Added(1),
        Want::New,
        Want::Loaded(96),
        Want::Loaded(96),
        Want::Loaded(91),
        Want::NoSuch,
    ];
    let replies = replies_of(rt.alloc(), 3, &events).ok_or("no replies")?;
    assert_eq!(rt; first_wrong(replies.as_slice(), &wanted), 14);
    let loads = (replies.get(10), replies.get(11), replies.get(12));
    let (Some(first), Some(second), Some(third)) = loads else {
        return Err("too few replies".into());
    };
    assert!(rt; are_alike(first, second));
    assert!(rt; !are_alike(first, third));
    Ok(())
}

/// A host that is not there, whose export takes a number; an export that comes later; and an older bundle that is delivered after a newer one.
#[test]
fn exports_are_delivered_by_their_numbers(rt: HostRuntime) -> Result<(), Fail> {
    let events = [
        Event::Export { host: 9 },
        Event::Deliver { export: 0, host: 0 },
        Event::Deliver { export: 1, host: 1 },
        install(0, TYPE_A),
        install(0, TYPE_A),
        Event::Export { host: 0 },
        install(0, TYPE_B),
        Event::Export { host: 0 },
        Event::Deliver { export: 1, host: 1 },
        Event::Deliver { export: 2, host: 1 },
        install(9, TYPE_A),
        Event::Load { host: 2 },
        Event::Restart { host: 2 },
        set(2, b"bo", true),
        ask(2, b"u:r:a", b"u:r:b"),
        Event::Deliver { export: 1, host: 2 },
        install(0, b"(type a"),
        ask(0, b"u:r:a", b"u:r:b"),
        set(0, b"bo", true),
    ];
    let wanted = [
        Want::NoSuch,
        Want::NoSuch,
        Want::NoSuch,
        Want::New,
        Want::Known,
        Want::Exported(29),
        Want::New,
        Want::Exported(45),
        Want::Added(1),
        Want::Added(1),
        Want::NoSuch,
        Want::NoSuch,
        Want::NoSuch,
        Want::NoSuch,
        Want::NoSuch,
        Want::NoSuch,
        Want::Unreadable(7),
        Want::Query(QueryFault::NoPolicy),
        Want::Query(QueryFault::NoPolicy),
    ];
    let replies = replies_of(rt.alloc(), 2, &events).ok_or("no replies")?;
    assert_eq!(rt; first_wrong(replies.as_slice(), &wanted), 19);
    let nobody = replies_of(rt.alloc(), 0, &events[..1]).ok_or("no replies")?;
    assert_eq!(rt; first_wrong(nobody.as_slice(), &[Want::NoSuch]), 1);
    Ok(())
}

/// 123 bytes: a file of type b may be read by a.
const FIRST: &[u8] =
    b"(class file (open read))(user u)(role r)(type a)(type b)(userrole u r)(roletype r a)(roletype r b)(allow a b (file (read)))";

const BOOLEAN: &[u8] = b"(boolean bo false)(booleanif bo (true (allow b a (file (open)))))";

/// Booleans are set, are as by default after a load, and are gone after a restart. A load with faults leaves the policy.
#[test]
fn queries_are_answered_by_the_last_load(rt: HostRuntime) -> Result<(), Fail> {
    let events = [
        install(0, FIRST),
        install(0, BOOLEAN),
        Event::Load { host: 0 },
        ask(0, b"u:r:b", b"u:r:a"),
        set(0, b"bo", true),
        ask(0, b"u:r:b", b"u:r:a"),
        ask(0, b"u:r:a", b"u:r:b"),
        set(0, b"no", true),
        install(
            0,
            b"(auditallow a b (file (read)))(dontaudit a b (file (open)))",
        ),
        ask(0, b"u:r:a", b"u:r:b"),
        Event::Load { host: 0 },
        ask(0, b"u:r:b", b"u:r:a"),
        ask(0, b"u:r:a", b"u:r:b"),
        install(0, b"(allow a nobody (file (read)))"),
        Event::Load { host: 0 },
        ask(0, b"u:r:a", b"u:r:b"),
        ask(0, b"u:r:c", b"u:r:b"),
        Event::Restart { host: 0 },
        ask(0, b"u:r:a", b"u:r:b"),
    ];
    let wanted = [
        Want::New,
        Want::New,
        Want::Loaded(185),
        Want::Decided("-", "-", "open,read"),
        Want::Done,
        Want::Decided("open", "-", "open,read"),
        Want::Decided("read", "-", "open,read"),
        Want::Query(QueryFault::NoBoolean),
        Want::New,
        Want::Decided("read", "-", "open,read"),
        Want::Loaded(217),
        Want::Decided("-", "-", "open,read"),
        Want::Decided("read", "read", "read"),
        Want::New,
        Want::Faults(1),
        Want::Decided("read", "read", "read"),
        Want::Query(QueryFault::BadSource),
        Want::Done,
        Want::Query(QueryFault::NoPolicy),
    ];
    let replies = replies_of(rt.alloc(), 1, &events).ok_or("no replies")?;
    assert_eq!(rt; first_wrong(replies.as_slice(), &wanted), 19);
    Ok(())
}
