//! A cache of decisions apart from a host. What it answers is proved; that it keeps what it has decided is shown here, since a
//! cache may always be out of memory.

use crate::growths::FIRST;
use crate::hosts::Hashers;
use cil_server::{Avc, ClassId, Context, Decision, Tables, compile, defaults, parse_context};
use cil_text_tests::set_of;
use std::alloc::Global;
use std::hash::BuildHasherDefault;

/// A rule that is in force while a boolean is on.
const SWITCHED: &str = "(boolean bo false)(booleanif bo (true (allow b a (file (open)))))";

/// The first class, `file`.
const FILE: ClassId = ClassId { number: 0 };

fn tables(alloc: Global) -> Option<Tables> {
    let modules = set_of(alloc, &[FIRST, SWITCHED]).ok()?;
    match compile(alloc, &modules) {
        Ok(compiled) => Some(compiled.tables),
        Err(_) => None,
    }
}

/// Whether a decision allows just this, and records every denial.
fn is_allowed(decision: Decision, mask: u32) -> bool {
    decision.allowed == mask && decision.auditallow == 0 && decision.auditdeny == 0b11
}

/// Whether a cache for one decision keeps one of two, and with room for two keeps both: with the boolean on, a file of the first type may
/// be opened by the second, and one of the second be read by the first.
fn keeps(alloc: Global, tables: &Tables, first: &Context, second: &Context) -> bool {
    let mut settings = defaults(tables);
    settings.set(0, true);
    let mut avc: Avc<Hashers> = match Avc::new(alloc, 1, BuildHasherDefault::new()) {
        Ok(avc) => avc,
        Err(_) => return false,
    };
    let opens = avc.lookup(tables, &settings, second, first, FILE);
    let reads = avc.lookup(tables, &settings, first, second, FILE);
    let one = avc.len();
    avc.resize(2);
    let opens_again = avc.lookup(tables, &settings, second, first, FILE);
    let two = avc.len();
    let reads_again = avc.lookup(tables, &settings, first, second, FILE);
    is_allowed(opens, 0b01)
        && is_allowed(reads, 0b10)
        && opens_again == opens
        && reads_again == reads
        && (one, two, avc.len()) == (1, 2, 2)
}

fn keeps_two(alloc: Global) -> Option<bool> {
    let tables = tables(alloc)?;
    let first = parse_context(&tables, b"u:r:a");
    let second = parse_context(&tables, b"u:r:b");
    match (first, second) {
        (Some(first), Some(second)) => Some(keeps(alloc, &tables, &first, &second)),
        _ => None,
    }
}

#[test]
fn a_cache_keeps_as_many_decisions_as_it_may(rt: HostRuntime) {
    assert!(rt; keeps_two(rt.alloc()) == Some(true));
}
