//! Tests that pass with every growth allowed, and with any one of them refused (`scripts/refuse-growths` does so in turn):
//! the call that lost it says so and has changed nothing, so each call is tried once more.

use crate::module_sets::{A, B, BUNDLE_OF_THREE, C, holds};
use cil_modset::{Join, ModuleSet};
use cil_sexpr::{ReadCode, ReadError, ReadFault, read};
use std::alloc::Global;
use std::test::Fail;

/// Whether a text is read to so many lists, or has this fault. None where there is no memory.
fn is_read_so(alloc: Global, text: &[u8], lists: usize, want: Option<ReadFault>) -> Option<bool> {
    match read(alloc, text) {
        Ok(tree) => Some(want.is_none() && tree.children().len() == lists),
        Err(ReadError::Fault(fault)) => Some(want == Some(fault)),
        Err(ReadError::NoMemory) => None,
    }
}

const UNCLOSED: ReadFault = ReadFault {
    code: ReadCode::Unclosed,
    at: 8,
};

const TREES: &[(&[u8], usize, Option<ReadFault>)] = &[
    (b"(a (b \"c\" (d)) e)(f)", 2, None),
    (b"(a (b (c", 0, Some(UNCLOSED)),
];

#[test]
fn a_refused_growth_of_a_tree(rt: HostRuntime) {
    let alloc = rt.alloc();
    for &(text, lists, want) in TREES {
        let got = is_read_so(alloc, text, lists, want);
        let got = got.or_else(|| is_read_so(alloc, text, lists, want));
        assert!(rt; got == Some(true), "{lists}");
    }
}

/// Whether a set takes in a text, at once or when it is asked again.
fn installs(alloc: Global, set: &mut ModuleSet, text: &[u8]) -> bool {
    set.install(alloc, text).is_ok() || (holds(set, &[]) && set.install(alloc, text).is_ok())
}

/// Whether a set of B imports A and C, at once or when it is asked again.
fn imports(alloc: Global, set: &mut ModuleSet) -> bool {
    set.import(alloc, BUNDLE_OF_THREE) == Ok(2)
        || (holds(set, &[B]) && set.import(alloc, BUNDLE_OF_THREE) == Ok(2))
}

/// Whether a set of B merges A and C, at once or when it is asked again.
fn merges(alloc: Global, set: &mut ModuleSet, other: &ModuleSet) -> bool {
    set.merge(alloc, other) == Ok(2) || (holds(set, &[B]) && set.merge(alloc, other) == Ok(2))
}

/// Whether a set is written as the bundle of three.
fn is_exported(alloc: Global, set: &ModuleSet) -> bool {
    set.export(alloc)
        .is_ok_and(|bytes| bytes.as_slice() == BUNDLE_OF_THREE)
}

#[test]
fn a_refused_growth_leaves_the_set(rt: HostRuntime) -> Result<(), Fail> {
    let alloc = rt.alloc();
    let mut set = ModuleSet::new(alloc);
    assert!(rt; installs(alloc, &mut set, B));
    assert!(rt; holds(&set, &[B]));
    let mut copy = set.try_clone(alloc).or_else(|_| set.try_clone(alloc))?;
    assert!(rt; imports(alloc, &mut copy));
    assert!(rt; holds(&copy, &[A, B, C]));
    assert!(rt; merges(alloc, &mut set, &copy));
    assert!(rt; holds(&set, &[A, B, C]));
    assert!(rt; is_exported(alloc, &set) || is_exported(alloc, &set));
    Ok(())
}
