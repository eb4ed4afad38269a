//! Sets of modules: clones and merges, for which no session asks.

use cil_base::NoMemory;
use cil_modset::{Join, ModuleSet};
use cil_sexpr::ReadError;
use std::alloc::Global;
use std::test::Fail;

pub(crate) const A: &[u8] = b"(type a)";

pub(crate) const B: &[u8] = b"(type b)";

pub(crate) const C: &[u8] = b"(type c)";

/// The bundle of the three.
pub(crate) const BUNDLE_OF_THREE: &[u8] =
    b"CILB\x01\0\0\0\0\0\0\0\x03\0\0\0\0\0\0\0\x08(type a)\0\0\0\0\0\0\0\x08(type b)\0\0\0\0\0\0\0\x08(type c)";

fn set_of_texts(alloc: Global, texts: &[&[u8]]) -> Result<ModuleSet, ReadError> {
    let mut set = ModuleSet::new(alloc);
    for text in texts {
        set.install(alloc, *text)?;
    }
    Ok(set)
}

/// Whether a set has these texts in this order, and no others.
pub(crate) fn holds(set: &ModuleSet, texts: &[&[u8]]) -> bool {
    if set.len() != texts.len() {
        return false;
    }
    for i in 0..texts.len() {
        if set.get(i) != texts[i] || !set.contains(texts[i]) {
            return false;
        }
    }
    true
}

/// Texts of a set and of another, how many of these are new to it, and what it has after a merge.
type Row = (
    &'static [&'static [u8]],
    &'static [&'static [u8]],
    u64,
    &'static [&'static [u8]],
);

const MERGES: &[Row] = &[
    (&[B], &[A, B], 1, &[A, B]),
    (&[A, C], &[B], 1, &[A, B, C]),
    (&[A, B], &[], 0, &[A, B]),
    (&[], &[A, C], 2, &[A, C]),
];

fn merge_twice<J: Join>(alloc: Global, set: &mut J, other: &J) -> Result<(u64, u64), NoMemory> {
    let first = set.merge(alloc, other)?;
    let second = set.merge(alloc, other)?;
    Ok((first, second))
}

/// Whether a merge into a clone of a set goes as the row says. Each function here holds one set, since each way out lets go of all.
fn is_merged_so(alloc: Global, set: &ModuleSet, other: &ModuleSet, row: &Row) -> bool {
    match set.try_clone(alloc) {
        Ok(mut merged) => {
            merge_twice(alloc, &mut merged, other) == Ok((row.2, 0)) && holds(&merged, row.3)
        }
        Err(_) => false,
    }
}

/// The same, with the other set of the row, which stays as it is.
fn merges_so(alloc: Global, set: &ModuleSet, row: &Row) -> bool {
    match set_of_texts(alloc, row.1) {
        Ok(other) => is_merged_so(alloc, set, &other, row) && holds(&other, row.1),
        Err(_) => false,
    }
}

#[test]
fn merges_into_a_clone(rt: HostRuntime) -> Result<(), Fail> {
    let alloc = rt.alloc();
    for row in MERGES {
        let set = set_of_texts(alloc, row.0)?;
        assert!(rt;
            merges_so(alloc, &set, row) && holds(&set, row.0),
            "{}",
            row.2
        );
    }
    Ok(())
}
