//! Sets of numbers: members in far blocks, at the first and the last bit of each; numbers that are too large; and each growth
//! refused.

use cil_base::NoMemory;
use cil_sets::{Joining, Numbers};
use std::alloc::Global;
use std::cmp::Ordering;
use std::test::Fail;

/// Numbers of the blocks 0, 1 and 1,023, at the bits 0 and 63.
const FAR: &[usize] = &[0, 63, 64, 127, 65_472, 65_535];

/// Some of them, and one more.
const SOME: &[usize] = &[63, 64, 200, 65_535];

/// How the sets of two lists are joined, and the members of what that makes.
type Joined = (
    &'static [usize],
    Joining,
    &'static [usize],
    &'static [usize],
);

const JOINED: &[Joined] = &[
    (
        FAR,
        Joining::Union,
        SOME,
        &[0, 63, 64, 127, 200, 65_472, 65_535],
    ),
    (FAR, Joining::Both, SOME, &[63, 64, 65_535]),
    (FAR, Joining::Either, SOME, &[0, 127, 200, 65_472]),
    (FAR, Joining::Without, SOME, &[0, 127, 65_472]),
    (SOME, Joining::Without, FAR, &[200]),
    (FAR, Joining::Union, &[], FAR),
    (FAR, Joining::Either, FAR, &[]),
];

/// Adds a number, at once or when it is asked again.
fn adds(set: &mut Numbers, number: usize) -> bool {
    set.add(number).is_ok() || set.add(number).is_ok()
}

/// The set of some numbers, which are added from the last on.
fn set_of(alloc: Global, numbers: &[usize]) -> Option<Numbers> {
    let mut set = Numbers::new(alloc);
    for &number in numbers.iter().rev() {
        if !adds(&mut set, number) {
            return None;
        }
    }
    Some(set)
}

/// Whether a set has these members, which rise, and no others. None where there is no memory.
fn has_just(alloc: Global, set: &Numbers, members: &[usize]) -> Option<bool> {
    let all = set.to_vec(alloc).or_else(|_| set.to_vec(alloc)).ok()?;
    let is_so = set.len() == members.len() && set.is_empty() == members.is_empty();
    Some(is_so && all.as_slice() == members)
}

/// Whether a row is so. None where there is no memory.
fn is_joined_so(alloc: Global, row: Joined) -> Option<bool> {
    let (first, how, second, members) = row;
    let first = set_of(alloc, first)?;
    let second = set_of(alloc, second)?;
    let joined = first.joined(alloc, how, &second);
    let joined = joined.or_else(|_| first.joined(alloc, how, &second)).ok()?;
    has_just(alloc, &joined, members)
}

#[test]
fn a_refused_growth_of_a_joined_set(rt: HostRuntime) {
    let alloc = rt.alloc();
    for &row in JOINED {
        let members = row.3;
        assert!(rt; is_joined_so(alloc, row) == Some(true), "{members:?}");
    }
}

/// Whether the set of all numbers below 130 is as it should be. None where there is no memory.
fn is_full_so(alloc: Global) -> Option<bool> {
    let full = Numbers::below(alloc, 130)
        .or_else(|_| Numbers::below(alloc, 130))
        .ok()?;
    Some(full.len() == 130 && full.contains(129) && full.next_from(130).is_none())
}

#[test]
fn a_refused_growth_of_a_full_set(rt: HostRuntime) {
    assert!(rt; is_full_so(rt.alloc()) == Some(true));
}

/// A number, whether it is one of `FAR`, and the least of these from it on.
const NEXT: &[(usize, bool, Option<usize>)] = &[
    (0, true, Some(0)),
    (1, false, Some(63)),
    (63, true, Some(63)),
    (64, true, Some(64)),
    (128, false, Some(65_472)),
    (65_535, true, Some(65_535)),
    (65_536, false, None),
    (usize::MAX, false, None),
];

#[test]
fn members_are_found(rt: HostRuntime) -> Result<(), Fail> {
    let set = set_of(rt.alloc(), FAR).ok_or("no memory")?;
    for &(number, is_there, next) in NEXT {
        let got = (set.contains(number), set.next_from(number));
        assert!(rt; got == (is_there, next), "{number}");
    }
    Ok(())
}

/// Two lists; the least number of both, and which of their sets comes first.
type Pair = (&'static [usize], &'static [usize], Option<usize>, Ordering);

const PAIRS: &[Pair] = &[
    (&[], &[], None, Ordering::Equal),
    (FAR, FAR, Some(0), Ordering::Equal),
    (FAR, SOME, Some(63), Ordering::Greater),
    (&[64], &[65_535], None, Ordering::Less),
    (&[1, 65_535], &[65_535], Some(65_535), Ordering::Greater),
    (&[0, 65_535], &[0, 65_472], Some(0), Ordering::Greater),
];

/// Whether two sets are so. None where there is no memory.
fn is_pair_so(alloc: Global, pair: Pair) -> Option<bool> {
    let (first, second, common, order) = pair;
    let first = set_of(alloc, first)?;
    let second = set_of(alloc, second)?;
    let is_same = (first == second) == (order == Ordering::Equal);
    Some(is_same && first.least_common(&second) == common && first.cmp(&second) == order)
}

#[test]
fn sets_are_compared(rt: HostRuntime) {
    let alloc = rt.alloc();
    for &pair in PAIRS {
        let common = pair.2;
        assert!(rt; is_pair_so(alloc, pair) == Some(true), "{common:?}");
    }
}

#[test]
fn numbers_of_more_than_32_bits_are_out_of_memory(rt: HostRuntime) {
    let alloc = rt.alloc();
    let mut set = Numbers::new(alloc);
    let got = (set.add(4_294_967_295), set.add(4_294_967_296), set.len());
    assert!(rt; got == (Ok(()), Err(NoMemory), 1));
    assert!(rt; Numbers::below(alloc, 4_294_967_296).is_err());
}
