//! Guesses where the permissions of classes are. Nothing is proved of them: a guess is checked where it is used.

use cil_names::hash_of;
use std::alloc::Global;

/// How many slots there are, a power of two.
const SLOTS: usize = 16_384;

/// In how many slots, one after another, a permission may be noted.
const WAYS: usize = 4;

/// The upper half of a slot.
const UPPER: u64 = 0xffff_ffff_0000_0000;

/// The lower half of a slot.
const LOWER: u64 = 0x0000_0000_ffff_ffff;

/// Where permissions may be, by hashes of their classes and names. It takes 131,072 bytes, whatever the policy, and none before
/// the first permission is noted.
#[derive(Drop)]
pub struct Hints {
    /// In the upper half of a slot a part of a hash, and in the lower one the place of a permission plus 1; or 0.
    slots: Vec<u64>,
}

/// Where a permission may be.
#[derive(Clone, Copy)]
pub struct Hint {
    /// The hash of its class and its name.
    hash: u64,
    /// Its place, if one was noted.
    pub place: Option<usize>,
}

impl Hint {
    /// No hint.
    pub fn none() -> Hint {
        Hint {
            hash: 0,
            place: None,
        }
    }
}

impl Hints {
    /// No hints.
    pub fn new(alloc: Global) -> Hints {
        Hints {
            slots: Vec::new(alloc),
        }
    }

    /// Where the permission of a name may be, of the class that is the entry of a number.
    pub fn hint(&self, class: usize, name: &[u8]) -> Hint {
        let hash = (hash_of(name) ^ class as u64).wrapping_mul(0x9e37_79b9_7f4a_7c15);
        Hint {
            hash,
            place: self.place(hash),
        }
    }

    /// The place that was noted for a hash.
    fn place(&self, hash: u64) -> Option<usize> {
        let first = first_slot(hash);
        for way in 0..WAYS {
            let slot = *self.slots.get(first.wrapping_add(way))?;
            if slot & UPPER == tag_of(hash) {
                return ((slot & LOWER) as usize).checked_sub(1);
            }
        }
        None
    }

    /// Notes where a permission is: in a slot of its hash that is free or was noted for that hash, and else in any of its slots.
    pub fn note(&mut self, hint: &Hint, place: usize) {
        if self.slots.is_empty() && !self.fill() {
            return;
        }
        let Ok(small) = u32::try_from(place) else {
            return;
        };
        let chosen = self.free(hint.hash);
        if let Some(slot) = self.slots.get_mut(chosen) {
            *slot = tag_of(hint.hash) | (small as u64).wrapping_add(1);
        }
    }

    /// Makes the slots. It tells whether there was memory for them.
    fn fill(&mut self) -> bool {
        for _ in 0..SLOTS {
            if self.slots.push(0).is_err() {
                return false;
            }
        }
        true
    }

    /// The slot in which a permission of a hash is noted.
    fn free(&self, hash: u64) -> usize {
        let first = first_slot(hash);
        for way in 0..WAYS {
            let next = first.wrapping_add(way);
            match self.slots.get(next) {
                Some(slot) => {
                    if *slot == 0 || *slot & UPPER == tag_of(hash) {
                        return next;
                    }
                }
                None => return first,
            }
        }
        first.wrapping_add((hash & 3) as usize)
    }
}

/// The first slot of a hash: its upper 12 bits choose four.
fn first_slot(hash: u64) -> usize {
    ((hash >> 52) as usize).wrapping_mul(WAYS)
}

/// What is kept of a hash.
fn tag_of(hash: u64) -> u64 {
    (hash << 12) & UPPER
}
