//! Guesses where the entries of a name begin. Nothing is proved of them: a guess is checked where it is used.

use crate::entry::Entry;
use crate::namesakes::is_named;
use cil_base::NoMemory;
use std::alloc::Global;

/// In how many slots, one after another, a name may be noted.
pub const WAYS: usize = 4;

/// How many entries of a name in a name space are few.
pub const FEW: usize = 8;

/// Of a longer name only its ends are hashed.
const LONGEST_HASHED: usize = 64;

/// How many bytes are hashed at each end of a longer name.
const HASHED_END: usize = 32;

/// Where the entries of names may be, by hashes of the names. It takes 16 to 32 bytes for an entry.
#[derive(Debug, Drop)]
pub struct Guesses {
    /// The number of an entry plus 1, or 0. There are four for each entry at least, a power of two of them, and `WAYS`
    /// more, so that each slot has as many behind it.
    slots: Vec<u32>,
}

impl Guesses {
    /// Guesses for these entries, which rise. Of the entries of a name in a name space the first is noted, if there are few
    /// and one of the slots of the name is free.
    pub fn of(alloc: Global, entries: &[Entry]) -> Result<Guesses, NoMemory> {
        let size = size_for(entries.len());
        let mut slots = Vec::with_capacity(alloc, size)?;
        for _ in 0..size {
            slots.push(0)?;
        }
        let mut guesses = Guesses { slots };
        for place in 0..entries.len() {
            guesses.note(entries, place);
        }
        Ok(guesses)
    }

    /// Notes where the entries of a name begin, unless they are many or there is no room.
    fn note(&mut self, entries: &[Entry], place: usize) {
        let Some(entry) = entries.get(place) else {
            return;
        };
        if !is_first_of_few(entries, place, entry) {
            return;
        }
        let Some(free) = self.free(entry.name.as_slice()) else {
            return;
        };
        let Ok(small) = u32::try_from(place) else {
            return;
        };
        if let Some(slot) = self.slots.get_mut(free) {
            *slot = small.wrapping_add(1);
        }
    }

    /// The first slot of a name that is free.
    fn free(&self, name: &[u8]) -> Option<usize> {
        let slot = self.slot(name);
        for way in 0..WAYS {
            if self.guess(slot, way).is_none() {
                return Some(slot.wrapping_add(way));
            }
        }
        None
    }

    /// The number of an entry that may have the name of a slot: those of several ways are tried one after another. Where
    /// one way has none, the ways behind it have none.
    pub fn guess(&self, slot: usize, way: usize) -> Option<usize> {
        let next = *self.slots.get(slot.wrapping_add(way))?;
        (next as usize).checked_sub(1)
    }

    /// The first slot of a name.
    pub fn slot(&self, name: &[u8]) -> usize {
        match self.slots.len().checked_sub(WAYS + 1) {
            None => 0,
            Some(most) => (hash_of(name) as usize) & most,
        }
    }
}

/// Whether an entry is the first of its name in its name space, and not many others have that name.
fn is_first_of_few(entries: &[Entry], place: usize, entry: &Entry) -> bool {
    let name = entry.name.as_slice();
    let rank = entry.kind.rank();
    if is_named(entries, place.wrapping_sub(1), name, rank) {
        return false;
    }
    !is_named(entries, place.wrapping_add(FEW), name, rank)
}

/// The number of slots for so many entries.
fn size_for(entries: usize) -> usize {
    let mut size: usize = 16;
    for _ in 0..28 {
        if size < entries {
            size = size.wrapping_mul(2);
        }
    }
    size.wrapping_mul(4).wrapping_add(WAYS)
}

/// A hash of a name, by at most 64 of its bytes. It need not be a good one, since guesses are checked.
pub fn hash_of(name: &[u8]) -> u64 {
    let length = name.len();
    if length <= LONGEST_HASHED {
        return folded(hashed(FIRST_HASH, name));
    }
    let front = hashed(FIRST_HASH ^ length as u64, &name[..HASHED_END]);
    folded(hashed(front, &name[length - HASHED_END..]))
}

/// The first hash of FNV-1a.
const FIRST_HASH: u64 = 0xcbf2_9ce4_8422_2325;

/// FNV-1a over some bytes, after a hash.
fn hashed(first: u64, bytes: &[u8]) -> u64 {
    let mut hash = first;
    for byte in bytes {
        hash = (hash ^ *byte as u64).wrapping_mul(0x0000_0100_0000_01b3);
    }
    hash
}

/// A hash whose lower half depends on the upper one.
fn folded(hash: u64) -> u64 {
    hash ^ (hash >> 32)
}
