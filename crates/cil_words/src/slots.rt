//! Guesses where something is, by numbers of slots. Nothing is proved of them: a guess is checked where it is used.

/// How many slots there are, a power of two.
const SLOTS: usize = 16_384;

/// The place that a slot tells.
pub fn guess_at(slots: &[u32], slot: usize) -> Option<usize> {
    let next = *slots.get(slot)?;
    (next as usize).checked_sub(1)
}

/// Notes where something is: in its slot, or in the one beside it if that is free and its own is not. The first note makes the slots.
pub fn note(slots: &mut Vec<u32>, slot: usize, place: usize) {
    if slots.is_empty() {
        for _ in 0..SLOTS {
            if slots.push(0).is_err() {
                return;
            }
        }
    }
    let Ok(small) = u32::try_from(place) else {
        return;
    };
    let beside = slot ^ 1;
    let chosen = if is_free(slots.as_slice(), beside) && !is_free(slots.as_slice(), slot) {
        beside
    } else {
        slot
    };
    if let Some(there) = slots.get_mut(chosen) {
        *there = small.wrapping_add(1);
    }
}

/// The slot of some numbers. The hash need not be a good one, since guesses are checked.
pub fn slot_of(numbers: &[usize]) -> usize {
    let mut mixed = 0u64;
    for number in numbers {
        mixed = mixed
            .wrapping_add(*number as u64)
            .wrapping_add(1)
            .wrapping_mul(0x9e37_79b9_7f4a_7c15);
    }
    (mixed >> 50) as usize
}

/// Whether a slot tells nothing.
fn is_free(slots: &[u32], slot: usize) -> bool {
    guess_at(slots, slot).is_none()
}
