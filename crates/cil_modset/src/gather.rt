//! Merges two sorted lists into one: texts are moved, not copied.

ghost use Rattle.std.specs.Prelude.{◌≡◌, ◌+◌, ◌≤◌, false, [], length, IsTrue, IfSome, IfNone, vec_len, vec_capacity};
ghost use Rattle.cil_modset.specs.Modules.{IsRising, IsUnion, texts_of};
ghost use Rattle.cil_modset.specs.Gather.{EndsLast, IsTakenFrom, AreApart};

use crate::order::is_below;

/// The texts of two sorted lists that have none in common, as one sorted list in the memory of `room`.
pub(crate) fn gather(
    mut low: Vec<Vec<u8>>,
    mut high: Vec<Vec<u8>>,
    mut room: Vec<Vec<u8>>,
) -> Vec<Vec<u8>>
    requires low { IsRising (texts_of low.items) }
    requires high { IsRising (texts_of high.items) }
    requires apart { AreApart (texts_of low.items) (texts_of high.items) }
    requires empty { texts_of room.items ≡ [] }
    requires room { vec_len low + vec_len high ≤ vec_capacity room }
    ensures union { IsUnion (texts_of low.items) (texts_of high.items) (texts_of result.items) }
    ensures length { length (texts_of result.items) ≡ length (texts_of low.items) + length (texts_of high.items) }
{
    while let Some(text) = take_last(&mut low, &mut high) {
        room.push(text).unwrap();
    }
    room.reverse();
    room
}

/// Removes the greatest text from two sorted lists, and returns it.
fn take_last(low: &mut Vec<Vec<u8>>, high: &mut Vec<Vec<u8>>) -> Option<Vec<u8>>
    ensures taken { IfSome result (λ text. IsTakenFrom (texts_of low.old.items) (texts_of high.old.items)
        (texts_of low.new.items) (texts_of high.new.items) text.items) }
    ensures len { IfSome result (λ _. vec_len low.new + vec_len high.new + 1 ≡ vec_len low.old + vec_len high.old) }
    ensures none { IfNone result ((texts_of low.old.items ≡ []) × (texts_of high.old.items ≡ [])) }
{
    if ends_last(high.as_slice(), low.as_slice()) {
        high.pop()
    } else {
        low.pop()
    }
}

/// Whether the last text of the first list is after the last text of the second. The last text of a list is after an
/// empty list.
fn ends_last(first: &[Vec<u8>], second: &[Vec<u8>]) -> bool
    ensures first { IsTrue result → EndsLast (texts_of first.now) (texts_of second.now) }
    ensures second { result ≡ false → EndsLast (texts_of second.now) (texts_of first.now) }
    ensures first_none { IsTrue result → texts_of first.now ≡ [] → texts_of second.now ≡ [] }
    ensures second_some { result ≡ false → texts_of second.now ≡ [] → ⊥ }
{
    match (first.last(), second.last()) {
        (Some(a), Some(b)) => is_below(b.as_slice(), a.as_slice()),
        (Some(_), None) => true,
        (None, Some(_)) => false,
        (None, None) => true,
    }
}
