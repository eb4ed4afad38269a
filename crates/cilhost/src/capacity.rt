//! How many decisions the cache of a session's host may hold, as its option `--cache` says.

ghost use Rattle.std.specs.Prelude.{◌≡◌, ◌≤◌, ◌&&◌, Some, IfNone, IfSome, nat_le, option_map, slice_index};
ghost use Rattle.cilhost.specs.Arguments.{AsksForCache, HasNoCapacity, IsCapacity};

use crate::status::Status;
use std::io::Write;

/// How many decisions a cache may hold where the arguments do not say it.
pub const CAPACITY: usize = 512;

/// How many decisions a cache may be asked to hold.
const MOST: usize = 65_536;

/// How many decisions the cache is to hold at most: the number that the word behind `--cache` spells, or 512 without one. There is
/// none where the word is not a number from 1 to 65536, in decimal and without needless zeros.
pub fn capacity_of(size: Option<&str>) -> Option<usize>
    ensures some { IfSome result (AsksForCache (option_map (λ word. word.now) size.entry)) }
    ensures within { IfSome result (λ capacity. (1 ≤ capacity) × (capacity ≤ 65536)) }
    ensures none { IfNone result (HasNoCapacity (option_map (λ word. word.now) size.entry)) }
{
    match size {
        Some(word) => spelled(word),
        None => Some(CAPACITY),
    }
}

/// The number from 1 to 65536 that a word spells.
fn spelled(word: &str) -> Option<usize>
    ensures some { IfSome result (IsCapacity word.now) }
    ensures none { IfNone result (HasNoCapacity (Some word.now)) }
{
    if !begins_from_one(word.as_bytes()) {
        return None;
    }
    match word.parse::<usize>() {
        Ok(number) if 1 <= number && number <= MOST => Some(number),
        _ => None,
    }
}

/// Whether the first byte is a digit from 1 to 9.
fn begins_from_one(bytes: &[u8]) -> bool
    ensures { result ≡ (nat_le 49 (slice_index bytes.now 0) && nat_le (slice_index bytes.now 0) 57) }
{
    match bytes {
        [first, ..] => b'1' <= *first && *first <= b'9',
        [] => false,
    }
}

/// Writes that the word behind `--cache` is wrong, and returns the status to end with.
pub fn refuse<E: Write>(size: Option<&str>, messages: &mut E) -> Status
    ensures { result ≡ Status.Usage }
{
    let word = size.unwrap_or("");
    let _ = writeln!(
        messages,
        "error: invalid value '{word}' for '--cache <N>': not a number from 1 to 65536\n\nFor more information, try '--help'."
    );
    Status::Usage
}
