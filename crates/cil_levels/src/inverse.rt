//! The place of each number in a row of them.

ghost use Rattle.std.specs.Prelude.{◌≡◌, ◌<◌, ◌≤◌, ℕ, All, IfOk, get_or, length};
ghost use Rattle.cil_levels.specs.Begun.{AreInverse, AreOnce};

use cil_base::NoMemory;
use std::alloc::Global;

/// For each number below a count its place in a row, which has no number twice; 0 for one that is not in it. It costs a step for each.
/// Error: out of memory.
pub fn inverse_of(alloc: Global, row: &[usize], count: usize) -> Result<Vec<usize>, NoMemory>
    requires within { All (λ n. n < count) row.now }
    requires once { AreOnce row.now }
    requires few { length row.now ≤ 1024 }
    ensures inverse { IfOk result (λ places. AreInverse row.now places.items) }
    ensures few { IfOk result (λ places. (n : ℕ) → get_or places.items n 0 < 1024) }
{
    let mut places = vec![in alloc; 0; count]?;
    for at in 0..row.len() {
        places[row[at]] = at;
    }
    Ok(places)
}

/// The place of a number.
pub fn place_at(places: &[usize], number: usize) -> usize
    ensures { result ≡ get_or places.now number 0 }
{
    match places.get(number) {
        Some(place) => *place,
        None => 0,
    }
}
