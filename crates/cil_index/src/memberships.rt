//! The sets that have a type: by these the rules are found that have it among several sources, and tested whether they reach it.

ghost use Rattle.std.specs.Prelude.{◌≡◌, ◌≤◌, ◌<◌, ◌+◌, ◌%◌, ◌⊎◌, ◌↔◌, ℕ, [], Contains, IfOk, IsTrue, OnOk, get_or, length};
ghost use Rattle.cil_index.specs.Memberships.{AreAtMost, AreFilters, AreMemberships, AreNotedBelow, AreNotedSets, HasBit, IsFilter, IsNoted, IsNotedIn, IsNotedSet};

use crate::rising::Rising;
use crate::sets::Sets;
use cil_base::{NoMemory, short};
use cil_sets::Numbers;
use std::alloc::Global;

/// From the first set on that has more types than this, sets are asked for every type: they stand in the order of their lengths. So the numbers
/// that are kept for the types of a set are bounded, and a set that has many of them is mostly asked for one of them.
const MANY: usize = 1_024;

/// So many words of 64 bits has a filter: where a policy has no more sets of several types than bits, each set has a bit of its own.
pub const WORDS: usize = 8;

/// So many bits has a filter.
const BITS: usize = WORDS * 64;

/// The numbers of the sets of several types that have a type. They take four bytes for each type of each set, and 88 for each type.
#[derive(Debug, Drop)]
pub struct Memberships {
    /// The sets from this number on have several types, or none.
    first_several: usize,
    /// The sets from this number on are asked for every type.
    pub first_large: usize,
    /// For each type the numbers of the others that have it.
    lists: Vec<Rising>,
    /// For each type a bit for each of these, by what 512 leaves of it: nearly all sets that lack the type are known by it, and all where the sets are
    /// no more than the bits.
    filters: Vec<[u64; WORDS]>,
}

impl Memberships {
    /// Those of some sets. It costs a step for each type of each set of several, but for large ones. Errors: out of memory.
    pub fn of(alloc: Global, sets: &Sets) -> Result<Memberships, NoMemory>
        ensures { IfOk result (AreMemberships sets.now) }
    {
        let parts = sets.parts();
        let memberships = noted(alloc, parts.ones, parts.several)?;
        Ok(memberships)
    }

    /// The numbers of the sets that have a type, and that are not large; none for a type that is in no such set.
    pub fn of_type(&self, number: usize) -> &[u32]
        ensures { result.now ≡ get_or self.now.lists.items number [] }
    {
        match self.lists.get(number) {
            Some(numbers) => numbers.as_slice(),
            None => &[],
        }
    }

    /// A bit for each number of the sets that have a type, by what 512 leaves of it.
    pub fn filter(&self, number: usize) -> [u64; WORDS]
        requires { AreFilters self.now.lists.items self.now.filters.items }
        ensures { IsFilter (get_or self.now.lists.items number []) result }
    {
        match self.filters.get(number) {
            Some(filter) => *filter,
            None => [0; WORDS],
        }
    }

    /// Whether a set is noted for its types: it has several of them, and is not large.
    pub fn notes(&self, set: u32) -> bool
        ensures { IsTrue result ↔ IsNotedSet self.now set }
    {
        self.first_several <= set as usize && (set as usize) < self.first_large
    }

    /// Whether such a set is noted for a type. Where each set has a bit of its own it costs a test of this bit, and else a search by halving in the numbers of
    /// the type.
    pub fn has(&self, number: usize, set: u32) -> bool
        requires noted { IsNotedSet self.now set }
        requires within { AreNotedSets self.now }
        requires filters { AreFilters self.now.lists.items self.now.filters.items }
        ensures { IsTrue result ↔ Contains (get_or self.now.lists.items number []) set }
    {
        if self.have_own_bits() {
            return self.has_bit(number, set);
        }
        self.is_listed(number, set)
    }

    /// Whether the sets that are noted are no more than the bits of a filter.
    fn have_own_bits(&self) -> bool
        ensures { IsTrue result → self.now.first_large ≤ self.now.first_several + 512 }
    {
        self.first_large.saturating_sub(self.first_several) <= BITS
    }

    /// Whether the filter of a type has the bit of a set.
    fn has_bit(&self, number: usize, set: u32) -> bool
        ensures { IsTrue result ↔ HasBit (get_or self.now.filters.items number []) set }
    {
        match self.filters.get(number) {
            Some(filter) => has_bit(filter, set),
            None => false,
        }
    }

    /// Whether a set is among the numbers of a type. It costs a search by halving.
    fn is_listed(&self, number: usize, set: u32) -> bool
        ensures { IsTrue result ↔ Contains (get_or self.now.lists.items number []) set }
    {
        match self.lists.get(number) {
            Some(numbers) => numbers.has(set),
            None => false,
        }
    }
}

/// Those of these sets, where so many of one type alone stand in front. Errors: out of memory.
fn noted(alloc: Global, ones: u32, several: &[Numbers]) -> Result<Memberships, NoMemory>
    ensures { IfOk result (AreNotedBelow ones several.now) }
{
    let mut lists = Vec::new(alloc);
    let small = before_large(several);
    for place in 0..small {
        let number = short(place + ones as usize + 1)?;
        add_set(alloc, &mut lists, &several[place], number)?;
    }
    let filters = filters_of(alloc, lists.as_slice())?;
    let first_several = ones as usize + 1;
    let first_large = small + ones as usize + 1;
    Ok(Memberships {
        first_several,
        first_large,
        lists,
        filters,
    })
}

/// For each of some lists its bits. Errors: out of memory.
fn filters_of(alloc: Global, lists: &[Rising]) -> Result<Vec<[u64; WORDS]>, NoMemory>
    ensures { IfOk result (λ filters. AreFilters lists.now filters.items) }
{
    let mut filters = Vec::with_capacity(alloc, lists.len())?;
    for numbers in lists {
        filters.push(filter_of(numbers.as_slice()))?;
    }
    Ok(filters)
}

/// A bit for each number, by what 512 leaves of it.
fn filter_of(numbers: &[u32]) -> [u64; WORDS]
    ensures { IsFilter numbers.now result }
{
    let mut filter = [0; WORDS];
    for number in numbers {
        add_bit(&mut filter, *number);
    }
    filter
}

/// Adds the bit of a number.
fn add_bit(filter: &mut [u64; WORDS], number: u32)
    ensures added { HasBit filter.new number }
    ensures stays { (n : ℕ) → HasBit filter.old n → HasBit filter.new n }
    ensures only { (n : ℕ) → HasBit filter.new n → HasBit filter.old n ⊎ (number % 512 ≡ n % 512) }
{
    let place = number as usize / 64 % WORDS;
    let word = filter[place];
    filter[place] = word | (1 << (number % 64));
}

/// Whether the bit of a number is there.
pub fn has_bit(filter: &[u64; WORDS], number: u32) -> bool
    ensures { IsTrue result ↔ HasBit filter.now number }
{
    filter[number as usize / 64 % WORDS] & (1 << (number % 64)) != 0
}

/// How many sets stand before the first large one.
fn before_large(several: &[Numbers]) -> usize
    ensures { result ≤ length several.now }
{
    for place in 0..several.len() {
        if several[place].len() > MANY {
            return place;
        }
    }
    several.len()
}

/// Adds the number of a set to the list of each of its types. Errors: out of memory.
fn add_set(
    alloc: Global,
    lists: &mut Vec<Rising>,
    set: &Numbers,
    number: u32,
) -> Result<(), NoMemory>
    requires { AreAtMost number lists.now.items }
    ensures { OnOk result (IsNotedIn lists.old.items set.now number lists.new.items) }
{
    let types = set.to_vec(alloc)?;
    for of_type in &types {
        add_to(alloc, lists, *of_type, number)?;
    }
    Ok(())
}

/// Adds the number of a set to the list of a type. Errors: out of memory.
fn add_to(
    alloc: Global,
    lists: &mut Vec<Rising>,
    of_type: usize,
    number: u32,
) -> Result<(), NoMemory>
    requires { AreAtMost number lists.now.items }
    ensures { OnOk result (IsNoted lists.old.items of_type number lists.new.items) }
{
    grow(alloc, lists, of_type)?;
    lists[of_type].push(number)?;
    Ok(())
}

/// Makes room for the list of a type. Errors: out of memory.
fn grow(alloc: Global, lists: &mut Vec<Rising>, of_type: usize) -> Result<(), NoMemory>
    ensures there { OnOk result (of_type < length lists.new.items) }
    ensures same { OnOk result ((t : ℕ) → get_or lists.new.items t [] ≡ get_or lists.old.items t []) }
{
    while lists.len() <= of_type {
        lists.push(Rising::new(alloc))?;
    }
    Ok(())
}
