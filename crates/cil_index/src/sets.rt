//! Sets of types by numbers.

ghost use Rattle.std.specs.Prelude.{◌≡◌, ◌+◌, ◌↔◌, ◌<◌, ℕ, suc, [], ◌∷◌, Contains, IfOk, IsTrue, List, OnOk, Some, length, slice_get};
ghost use Rattle.std.specs.List.Sorted.{IsStrictlySortedBy};
ghost use Rattle.cil_sets.specs.Answers.{set_cmp};
ghost use Rattle.cil_index.specs.Entries.{key_of_set};
ghost use Rattle.cil_index.specs.Listed.{members_of};
ghost use Rattle.cil_index.specs.Sets.{AreNumbered, IsSmallNumber, all_sets, set_of};

use crate::key::type_key;
use crate::listed::TypeSet;
use cil_base::NoMemory;
use cil_sets::Numbers;
use std::alloc::Global;
use std::marker::Model;

/// Sets of types, in any order, and some of them several times.
#[derive(Drop)]
struct Gathered {
    ones: u32,
    several: Vec<Numbers>,
}

impl Model for Gathered {
    ghost use Rattle.std.specs.Prelude.{List, ℕ};
    ghost use Rattle.cil_index.specs.Sets.{all_sets, AreSeveral};

    ghost Value = { List (List ℕ) };

    ghost view = { λ a. all_sets a.ones a.several.items };

    ghost invariant = { λ a. AreSeveral a.several.items };
}

impl Gathered {
    /// No sets but the empty one.
    fn new(alloc: Global) -> Gathered {
        Gathered {
            ones: 0,
            several: Vec::new(alloc),
        }
    }

    /// Adds a set. Errors: out of memory.
    fn add(&mut self, alloc: Global, set: &Numbers) -> Result<(), NoMemory>
        ensures stays { (other : List ℕ) → Contains self.old other → Contains self.new other }
        ensures added { OnOk result (Contains self.new set.now) }
    {
        if set.len() < 2 {
            return self.add_small(set);
        }
        let same = set.try_clone(alloc)?;
        self.several.push(same)?;
        Ok(())
    }

    /// Adds a set of one type, and with it those of the types below; the empty set is there. Beyond 4,294,967,294 it is out of memory.
    fn add_small(&mut self, set: &Numbers) -> Result<(), NoMemory>
        requires { length set.now < 2 }
        ensures stays { (other : List ℕ) → Contains self.old other → Contains self.new other }
        ensures added { OnOk result (Contains self.new set.now) }
    {
        let ones = self.ones as usize;
        let Some(number) = set.next_from(0) else {
            return Ok(());
        };
        if number >= u32::MAX as usize {
            return Err(NoMemory);
        }
        if ones <= number {
            self.ones = number as u32 + 1;
        }
        Ok(())
    }
}

/// Distinct sets of types, in their order: first the empty one, then one of each type alone, and then those of several types. The number
/// of a set is its place.
#[derive(Debug, Drop)]
pub struct Sets {
    ones: u32,
    several: Vec<Numbers>,
}

impl Model for Sets {
    ghost use Rattle.std.specs.Prelude.{List, ℕ};
    ghost use Rattle.std.specs.List.Sorted.{IsStrictlySortedBy};
    ghost use Rattle.cil_sets.specs.Answers.{set_cmp};
    ghost use Rattle.cil_index.specs.Sets.{all_sets, AreSeveral};

    ghost Value = { List (List ℕ) };

    ghost view = { λ a. all_sets a.ones a.several.items };

    ghost invariant = { λ a. AreSeveral a.several.items × IsStrictlySortedBy set_cmp a.several.items };
}

/// The sets of several types, and how many of one type alone stand in front of them.
#[derive(Clone, Copy)]
pub struct Parts<'s> {
    pub ones: u32,
    pub several: &'s [Numbers],
}

impl Sets {
    /// Some sets, each once. It costs a step for each of their blocks, and a sort of the sets of several types. Errors: out of memory.
    pub fn of(alloc: Global, named: &[Numbers]) -> Result<Sets, NoMemory>
        ensures rising { IfOk result (IsStrictlySortedBy set_cmp) }
        ensures empty { IfOk result (λ sets. slice_get sets 0 ≡ Some []) }
        ensures all { IfOk result (λ sets. (set : List ℕ) → Contains named.now set → Contains sets set) }
    {
        let gathered = gathered_from(alloc, named)?;
        Ok(sorted(gathered))
    }

    /// Whether the set of this number has the type.
    pub fn has(&self, set: u32, number: usize) -> bool
        ensures { IsTrue result ↔ Contains (set_of self.now set) number }
    {
        let ones = self.ones;
        if set == 0 {
            return false;
        }
        if set <= ones {
            return (set - 1) as usize == number;
        }
        match self.several.get((set - ones - 1) as usize) {
            Some(set) => set.contains(number),
            None => false,
        }
    }

    /// The set of this number; the empty one where there is none. It takes no memory.
    pub fn set(&self, number: u32) -> TypeSet<'_>
        ensures { members_of result ≡ set_of self.now number }
    {
        let ones = self.ones;
        if number == 0 {
            return TypeSet::Empty;
        }
        if number <= ones {
            return TypeSet::One(number - 1);
        }
        match self.several.get((number - ones - 1) as usize) {
            Some(set) => TypeSet::Several(set),
            None => TypeSet::Empty,
        }
    }

    /// How many there are.
    pub fn count(&self) -> usize
        ensures { result ≡ length self.now }
    {
        self.several.len() + self.ones as usize + 1
    }

    /// The number that is so much behind that of the first one behind all.
    pub fn behind(&self, number: u32) -> usize
        ensures { result ≡ length self.now + number }
    {
        self.ones as usize + self.several.len() + 1 + number as usize
    }

    /// Whether there is a set of this number.
    pub fn is_number(&self, set: u32) -> bool
        ensures { IsTrue result ↔ (set < length self.now) }
    {
        (set as usize) < self.count()
    }

    /// Those of several types, and how many sets of one type alone stand in front of them.
    pub fn parts(&self) -> Parts<'_>
        ensures { all_sets result.ones result.several.now ≡ self.now }
    {
        Parts {
            ones: self.ones,
            several: self.several.as_slice(),
        }
    }

    /// What stands for a set as a target: its type, where it has just one, or something else.
    pub fn key(&self, set: u32, other: u32) -> u32
        ensures { result ≡ key_of_set other (set_of self.now set) }
    {
        let ones = self.ones;
        if set == 0 {
            return other;
        }
        if set > ones {
            return other;
        }
        type_key((set - 1) as usize)
    }

    /// The number of a set that is among them. Errors: out of memory, which is the answer if there are more than 4,294,967,295.
    pub fn number(&self, set: &Numbers) -> Result<u32, NoMemory>
        requires { Contains self.now set.now }
        ensures { IfOk result (λ n. slice_get self.now n ≡ Some set.now) }
    {
        let several = self.several.as_slice();
        if set.len() < 2 {
            return small_number(set);
        }
        match several.binary_search(set) {
            Ok(place) => next(place + self.ones as usize),
            Err(_) => unreachable!(),
        }
    }
}

/// The number of the empty set, or of one type alone. Beyond 4,294,967,295 it is out of memory.
fn small_number(set: &Numbers) -> Result<u32, NoMemory>
    requires { length set.now < 2 }
    ensures { IfOk result (λ n. IsSmallNumber set.now n) }
{
    match set.next_from(0) {
        Some(number) => next(number),
        None => Ok(0),
    }
}

/// For each of some sets its number among the distinct ones. Errors: out of memory.
pub fn numbers_of(alloc: Global, sets: &Sets, named: &[Numbers]) -> Result<Vec<u32>, NoMemory>
    requires empty { slice_get sets.now 0 ≡ Some [] }
    requires there { (set : List ℕ) → Contains named.now set → Contains sets.now set }
    ensures { IfOk result (λ numbers. AreNumbered sets.now named.now numbers.items) }
{
    let mut numbers = Vec::with_capacity(alloc, named.len())?;
    for set in named {
        numbers.push(sets.number(set)?)?;
    }
    Ok(numbers)
}

/// Some sets. Errors: out of memory.
fn gathered_from(alloc: Global, named: &[Numbers]) -> Result<Gathered, NoMemory>
    ensures { IfOk result (λ sets. (set : List ℕ) → Contains named.now set → Contains sets set) }
{
    let mut gathered = Gathered::new(alloc);
    for set in named {
        gathered.add(alloc, set)?;
    }
    Ok(gathered)
}

/// The same sets in their order, each once.
fn sorted(gathered: Gathered) -> Sets
    ensures rising { IsStrictlySortedBy set_cmp result }
    ensures empty { slice_get result 0 ≡ Some [] }
    ensures all { (set : List ℕ) → Contains gathered set → Contains result set }
{
    let Gathered { ones, mut several } = gathered;
    several.sort_unstable();
    several.dedup();
    Sets { ones, several }
}

/// The number behind another, in four bytes. Beyond 4,294,967,295 it is out of memory.
fn next(number: usize) -> Result<u32, NoMemory>
    ensures { IfOk result (λ n. n ≡ suc number) }
{
    if number >= u32::MAX as usize {
        return Err(NoMemory);
    }
    Ok(number as u32 + 1)
}
