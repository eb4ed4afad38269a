//! Permissions of classes, each with the number that it has in its class.

ghost use Rattle.std.specs.Prelude.{◌≡◌, ◌++◌, ◌∷◌, [], IfOk, IfSome, IsTrue, OnErr, OnOk, Some, slice_get};
ghost use Rattle.cil_names.specs.Entries.{listed};
ghost use Rattle.cil_words.specs.Cells.{IsLonger, IsPair};

use crate::cells::one;
use crate::hints::{Hint, Hints};
use crate::number_lists::{number_at, push_number};
use crate::slots::{guess_at, note, slot_of};
use cil_base::NoMemory;
use cil_names::Meaning;
use std::alloc::Global;

/// Permissions of classes. Nearly always a permission is there once: a guess tells where it is, by its name or by its number. A
/// guess is checked where it is used, so nothing is proved of the guesses.
#[derive(Drop)]
pub struct Pairs {
    /// The entry of the class of each.
    pub owners: Vec<u32>,
    /// The number of each in its class.
    pub places: Vec<Meaning>,
    /// Where a permission may be, plus 1, by a hash of its number; or 0.
    slots: Vec<u32>,
    /// Where a permission may be, by its name.
    hints: Hints,
}

/// Where a permission may be, and the number that it may have in its class.
#[derive(Clone, Copy)]
pub struct Guess {
    hint: Hint,
    /// The number.
    pub number: Option<usize>,
}

impl Guess {
    /// No guess.
    pub fn none() -> Guess {
        Guess {
            hint: Hint::none(),
            number: None,
        }
    }
}

impl Pairs {
    /// No permissions.
    pub fn new(alloc: Global) -> Pairs
        ensures { result.owners.items ≡ [] }
    {
        Pairs {
            owners: Vec::new(alloc),
            places: Vec::new(alloc),
            slots: Vec::new(alloc),
            hints: Hints::new(alloc),
        }
    }

    /// Where the permission of a name may be, of the class that is the entry of a number. It costs a hash.
    pub fn guess(&self, class: usize, name: &[u8]) -> Guess {
        let hint = self.hints.hint(class, name);
        Guess {
            hint,
            number: self.guessed_number(&hint),
        }
    }

    /// The number of the permission at a place that was guessed.
    fn guessed_number(&self, hint: &Hint) -> Option<usize> {
        self.places.get(hint.place?)?.entry()
    }

    /// The class of a permission, as a list of one entry.
    pub fn owner(&self, place: usize) -> &[u32]
        ensures { result.now ≡ listed (slice_get self.now.owners.items place) }
    {
        let owners = self.owners.as_slice();
        match number_at(owners, place) {
            None => &[],
            Some(_) => one(owners, place),
        }
    }

    /// The number that a permission has in its class.
    pub fn number(&self, place: usize) -> Option<Option<usize>>
        ensures { result ≡ slice_get self.now.places.items place }
    {
        match self.places.get(place) {
            None => None,
            Some(number) => Some(number.entry()),
        }
    }

    /// The place of a permission, for which there is a guess. It is added if no guess finds it. Error: out of memory.
    pub fn place_of(
        &mut self,
        class: usize,
        number: Option<usize>,
        guess: &Guess,
    ) -> Result<usize, NoMemory>
        ensures pair { IfOk result (IsPair self.new.owners.items self.new.places.items class number) }
        ensures owners { IsLonger self.old.owners.items self.new.owners.items }
        ensures places { IsLonger self.old.places.items self.new.places.items }
    {
        if let Some(place) = self.there(guess.hint.place, class, number) {
            return Ok(place);
        }
        let place = self.place_by_number(class, number)?;
        self.hints.note(&guess.hint, place);
        Ok(place)
    }

    /// The place of a permission, by its number. It is added if no guess finds it.
    fn place_by_number(&mut self, class: usize, number: Option<usize>) -> Result<usize, NoMemory>
        ensures pair { IfOk result (IsPair self.new.owners.items self.new.places.items class number) }
        ensures owners { IsLonger self.old.owners.items self.new.owners.items }
        ensures places { IsLonger self.old.places.items self.new.places.items }
    {
        let slot = slot_of(&[class, number.unwrap_or(usize::MAX)]);
        if let Some(place) = self.found(slot, class, number) {
            return Ok(place);
        }
        let place = self.add(class, number)?;
        note(&mut self.slots, slot, place);
        Ok(place)
    }

    /// The place of a permission, if a guess by its slot finds it.
    fn found(&self, slot: usize, class: usize, number: Option<usize>) -> Option<usize>
        ensures { IfSome result (IsPair self.now.owners.items self.now.places.items class number) }
    {
        let slots = self.slots.as_slice();
        if let Some(place) = self.there(guess_at(slots, slot), class, number) {
            return Some(place);
        }
        self.there(guess_at(slots, slot ^ 1), class, number)
    }

    /// A place that was guessed, if the permission is there.
    fn there(&self, guess: Option<usize>, class: usize, number: Option<usize>) -> Option<usize>
        ensures { IfSome result (IsPair self.now.owners.items self.now.places.items class number) }
    {
        let Some(place) = guess else {
            return None;
        };
        if !is_owner(self.owners.as_slice(), place, class) {
            return None;
        }
        if !is_number(self.places.as_slice(), place, number) {
            return None;
        }
        Some(place)
    }

    /// Adds a permission behind the others.
    fn add(&mut self, class: usize, number: Option<usize>) -> Result<usize, NoMemory>
        ensures pair { IfOk result (IsPair self.new.owners.items self.new.places.items class number) }
        ensures owners { IsLonger self.old.owners.items self.new.owners.items }
        ensures places { IsLonger self.old.places.items self.new.places.items }
    {
        let place = self.owners.len();
        // The lists are as long as each other, but after an error.
        if place != self.places.len() {
            return Err(NoMemory);
        }
        push_place(&mut self.places, number)?;
        push_number(&mut self.owners, class)?;
        Ok(place)
    }
}

/// Adds a number.
fn push_place(places: &mut Vec<Meaning>, number: Option<usize>) -> Result<(), NoMemory>
    ensures pushed { OnOk result (places.new.items ≡ places.old.items ++ number ∷ []) }
    ensures err { OnErr result (places.new.items ≡ places.old.items) }
{
    let place = Meaning::of(number)?;
    places.push(place)?;
    Ok(())
}

/// Whether the class of the permission at a place is this one.
fn is_owner(owners: &[u32], place: usize, class: usize) -> bool
    ensures { IsTrue result → slice_get owners.now place ≡ Some class }
{
    match number_at(owners, place) {
        Some(owner) => owner == class,
        None => false,
    }
}

/// Whether the permission at a place has this number.
fn is_number(places: &[Meaning], place: usize, number: Option<usize>) -> bool
    ensures { IsTrue result → slice_get places.now place ≡ Some number }
{
    match places.get(place) {
        Some(known) => known.entry() == number,
        None => false,
    }
}
