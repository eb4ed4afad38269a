//! Short lists of numbers, most of which are one number, in four bytes each.

ghost use Rattle.std.specs.Prelude.{◌≡◌, ◌<◌, ◌∷◌, [], Some, length, slice_get, ℕ};

use crate::number_lists::{Lists, number_at, push_number};
use crate::pairs::{Guess, Pairs};
use cil_base::NoMemory;
use cil_names::{Class, ClassPermission};
use std::alloc::Global;
use std::marker::Model;

/// The first cell that is the number of a permission.
const PAIRED: usize = 1_073_741_824;

/// How many permissions have a number.
const MOST_PAIRS: usize = 1_073_741_824;

/// The first cell that is the number of a list.
const MANY: usize = 2_147_483_648;

/// How many lists have a number.
const MOST_LISTS: usize = 1_073_741_824;

/// Lists of numbers, of which nearly all have one number. Such a list takes four bytes, and so does a permission with the number
/// that it has in its class. Any other list takes eight, and four for each number. Contracts see the lists.
#[derive(Drop)]
pub struct Cells {
    /// For each list its one number; or `PAIRED` and the number of the permission in `pairs`; or `MANY` and the number of the
    /// list in `lists`.
    cells: Vec<u32>,
    /// The permissions.
    pairs: Pairs,
    /// The lists that have no number, or more than one.
    lists: Lists,
}

impl Model for Cells {
    ghost use Rattle.std.specs.Prelude.{List, length};
    ghost use Rattle.cil_words.specs.Cells.{AreCells, cell_asks};
    ghost use Rattle.cil_words.specs.Table.{Ask};

    ghost Value = { List Ask };

    ghost view = { λ a. cell_asks a.pairs.owners.items a.pairs.places.items a.lists a.cells.items };

    ghost invariant = { λ a. AreCells (length a.pairs.owners.items) (length a.pairs.places.items) (length a.lists) a.cells.items };
}

impl Cells {
    ghost use Rattle.std.specs.Prelude.{◌≡◌, ◌++◌, ◌∷◌, [], OnOk, get_or, length};
    ghost use Rattle.cil_words.specs.Cells.{pair_with, permission_ask};
    ghost use Rattle.cil_words.specs.Table.{word_ask};

    /// No lists.
    pub fn new(alloc: Global) -> Cells
        ensures { result ≡ [] }
    {
        Cells {
            cells: Vec::new(alloc),
            pairs: Pairs::new(alloc),
            lists: Lists::new(alloc),
        }
    }

    /// How many lists there are.
    pub fn len(&self) -> usize
        ensures { result ≡ length self.now }
    {
        self.cells.len()
    }

    /// The list of this number, counted from 0; an empty one where there are not so many.
    pub fn row(&self, number: usize) -> &[u32]
        ensures { result.now ≡ (get_or self.now number (word_ask [])).could }
    {
        let cells = self.cells.as_slice();
        let Some(cell) = number_at(cells, number) else {
            return &[];
        };
        if cell < PAIRED {
            return one(cells, number);
        }
        match cell.checked_sub(MANY) {
            None => self.pairs.owner(cell - PAIRED),
            Some(list) => self.lists.row(list),
        }
    }

    /// The number that a permission has in its class, if the list of this number is that of a permission.
    pub fn number(&self, number: usize) -> Option<Option<usize>>
        ensures { result ≡ (get_or self.now number (word_ask [])).number }
    {
        let cells = self.cells.as_slice();
        let Some(cell) = number_at(cells, number) else {
            return None;
        };
        if cell < PAIRED {
            return None;
        }
        if cell >= MANY {
            return None;
        }
        self.pairs.number(cell - PAIRED)
    }

    /// Adds a list of one number. Error: out of memory, also for a number from 1,073,741,824 on.
    pub fn push_one(&mut self, number: usize) -> Result<(), NoMemory>
        ensures { OnOk result (self.new ≡ self.old ++ word_ask (number ∷ []) ∷ []) }
    {
        if number >= PAIRED {
            return Err(NoMemory);
        }
        push_number(&mut self.cells, number)
    }

    /// Adds a list of any length. One that is there mostly takes four bytes more, whatever its length. Error: out of memory, also for
    /// more than 1,073,741,824 lists.
    pub fn push_many(&mut self, list: &[usize]) -> Result<(), NoMemory>
        ensures { OnOk result (self.new ≡ self.old ++ word_ask list.now ∷ []) }
    {
        let number = self.lists.place_of(list)?;
        if number >= MOST_LISTS {
            return Err(NoMemory);
        }
        push_number(&mut self.cells, MANY + number)
    }

    /// Where the permission of a name may be, of a class that was found, and the number that it may have. It costs a hash, and
    /// says nothing that need be right.
    pub fn guess(&self, class: Option<Class<'_>>, permission: &[u8]) -> Guess {
        match class {
            Some(found) => self.pairs.guess(found.entry, permission),
            None => Guess::none(),
        }
    }

    /// Adds the class of a permission, with the number that the permission has in it; or an empty list. A guess is given where the
    /// permission is. Error: out of memory, also for more than 1,073,741,824 different permissions.
    pub fn push_permission(
        &mut self,
        permission: Option<ClassPermission>,
        guess: &Guess,
    ) -> Result<(), NoMemory>
        ensures { OnOk result (self.new ≡ self.old ++ permission_ask permission ∷ []) }
    {
        match permission {
            Some(found) => self.push_pair(found.entry, found.number, guess),
            None => self.push_many(&[]),
        }
    }

    /// Adds a class, with the number of a permission.
    fn push_pair(
        &mut self,
        class: usize,
        number: Option<usize>,
        guess: &Guess,
    ) -> Result<(), NoMemory>
        ensures { OnOk result (self.new ≡ self.old ++ pair_with class number ∷ []) }
    {
        let place = self.pairs.place_of(class, number, guess)?;
        if place >= MOST_PAIRS {
            return Err(NoMemory);
        }
        push_number(&mut self.cells, PAIRED + place)
    }

    /// Adds a list, in four bytes if it has one number.
    pub fn push(&mut self, list: &[usize]) -> Result<(), NoMemory>
        ensures { OnOk result (self.new ≡ self.old ++ word_ask list.now ∷ []) }
    {
        match list {
            [number] => self.push_one(*number),
            _ => self.push_many(list),
        }
    }
}

/// The list of the one cell at a place.
pub fn one(cells: &[u32], number: usize) -> &[u32]
    requires { number < length cells.now }
    ensures { (c : ℕ) → slice_get cells.now number ≡ Some c → result.now ≡ c ∷ [] }
{
    if number < cells.len() {
        &cells[number..number + 1]
    } else {
        &[]
    }
}
