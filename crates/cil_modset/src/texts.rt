//! The texts of a set, each once.

ghost use Rattle.std.specs.Prelude.{◌≡◌, ℕ, ◌+◌, ◌<◌, ◌↔◌, List, [], ◌∷◌, length, Contains, IsTrue, IfOk, OnOk, OnErr};
ghost use Rattle.cil_modset.specs.Gather.{AreApart};
ghost use Rattle.cil_modset.specs.Modules.{IsRising, IsUnion, module_of, texts_of};
ghost use Rattle.cil_modset.specs.Rows.{IsOffered, joined};

use crate::gather::gather;
use crate::rows::{add, copy_of_all, has, take_all, text_at};
use cil_sexpr::ReadError;
use std::alloc::{AllocError, Global};
use std::marker::Model;

/// Some texts, each once. In contracts they are the list of them in byte order.
///
/// They are kept in rows, sorted lists that follow one another, and a row that gets long is halved: up to 1,024 texts there
/// is one row, and of n texts that came one by one a row has at most a thousand and a few times the square root of n, and
/// there are as few rows. A new text costs a search by halving, and moves the texts behind it in its row. `get` costs a
/// step for each row before that of its text. Many texts at once (`add_all`) cost a step for each text, and leave one row.
#[derive(Debug, Drop)]
pub(crate) struct Texts {
    /// The number of texts.
    count: usize,
    rows: Vec<Vec<Vec<u8>>>,
}

impl Model for Texts {
    ghost use Rattle.std.specs.Prelude.{List, ℕ};
    ghost use Rattle.cil_modset.specs.Rows.{AreRows, joined};

    ghost Value = { List (List ℕ) };

    ghost view = { λ texts. joined texts.rows.items };

    ghost invariant = { λ texts. AreRows texts.rows.items texts.count };
}

impl Texts {
    /// No texts.
    pub(crate) fn new(alloc: Global) -> Texts
        ensures { result ≡ [] }
    {
        Texts {
            count: 0,
            rows: Vec::new(alloc),
        }
    }

    /// The number of texts.
    pub(crate) fn len(&self) -> usize
        ensures len { result ≡ length self.now }
        ensures rising { IsRising self.now }
    {
        self.count
    }

    /// The text of a number.
    pub(crate) fn get(&self, i: usize) -> &[u8]
        requires { i < length self.now }
        ensures { result.now ≡ module_of self.now i }
    {
        text_at(self.rows.as_slice(), i)
    }

    /// Whether a text is there.
    pub(crate) fn contains(&self, text: &[u8]) -> bool
        ensures { IsTrue result ↔ Contains self.now text.now }
    {
        has(self.rows.as_slice(), text)
    }

    /// Another value with the same texts. Error: out of memory.
    pub(crate) fn try_clone(&self, alloc: Global) -> Result<Texts, AllocError>
        ensures { IfOk result (λ copy. copy ≡ self.now) }
    {
        let rows = copy_of_all(alloc, self.rows.as_slice())?;
        Ok(Texts {
            count: self.count,
            rows,
        })
    }

    /// Adds a text, if it is readable and not there yet, and returns whether it is new. A text that is there needs no memory.
    /// Errors: the first fault of an unreadable text, or out of memory, and then nothing has changed.
    pub(crate) fn add(&mut self, alloc: Global, text: &[u8]) -> Result<bool, ReadError>
        ensures { IsOffered self.old text.now result self.new }
    {
        // No memory has room for so many.
        if self.count == isize::MAX as usize && !has(self.rows.as_slice(), text) {
            return Err(ReadError::NoMemory);
        }
        let result = add(alloc, &mut self.rows, text);
        if let Ok(true) = result {
            self.count += 1;
        }
        result
    }

    /// Adds texts that are not there, and returns how many there are. If there are none, no memory is allocated. Error: out
    /// of memory, and then nothing has changed.
    pub(crate) fn add_all(&mut self, alloc: Global, fresh: Vec<Vec<u8>>) -> Result<u64, AllocError>
        requires rising { IsRising (texts_of fresh.items) }
        requires apart { AreApart self.old (texts_of fresh.items) }
        ensures union { OnOk result (IsUnion self.old (texts_of fresh.items) self.new) }
        ensures added { IfOk result (λ added. length self.new ≡ length self.old + added) }
        ensures err { OnErr result (self.new ≡ self.old) }
    {
        let kept = self.count;
        let added = fresh.len();
        if added == 0 {
            return Ok(0);
        }
        let mut rows = Vec::with_capacity(alloc, 1)?;
        let room = Vec::with_capacity(alloc, kept + added)?;
        let ours = take_all(alloc, &mut self.rows, kept)?;
        rows.push(gather(ours, fresh, room)).unwrap();
        self.rows = rows;
        self.count = kept + added;
        Ok(added as u64)
    }
}
