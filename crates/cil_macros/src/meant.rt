//! What a word means where it is placed, as it is kept. Of words and strings nothing is copied.

use crate::listed::Listed;
use cil_base::NoMemory;
use cil_syntax::{Excerpt, Spot, Word};
use std::alloc::Global;

/// What a word means where it is placed, or what an argument is.
#[derive(Drop)]
pub struct Meant<'a> {
    /// Where it is written.
    pub at: Spot,
    /// Its bytes.
    pub bytes: Excerpt<'a>,
    /// Of a word: the place, among all that is placed, in whose scope it is looked up. None of a string.
    pub scope: Option<usize>,
}

impl<'a> Meant<'a> {
    ghost use Rattle.std.specs.Prelude.{◌≡◌, List, None, Some};
    ghost use Rattle.cil_macros.specs.Placed.{Placed};
    ghost use Rattle.cil_macros.specs.Meant.{meant_in, meant_term};
    ghost use Rattle.cil_syntax.specs.declared.kind.Sign.{Sign};

    /// A word, in the scope of what is placed somewhere.
    pub fn word(at: Spot, bytes: &'a [u8], scope: usize) -> Meant<'a>
        ensures { result ≡ record { at = at; bytes = bytes.now; scope = Some scope } }
    {
        Meant {
            at,
            bytes: Excerpt::of(bytes),
            scope: Some(scope),
        }
    }

    /// A string.
    pub fn string(at: Spot, bytes: &'a [u8]) -> Meant<'a>
        ensures { result ≡ record { at = at; bytes = bytes.now; scope = None } }
    {
        Meant {
            at,
            bytes: Excerpt::of(bytes),
            scope: None,
        }
    }

    /// The same once more.
    pub fn copied(&self) -> Meant<'a>
        ensures { result ≡ self.now }
    {
        Meant {
            at: self.at,
            bytes: Excerpt::of(self.bytes.as_slice()),
            scope: self.scope,
        }
    }
}

/// What an argument of a call is.
#[derive(Drop)]
pub enum Argument<'a> {
    /// A word or a string.
    Plain(Meant<'a>),
    /// A list.
    List(Listed<'a>),
}

/// What a word means where it is placed.
#[derive(Drop)]
pub enum Meaning<'o, 'a> {
    /// A word or a string.
    Plain(Meant<'a>),
    /// A list that is an argument.
    List(&'o Listed<'a>),
}

impl<'a> Argument<'a> {
    ghost use Rattle.std.specs.Prelude.{◌≡◌, List};
    ghost use Rattle.cil_macros.specs.Placed.{Placed};
    ghost use Rattle.cil_macros.specs.Meant.{IsWhole, IsWholeMeaning, is_list, meaning_there, put_there};
    ghost use Rattle.cil_syntax.specs.declared.kind.Sign.{Sign};

    /// Whether it is a list.
    pub fn is_list(&self) -> bool
        ensures { result ≡ is_list self.now }
    {
        matches!(self, Argument::List(_))
    }

    /// What a word means that stands for it.
    pub fn meaning(&self) -> Meaning<'_, 'a>
        ensures says { (ps : List Placed) (sign : Sign) → meaning_there ps sign result ≡ put_there ps sign self.now }
        ensures whole { (ps : List Placed) → IsWhole ps self.now → IsWholeMeaning ps result }
    {
        match self {
            Argument::Plain(meant) => Meaning::Plain(meant.copied()),
            Argument::List(list) => Meaning::List(list),
        }
    }
}

impl<'o, 'a> Meaning<'o, 'a> {
    ghost use Rattle.std.specs.Prelude.{◌≡◌, IfOk, List};
    ghost use Rattle.cil_macros.specs.Placed.{Placed};
    ghost use Rattle.cil_macros.specs.Meant.{IsWhole, IsWholeMeaning, meaning_there, put_there};
    ghost use Rattle.cil_syntax.specs.declared.kind.Sign.{Sign};

    /// The same as an argument. A list is copied.
    pub fn as_argument(&self, alloc: Global) -> Result<Argument<'a>, NoMemory>
        ensures says { IfOk result (λ a. (ps : List Placed) (sign : Sign) → put_there ps sign a ≡ meaning_there ps sign self.now) }
        ensures whole { IfOk result (λ a. (ps : List Placed) → IsWholeMeaning ps self.now → IsWhole ps a) }
    {
        match self {
            Meaning::Plain(meant) => Ok(Argument::Plain(meant.copied())),
            Meaning::List(list) => Ok(Argument::List(list.copied(alloc)?)),
        }
    }
}
