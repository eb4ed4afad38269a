//! The heads of expressions, as data: the words at the head of a list, and what stands behind them.

use crate::kind::Sign;
use crate::term::Op;

/// What may stand at one place behind the head of an expression, operands apart.
#[derive(Clone, Copy)]
pub(crate) enum Part {
    /// One word, as it is.
    Fixed(&'static [u8], Op),
    /// A word that is looked up.
    LookedUp(Sign),
    /// Such a word, or a list of one or more.
    Names(Sign),
    /// This word, or what another part may have.
    Or(&'static [u8], Op, &'static Part),
}

/// What stands behind the head of an expression.
#[derive(Clone, Copy)]
pub(crate) enum Behind {
    /// One expression of the language.
    One,
    /// Two of them.
    Two,
    /// These, one after another.
    Parts(&'static [Part]),
}

/// What a list says that begins with some words.
#[derive(Clone, Copy)]
pub(crate) struct Head {
    pub(crate) words: &'static [&'static [u8]],
    pub(crate) op: Op,
    /// Whether it is supported.
    pub(crate) taken: bool,
    /// What stands behind the first word.
    pub(crate) behind: Behind,
}
