//! The words of statements that are not supported: they are refused by name.

ghost use Rattle.std.specs.Prelude.{◌≡◌};
ghost use Rattle.cil_syntax.specs.Spelling.{is_one_of};
ghost use Rattle.cil_syntax.specs.Table.{is_unsupported, later_words, left_out_words};

use crate::spelling;

/// The statements that are to be supported, and are not yet.
const LATER_WORDS: [&[u8]; 1] = [b"typepermissive"];

/// The statements that this product does not support.
const LEFT_OUT_WORDS: [&[u8]; 12] = [
    b"allowx",
    b"auditallowx",
    b"dontauditx",
    b"neverallowx",
    b"permissionx",
    b"typebounds",
    b"rolebounds",
    b"userbounds",
    b"in",
    b"tunable",
    b"tunableif",
    b"deny",
];

/// Whether the word begins a statement that is known and not supported.
pub(crate) fn is_known(word: &[u8]) -> bool
    ensures { result ≡ is_unsupported word.now }
{
    comes_later(word) || is_left_out(word)
}

/// Whether the statement is to be supported.
#[tactic(auto, unfolding(crate::specs::Table::later_words))]
fn comes_later(word: &[u8]) -> bool
    ensures { result ≡ is_one_of later_words word.now }
{
    spelling::is_one_of(&LATER_WORDS, word)
}

/// Whether the product does not support the statement.
#[tactic(auto, unfolding(crate::specs::Table::left_out_words))]
fn is_left_out(word: &[u8]) -> bool
    ensures { result ≡ is_one_of left_out_words word.now }
{
    spelling::is_one_of(&LEFT_OUT_WORDS, word)
}
