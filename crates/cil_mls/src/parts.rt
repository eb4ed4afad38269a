//! A text, parted at a byte.

ghost use Rattle.std.specs.Prelude.{MatchOption};
ghost use Rattle.cil_mls.specs.LevelTexts.{IsParted, IsWithout};

/// What is before a byte of a text, and what is behind it.
#[derive(Clone, Copy)]
pub struct Parts<'t> {
    /// What is before it.
    pub first: &'t [u8],
    /// What is behind it.
    pub rest: &'t [u8],
}

/// The parts of a text before and behind the first byte of this value. It costs a step for each byte up to there.
pub fn parted(text: &[u8], byte: u8) -> Option<Parts<'_>>
    ensures { MatchOption result (IsWithout byte text.now) (λ p. IsParted byte text.now p.first.now p.rest.now) }
{
    let at = text.iter().position(|b| *b == byte)?;
    Some(Parts {
        first: &text[..at],
        rest: &text[at + 1..],
    })
}
