//! What each byte does in a text, and where a run of bytes ends.

ghost use Rattle.std.specs.Prelude.{◌<◌, ◌↔◌, ℕ, IsTrue, IfSome, IfNone, length, slice_index};
ghost use Rattle.cil_sexpr.specs.Bytes.{IsWordByte, HasByte, double_quote, semicolon};
ghost use Rattle.cil_sexpr.specs.Text.{IsWord, IsString, IsComment};
ghost use Rattle.cil_sexpr.specs.Reading.{IsOfKind};

/// What a byte outside strings and comments does.
#[derive(Clone, Copy, Debug, PartialEq, Eq)]
pub(crate) enum ByteKind {
    /// A blank: it separates what is before it from what is after it.
    Blank,
    /// Starts a comment.
    Semicolon,
    /// Starts a string.
    Quote,
    /// Starts a list.
    Open,
    /// Ends a list.
    Close,
    /// Is part of a word.
    Word,
    /// Is not allowed in a text.
    Bad,
}

/// The kind of a byte.
pub(crate) fn kind_of(byte: u8) -> ByteKind
    ensures { IsOfKind byte result }
{
    match byte {
        b' ' | b'\t' | b'\n' | b'\r' => ByteKind::Blank,
        b';' => ByteKind::Semicolon,
        b'"' => ByteKind::Quote,
        b'(' => ByteKind::Open,
        b')' => ByteKind::Close,
        0x21..=0x7E => ByteKind::Word,
        _ => ByteKind::Bad,
    }
}

fn is_word_byte(byte: u8) -> bool
    ensures { IsTrue result ↔ IsWordByte byte }
{
    matches!(byte, 0x21..=0x7E) && !matches!(byte, b'(' | b')' | b'"' | b';')
}

/// The end of the word that starts at `start`.
pub(crate) fn word_end(text: &[u8], start: usize) -> usize
    requires within { start < length text.now }
    requires begins { IsWordByte (slice_index text.now start) }
    ensures { IsWord text.now start result }
{
    let mut end = start + 1;
    while end < text.len() && is_word_byte(text[end]) {
        end += 1;
    }
    end
}

/// The end of the string that starts at `start`, after its closing quote; none if its line has no closing
/// quote.
pub(crate) fn string_end(text: &[u8], start: usize) -> Option<usize>
    requires { HasByte text.now start double_quote }
    ensures string { IfSome result (IsString text.now start) }
    ensures none { IfNone result ((end : ℕ) → IsString text.now start end → ⊥) }
{
    for at in start + 1..text.len() {
        if text[at] == b'"' {
            return Some(at + 1);
        }
        if text[at] == b'\n' {
            return None;
        }
    }
    None
}

/// The end of the comment that starts at `start`, after its newline.
pub(crate) fn comment_end(text: &[u8], start: usize) -> usize
    requires { HasByte text.now start semicolon }
    ensures { IsComment text.now start result }
{
    for newline in start + 1..text.len() {
        if text[newline] == b'\n' {
            return newline + 1;
        }
    }
    text.len()
}
