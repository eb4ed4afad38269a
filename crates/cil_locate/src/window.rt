//! What is shown of the line of a place.

ghost use Rattle.std.specs.Prelude.{◌≡◌, ◌+◌, ◌≤◌, length};
ghost use Rattle.cil_locate.specs.Positions.{position_of};
ghost use Rattle.cil_locate.specs.Windows.{is_in_line, is_in_word, run_of, window_at};

use crate::position::Position;

/// How many bytes of a line are shown at most.
const MOST_SHOWN: usize = 120;

/// How many bytes are shown from the place on, where the line is long on both sides of it.
const HALF: usize = 60;

/// What is shown of a line: bytes round a place.
#[derive(Clone, Copy)]
pub(crate) struct Window {
    /// How many bytes are shown before the place.
    pub(crate) before: usize,
    /// How many are shown from the place on.
    pub(crate) behind: usize,
    /// How many are marked, from the place on: at least one, also where nothing is shown there.
    pub(crate) marked: usize,
}

/// What is shown round a place. At most 240 bytes are looked at.
pub(crate) fn window_of(text: &[u8], position: Position) -> Window
    requires here { position ≡ position_of text.now position.at }
    requires within { position.at ≤ length text.now }
    ensures window { result ≡ window_at text.now position.at }
    ensures before { result.before ≤ position.at }
    ensures behind { position.at + result.behind ≤ length text.now }
{
    let column = position.at - position.begin;
    let room = MOST_SHOWN.saturating_sub(column).max(HALF);
    let behind = line_run(text, position.at, room.min(text.len() - position.at));
    let before = column.min(MOST_SHOWN - behind);
    let marked = word_run(text, position.at, behind).max(1);
    Window {
        before,
        behind,
        marked,
    }
}

/// How many bytes from a place on are of its line, looking at so many.
fn line_run(text: &[u8], at: usize, most: usize) -> usize
    requires { at + most ≤ length text.now }
    ensures run { result ≡ run_of is_in_line text.now at most }
    ensures most { result ≤ most }
{
    for count in 0..most {
        if text[at + count] == b'\n' {
            return count;
        }
    }
    most
}

/// How many bytes from a place on are of one word, looking at so many.
fn word_run(text: &[u8], at: usize, most: usize) -> usize
    requires { at + most ≤ length text.now }
    ensures run { result ≡ run_of is_in_word text.now at most }
    ensures most { result ≤ most }
{
    for count in 0..most {
        if !is_word_byte(text[at + count]) {
            return count;
        }
    }
    most
}

fn is_word_byte(byte: u8) -> bool
    ensures { result ≡ is_in_word byte }
{
    byte >= 0x21 && byte <= 0x7E && byte != b'(' && byte != b')' && byte != b'"' && byte != b';'
}
