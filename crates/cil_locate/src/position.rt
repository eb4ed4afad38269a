//! Where a byte is in a text.

ghost use Rattle.std.specs.Prelude.{◌≡◌, ◌≤◌, ℕ, List, length};
ghost use Rattle.cil_locate.specs.Positions.{position_of};

/// A place in a text, with the line that it is on.
#[derive(Clone, Copy)]
pub(crate) struct Position {
    /// How many bytes are before the place.
    pub(crate) at: usize,
    /// How many newlines are before it.
    pub(crate) newlines: usize,
    /// Where its line begins.
    pub(crate) begin: usize,
}

impl Position {
    /// The start of every text.
    pub(crate) fn start() -> Position
        ensures { (text : List ℕ) → result ≡ position_of text 0 }
    {
        Position {
            at: 0,
            newlines: 0,
            begin: 0,
        }
    }

    /// Another place of the same text. What is between the two is gone through once; a place before this one is sought from
    /// the start of the text.
    pub(crate) fn moved_to(self, text: &[u8], at: usize) -> Position
        requires here { self ≡ position_of text.now self.at }
        requires within { at ≤ length text.now }
        ensures { result ≡ position_of text.now at }
    {
        let from = if at < self.at {
            Position::start()
        } else {
            self
        };
        passed(text, from, at)
    }
}

/// A later place of a text.
fn passed(text: &[u8], from: Position, to: usize) -> Position
    requires here { from ≡ position_of text.now from.at }
    requires later { from.at ≤ to }
    requires within { to ≤ length text.now }
    ensures { result ≡ position_of text.now to }
{
    let (mut newlines, mut begin) = (from.newlines, from.begin);
    for place in from.at..to {
        if text[place] == b'\n' {
            newlines += 1;
            begin = place + 1;
        }
    }
    Position {
        at: to,
        newlines,
        begin,
    }
}
