//! The files that faults are looked for in.

ghost use Rattle.std.specs.Prelude.{◌≡◌, ◌≤◌, length, suc, take};
ghost use Rattle.cil_sexpr.specs.Text.{longest_text};

use cil_sexpr::LONGEST_TEXT;
use std::marker::Model;

/// A file: its name, and as much of its text as is looked at, which is one byte more than a module may have. Contracts see both.
#[derive(Drop)]
pub struct File<'a> {
    name: &'a str,
    text: Vec<u8>,
}

impl<'a> Model for File<'a> {
    ghost use Rattle.std.specs.Prelude.{◌≤◌, length, suc};
    ghost use Rattle.cil_sexpr.specs.Text.{longest_text};
    ghost use Rattle.cil_locate.specs.Files.{SourceFile};

    ghost Value = { SourceFile };

    ghost view = { λ a. record { name = a.name.now; text = a.text.items } };

    ghost invariant = { λ a. length a.text.items ≤ suc longest_text };
}

impl<'a> File<'a> {
    /// A file of this name and this text.
    pub fn new(name: &'a str, text: Vec<u8>) -> File<'a>
        ensures { result ≡ record { name = name.now; text = take (suc longest_text) text.items } }
    {
        let mut text = text;
        text.truncate(LONGEST_TEXT + 1);
        File { name, text }
    }

    /// Its name.
    pub fn name(&self) -> &'a str
        ensures { result.now ≡ self.now.name }
    {
        self.name
    }

    /// Its text, or the first 4,194,305 bytes of a longer one.
    pub fn text(&self) -> &[u8]
        ensures text { result.now ≡ self.now.text }
        ensures most { length self.now.text ≤ suc longest_text }
    {
        self.text.as_slice()
    }
}
