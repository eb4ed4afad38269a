//! Whether two kinds, or two keywords, are one.

ghost use Rattle.std.specs.Prelude.{◌≡◌, ◌↔◌, IsTrue};

use cil_syntax::{Keyword, Kind};

/// Whether two kinds are one.
pub fn same_kind(a: Kind, b: Kind) -> bool
    ensures { IsTrue result ↔ (a ≡ b) }
{
    a == b
}

/// Whether two keywords are one.
pub fn same_keyword(a: Keyword, b: Keyword) -> bool
    ensures { IsTrue result ↔ (a ≡ b) }
{
    a == b
}
