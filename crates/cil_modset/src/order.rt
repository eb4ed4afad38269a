//! The order of texts: byte by byte, and a text is before those that it is a prefix of.

ghost use Rattle.std.specs.Prelude.{◌≡◌, ◌↔◌, IsTrue};
ghost use Rattle.cil_modset.specs.Modules.{IsBelow};

/// Whether one text is before another.
pub(crate) fn is_below(a: &[u8], b: &[u8]) -> bool
    ensures { IsTrue result ↔ IsBelow a.now b.now }
{
    a.cmp(b).is_lt()
}

/// Whether two texts have the same bytes.
pub(crate) fn is_same(a: &[u8], b: &[u8]) -> bool
    ensures { IsTrue result ↔ (a.now ≡ b.now) }
{
    a == b
}
