//! Laws of the layout. The functions do nothing when they are called; the contract of each is a law.

ghost use Rattle.cil_table_bytes.specs.Laws.{HasOneValue, ShortOnly};

/// Tables with equal bytes are equal: so equal digests of equal length are those of equal tables, as far as SHA-256 tells texts apart.
pub fn one_value()
    ensures { HasOneValue }
{}

/// Bytes of a table that are cut at their end are short, wherever they are cut.
pub fn short_only()
    ensures { ShortOnly }
{}
