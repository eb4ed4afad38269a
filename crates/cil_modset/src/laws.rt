//! Laws of the definitions: what is true of every set and of all bytes. The functions do nothing when they are called; the
//! contract of each is a law, and a proof that needs the law calls the function.

ghost use Rattle.cil_modset.specs.Laws.{HasOneSet, NeverBoth, HasOneFault, AlwaysEither, AreNumbered};

use cil_sexpr::laws as texts;

/// Two sets that have the same bundle are equal.
pub fn one_set()
    ensures { HasOneSet }
{}

/// No bytes are the bundle of a set and also have a fault.
pub fn never_both()
    ensures { NeverBoth }
{
    texts::never_both();
}

/// Bytes have at most one first fault.
pub fn one_fault()
    ensures { HasOneFault }
{
    texts::never_both();
    texts::one_fault();
}

/// All bytes are the bundle of a set or have a fault.
pub fn always_either()
    ensures { AlwaysEither }
{
    texts::always_either();
}

/// The number of a module is the number of modules before it in byte order.
pub fn numbered()
    ensures { AreNumbered }
{}
