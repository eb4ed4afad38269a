//! Laws of the definitions. The functions do nothing when they are called; the contract of each is a law, and a proof that
//! needs the law calls the function.

ghost use Rattle.cil_base.specs.Lists.{HasOneList};

/// A set of texts has at most one sorted list without repeats, so two such lists of one set are equal.
pub fn one_list()
    ensures { HasOneList }
{}
