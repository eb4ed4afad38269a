//! Laws of the definitions. The functions do nothing when they are called; the contract of each is a law, and a proof that needs
//! the law calls the function.

ghost use Rattle.cil_levels.specs.Laws.{AreEvaluated, HasOnePlace, HasOneSolution, HasOneValue};

/// Where no set of categories depends on itself, which ranks show, each expression has one value.
pub fn one_value()
    ensures { HasOneValue }
{}

/// Where no set of categories depends on itself, just one choice of what words, ranges and sets have solves the equations.
pub fn one_values()
    ensures { HasOneSolution }
{}

/// Where names hold what they should, a word stands for one category at most.
pub fn one_place()
    ensures { HasOnePlace }
{}

/// By what names hold, `value` evaluates expressions to what they have.
pub fn values_are_held()
    ensures { AreEvaluated }
{}
