//! A law of the definitions. The function does nothing when it is called; its contract is the law, and a proof that needs the law calls
//! it.

ghost use Rattle.cil_ranges.specs.Laws.{HasOneGround};

/// The statements of a policy have at most one order of sensitivities, one of categories, and one choice of what words and sets of
/// categories have, on which its levels rest.
pub fn one_ground()
    ensures { HasOneGround }
{}
