//! Laws that fix the definitions: what holds of the contents of every program. Nothing here is run.

ghost use Rattle.cil_blocks.specs.Laws.{AreCycles, AreGiven, AreShared, HaveFlatContents, HaveOneStanding, HaveOneTarget};

/// Where nothing is wrong with the blocks of a program, each blockinherit has one target.
pub fn one_target()
    ensures { HaveOneTarget }
{}

/// And then a statement stands once through each chain of blockinherits: its namespace and the scope of its words follow
/// from where it is written and from that chain.
pub fn one_standing()
    ensures { HaveOneStanding }
{}

/// The target of a blockinherit, or a block that the target needs, encloses the blockinherit exactly where the target leads
/// back to it, by steps from a statement to those in it and to the targets of the blockinherits in it.
pub fn cycle()
    ensures { AreCycles }
{}

/// Two bodies give their statements to one namespace exactly where a relation on pairs of bodies has the two: it begins at
/// the texts, and goes on to two blocks of one name, or to a target of a blockinherit in one of the two.
pub fn shared()
    ensures { AreShared }
{}

/// A block, a macro or a blockinherit stands in a namespace, through some chain, exactly where a body gives it to that
/// namespace. So two of one name in one namespace can be found without chains.
pub fn given()
    ensures { AreGiven }
{}

/// A policy without blocks, macros and optionals has contents, each statement once, or more of them than there may be.
pub fn flat_contents()
    ensures { HaveFlatContents }
{}
