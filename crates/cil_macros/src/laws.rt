//! Laws that fix the definitions. Nothing here is run.

ghost use Rattle.cil_macros.specs.Laws.{AreKept, HaveFlatInstances, HaveMacrosOfTheirPlace, HaveOneInstance, HaveTheirNames, HaveWordsOfTexts};

/// Where nothing is wrong with the blocks of a program, a statement is placed once through each chain of blockinherits and
/// calls: its namespace, its scopes and its arguments follow from where it is written and from that chain.
pub fn one_instance()
    ensures { HaveOneInstance }
{}

/// An argument of a call is kept whole: read as its parameter asks, it reads as the node does from which it came.
pub fn kept()
    ensures { AreKept }
{}

/// The parameters of a macro with their kinds are those whose names are compared where the macro is read.
pub fn same_parameters()
    ensures { HaveTheirNames }
{}

/// A word that names a macro is looked up in the scope of its place, in a body too: no macro is in a body.
pub fn macros_of_their_place()
    ensures { HaveMacrosOfTheirPlace }
{}

/// In a policy without macros what stands is all that is placed, or there are more than 1,000,000 statements.
pub fn flat_instances()
    ensures { HaveFlatInstances }
{}

/// What a word of a placed statement means is written so in the modules: each word, name and string of it has the bytes of
/// its module from its position on, through calls of calls too.
pub fn words_of_texts()
    ensures { HaveWordsOfTexts }
{}
