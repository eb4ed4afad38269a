//! Laws of the definitions. The functions do nothing when they are called; the contract of each is a law, and a proof
//! that needs the law calls the function.

ghost use Rattle.cil_names.specs.Laws.{CandidatesAreEntries, MeansWhatItNames, ResolvesByCandidates, WantedMeansWhatItNames};

/// What a word means is the entry that it names, and nothing where it names nothing.
pub fn means_what_it_names()
    ensures { MeansWhatItNames }
{}

/// What a statement asks for, a word or a permission of a class, means the first entry that it could name and that is
/// declared; that is what it names, and nothing where it does not resolve.
pub fn wanted_means_what_it_names()
    ensures { WantedMeansWhatItNames }
{}

/// What a statement asks for, a word or a permission of a class, resolves exactly where one of the entries that it could
/// name is declared.
pub fn resolves_by_candidates()
    ensures { ResolvesByCandidates }
{}

/// What something wanted could name are numbers of entries.
pub fn candidates_are_entries()
    ensures { CandidatesAreEntries }
{}
