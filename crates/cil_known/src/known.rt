//! What is known of the words of a policy, and the numbers of the symbols for which words stand. A number costs no
//! look-up: each word was looked up once, when the table of words was filled.

ghost use Rattle.std.specs.Prelude.{◌≡◌, ℕ, List, MatchOption, None, get_or, true};
ghost use Rattle.cil_syntax.specs.declared.kind.Kind as kinds;
ghost use Rattle.cil_names.specs.macros.Item.{Item, is_enabled};
ghost use Rattle.cil_names.specs.macros.Items.{item_at};
ghost use Rattle.cil_syntax.specs.Scopes.{ScopedWord};
ghost use Rattle.cil_known.specs.Numbers.{has_section};
ghost use Rattle.cil_known.specs.Members.{HasNoSets};
ghost use Rattle.cil_known.specs.Known.{IsKnown, IsNumberFor, StandsForNothing, enabled_in, meant_in};

use cil_names::{Instances, Lookup, Meaning, Words, laws, same_kind};
use cil_syntax::{Bytes, Kind};

/// What is known of the words of a policy: what each means, and the number of each symbol that they can mean.
#[derive(Clone, Copy)]
pub struct Known<'s, 'a> {
    /// The namespaces, the declared names and the optionals that are enabled.
    pub lookup: Lookup<'s, 'a>,
    /// What the words of each statement mean, and the numbers of its permissions.
    pub words: &'s Words,
    /// For each declared name its number in the section of its kind.
    pub numbers: &'s [usize],
    /// For each declared class its permissions, in byte order.
    pub permissions: &'s [Vec<Bytes>],
}

impl<'s, 'a> Known<'s, 'a> {
    /// The number of the symbol of this kind for which a word of this meaning stands: of a kind without aliases and attributes.
    pub fn number(&self, kind: Kind, meaning: Option<usize>) -> Option<usize>
        requires section { has_section kind ≡ true }
        requires plain { HasNoSets kind }
        ensures { (xs : List Item) (names : kinds.Kind → List (List ℕ)) (w : ScopedWord) → IsKnown self.now xs names → meaning ≡ meant_in self.now w
            → MatchOption result (StandsForNothing xs (enabled_in self.now) kind w) (IsNumberFor xs (enabled_in self.now) kind (names kind) w) }
    {
        laws::means_what_it_names();
        let d = meaning?;
        let entry = self.lookup.names.entries().get(d)?;
        if !same_kind(entry.kind, kind) {
            return None;
        }
        Some(number_at(self.numbers, d))
    }

    /// Whether all optionals round the statement at a place are enabled.
    pub fn is_enabled(&self, instances: &Instances, at: usize) -> bool
        ensures { result ≡ is_enabled (enabled_in self.now) (item_at instances.now at) }
    {
        self.lookup.enabled.has_round(instances, at)
    }
}

/// What the word at a place of a row means.
pub fn meaning_at(words: &[Meaning], place: usize) -> Option<usize>
    ensures { result ≡ get_or words.now place None }
{
    match words.get(place) {
        Some(meaning) => meaning.entry(),
        None => None,
    }
}

/// The number at a place; 0 where there is none.
fn number_at(numbers: &[usize], place: usize) -> usize
    ensures { result ≡ get_or numbers.now place 0 }
{
    match numbers.get(place) {
        Some(number) => *number,
        None => 0,
    }
}
