//! The class permission of a statement that gives one.

ghost use Rattle.std.specs.Prelude.{◌≡◌, ℕ, MatchOption, None, Some};
ghost use Rattle.cil_syntax.specs.Forms.{word_and_term};
ghost use Rattle.cil_syntax.specs.Said.{all_said, said_of};
ghost use Rattle.cil_classes.specs.Givings.{IsMapping, IsNoMapping, IsSet};

use crate::mask::is_leaf;
use cil_syntax::Term;

/// The class permission of a classpermissionset: the one term behind a word.
pub fn set_term<'t, 'a>(terms: &'t [Term<'a>]) -> Option<&'t Term<'a>>
    ensures { MatchOption result ((m : ℕ) → word_and_term (all_said m terms.now) ≡ None) (λ term. (m : ℕ) → IsSet (all_said m terms.now) (said_of m term.now)) }
{
    if terms.len() != 2 {
        return None;
    }
    if !is_leaf(&terms[0]) {
        return None;
    }
    Some(&terms[1])
}

/// The class permission of a classmapping: the one term behind two words.
pub fn mapped_term<'t, 'a>(terms: &'t [Term<'a>]) -> Option<&'t Term<'a>>
    ensures { MatchOption result ((m : ℕ) → IsNoMapping (all_said m terms.now)) (λ term. (m : ℕ) → IsMapping (all_said m terms.now) (said_of m term.now)) }
{
    if terms.len() != 3 {
        return None;
    }
    if !is_leaf(&terms[0]) {
        return None;
    }
    if !is_leaf(&terms[1]) {
        return None;
    }
    Some(&terms[2])
}
