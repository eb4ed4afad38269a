//! What a class permission gives: a class, and a mask of its permissions. A permission word costs a step, and no look-up.

ghost use Rattle.std.specs.Prelude.{◌≡◌, ℕ, List, MatchOption};
ghost use Rattle.cil_syntax.specs.declared.kind.Kind as kinds;
ghost use Rattle.cil_syntax.specs.declared.kind.Kind.TheVariants as variants;
ghost use Rattle.cil_syntax.specs.declared.term.Word.{Word as AWord};
ghost use Rattle.cil_syntax.specs.Said.{said_of};
ghost use Rattle.cil_syntax.specs.Scopes.{ScopedWord};
ghost use Rattle.cil_macros.specs.Item.{Item};
ghost use Rattle.cil_known.specs.Known.{BeginWith, IsKnown, enabled_in};
ghost use Rattle.cil_names.specs.Unresolved.{term_with};
ghost use Rattle.cil_classes.specs.ClassRows.{AreClasses};
ghost use Rattle.cil_classes.specs.Masks.{GivesNothing, IsGiven};
ghost use Rattle.cil_classes.specs.Row.{AreOrderlyRows};

use crate::mask::mask_of;
use crate::row::Class;
use cil_known::{Known, behind_first, meaning_at};
use cil_names::{Meaning, laws};
use cil_syntax::{Kind, Term};

/// A class, and a mask of its permissions.
#[derive(Clone, Copy)]
pub struct GivenMask {
    /// The number of the class.
    pub class: usize,
    /// The permissions: bit i is the i-th permission of the class.
    pub mask: u32,
}

/// The class and the permissions that a class permission of a statement of this module gives, by meanings that begin with
/// those of its words; none where it gives no permission.
pub fn given_by(
    known: &Known,
    classes: &[Class],
    term: &Term,
    module: u64,
    words: &[Meaning],
) -> Option<GivenMask>
    requires rows { AreOrderlyRows classes.now }
    ensures { (xs : List Item) (names : kinds.Kind → List (List ℕ)) (f : AWord → ScopedWord) → IsKnown known.now xs names → AreClasses xs (enabled_in known.now) (names variants.Class) classes.now
        → BeginWith known.now f (said_of «module» term.now) words.now
        → MatchOption result (GivesNothing xs (enabled_in known.now) (term_with f «module» term.now))
        (λ r. IsGiven xs (enabled_in known.now) classes.now (term_with f «module» term.now) r.class r.mask) }
{
    // What is known of a word: it means the entry that it names.
    laws::means_what_it_names();
    let Some(parts) = term.class_parts(module) else {
        return None;
    };
    let Some(class) = known.number(Kind::Class, meaning_at(words, 0)) else {
        return None;
    };
    let Some(row) = classes.get(class) else {
        return None;
    };
    let count = row.permissions.as_slice().len();
    if count == 0 {
        return None;
    }
    let mask = mask_of(parts.permissions, behind_first(words), count);
    if mask == 0 {
        return None;
    }
    Some(GivenMask { class, mask })
}
