//! What placed statements say: their words and lists, with the arguments of calls put in.

use crate::call_words::{call_says_words_at, call_words_at};
use crate::instances::{Instances, may_say_lists};
use crate::listed::Part;
use crate::macros::is_call;
use crate::meaning::{meaning_at, says_words_at};
use crate::meant::Meaning;
use crate::placed_word::{PlacedWord, Said, said_of_meaning, word_meant};
use crate::said_parts::said_parts_at;
use crate::scene::Scene;
use cil_base::NoMemory;
use cil_syntax::Word;
use std::alloc::Global;

impl<'s, 'p, 'a> Instances<'s, 'p, 'a> {
    ghost use Rattle.std.specs.Prelude.{◌≡◌, ◌+◌, ◌<◌, false, IfOk, IsTrue, Some, length, map, slice_get, true};
    ghost use Rattle.cil_blocks.specs.Places.{entries_in};
    ghost use Rattle.cil_macros.specs.Calls.{is_call};
    ghost use Rattle.cil_macros.specs.Items.{IsWholeSaid, SaysItsWords, SaysWords, all_placed, call_words, item_at, items_in, leaves, placed_at, said_by, said_there, says_lists, scoped_by, word_at};
    ghost use Rattle.cil_macros.specs.Item.{all_words_in};
    ghost use Rattle.cil_macros.specs.Listed.{all_parts_of, parts_there, words_in_parts};
    ghost use Rattle.cil_macros.specs.Macros.{all_standing};
    ghost use Rattle.cil_macros.specs.Meant.{IsWholeMeaning, meaning_there};
    ghost use Rattle.cil_macros.specs.Placed.{Placed, meaning};
    ghost use Rattle.cil_macros.specs.Walks.{placed_in, written_in};

    /// What a word of the statement at a place says there, and where it is looked up.
    pub fn word(&self, at: usize, word: &Word<'a>) -> PlacedWord<'a>
        requires { at < length (items_in self.now) }
        ensures { scoped_by (all_placed self.now) result ≡ word_at self.now at word.now }
    {
        let meant = self.meaning(at, word);
        word_meant(word, &meant)
    }

    /// Whether each word of the statement at a place says a word there. Where it is no, a word may say a list. It costs one step.
    pub fn says_words(&self, at: usize) -> bool
        requires { at < length (items_in self.now) }
        ensures { IsTrue result → SaysWords self.now at }
    {
        let scene = Scene {
            spaces: self.spaces,
            brought: &self.brought,
            declared: &self.declared,
        };
        says_words_at(&scene, self.openings.as_slice(), at)
    }

    /// Whether what the statement at a place says may have a list. Then it is read by its `parts`; otherwise each word of it says a word.
    /// It costs one step, but for a call a search by halving.
    pub fn may_have_list(&self, at: usize) -> bool
        requires { at < length (items_in self.now) }
        ensures lists { IsTrue result → says_lists (item_at self.now at).keyword ≡ true }
        ensures words { result ≡ false → SaysItsWords self.now at }
    {
        let keyword = self.statement_there(at).keyword;
        if is_call(keyword) {
            return !self.call_says_words(at);
        }
        if !may_say_lists(keyword) {
            return false;
        }
        !self.says_words(at)
    }

    /// What a word of the statement at a place says there: a word, or the list that is the argument for which it stands.
    pub fn said<'i>(&'i self, at: usize, word: &Word<'a>) -> Said<'i, 'a>
        requires { at < length (items_in self.now) }
        ensures says { said_there (all_placed self.now) word.now.sign result ≡ said_by (written_in self.now.0) (placed_at self.now at) word.now }
        ensures whole { IsWholeSaid (all_placed self.now) result }
    {
        said_of_meaning(word, self.meaning(at, word))
    }

    /// What the statement at a place says, part by part: each word in its scope, with the arguments put in, lists too. So a pass over
    /// statements in which an argument may be a list (`says_words`, `call_says_words`) goes over one list, whatever calls handed on. It costs
    /// a step for each part.
    pub fn parts(&self, alloc: Global, at: usize) -> Result<Vec<Part<'a>>, NoMemory>
        requires within { at < length (items_in self.now) }
        requires lists { says_lists (item_at self.now at).keyword ≡ true }
        ensures parts { IfOk result (λ parts. parts_there (all_placed self.now) parts.items ≡ all_parts_of (item_at self.now at).args) }
        ensures words { IfOk result (λ parts. words_in_parts (parts_there (all_placed self.now) parts.items) ≡ all_words_in (item_at self.now at).args) }
    {
        let scene = Scene {
            spaces: self.spaces,
            brought: &self.brought,
            declared: &self.declared,
        };
        said_parts_at(alloc, &scene, self.openings.as_slice(), at)
    }

    /// Whether what the call at a place says are words: none of its arguments is a list. Where it is no, one may be. A look-up of its
    /// body costs a search by halving.
    pub fn call_says_words(&self, at: usize) -> bool
        requires { at < length (items_in self.now) }
        ensures { IsTrue result → is_call (item_at self.now at).keyword ≡ true
            → (item_at self.now at).args ≡ leaves (call_words (written_in self.now.0) (all_standing self.now.0) (placed_at self.now at) (placed_at self.now at).standing.statement.statement.args) }
    {
        let scene = Scene {
            spaces: self.spaces,
            brought: &self.brought,
            declared: &self.declared,
        };
        call_says_words_at(&scene, self.openings.as_slice(), at)
    }

    /// The words of the call at a place: that of its macro and, where it is unfolded, its arguments that are looked up. A
    /// look-up of its body costs a search by halving.
    pub fn call_words(&self, alloc: Global, at: usize) -> Result<Vec<PlacedWord<'a>>, NoMemory>
        requires { at < length (items_in self.now) }
        ensures { IfOk result (λ ws. map (scoped_by (all_placed self.now)) ws.items
            ≡ call_words (written_in self.now.0) (all_standing self.now.0) (placed_at self.now at) (placed_at self.now at).standing.statement.statement.args) }
    {
        let scene = Scene {
            spaces: self.spaces,
            brought: &self.brought,
            declared: &self.declared,
        };
        call_words_at(alloc, &scene, self.openings.as_slice(), at)
    }

    /// What a word of the statement at a place means there: its argument, if it stands for a parameter of the macro in whose
    /// body it is; and otherwise itself, in the scope of the outermost call for what the body itself declares, and in that of
    /// the place for all else.
    pub fn meaning<'i>(&'i self, at: usize, word: &Word<'a>) -> Meaning<'i, 'a>
        requires { at < length (entries_in self.now.0) + length self.now.1 }
        ensures says { (p : Placed) → slice_get (placed_in self.now.0 self.now.1) at ≡ Some p
            → meaning_there (placed_in self.now.0 self.now.1) word.now.sign result ≡ meaning (written_in self.now.0) p word.now }
        ensures whole { IsWholeMeaning (placed_in self.now.0 self.now.1) result }
    {
        let scene = Scene {
            spaces: self.spaces,
            brought: &self.brought,
            declared: &self.declared,
        };
        meaning_at(&scene, self.openings.as_slice(), at, word)
    }
}
