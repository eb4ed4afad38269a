//! What words are looked up in; and what the words of all instances mean, as rows.

ghost use Rattle.std.specs.Prelude.{◌≡◌, ◌≤◌, ◌+◌, ℕ, List, Option, Some, length, slice_get, slice_range};
ghost use Rattle.cil_names.specs.Rows.{IsTableOf};

use crate::meaning::Meaning;
use crate::names::Names;
use crate::opt_set::OptSet;
use cil_macros::Namespaces;

/// What words are looked up in: the namespaces, the declared names, and the optionals that are enabled.
#[derive(Clone, Copy)]
pub struct Lookup<'s, 'a> {
    /// The namespaces.
    pub namespaces: &'s Namespaces<'a>,
    /// The declared names.
    pub names: &'s Names<'a>,
    /// The optionals that are enabled.
    pub enabled: &'s OptSet,
}

/// What the words of all instances mean: those of one instance after those of the one before it. It takes four bytes
/// for a word, and as many for an instance.
#[derive(Debug, Drop)]
pub struct Words {
    /// Where the row of each instance begins; it ends where the next one begins, and the last one where all end.
    starts: Vec<u32>,
    /// The rows, one after another.
    words: Vec<Meaning>,
}

impl Words {
    /// A table of words that begin at these places.
    pub fn of(starts: Vec<u32>, words: Vec<Meaning>) -> Words
        ensures starts { result.starts.items ≡ starts.items }
        ensures words { result.words.items ≡ words.items }
    {
        Words { starts, words }
    }

    /// What the words of one instance mean, in order.
    pub fn row(&self, i: usize) -> &[Meaning]
        ensures { (rows : List (List (Option ℕ))) (row : List (Option ℕ)) → IsTableOf rows self.now → slice_get rows i ≡ Some row → result.now ≡ row }
    {
        let starts = self.starts.as_slice();
        let words = self.words.as_slice();
        let Some(start) = start_at(starts, i) else {
            return &[];
        };
        let Some(end) = end_at(starts, i) else {
            return part(words, start, words.len());
        };
        part(words, start, end)
    }
}

/// The place where a row begins.
fn start_at(starts: &[u32], i: usize) -> Option<usize>
    ensures { result ≡ slice_get starts.now i }
{
    match starts.get(i) {
        Some(start) => Some(*start as usize),
        None => None,
    }
}

/// The place where the next row begins.
fn end_at(starts: &[u32], i: usize) -> Option<usize>
    ensures { result ≡ slice_get starts.now (i + 1) }
{
    if i < starts.len() {
        start_at(starts, i + 1)
    } else {
        None
    }
}

/// A part of some words; none where it ends before it begins.
fn part(words: &[Meaning], start: usize, end: usize) -> &[Meaning]
    ensures { end ≤ length words.now → result.now ≡ slice_range words.now start end }
{
    if start <= end && end <= words.len() {
        &words[start..end]
    } else {
        &[]
    }
}
