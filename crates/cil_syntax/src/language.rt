//! The languages of expressions: what a list says by the words at its head. The heads of each language are data, in a file
//! of its own; that they are those of `specs/Heads.antt` is proved, so a new operator or comparison is a head there and
//! one in the list of its language.

ghost use Rattle.std.specs.Prelude.{◌≡◌, ◌++◌, MatchOption, None, Some, map, true, ℕ};
ghost use Rattle.cil_syntax.specs.declared.kind.Language.{Language};
ghost use Rattle.cil_sexpr.specs.View.{node_of, nodes_of};
ghost use Rattle.cil_syntax.specs.Spoken.{HasHead, HasHeadOf, head_seen, levels_compared, words_seen};
ghost use Rattle.cil_syntax.specs.Heads.{begins_with, constraint_heads, first_words, has_ranges, heads, operators, other_op, word_before};
ghost use Rattle.cil_syntax.specs.Readings.{cell_of, cells_of};
ghost use Rattle.cil_syntax.specs.Shapes.{is_this_word, has_words, is_of_sets, word_sign};

use crate::condition_heads::CONDITIONS;
use crate::constraint_heads::CONSTRAINTS;
use crate::head::Head;
use crate::kind::{Language, Sign};
use crate::level_heads::LEVEL_HEADS;
use crate::reader::bytes_at;
use crate::set_heads::{CATEGORY_SETS, SETS};
use crate::term::Op;
use cil_sexpr::Node;

/// Whether sets over words of a sign have ranges.
fn has_ranges(sign: Sign) -> bool
    ensures { result ≡ has_ranges sign }
{
    matches!(sign, Sign::CategorySets)
}

impl Language {
    /// The sign of the words that are expressions by themselves. No word is a constraint.
    pub(crate) fn word_sign(self) -> Option<Sign>
        ensures { result ≡ word_sign self }
    {
        match self {
            Language::Sets(sign) => Some(sign),
            Language::Conditions => Some(Sign::Booleans),
            Language::Constraints => None,
            Language::LevelConstraints => None,
        }
    }

    /// Whether words are expressions by themselves.
    pub(crate) fn has_words(self) -> bool
        ensures { result ≡ has_words self }
    {
        match self {
            Language::Sets(_) => true,
            Language::Conditions => true,
            Language::Constraints => false,
            Language::LevelConstraints => false,
        }
    }

    /// Whether it is a language of sets: then `all` is one of its expressions, and a list without an operator is a union.
    pub(crate) fn is_of_sets(self) -> bool
        ensures { result ≡ is_of_sets self }
    {
        matches!(self, Language::Sets(_))
    }

    /// What a list is that begins with no head.
    pub(crate) fn other_op(self) -> Op
        ensures { result ≡ other_op self }
    {
        if self.is_of_sets() {
            return Op::Union;
        }
        Op::Group
    }

    /// What its lists say by the words at their heads, but for the comparisons of levels.
    #[tactic(auto, unfolding(crate::specs::Heads::heads))]
    fn heads(self) -> &'static [Head]
        ensures { heads self ≡ map (head_seen self) result.now ++ levels_compared self }
    {
        match self {
            Language::Sets(sign) => {
                if has_ranges(sign) {
                    return CATEGORY_SETS;
                }
                SETS
            }
            Language::Conditions => CONDITIONS,
            Language::Constraints => constraint_heads(),
            Language::LevelConstraints => constraint_heads(),
        }
    }

    /// The comparisons of levels that it has.
    fn levels_compared(self) -> &'static [Head]
        ensures { map (head_seen self) result.now ≡ levels_compared self }
    {
        match self {
            Language::Sets(_) => &[],
            Language::Conditions => &[],
            Language::Constraints => &[],
            Language::LevelConstraints => LEVEL_HEADS,
        }
    }

    /// The head with which some nodes begin. It costs a comparison for each head of the language.
    pub(crate) fn find_head(self, text: &[u8], nodes: &[Node]) -> Option<&'static Head>
        ensures { HasHead self text.now nodes.now result }
    {
        if let Some(head) = first_head(self.heads(), text, nodes) {
            return Some(head);
        }
        first_head(self.levels_compared(), text, nodes)
    }
}

/// What the lists of constraints say by the words at their heads, but for the comparisons of levels.
fn constraint_heads() -> &'static [Head]
    ensures { (language : Language) → map (head_seen language) result.now ≡ operators language true ++ constraint_heads }
{
    CONSTRAINTS
}

/// The first of some heads with which some nodes begin.
fn first_head(heads: &'static [Head], text: &[u8], nodes: &[Node]) -> Option<&'static Head>
    ensures { (language : Language) → HasHeadOf language (map (head_seen language) heads.now) text.now nodes.now result }
{
    for head in heads {
        if begins_with(text, nodes, head.words) {
            return Some(head);
        }
    }
    None
}

/// Whether nodes begin with these words.
fn begins_with(text: &[u8], nodes: &[Node], words: &[&[u8]]) -> bool
    ensures { (m : ℕ) → result ≡ begins_with (words_seen words.now) (first_words (cells_of m (nodes_of text.now nodes.now))) }
{
    for index in 0..words.len() {
        if index >= nodes.len() {
            return false;
        }
        if !is_this_word(text, &nodes[index], words[index]) {
            return false;
        }
    }
    true
}

/// Whether a node is this word.
#[tactic(auto, unfolding(crate::specs::Readings::cell_of))]
pub(crate) fn is_this_word(text: &[u8], node: &Node, word: &[u8]) -> bool
    ensures { (m : ℕ) → result ≡ is_this_word word.now (cell_of m (node_of text.now node.now)).face }
{
    match node {
        Node::Word(span) => bytes_at(text, *span) == word,
        Node::Quoted(_) => false,
        Node::List(_, _) => false,
    }
}
