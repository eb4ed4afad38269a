//! The shapes of statements, as data: what one place may have, and a list.

ghost use Rattle.std.specs.Prelude.{◌≡◌, ℕ};
ghost use Rattle.cil_sexpr.specs.View.{node_of, nodes_of};
ghost use Rattle.cil_syntax.specs.Shapes.{a_list, a_string, a_word, is_meant};
ghost use Rattle.cil_syntax.specs.Readings.{cell_of, cells_of, head_word};
ghost use Rattle.cil_syntax.specs.Laid.{shape_of};

use crate::kind::{Language, Sign};
use crate::reader::bytes_at;
use crate::term::Op;
use cil_sexpr::Node;

/// What one place of a statement may have.
#[derive(Clone, Copy)]
#[cycle(shapes)]
pub(crate) enum Shape {
    /// A name that is declared.
    DeclaredName,
    /// A word that is looked up.
    LookedUp(Sign),
    /// An expression of a language.
    Expression(Language),
    /// One word, as it is.
    Fixed(&'static [u8], Op),
    /// One word, which is not supported.
    LeftOut(&'static [u8]),
    /// Any word, which is not supported.
    AnyLeftOut,
    /// The first that is meant for the node.
    Either(&'static Shape, &'static Shape),
    /// A list with these items.
    ListOf(Op, Row),
    /// A list that begins with this word, and has these items behind it.
    Tagged(&'static [u8], Op, Row),
    /// Anything, kept as it is.
    Unread,
    /// Any word or string, kept as a text: the name of an object.
    ObjectName,
}

/// What a list may have.
#[derive(Clone, Copy)]
#[cycle(shapes)]
pub(crate) enum Row {
    /// Just these, one after another.
    Items(&'static [Shape]),
    /// Any number of these.
    Many(&'static Shape),
    /// The first of two, where there are just as many items as it has; else the second. So an item may be optional.
    OneOf(&'static [Shape], &'static [Shape]),
    /// These, and behind them what a row has.
    Then(&'static [Shape], &'static Row),
    /// The first row where the shape is meant for the first item, else the second.
    Led(&'static Shape, &'static Row, &'static Row),
    /// Lists, each a statement that is judged by itself.
    Statements,
    /// Whatever stands there; nothing of it is kept.
    Anything,
}

impl Shape {
    /// Whether the shape is meant for a node, at first sight.
    #[tactic(auto, unfolding(crate::specs::Readings::cell_of))]
    pub(crate) fn is_meant(&self, text: &[u8], node: &Node) -> bool
        ensures { (m : ℕ) → result ≡ is_meant (shape_of self.now) (cell_of m (node_of text.now node.now)).face }
    {
        match node {
            Node::Word(span) => self.is_meant_for_word(bytes_at(text, *span)),
            Node::Quoted(_) => self.is_meant_for_string(),
            Node::List(_, items) => self.is_meant_for_list(head_of(text, items.as_slice())),
        }
    }

    /// Whether the shape is meant for a word.
    fn is_meant_for_word(&self, word: &[u8]) -> bool
        ensures { result ≡ is_meant (shape_of self.now) (a_word word.now) }
    {
        match self {
            Shape::DeclaredName => true,
            Shape::LookedUp(_) => true,
            Shape::Expression(language) => language.has_words(),
            Shape::Fixed(fixed, _) => word == *fixed,
            Shape::LeftOut(fixed) => word == *fixed,
            Shape::AnyLeftOut => true,
            Shape::Either(first, second) => {
                first.is_meant_for_word(word) || second.is_meant_for_word(word)
            }
            Shape::ListOf(_, _) => false,
            Shape::Tagged(_, _, _) => false,
            Shape::Unread => true,
            Shape::ObjectName => true,
        }
    }

    /// Whether the shape is meant for a string.
    fn is_meant_for_string(&self) -> bool
        ensures { result ≡ is_meant (shape_of self.now) a_string }
    {
        match self {
            Shape::DeclaredName => false,
            Shape::LookedUp(_) => false,
            Shape::Expression(_) => false,
            Shape::Fixed(_, _) => false,
            Shape::LeftOut(_) => false,
            Shape::AnyLeftOut => false,
            Shape::Either(first, second) => {
                first.is_meant_for_string() || second.is_meant_for_string()
            }
            Shape::ListOf(_, _) => false,
            Shape::Tagged(_, _, _) => false,
            Shape::Unread => true,
            Shape::ObjectName => true,
        }
    }

    /// Whether the shape is meant for a list that begins with this word; with none where it is empty.
    fn is_meant_for_list(&self, head: &[u8]) -> bool
        ensures { result ≡ is_meant (shape_of self.now) (a_list head.now) }
    {
        match self {
            Shape::DeclaredName => false,
            Shape::LookedUp(_) => false,
            Shape::Expression(_) => true,
            Shape::Fixed(_, _) => false,
            Shape::LeftOut(_) => false,
            Shape::AnyLeftOut => false,
            Shape::Either(first, second) => first.is_meant_for_list(head)
                || second.is_meant_for_list(head),
            Shape::ListOf(_, _) => true,
            Shape::Tagged(word, _, _) => head == *word,
            Shape::Unread => true,
            Shape::ObjectName => false,
        }
    }
}

/// The word at the head of some nodes; no bytes where none is there.
pub(crate) fn head_of<'a>(text: &'a [u8], nodes: &[Node]) -> &'a [u8]
    ensures { (m : ℕ) → result.now ≡ head_word (cells_of m (nodes_of text.now nodes.now)) }
{
    let Some(first) = nodes.first() else {
        return b"";
    };
    match first {
        Node::Word(span) => bytes_at(text, *span),
        Node::Quoted(_) => b"",
        Node::List(_, _) => b"",
    }
}
