//! The tree of a text. It holds positions only; the bytes stay in the text.

ghost use Rattle.std.specs.Prelude.{◌≡◌, ◌≤◌, ℕ, List, length, slice_range};
ghost use Rattle.cil_sexpr.specs.Tree.{inner_of, span_of};
ghost use Rattle.cil_sexpr.specs.View.{node_of, nodes_of, place_of, top_of};

/// A range of bytes of a text: from `start` up to, but not including, `end`.
#[derive(Clone, Copy, Debug, PartialEq, Eq)]
pub struct Span {
    /// The byte offset of the first byte.
    pub start: u32,
    /// The byte offset after the last byte.
    pub end: u32,
}

/// A word, a string or a list of a text, with its position.
#[derive(Debug, Drop)]
pub enum Node {
    /// A word: a longest run of printable bytes without brackets, quotes and semicolons.
    Word(Span),
    /// A string. Its range includes both quotes.
    Quoted(Span),
    /// A list, with its items in the order of the text. Its range includes both brackets.
    List(Span, Vec<Node>),
}

// Policies have millions of nodes.
const _: () = prove!(size_of::<Node>() <= 40);

impl Node {
    /// The range of the text that this node covers.
    pub fn span(&self) -> Span
        ensures place { result ≡ place_of self.now }
        ensures node { (text : List ℕ) → result ≡ span_of (node_of text self.now) }
    {
        match self {
            Node::Word(span) => *span,
            Node::Quoted(span) => *span,
            Node::List(span, _) => *span,
        }
    }

    /// The items of a list, in the order of the text; empty for a word or a string.
    pub fn children(&self) -> &[Node]
        ensures { (text : List ℕ) → nodes_of text result.now ≡ inner_of (node_of text self.now) }
    {
        match self {
            Node::List(_, items) => items.as_slice(),
            _ => &[],
        }
    }

    /// The bytes of this node: a word as it is, a string with its quotes, a list with its brackets.
    /// `text` is the text that the node was read from, or any other that is long enough for the node's range.
    pub fn bytes<'a>(&self, text: &'a [u8]) -> &'a [u8]
        requires order { (place_of self.now).start ≤ (place_of self.now).end }
        requires within { (place_of self.now).end ≤ length text.now }
        ensures { result.now ≡ slice_range text.now (place_of self.now).start (place_of self.now).end }
    {
        let span = self.span();
        &text[span.start as usize..span.end as usize]
    }
}

/// The tree of a whole text: its lists, one after another.
#[derive(Debug, Drop)]
pub struct Tree {
    pub(crate) nodes: Vec<Node>,
}

impl Tree {
    /// The lists of the text, in order.
    pub fn children(&self) -> &[Node]
        ensures { result.now ≡ top_of self.now }
    {
        self.nodes.as_slice()
    }
}
