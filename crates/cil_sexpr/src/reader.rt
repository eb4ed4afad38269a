//! The reader: one pass over the bytes, with one recursive call for each open list.

ghost use Rattle.std.specs.Prelude.{◌≡◌, ◌≤◌, IfOk, IfErr, length};
ghost use Rattle.cil_sexpr.specs.Faults.{FaultOf, Plain};
ghost use Rattle.cil_sexpr.specs.Reading.{IsClean, IsLevel};
ghost use Rattle.cil_sexpr.specs.Refusal.{Refuses};
ghost use Rattle.cil_sexpr.specs.Text.{IsText, deepest, longest_text};
ghost use Rattle.cil_sexpr.specs.Tree.{AreInOrder};
ghost use Rattle.cil_sexpr.specs.View.{nodes_of, top_of};

use crate::bytes::{ByteKind, comment_end, kind_of, string_end, word_end};
use crate::fault::{ReadCode, ReadError, ReadFault};
use crate::node::{Node, Span, Tree};
use std::alloc::Global;

/// The most bytes that a text may have.
pub const LONGEST_TEXT: usize = 4_194_304;

/// How deep lists may be nested.
const DEEPEST: u32 = 128;

/// Reads a text: the tree of its lists, words and strings, or its first fault.
///
/// The first fault is the one at the lowest byte offset and, if several share it, the lowest code. A text of more
/// than 4,194,304 bytes is rejected at that offset, whatever is in it. The cost is one pass over the bytes. The
/// error is `NoMemory` if the memory for a list of nodes could not be allocated.
pub fn read(alloc: Global, text: &[u8]) -> Result<Tree, ReadError>
    ensures tree { IfOk result (λ t. IsText text.now (nodes_of text.now (top_of t))) }

    // Each node is inside the list that contains it and after the nodes before it, so its range may be used with
    // this text in `Node::bytes`.
    ensures places { IfOk result (λ t. AreInOrder 0 (length text.now) (nodes_of text.now (top_of t))) }
    ensures refusal { IfErr result (Refuses text.now) }
{
    if text.len() > LONGEST_TEXT {
        return Err(fault(text, ReadCode::TooLong, LONGEST_TEXT));
    }
    let Level { nodes, end: _ } = read_level(alloc, text, 0, 0)?;
    Ok(Tree { nodes })
}

/// The nodes of one list, or of the top level, and the byte offset of what ends them.
#[derive(Drop)]
struct Level {
    nodes: Vec<Node>,
    end: usize,
}

/// Reads the nodes from `from` on, inside `depth` open lists, up to the bracket that closes the innermost of them
/// or, at the top level, to the end of the text. At most 129 calls are nested: one for the top level, and one for
/// each open list.
fn read_level(alloc: Global, text: &[u8], from: usize, depth: u32) -> Result<Level, ReadError>
    requires clean { IsClean text.now Plain depth from }
    requires room { depth ≤ deepest }
    ensures level { IfOk result (λ l. IsLevel text.now depth from l.nodes.items l.end) }
    ensures refusal { IfErr result (Refuses text.now) }
{
    let mut nodes = Vec::new(alloc);
    let mut at = from;
    while at < text.len() {
        match kind_of(text[at]) {
            ByteKind::Blank => at += 1,
            ByteKind::Semicolon => at = comment_end(text, at),
            ByteKind::Word => {
                if depth == 0 {
                    return Err(fault(text, ReadCode::OutsideList, at));
                }
                let end = word_end(text, at);
                nodes.push(Node::Word(span(text, at, end)))?;
                at = end;
            }
            ByteKind::Quote => {
                let Some(end) = string_end(text, at) else {
                    return Err(fault(text, ReadCode::OpenQuote, at));
                };
                if depth == 0 {
                    return Err(fault(text, ReadCode::OutsideList, at));
                }
                nodes.push(Node::Quoted(span(text, at, end)))?;
                at = end;
            }
            ByteKind::Open => {
                if depth == DEEPEST {
                    return Err(fault(text, ReadCode::TooDeep, at));
                }
                let inner = read_level(alloc, text, at + 1, depth + 1)?;
                let end = inner.end + 1;
                nodes.push(Node::List(span(text, at, end), inner.nodes))?;
                at = end;
            }
            ByteKind::Close if depth == 0 => return Err(fault(text, ReadCode::StrayClose, at)),
            ByteKind::Close => return Ok(Level { nodes, end: at }),
            ByteKind::Bad => return Err(fault(text, ReadCode::BadByte, at)),
        }
    }
    if depth > 0 {
        return Err(fault(text, ReadCode::Unclosed, at));
    }
    Ok(Level { nodes, end: at })
}

/// The first fault of the text, as an error.
fn fault(_text: &[u8], code: ReadCode, at: usize) -> ReadError
    requires { FaultOf _text.now code at }
    ensures { Refuses _text.now result }
{
    ReadError::Fault(ReadFault {
        code,
        at: at as u64,
    })
}

/// A range of a text. A text is short enough that its offsets fit.
fn span(text: &[u8], start: usize, end: usize) -> Span
    requires short { length text.now ≤ longest_text }
    requires order { start ≤ end }
    requires within { end ≤ length text.now }
    ensures start { result.start ≡ start }
    ensures end { result.end ≡ end }
{
    prove!(end <= text.len());
    Span {
        start: start as u32,
        end: end as u32,
    }
}
