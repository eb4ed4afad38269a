//! Trees of texts.

use cil_sexpr::{Node, Span, read};
use std::test::Fail;

/// Some nodes in one line: what each is, and from where to where; behind a list its items in brackets.
fn show(out: &mut String, nodes: &[Node]) -> Result<(), Fail> {
    for node in nodes {
        let Span { start, end } = node.span();
        match node {
            Node::Word(_) => write!(out, " word {start}-{end}")?,
            Node::Quoted(_) => write!(out, " string {start}-{end}")?,
            Node::List(_, items) => {
                write!(out, " list {start}-{end} [")?;
                show(out, items.as_slice())?;
                write!(out, " ]")?;
            }
        }
    }
    Ok(())
}

#[test]
fn a_tree_has_all_that_stands_in_the_text(rt: HostRuntime) -> Result<(), Fail> {
    let text = b"; first\n(type a)\r\n(a\t\"b; (\"(c)x;)\n) ";
    let tree = read(rt.alloc(), text)?;
    let mut shown = String::new(rt.alloc());
    show(&mut shown, tree.children())?;
    assert_eq!(rt;
        shown.as_str(),
        " list 8-16 [ word 9-13 word 14-15 ] \
        list 18-35 [ word 19-20 string 21-27 list 27-30 [ word 28-29 ] word 30-31 ]"
    );
    Ok(())
}

/// A text, and the first items of its first list: the bytes of each, and how many items it has.
const ITEMS: &[u8] = b"(a \"b\" (c d))";

const BYTES: &[(&[u8], usize)] = &[(b"a", 0), (b"\"b\"", 0), (b"(c d)", 2)];

/// Whether a node of `ITEMS` has these bytes and so many items.
fn is_node_so(node: &Node, want: &(&[u8], usize)) -> bool {
    let Span { start, end } = node.span();
    start <= end
        && end as usize <= ITEMS.len()
        && node.bytes(ITEMS) == want.0
        && node.children().len() == want.1
}

/// Whether the first of some lists has the items of `BYTES`.
fn has_items(lists: &[Node]) -> bool {
    let Some(list) = lists.first() else {
        return false;
    };
    let nodes = list.children();
    nodes.len() == BYTES.len()
        && nodes
            .iter()
            .zip(BYTES)
            .all(|(node, want)| is_node_so(node, want))
}

#[test]
fn nodes_give_their_bytes_and_items(rt: HostRuntime) -> Result<(), Fail> {
    let tree = read(rt.alloc(), ITEMS)?;
    assert!(rt; has_items(tree.children()));
    Ok(())
}
