//! Edges, and those that leave one node.

ghost use Rattle.std.specs.Prelude.{◌≡◌, ◌<◌, ◌≤◌, length, IsPermutation};
ghost use Rattle.std.specs.List.Sorted.{IsNonDecreasingBy, IsPartitionPoint};
ghost use Rattle.cil_settle.specs.Walk.{leaving};

/// An edge of a graph. It is a support for `settle`: when the node `from` goes out, the node `to` loses it. Two equal edges are two
/// supports.
#[derive(Clone, Copy)]
pub struct Edge {
    /// The node that the edge leaves: the one that supports the other.
    pub from: usize,
    /// The node to which it leads: the one that loses a support when the other goes out.
    pub to: usize,
    /// Whether the loss of this support counts as a look-up. It has no effect on what goes out,
    /// nor on cycles.
    pub counted: bool,
}

/// Sorts edges by the nodes that they leave, as `settle` and `cycles_of` take them. What these answer does not depend on their
/// order.
pub fn sort_edges(edges: &mut [Edge])
    ensures sorted { IsNonDecreasingBy (λ e. e.from) edges.new }
    ensures same { IsPermutation edges.old edges.new }
{
    edges.sort_unstable_by_key(|edge| edge.from);
}

/// The place of the first edge that leaves this node or a later one.
fn start_of(edges: &[Edge], from: usize) -> usize
    requires { IsNonDecreasingBy (λ e. e.from) edges.now }
    ensures bound { result ≤ length edges.now }
    ensures parts { IsPartitionPoint (λ e. e.from < from) (λ e. from ≤ e.from) edges.now result }
{
    edges.partition_point(|edge| edge.from < from)
}

/// The place of the first edge that leaves a later node.
fn end_of(edges: &[Edge], from: usize) -> usize
    requires { IsNonDecreasingBy (λ e. e.from) edges.now }
    ensures bound { result ≤ length edges.now }
    ensures parts { IsPartitionPoint (λ e. e.from ≤ from) (λ e. from < e.from) edges.now result }
{
    edges.partition_point(|edge| edge.from <= from)
}

/// The edges that leave one node. The edges are sorted by the nodes that they leave. It costs two searches by halving.
pub fn leaving_from(edges: &[Edge], from: usize) -> &[Edge]
    requires { IsNonDecreasingBy (λ e. e.from) edges.now }
    ensures { result.now ≡ leaving from edges.now }
{
    let rest = &edges[start_of(edges, from)..];
    &rest[..end_of(rest, from)]
}
