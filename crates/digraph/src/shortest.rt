//! The lexicographically smallest of the shortest paths between two nodes.
ghost use Rattle.std.specs.Prelude.{◌<◌, ◌≤◌, IfNone, IfOk, IfSome};
ghost use Rattle.digraph.specs.Chains.{Chain};
ghost use Rattle.digraph.specs.Edges.{AreBetween, IsAscending, Leads};
ghost use Rattle.digraph.specs.ShortestPaths.{IsLeastChain};

use crate::Edge;
use crate::graph::graph_of;
use std::alloc::{AllocError, Global};

/// The shortest path between two nodes, as its nodes; of several the lexicographically smallest. None if no path leads from `from` to
/// `to`. The edges are strictly sorted and lead between the first `nodes` nodes. Fails if an allocation fails.
pub fn shortest_path(
    alloc: Global,
    edges: &[Edge],
    nodes: usize,
    from: u32,
    to: u32,
) -> Result<Option<Vec<u32>>, AllocError>
    // Both ends of each edge are below `nodes`.
    requires between { AreBetween edges.now nodes }
    // The edges are strictly sorted.
    requires ascending { IsAscending edges.now }
    // There are at most 8,192 nodes.
    requires few_nodes { nodes ≤ 8192 }
    // `from` is a node.
    requires from { from < nodes }
    // `to` is a node.
    requires to { to < nodes }
    // The path is the shortest, of several the lexicographically smallest.
    ensures found { IfOk result (λ answer. IfSome answer (λ chain. IsLeastChain (Leads edges.now) from to chain.items)) }
    // Without a result no path leads from `from` to `to`.
    ensures none { IfOk result (λ answer. IfNone answer (Chain (Leads edges.now) from to → ⊥)) }
{
    let graph = graph_of(alloc, edges, nodes)?;
    let search = graph.search_from(alloc, &[from], &[])?;
    search.path_to(alloc, to)
}
