//! Graphs with a list of successors for each node.
ghost use Rattle.std.specs.Prelude.{◌≡◌, ◌≤◌, IfOk, vec_len, ℕ};
ghost use Rattle.digraph.specs.Edges.{successors, AreBetween, IsAscending};
ghost use Rattle.digraph.specs.Graphs.{IsGraph};
ghost use Rattle.digraph.specs.Marks.{lists, list_at};

use crate::Edge;
use crate::adjacency::{predecessor_lists, transpose};
use std::alloc::{AllocError, Global};

/// A graph with its adjacency lists, so that it can be searched more than once.
#[derive(Drop)]
pub struct Graph<'a> {
    /// The edges, strictly sorted by source and then by target.
    pub edges: &'a [Edge],
    /// For each node its successors, in ascending order.
    pub after: Vec<Vec<u32>>,
}

/// For each node its successors, in the order of the edges.
fn successor_lists(alloc: Global, edges: &[Edge], nodes: usize) -> Result<Vec<Vec<u32>>, AllocError>
    // Both ends of each edge are below `nodes`.
    requires between { AreBetween edges.now nodes }
    ensures size { IfOk result (λ rows. vec_len rows ≡ nodes) }
    ensures rows { IfOk result (λ rows. (v : ℕ) → list_at (lists rows.items) v ≡ successors edges.now v) }
{
    let rotated = transpose(alloc, edges)?;
    let rows = predecessor_lists(alloc, rotated.as_slice(), nodes)?;
    Ok(rows)
}

/// The graph of strictly sorted edges between the first `nodes` nodes. Fails if an allocation fails.
pub fn graph_of(alloc: Global, edges: &[Edge], nodes: usize) -> Result<Graph<'_>, AllocError>
    // Both ends of each edge are below `nodes`.
    requires between { AreBetween edges.now nodes }
    // The edges are strictly sorted.
    requires ascending { IsAscending edges.now }
    // There are at most 8,192 nodes.
    requires few_nodes { nodes ≤ 8192 }
    // The graph has the successors of each node, and can be searched.
    ensures graph { IfOk result IsGraph }
    // The edges of the graph are the given edges.
    ensures edges { IfOk result (λ graph. graph.edges.now ≡ edges.now) }
    // The graph has `nodes` nodes.
    ensures nodes { IfOk result (λ graph. vec_len graph.after ≡ nodes) }
{
    let after = successor_lists(alloc, edges, nodes)?;
    Ok(Graph { edges, after })
}
