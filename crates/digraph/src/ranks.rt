//! Renumbering of nodes.
ghost use Rattle.std.specs.Prelude.{◌≡◌, ◌≤◌, ◌<◌, ◌↔◌, All, Contains, IfOk, length, map};
ghost use Rattle.digraph.specs.declared.edge.Edge.{Edge as GraphEdge};
ghost use Rattle.digraph.specs.Edges.{AreBetween, IsAscending};
ghost use Rattle.digraph.specs.Ranks.{by_ranks, AreRanks};

use crate::Edge;
use std::alloc::{AllocError, Global};

/// Sorts the edges by source and then by target, and removes duplicates.
pub fn sort_and_dedup(edges: &mut Vec<Edge>)
    // They are strictly sorted.
    ensures ascending { IsAscending edges.new.items }
    // No edge is added or lost.
    ensures same { (p : GraphEdge) → Contains edges.new.items p ↔ Contains edges.old.items p }
{
    edges.sort_unstable_by_key(|edge| (edge.from, edge.to));
    edges.dedup();
}

/// The inverse of an order of the nodes: for each node its index in the order. Fails if an allocation fails.
pub fn ranks_of(alloc: Global, order: &[u32]) -> Result<Vec<u32>, AllocError>
    // There are at most 8,192 nodes.
    requires few { length order.now ≤ 8192 }
    // Each node is a number below the length.
    requires within { All (λ v. v < length order.now) order.now }
    // The result is the inverse of the order.
    ensures { IfOk result (λ ranks. AreRanks order.now ranks.items) }
{
    let mut ranks = vec![in alloc; 0; order.len()]?;
    for place in 0..order.len() {
        ranks[order[place] as usize] = place as u32;
    }
    Ok(ranks)
}

/// The edges with each node replaced by its rank, strictly sorted. Fails if an allocation fails.
pub fn renumber_edges(alloc: Global, edges: &[Edge], ranks: &[u32]) -> Result<Vec<Edge>, AllocError>
    // Each node has a rank.
    requires between { AreBetween edges.now (length ranks.now) }
    // They are strictly sorted.
    ensures ascending { IfOk result (λ others. IsAscending others.items) }
    // The result has exactly the given edges with each node replaced by its rank.
    ensures same { IfOk result (λ others. (p : GraphEdge) → Contains others.items p ↔ Contains (map (by_ranks ranks.now) edges.now) p) }
{
    let mut others = Vec::new(alloc);
    for edge in edges {
        others.push(Edge {
            from: ranks[edge.from as usize],
            to: ranks[edge.to as usize],
        })?;
    }
    sort_and_dedup(&mut others);
    Ok(others)
}
