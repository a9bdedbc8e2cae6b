//! Lists of predecessors.
ghost use Rattle.std.specs.Prelude.{◌≡◌, ◌<◌, ◌++◌, ◌∷◌, [], slice_set, IfOk, OnOk, map, vec_len, ℕ};
ghost use Rattle.digraph.specs.Edges.{transpose as flip, predecessors, AreBetween};
ghost use Rattle.digraph.specs.Marks.{lists, list_at};

use crate::Edge;
use std::alloc::{AllocError, Global};

/// Appends the source of the edge to the predecessors of its target.
fn add_predecessor(predecessors: &mut Vec<Vec<u32>>, edge: Edge) -> Result<(), AllocError>
    requires { edge.to < vec_len predecessors.old }
    ensures size { OnOk result (vec_len predecessors.new ≡ vec_len predecessors.old) }
    ensures rows { OnOk result (lists predecessors.new.items ≡ slice_set (lists predecessors.old.items) edge.to (list_at (lists predecessors.old.items) edge.to ++ edge.from ∷ [])) }
{
    predecessors[edge.to as usize].push(edge.from)?;
    Ok(())
}

/// An empty list for each node.
fn empty_lists(alloc: Global, nodes: usize) -> Result<Vec<Vec<u32>>, AllocError>
    ensures size { IfOk result (λ rows. vec_len rows ≡ nodes) }
    ensures none { IfOk result (λ rows. (v : ℕ) → list_at (lists rows.items) v ≡ []) }
{
    let mut rows = Vec::new(alloc);
    for _ in 0..nodes {
        let none = Vec::new(alloc);
        rows.push(none)?;
    }
    Ok(rows)
}

/// The reversed edges, in the order of the given ones. Fails if an allocation fails.
pub fn transpose(alloc: Global, edges: &[Edge]) -> Result<Vec<Edge>, AllocError>
    // Each edge is reversed.
    ensures { IfOk result (λ others. others.items ≡ map flip edges.now) }
{
    let mut others = Vec::new(alloc);
    for edge in edges {
        others.push(Edge {
            from: edge.to,
            to: edge.from,
        })?;
    }
    Ok(others)
}

/// For each node its predecessors, in the order of the edges. Fails if an allocation fails.
pub fn predecessor_lists(
    alloc: Global,
    edges: &[Edge],
    nodes: usize,
) -> Result<Vec<Vec<u32>>, AllocError>
    // Both ends of each edge are below `nodes`.
    requires between { AreBetween edges.now nodes }
    // There is a list for each node.
    ensures size { IfOk result (λ rows. vec_len rows ≡ nodes) }
    // The list of a node has its predecessors, in the order of the edges.
    ensures rows { IfOk result (λ rows. (v : ℕ) → list_at (lists rows.items) v ≡ predecessors edges.now v) }
{
    let mut rows = empty_lists(alloc, nodes)?;
    for edge in edges {
        add_predecessor(&mut rows, *edge)?;
    }
    Ok(rows)
}
