//! The walk that finds the canonical cycle.
ghost use Rattle.std.specs.Prelude.{ℕ, ◌≡◌, ◌<◌, ◌≤◌, ◌+◌, length, true, false, vec_len, IfOk, IfSome, IfNone, All, slice_index};
ghost use Rattle.digraph.specs.Cycle.{ClosesAt, IsLeast, IsSmallestSuccessor};
ghost use Rattle.digraph.specs.Marks.{edge_at, marked, index_at};
ghost use Rattle.digraph.specs.Edges.{Leads};

use crate::Edge;
use crate::core_nodes::CycleCore;
use std::alloc::{AllocError, Global};

/// The smallest node whose flag is set.
pub(crate) fn first_marked(marks: &[bool]) -> Option<u32>
    requires { length marks.now ≤ 8192 }
    ensures found { IfSome result (IsLeast (marked marks.now)) }
    ensures none { IfNone result ((v : ℕ) → marked marks.now v ≡ true → ⊥) }
{
    for node in 0..marks.len() {
        if marks[node] {
            return Some(node as u32);
        }
    }
    None
}

/// The nodes of the walk from `first` on, each followed by its smallest successor among the candidates, until a node repeats; and the
/// index of that node.
pub(crate) fn walk(
    alloc: Global,
    edges: &[Edge],
    core_nodes: &CycleCore,
    first: u32,
) -> Result<(Vec<u32>, usize), AllocError>
    requires sizes { vec_len core_nodes.now.places ≡ vec_len core_nodes.now.marks }
    // Each member has a current edge.
    requires within { (v : ℕ) → marked core_nodes.now.marks.items v ≡ true → index_at core_nodes.now.places.items v < length edges.now }
    // The current edge of each member leads to its smallest successor in the set.
    requires next { (v : ℕ) → marked core_nodes.now.marks.items v ≡ true →
        IsSmallestSuccessor (Leads edges.now) (marked core_nodes.now.marks.items) v (edge_at edges.now (index_at core_nodes.now.places.items v)).to }
    // `first` is the smallest member of the set.
    requires first { IsLeast (marked core_nodes.now.marks.items) first }
    // The walk closes at the returned index.
    ensures back { IfOk result (λ found. ClosesAt (Leads edges.now) (marked core_nodes.now.marks.items) found.0.items found.1) }
    // All nodes of the list are members of the set.
    ensures members { IfOk result (λ found. All (λ m. marked core_nodes.now.marks.items m ≡ true) found.0.items) }
{
    let mut walk = Vec::new(alloc);
    let mut place_of_node = vec![in alloc; None; core_nodes.marks.len()]?;
    let mut at = first;
    'steps: loop {
        place_of_node[at as usize] = Some(walk.len());
        walk.push(at)?;
        at = edges[core_nodes.places[at as usize]].to;
        if let Some(place) = place_of_node[at as usize] {
            return Ok((walk, place));
        }
    }
}
