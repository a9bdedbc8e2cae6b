//! The canonical cycle of a graph.
ghost use Rattle.std.specs.Prelude.{ℕ, ◌≡◌, ◌<◌, ◌≤◌, length, true, vec_len, All, IfOk, IfSome, IfNone, slice_index};
ghost use Rattle.digraph.specs.Cycle.{IsCycleCore, IsLeast, IsSmallestSuccessor, IsRotated, IsCanonicalCycle};
ghost use Rattle.digraph.specs.Marks.{edge_at, marked, index_at};
ghost use Rattle.digraph.specs.Edges.{AreBetween, IsAscending, Leads};
ghost use Rattle.digraph.specs.Chains.{IsAcyclic};

use crate::Edge;
use crate::core_nodes::{CycleCore, compute_cycle_core};
use crate::walk::{first_marked, walk};
use std::alloc::{AllocError, Global};

/// The index of the first smallest number.
fn index_of_min(numbers: &[u32]) -> usize
    requires { 0 < length numbers.now }
    ensures within { result < length numbers.now }
    ensures least { (k : ℕ) → k < length numbers.now → slice_index numbers.now result ≤ slice_index numbers.now k }
{
    let mut least = 0;
    for place in 0..numbers.len() {
        if numbers[place] < numbers[least] {
            least = place;
        }
    }
    least
}

/// Rotates the list so that it begins with its smallest number.
fn rotate_to_min(numbers: &mut [u32])
    requires { 0 < length numbers.old }
    ensures { IsRotated numbers.old numbers.new }
{
    let least = index_of_min(numbers);
    numbers.rotate_left(least);
}

/// The cycle that the walk from the smallest candidate enters, rotated to begin with its smallest node.
fn walk_to_cycle(
    alloc: Global,
    edges: &[Edge],
    core_nodes: &CycleCore,
    first: u32,
) -> Result<Vec<u32>, AllocError>
    requires sizes { vec_len core_nodes.now.places ≡ vec_len core_nodes.now.marks }
    // Each member has a current edge.
    requires within { (v : ℕ) → marked core_nodes.now.marks.items v ≡ true → index_at core_nodes.now.places.items v < length edges.now }
    // The current edge of each member leads to its smallest successor in the set.
    requires next { (v : ℕ) → marked core_nodes.now.marks.items v ≡ true →
        IsSmallestSuccessor (Leads edges.now) (marked core_nodes.now.marks.items) v (edge_at edges.now (index_at core_nodes.now.places.items v)).to }
    // `first` is the smallest member of the set.
    requires first { IsLeast (marked core_nodes.now.marks.items) first }
    // The set is the largest one in which each node has an edge to a member.
    requires core_nodes { IsCycleCore (Leads edges.now) (marked core_nodes.now.marks.items) }
    ensures named { IfOk result (λ cycle. IsCanonicalCycle (Leads edges.now) cycle.items) }
    // All nodes of the list are members of the set.
    ensures members { IfOk result (λ cycle. All (λ m. marked core_nodes.now.marks.items m ≡ true) cycle.items) }
{
    let (walk, place) = walk(alloc, edges, core_nodes, first)?;
    let mut cycle = Vec::from_slice(alloc, &walk.as_slice()[place..])?;
    rotate_to_min(cycle.as_mut_slice());
    Ok(cycle)
}

/// The canonical cycle, as its nodes; none if the graph is acyclic. Walk from the smallest node from which a cycle is reachable, at each
/// step to the smallest successor from which a cycle is reachable, until a node repeats. The cycle begins with its smallest node. The
/// edges are strictly sorted and lead between the first `nodes` nodes. Fails if an allocation fails.
pub fn find_canonical_cycle(
    alloc: Global,
    edges: &[Edge],
    nodes: usize,
) -> Result<Option<Vec<u32>>, AllocError>
    // Both ends of each edge are below `nodes`.
    requires between { AreBetween edges.now nodes }
    // The edges are strictly sorted.
    requires ascending { IsAscending edges.now }
    // There are at most 8,192 nodes.
    requires few_nodes { nodes ≤ 8192 }
    // The result is the canonical cycle.
    ensures named { IfOk result (λ answer. IfSome answer (λ cycle. IsCanonicalCycle (Leads edges.now) cycle.items)) }
    // The nodes of the cycle are below `nodes`.
    ensures within { IfOk result (λ answer. IfSome answer (λ cycle. All (λ m. m < nodes) cycle.items)) }
    // Without a result the graph is acyclic.
    ensures none { IfOk result (λ answer. IfNone answer (IsAcyclic (Leads edges.now))) }
{
    let core_nodes = compute_cycle_core(alloc, edges, nodes)?;
    let Some(first) = first_marked(core_nodes.marks.as_slice()) else {
        return Ok(None);
    };
    let cycle = walk_to_cycle(alloc, edges, &core_nodes, first)?;
    Ok(Some(cycle))
}
