//! Topological order of a graph's nodes (Kahn 1962). The contracts promise only that the result consists of nodes, not their order.
ghost use Rattle.std.specs.Prelude.{◌≡◌, ◌<◌, All, IfOk, OnOk, length, vec_len};

use crate::{Arc, ResidualGraph};
use std::alloc::{AllocError, Global};

/// The in-degree of each node.
fn in_degrees_of(alloc: Global, arcs: &[Arc], nodes: u32) -> Result<Vec<u32>, AllocError>
    requires { All (λ r. (r.from < nodes) × (r.to < nodes)) arcs.now }
    ensures { IfOk result (λ counts. vec_len counts ≡ nodes) }
{
    let mut counts = vec![in alloc; 0u32; nodes as usize]?;
    for arc in arcs {
        let count = counts[arc.to as usize];
        counts[arc.to as usize] = count.saturating_add(1);
    }
    Ok(counts)
}

/// The nodes with in-degree 0.
fn sources_of(alloc: Global, counts: &[u32], nodes: u32) -> Result<Vec<u32>, AllocError>
    requires { length counts.now ≡ nodes }
    ensures { IfOk result (λ free. All (λ n. n < nodes) free.items) }
{
    let mut free = Vec::new(alloc);
    for node in 0..nodes {
        if counts[node as usize] == 0 {
            free.push(node)?;
        }
    }
    Ok(free)
}

/// Subtracts the arcs that leave the node from the in-degrees in `counts`, and appends the nodes whose in-degree becomes 0 to `free`.
fn remove_node(
    graph: &ResidualGraph,
    node: u32,
    counts: &mut Vec<u32>,
    free: &mut Vec<u32>,
) -> Result<(), AllocError>
    requires node { node < graph.now.nodes }
    requires counts { vec_len counts.old ≡ graph.now.nodes }
    requires free { All (λ n. n < graph.now.nodes) free.old.items }
    ensures counts { OnOk result (vec_len counts.new ≡ graph.now.nodes) }
    ensures free { OnOk result (All (λ n. n < graph.now.nodes) free.new.items) }
{
    for out in graph.residual_arcs(node) {
        if out.step.forward {
            let left = counts[out.head as usize].saturating_sub(1);
            counts[out.head as usize] = left;
            if left == 0 {
                free.push(out.head)?;
            }
        }
    }
    Ok(())
}

/// The nodes in topological order. If the arcs have cycles, the nodes of cycles and all nodes that they reach are missing. Fails if an
/// allocation fails.
pub fn topological_order(alloc: Global, graph: &ResidualGraph) -> Result<Vec<u32>, AllocError>
    // The order has only nodes.
    ensures { IfOk result (λ order. All (λ n. n < graph.now.nodes) order.items) }
{
    graph.invariants();
    let nodes = graph.nodes();
    let mut counts = in_degrees_of(alloc, graph.arcs(), nodes)?;
    let mut free = sources_of(alloc, &counts, nodes)?;
    let mut order = Vec::new(alloc);
    for _ in 0..nodes {
        let Some(node) = free.pop() else {
            return Ok(order);
        };
        order.push(node)?;
        remove_node(graph, node, &mut counts, &mut free)?;
    }
    Ok(order)
}

/// For each node its index in the order; 0 for a node that isn't in the order.
pub fn positions_of(alloc: Global, order: &[u32], nodes: u32) -> Result<Vec<u32>, AllocError>
    // The order has only nodes.
    requires within { All (λ n. n < nodes) order.now }
    // There is an index for each node.
    ensures { IfOk result (λ positions. vec_len positions ≡ nodes) }
{
    let mut positions = vec![in alloc; 0u32; nodes as usize]?;
    let mut place = 0u32;
    for node in order {
        positions[*node as usize] = place;
        place = place.saturating_add(1);
    }
    Ok(positions)
}
