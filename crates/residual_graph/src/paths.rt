//! The augmenting path by which a search reached a node.
ghost use Rattle.std.specs.Prelude.{ℕ, ◌≡◌, ◌<◌, true, length, IfOk};
ghost use Rattle.residual_graph.specs.Graphs.{IsAugmenting, is_flagged};
ghost use Rattle.residual_graph.specs.Searches.{IsSearchOf};
ghost use Rattle.residual_graph.specs.Trees.{visit_at};

use crate::found::Visit;
use crate::{ResidualArc, ResidualGraph, SearchResult};
use std::alloc::{AllocError, Global};

/// The index of the node's visit; 0, the index of the start, if the node has no visit.
fn visit_index(visits: &[Visit], node: u32) -> usize
    ensures within { 0 < result → result < length visits.now }
    ensures found { (p : ℕ) → p < length visits.now → (visit_at visits.now p).node ≡ node →
        (result < length visits.now) × ((visit_at visits.now result).node ≡ node) }
{
    for (p, place) in visits.iter().enumerate() {
        if place.node == node {
            return p;
        }
    }
    0
}

/// An augmenting path from the start of the search to a node that it reached. `found` must be the result of a search of this graph with
/// its current flow. Takes time linear in the nodes, which isn't proved. Fails if an allocation fails.
pub fn path_to(
    alloc: Global,
    graph: &ResidualGraph,
    found: &SearchResult,
    node: u32,
) -> Result<Vec<ResidualArc>, AllocError>
    // The search reached the node.
    requires reached_flags { is_flagged found.now.reached_flags.items node ≡ true }
    // The path is augmenting, if the search is one of this graph with its current flow.
    ensures { IfOk result (λ path. (start : ℕ) → IsSearchOf graph.now start found.now → IsAugmenting graph.now.arcs start path.items node) }
{
    let mut path = Vec::new(alloc);
    let mut at = visit_index(&found.visits, node);
    while at > 0 {
        let place = found.visits[at];
        path.push(place.step)?;
        at = place.parent;
    }
    path.reverse();
    Ok(path)
}
