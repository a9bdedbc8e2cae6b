//! Breadth-first search in the residual graph.
ghost use Rattle.std.specs.Prelude.{ℕ, [], ◌≡◌, ◌<◌, ◌+◌, ◌↔◌, false, IsTrue, IfOk, OnOk, length, vec_len};
ghost use Rattle.residual_graph.specs.Graphs.{is_flagged, AreClosed, AreReached};
ghost use Rattle.residual_graph.specs.Searches.{IsSearchOf};
ghost use Rattle.residual_graph.specs.Trees.{Searching, visit_at};

use crate::found::Visit;
use crate::{OutArc, ResidualArc, ResidualGraph, SearchResult};
use std::alloc::{AllocError, Global};

/// Whether the search follows this residual arc: it has residual capacity, and its head isn't flagged as reached.
fn extends_search(out: OutArc, reached_flags: &[bool]) -> bool
    requires { out.head < length reached_flags.now }
    ensures { IsTrue result ↔ ((0 < out.residual) × (is_flagged reached_flags.now out.head ≡ false)) }
{
    !reached_flags[out.head as usize] && out.residual > 0
}

/// Visits the unreached heads of those residual arcs with capacity that leave the node at index `place` of `visits`.
fn visit_heads(
    graph: &ResidualGraph,
    place: usize,
    reached_flags: &mut Vec<bool>,
    levels: &mut Vec<u32>,
    visits: &mut Vec<Visit>,
) -> Result<(), AllocError>
    requires reached_flags { vec_len reached_flags.old ≡ graph.now.nodes }
    requires levels { vec_len levels.old ≡ graph.now.nodes }
    requires place { place < vec_len visits.old }
    requires node { (visit_at visits.old.items place).node < graph.now.nodes }
    ensures reached_flags { OnOk result (vec_len reached_flags.new ≡ graph.now.nodes) }
    ensures levels { OnOk result (vec_len levels.new ≡ graph.now.nodes) }
    ensures search { OnOk result ((start : ℕ) →
        Searching graph.now start reached_flags.old.items visits.old.items place [] 0 →
        Searching graph.now start reached_flags.new.items visits.new.items (place + 1) [] 0) }
{
    let node = visits[place].node;
    let level = levels[node as usize].saturating_add(1);
    for out in graph.residual_arcs(node) {
        if extends_search(*out, reached_flags) {
            reached_flags[out.head as usize] = true;
            levels[out.head as usize] = level;
            visits.push(Visit {
                node: out.head,
                step: out.step,
                parent: place,
            })?;
        }
    }
    Ok(())
}

/// Finds the nodes that augmenting paths from `start` reach. Takes time linear in nodes and arcs, which isn't proved. Fails if an
/// allocation fails.
pub fn search(alloc: Global, graph: &ResidualGraph, start: u32) -> Result<SearchResult, AllocError>
    // `start` is a node.
    requires { start < graph.now.nodes }
    // Exactly the reachable nodes are flagged.
    ensures reached { IfOk result (λ found. AreReached graph.now start found.reached_flags.items) }
    // No residual arc with capacity leaves the flagged nodes.
    ensures closed { IfOk result (λ found. AreClosed graph.now.arcs found.reached_flags.items) }
    // There is a level for each node.
    ensures levels { IfOk result (λ found. vec_len found.levels ≡ graph.now.nodes) }
    // The visits form a tree from `start`, as `path_to` requires.
    ensures tree { IfOk result (λ found. IsSearchOf graph.now start found) }
{
    let mut reached_flags = vec![in alloc; false; graph.nodes() as usize]?;
    let mut levels = vec![in alloc; u32::MAX; graph.nodes() as usize]?;
    let mut visits = Vec::new(alloc);
    reached_flags[start as usize] = true;
    levels[start as usize] = 0;
    visits.push(Visit {
        node: start,
        step: ResidualArc {
            arc: 0,
            forward: false,
        },
        parent: 0,
    })?;
    let mut place = 0;
    while place < visits.len() {
        visit_heads(graph, place, &mut reached_flags, &mut levels, &mut visits)?;
        place += 1;
    }
    Ok(SearchResult {
        reached_flags,
        levels,
        visits,
    })
}
