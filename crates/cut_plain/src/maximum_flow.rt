//! A maximum flow: first along paths in a topological order, then in phases, each with a breadth-first search and a blocking flow.
ghost use Rattle.std.specs.Prelude.{ℕ, ◌≡◌, ◌≢◌, ◌<◌, true, false, IfOk, OnOk, vec_len};
ghost use Rattle.residual_graph.specs.Flows.{DifferInFlowOnly, IsBalanced};
ghost use Rattle.residual_graph.specs.Graphs.{is_flagged, AreClosed, AreReached};
ghost use Rattle.residual_graph.specs.Searches.{IsSearchOf};
ghost use Rattle.cut_plain.specs.Levels.{Raises};

use crate::blocking::blocking_flow;
use residual_graph::{
    ResidualGraph, SearchResult, path_to, positions_of, search, topological_order,
};
use std::alloc::{AllocError, Global};

/// Raises the flow along the path by which the search reached the sink, and then by a blocking flow.
fn raise_flow(
    alloc: Global,
    graph: &mut ResidualGraph,
    found: &SearchResult,
    from: u32,
    to: u32,
) -> Result<(), AllocError>
    requires apart { from ≢ to }
    requires to { to < graph.old.nodes }
    requires levels { vec_len found.now.levels ≡ graph.old.nodes }
    requires tree { IsSearchOf graph.old from found.now }
    requires found { is_flagged found.now.reached_flags.items to ≡ true }
    ensures nodes { OnOk result (graph.new.nodes ≡ graph.old.nodes) }
    ensures same { OnOk result (DifferInFlowOnly graph.old.arcs graph.new.arcs) }
    ensures raises { OnOk result (Raises graph.old.arcs graph.new.arcs from to) }
{
    let path = path_to(alloc, graph, found, to)?;
    graph.augment(&path);
    blocking_flow(alloc, graph, &found.levels, from, to)?;
    Ok(())
}

/// Raises the flow until no augmenting path is left, and returns the last search.
pub(crate) fn maximum_flow(
    alloc: Global,
    graph: &mut ResidualGraph,
    from: u32,
    to: u32,
) -> Result<SearchResult, AllocError>
    requires apart { from ≢ to }
    requires from { from < graph.old.nodes }
    requires to { to < graph.old.nodes }
    requires balanced { IsBalanced graph.old.arcs from to 0 }
    ensures nodes { OnOk result (graph.new.nodes ≡ graph.old.nodes) }
    ensures same { OnOk result (DifferInFlowOnly graph.old.arcs graph.new.arcs) }
    ensures balanced { OnOk result ((value : ℕ) × IsBalanced graph.new.arcs from to value) }
    ensures reached { IfOk result (λ found. AreReached graph.new from found.reached_flags.items) }
    ensures closed { IfOk result (λ found. AreClosed graph.new.arcs found.reached_flags.items) }
    ensures end { IfOk result (λ found. is_flagged found.reached_flags.items to ≡ false) }
{
    let order = topological_order(alloc, graph)?;
    let places = positions_of(alloc, &order, graph.nodes())?;
    blocking_flow(alloc, graph, &places, from, to)?;
    let mut found = search(alloc, graph, from)?;
    while found.reached_flags[to as usize] {
        raise_flow(alloc, graph, &found, from, to)?;
        graph.invariants();
        found = search(alloc, graph, from)?;
    }
    Ok(found)
}
