//! Blocking flows in a level graph (Dinic 1970). The proofs use only that levels rise along a path, so that no arc occurs on it twice.
ghost use Rattle.std.specs.Prelude.{◌≡◌, ◌≢◌, ◌<◌, IsTrue, OnOk, length};
ghost use Rattle.residual_graph.specs.Flows.{DifferInFlowOnly};
ghost use Rattle.residual_graph.specs.Graphs.{HasArc};
ghost use Rattle.cut_plain.specs.Levels.{Climbs, IsDescent, RaisesOrKeeps, opposite};

use residual_graph::{ResidualArc, ResidualGraph};
use std::alloc::{AllocError, Global};

/// A path to the sink that is being built backwards: `path` has its steps, the last one first, and `at` is its first node so far. For each
/// node `current` has the index of its current residual arc; arcs before it can't extend the path.
#[derive(Drop)]
struct Descent {
    current: Vec<usize>,
    path: Vec<ResidualArc>,
    at: u32,
}

/// The residual arc of the same arc in the opposite direction.
fn opposite(step: ResidualArc) -> ResidualArc
    ensures { result ≡ opposite step }
{
    ResidualArc {
        forward: !step.forward,
        ..step
    }
}

/// Whether the residual arc leads to a higher level and has residual capacity.
fn climbs(graph: &ResidualGraph, step: ResidualArc, levels: &[u32]) -> bool
    requires known { HasArc graph.now.arcs step }
    requires levels { length levels.now ≡ graph.now.nodes }
    ensures { IsTrue result → Climbs graph.now.arcs levels.now step }
{
    let tail = graph.tail(step);
    let head = graph.head(step);
    levels[tail as usize] < levels[head as usize] && graph.residual(step) > 0
}

/// One step of the search. If the path begins at the source, augments along it and starts a new one. Otherwise extends it by a residual
/// arc, skips an arc that can't extend it, or drops its first step. Returns false if nothing is left to drop.
fn advance_descent(
    graph: &mut ResidualGraph,
    levels: &[u32],
    from: u32,
    to: u32,
    descent: &mut Descent,
) -> Result<bool, AllocError>
    requires apart { from ≢ to }
    requires descent { IsDescent graph.old levels.now to descent.old.current.items descent.old.path.items descent.old.at }
    ensures nodes { OnOk result (graph.new.nodes ≡ graph.old.nodes) }
    ensures same { OnOk result (DifferInFlowOnly graph.old.arcs graph.new.arcs) }
    ensures rises { OnOk result (RaisesOrKeeps graph.old.arcs graph.new.arcs from to) }
    ensures descent { OnOk result (IsDescent graph.new levels.now to descent.new.current.items descent.new.path.items descent.new.at) }
{
    let at = descent.at;
    if at == from {
        descent.path.reverse();
        graph.augment(&descent.path);
        descent.path.clear();
        descent.at = to;
        return Ok(true);
    }
    let current = descent.current[at as usize];
    let leaving = graph.residual_arcs(at);
    if current < leaving.len() {
        let step = opposite(leaving[current].step);
        if climbs(graph, step, levels) {
            let tail = graph.tail(step);
            descent.path.push(step)?;
            descent.at = tail;
            return Ok(true);
        }
        descent.current[at as usize] = current + 1;
        return Ok(true);
    }
    match descent.path.pop() {
        Some(step) => {
            let head = graph.head(step);
            let done = descent.current[head as usize];
            descent.current[head as usize] = done.saturating_add(1);
            descent.at = head;
            Ok(true)
        }
        None => Ok(false),
    }
}

/// Augments along paths from `from` to `to` on which levels rise, until there is no such path.
pub(crate) fn blocking_flow(
    alloc: Global,
    graph: &mut ResidualGraph,
    levels: &[u32],
    from: u32,
    to: u32,
) -> Result<(), AllocError>
    requires apart { from ≢ to }
    requires levels { length levels.now ≡ graph.old.nodes }
    requires to { to < graph.old.nodes }
    ensures nodes { OnOk result (graph.new.nodes ≡ graph.old.nodes) }
    ensures same { OnOk result (DifferInFlowOnly graph.old.arcs graph.new.arcs) }
    ensures rises { OnOk result (RaisesOrKeeps graph.old.arcs graph.new.arcs from to) }
{
    let mut descent = Descent {
        current: vec![in alloc; 0usize; levels.len()]?,
        path: Vec::new(alloc),
        at: to,
    };
    for _ in 0..u64::MAX {
        let moved = advance_descent(graph, levels, from, to, &mut descent)?;
        if !moved {
            return Ok(());
        }
    }
    Ok(())
}
