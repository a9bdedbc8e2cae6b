//! Distances to the sink in the residual graph, by breadth-first search. The contracts promise only that there is a label for each node
//! and that the listed numbers are nodes, not the distances.
ghost use Rattle.std.specs.Prelude.{◌≡◌, ◌<◌, All, IfOk, OnOk, not, vec_len};
ghost use Rattle.residual_graph.specs.Graphs.{HasArc};

use residual_graph::{ResidualArc, ResidualGraph};
use std::alloc::{AllocError, Global};

/// `labels` has for each node its distance to the sink in residual arcs with capacity, the number of nodes if no path leads to the sink.
/// `reached` has the nodes with a path, sorted by distance.
#[derive(Drop)]
pub(crate) struct Distances {
    pub(crate) labels: Vec<u32>,
    pub(crate) reached: Vec<u32>,
}

/// The opposite residual arc.
pub(crate) fn opposite(step: ResidualArc) -> ResidualArc
    ensures { result ≡ record { arc = step.arc; forward = not step.forward } }
{
    ResidualArc {
        forward: !step.forward,
        ..step
    }
}

/// Labels each unlabelled node from which a residual arc with capacity leads to this node, and appends it to `reached`.
fn label_predecessors(
    graph: &ResidualGraph,
    node: u32,
    labels: &mut Vec<u32>,
    reached: &mut Vec<u32>,
) -> Result<(), AllocError>
    requires node { node < graph.now.nodes }
    requires labels { vec_len labels.old ≡ graph.now.nodes }
    requires reached { All (λ n. n < graph.now.nodes) reached.old.items }
    ensures labels { OnOk result (vec_len labels.new ≡ graph.now.nodes) }
    ensures reached { OnOk result (All (λ n. n < graph.now.nodes) reached.new.items) }
{
    let none = graph.nodes();
    let label = labels[node as usize].saturating_add(1);
    for out in graph.residual_arcs(node) {
        let before = out.head;
        if labels[before as usize] == none && graph.residual(opposite(out.step)) > 0 {
            labels[before as usize] = label;
            reached.push(before)?;
        }
    }
    Ok(())
}

/// The distances of all nodes to the sink `end`, by breadth-first search backwards. Fails if an allocation fails.
pub(crate) fn sink_distances(
    alloc: Global,
    graph: &ResidualGraph,
    end: u32,
) -> Result<Distances, AllocError>
    requires { end < graph.now.nodes }
    ensures labels { IfOk result (λ d. vec_len d.labels ≡ graph.now.nodes) }
    ensures reached { IfOk result (λ d. All (λ n. n < graph.now.nodes) d.reached.items) }
{
    let nodes = graph.nodes();
    let mut labels = vec![in alloc; nodes; nodes as usize]?;
    let mut reached = Vec::new(alloc);
    labels[end as usize] = 0;
    reached.push(end)?;
    for place in 0..nodes as usize {
        if place >= reached.len() {
            return Ok(Distances { labels, reached });
        }
        let node = reached[place];
        label_predecessors(graph, node, &mut labels, &mut reached)?;
    }
    Ok(Distances { labels, reached })
}
