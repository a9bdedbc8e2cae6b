//! Seeded graphs with parallel and opposite arcs, self-loops, and capacities of 0 and very large ones.
ghost use Rattle.std.specs.Prelude.{◌<◌, ◌≤◌, All, IfOk};

use crate::generated::Seed;
use residual_graph::Arc;
use std::alloc::{AllocError, Global};

/// The number of graphs.
pub(crate) const GRAPHS: u32 = 400;

/// A number of nodes, and the arcs between them.
#[derive(Drop)]
pub(crate) struct Drawn {
    pub(crate) nodes: u32,
    pub(crate) arcs: Vec<Arc>,
}

/// Two random nodes; in a graph without cycles the second has the greater number.
fn ends(seed: &mut Seed, nodes: u32, onwards: bool) -> (u32, u32)
    requires { 2 ≤ nodes }
    ensures from { result.0 < nodes }
    ensures to { result.1 < nodes }
{
    if onwards {
        let from = seed.below(nodes - 1);
        let to = from + 1 + seed.below(nodes - 1 - from);
        (from, to)
    } else {
        (seed.below(nodes), seed.below(nodes))
    }
}

fn drawn_arc(seed: &mut Seed, nodes: u32, onwards: bool, carries: bool) -> Arc
    requires { 2 ≤ nodes }
    ensures within { result.flow ≤ result.capacity }
    ensures from { result.from < nodes }
    ensures to { result.to < nodes }
{
    let (from, to) = ends(seed, nodes, onwards);
    let capacity = match seed.below(8) {
        0 => u64::MAX,
        _ => seed.weight(),
    };
    let most = if carries { u64::from(seed.below(3)) } else { 0 };
    Arc {
        from,
        to,
        capacity,
        flow: most.min(capacity),
    }
}

/// A graph of 2 to 9 nodes and at most 39 arcs. It may have no cycle, and its arcs may already carry flow.
pub(crate) fn draw(
    alloc: Global,
    seed: &mut Seed,
    onwards: bool,
    carries: bool,
) -> Result<Drawn, AllocError>
    ensures nodes { IfOk result (λ d. 2 ≤ d.nodes) }
    ensures within { IfOk result (λ d. All (λ r. r.flow ≤ r.capacity) d.arcs.items) }
    ensures between { IfOk result (λ d. All (λ r. (r.from < d.nodes) × (r.to < d.nodes)) d.arcs.items) }
{
    let nodes = seed.below(8) + 2;
    let count = seed.below(40);
    let mut arcs = Vec::new(alloc);
    for _ in 0..count {
        arcs.push(drawn_arc(seed, nodes, onwards, carries))?;
    }
    Ok(Drawn { nodes, arcs })
}
