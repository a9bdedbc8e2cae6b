//! The initial flow of `initial_flow`, compared with that of a reference implementation. No contract claims which flow it is.
ghost use Rattle.std.specs.Prelude.{◌<◌, ◌≤◌, All};

use crate::description::expect;
use crate::drawn::{Drawn, GRAPHS, draw};
use crate::earlier;
use crate::generated::Seed;
use initial_flow::find_initial_flow;
use residual_graph::ResidualGraph;
use std::alloc::{AllocError, Global};
use std::process::Abort;
use std::test::Fail;

/// The arcs with their flows.
fn describe_flow(alloc: Global, graph: &ResidualGraph) -> Result<String, AllocError> {
    let mut text = String::new(alloc);
    for arc in graph.arcs() {
        write!(
            text,
            " {} {} {} of {}",
            arc.from, arc.to, arc.flow, arc.capacity
        )?;
    }
    Ok(text)
}

/// Checks that the initial flows from the first node to the last are equal.
fn check_initial_flows<R: Abort + AllocGlobal>(rt: &R, drawn: Drawn) -> Result<(), AllocError>
    requires nodes { 2 ≤ drawn.nodes }
    requires within { All (λ r. r.flow ≤ r.capacity) drawn.arcs.items }
    requires between { All (λ r. (r.from < drawn.nodes) × (r.to < drawn.nodes)) drawn.arcs.items }
{
    let end = drawn.nodes - 1;
    let arcs = drawn.arcs.to_vec(rt.alloc())?;
    let graph = ResidualGraph::new(rt.alloc(), arcs, drawn.nodes)?;
    let before = earlier::find_initial_flow(rt.alloc(), graph, 0, end)?;
    let want = describe_flow(rt.alloc(), &before)?;
    let graph = ResidualGraph::new(rt.alloc(), drawn.arcs, drawn.nodes)?;
    let after = find_initial_flow(rt.alloc(), graph, 0, end)?;
    let found = describe_flow(rt.alloc(), &after)?;
    expect(rt, found.as_str(), want.as_str());
    Ok(())
}

#[test]
fn the_initial_flow_is_the_recorded_one(rt: HostRuntime) -> Result<(), Fail> {
    let mut seed = Seed { state: 2 };
    for k in 0..GRAPHS {
        let drawn = draw(rt.alloc(), &mut seed, k % 2 == 0, k % 8 == 7)?;
        check_initial_flows(&rt, drawn)?;
    }
    Ok(())
}
