//! The input of a preflow, with capacities reduced to an initial flow.
ghost use Rattle.std.specs.Prelude.{◌≡◌, ◌<◌, IfOk};
ghost use Rattle.cut_net.specs.WellFormed.{AreBetween};
ghost use Rattle.cut_solve.specs.Starts.{IsReducedFrom};

use crate::arcs::{arcs_of, flow_per_arc};
use crate::start::PreflowInput;
use initial_flow::find_initial_flow;
use residual_graph::ResidualGraph;
use std::alloc::{AllocError, Global};

/// The input of a preflow with the capacity of each import reduced to its flow in an initial flow. If the initial flow is maximum, a
/// preflow with these capacities has no excess to return. It isn't proved to be maximum, so the caller verifies the resulting cut.
pub(crate) fn reduce_to_initial_flow(
    alloc: Global,
    nodes: u32,
    start: &PreflowInput,
) -> Result<PreflowInput, AllocError>
    // The importers and imported modules, the source and the sink have numbers below `nodes`.
    requires between { AreBetween start.now.imports.items nodes }
    requires source { start.now.source < nodes }
    requires sink { start.now.sink < nodes }
    // With `Ok` the imports are those of `start`, with no capacity higher, and the source and the sink are those of `start`.
    ensures imports { IfOk result (λ s. IsReducedFrom start.now.imports.items s.imports.items) }
    ensures source { IfOk result (λ s. s.source ≡ start.now.source) }
    ensures sink { IfOk result (λ s. s.sink ≡ start.now.sink) }
{
    let arcs = arcs_of(alloc, &start.imports)?;
    let graph = ResidualGraph::new(alloc, arcs, nodes)?;
    let tried = find_initial_flow(alloc, graph, start.source, start.sink)?;
    tried.invariants();
    let imports = flow_per_arc(alloc, tried.arcs())?;
    Ok(PreflowInput {
        imports,
        source: start.source,
        sink: start.sink,
    })
}
