//! Conversions between the imports of a network and the arcs of a residual graph.
ghost use Rattle.std.specs.Prelude.{◌≡◌, IfOk, filter, length, map};
ghost use Rattle.cut_solve.specs.Lines.{arc_without_flow, has_flow, flow_line};

use cut_net::{Net, Priced};
use residual_graph::{Arc, ResidualGraph};
use std::alloc::{AllocError, Global};

/// For each import, in order, an arc without flow, whose capacity is the import's weight.
pub(crate) fn arcs_of(alloc: Global, imports: &[Priced]) -> Result<Vec<Arc>, AllocError>
    ensures { IfOk result (λ arcs. arcs.items ≡ map arc_without_flow imports.now) }
{
    let mut arcs = Vec::with_capacity(alloc, imports.len())?;
    for i in imports {
        arcs.push(Arc {
            from: i.from,
            to: i.to,
            capacity: i.amount,
            flow: 0,
        })?;
    }
    Ok(arcs)
}

/// The residual graph of a network without flow: for each import an arc whose capacity is the import's weight. Fails if an allocation
/// fails.
pub fn graph_of(alloc: Global, net: &Net) -> Result<ResidualGraph, AllocError>
    // With `Ok` the graph's nodes are the modules, and its arcs are the imports in their order, without flow.
    ensures { IfOk result (λ graph. graph ≡ record { nodes = length net.now.names; arcs = map arc_without_flow net.now.imports }) }
{
    net.invariants();
    let arcs = arcs_of(alloc, net.imports())?;
    ResidualGraph::new(alloc, arcs, net.nodes())
}

/// For each arc, in order, an import between the same modules whose amount is the arc's flow.
pub(crate) fn flow_per_arc(alloc: Global, arcs: &[Arc]) -> Result<Vec<Priced>, AllocError>
    ensures { IfOk result (λ imports. imports.items ≡ map flow_line arcs.now) }
{
    let mut imports = Vec::with_capacity(alloc, arcs.len())?;
    for arc in arcs {
        imports.push(Priced {
            from: arc.from,
            to: arc.to,
            amount: arc.flow,
        })?;
    }
    Ok(imports)
}

/// The arcs with a flow above 0, as imports whose amount is the flow. Fails if an allocation fails.
pub fn nonzero_flow(alloc: Global, arcs: &[Arc]) -> Result<Vec<Priced>, AllocError>
    // With `Ok` the result has exactly the arcs with a flow above 0, in their order.
    ensures { IfOk result (λ flow. flow.items ≡ filter has_flow (map flow_line arcs.now)) }
{
    let mut flow = Vec::new(alloc);
    for arc in arcs {
        if arc.flow > 0 {
            flow.push(Priced {
                from: arc.from,
                to: arc.to,
                amount: arc.flow,
            })?;
        }
    }
    Ok(flow)
}
