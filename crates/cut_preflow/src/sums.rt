//! Inflow, outflow and excess of a node.
ghost use Rattle.std.specs.Prelude.{◌≡◌, ◌-◌, ◌^◌, ◌<◌, length, slice_index};
ghost use Rattle.cut_preflow.specs.Total.{total};
ghost use Rattle.cut_preflow.specs.FlowGraphs.{flows_of, imports_of};
ghost use Rattle.cut_preflow.specs.Preflow.{into, out_of};

use residual_graph::Arc;

/// The inflow of a node.
fn inflow(arcs: &[Arc], node: u32) -> u64
    requires { total (length arcs.now) (λ i. slice_index (flows_of arcs.now) i) < 2 ^ 64 }
    ensures { result ≡ into (imports_of arcs.now) (flows_of arcs.now) node }
{
    let mut sum = 0u64;
    for arc in arcs {
        if arc.to == node {
            sum += arc.flow;
        }
    }
    sum
}

/// The outflow of a node.
fn outflow(arcs: &[Arc], node: u32) -> u64
    requires { total (length arcs.now) (λ i. slice_index (flows_of arcs.now) i) < 2 ^ 64 }
    ensures { result ≡ out_of (imports_of arcs.now) (flows_of arcs.now) node }
{
    let mut sum = 0u64;
    for arc in arcs {
        if arc.from == node {
            sum += arc.flow;
        }
    }
    sum
}

/// The inflow of a node less its outflow, 0 if that is negative.
pub(crate) fn excess(arcs: &[Arc], node: u32) -> u64
    requires { total (length arcs.now) (λ i. slice_index (flows_of arcs.now) i) < 2 ^ 64 }
    ensures { result ≡ into (imports_of arcs.now) (flows_of arcs.now) node - out_of (imports_of arcs.now) (flows_of arcs.now) node }
{
    inflow(arcs, node).saturating_sub(outflow(arcs, node))
}
