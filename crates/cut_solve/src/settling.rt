//! The last step of the solver: the calling thread completes the preflow, and a search in the flow's residual graph gives the cut.
//! Clauses: `start` states that the preflow's capacities are at most the network's weights. `answer` and `cheapest`: with a cut, it is the
//! one to report, and no cut weighs less. `found`: if the preflow's capacities allow each flow from `from` to `to`, the result isn't
//! `None`.
ghost use Rattle.std.specs.Prelude.{◌≡◌, ◌≤◌, IfOk, IfSome, IsSome, length};
ghost use Rattle.cut_net.specs.Answers.{cut_claim};
ghost use Rattle.cut_net.specs.Lines.{IsAnswer, IsCheapestAnswer};
ghost use Rattle.cut_preflow.specs.Flows.{AreEnds};
ghost use Rattle.cut_preflow.specs.Kept.{IsQuiet};
ghost use Rattle.cut_preflow.specs.Trace.{state_of};
ghost use Rattle.cut_preflow.specs.Preflow.{count};
ghost use Rattle.cut_solve.specs.Settling.{arcs_with_flow};
ghost use Rattle.cut_solve.specs.Starts.{HasReducedWeights, IsPreflowInput};

use crate::arcs::nonzero_flow;
use crate::cutting::minimum_cut;
use cut_net::{Cut, Net, Priced};
use cut_preflow::{NetworkLedger, Preflow};
use residual_graph::{Arc, flag_reachable};
use std::alloc::{AllocError, Global};

/// For each import, in order, an arc with the import's weight as capacity and the preflow's flow on this import as flow.
fn arcs_with_flow<L: NetworkLedger>(
    alloc: Global,
    imports: &[Priced],
    preflow: &Preflow<L>,
) -> Result<Vec<Arc>, AllocError>
    requires few { length imports.now ≤ 65536 }
    requires imports { count preflow.now.trace.net ≡ length imports.now }
    ensures { IfOk result (λ arcs. arcs.items ≡ arcs_with_flow imports.now (state_of preflow.now.trace).flow) }
{
    preflow.invariants();
    let mut arcs = Vec::with_capacity(alloc, imports.len())?;
    for number in 0..imports.len() {
        let import = imports[number];
        arcs.push(Arc {
            from: import.from,
            to: import.to,
            capacity: import.amount,
            flow: preflow.flow(number as u32),
        })?;
    }
    Ok(arcs)
}

/// The cheapest cut between `from` and `to`, from the flow of a preflow without active modules. `None` if the flow isn't maximum in the
/// network: if a search in its residual graph, with the network's weights as capacities, reaches `to` from `from`. If not, this search
/// finds the minimal source side.
fn cut_of_quiet_preflow<L: NetworkLedger>(
    alloc: Global,
    net: &Net,
    preflow: &Preflow<L>,
    from: u32,
    to: u32,
) -> Result<Option<Cut>, AllocError>
    requires ends { AreEnds net.now from to }
    requires nodes { preflow.now.trace.net.nodes ≡ length net.now.names }
    requires start { HasReducedWeights net.now from to preflow.now.trace.net.imports preflow.now.trace.net.source preflow.now.trace.net.sink }
    requires quiet { IsQuiet preflow.now.trace.net (state_of preflow.now.trace) }
    ensures answer { IfOk result (λ found. IfSome found (λ cut. IsAnswer net.now from to (cut_claim cut))) }
    ensures cheapest { IfOk result (λ found. IfSome found (λ cut. IsCheapestAnswer net.now from to (cut_claim cut))) }
    ensures found { IsPreflowInput net.now from to preflow.now.trace.net.imports preflow.now.trace.net.source preflow.now.trace.net.sink → IfOk result (λ found. IsSome found) }
{
    net.invariants();
    preflow.invariants();
    let arcs = arcs_with_flow(alloc, net.imports(), preflow)?;
    let source_side = flag_reachable(alloc, &arcs, net.nodes(), from)?;
    if source_side[to as usize] {
        return Ok(None);
    }
    let flow = nonzero_flow(alloc, &arcs)?;
    let cut = minimum_cut(alloc, net, &source_side, flow, from, to)?;
    Ok(Some(cut))
}

/// Completes the preflow by pushes and relabels of the calling thread (Goldberg and Tarjan 1988). Returns the cheapest cut between `from`
/// and `to`, with a flow that proves it; `None` if the preflow's capacities don't allow a maximum flow of the network.
pub(crate) fn complete_and_cut<L: NetworkLedger>(
    alloc: Global,
    net: &Net,
    preflow: &mut Preflow<L>,
    from: u32,
    to: u32,
) -> Result<Option<Cut>, AllocError>
    requires ends { AreEnds net.now from to }
    requires nodes { preflow.old.trace.net.nodes ≡ length net.now.names }
    requires start { HasReducedWeights net.now from to preflow.old.trace.net.imports preflow.old.trace.net.source preflow.old.trace.net.sink }
    ensures answer { IfOk result (λ found. IfSome found (λ cut. IsAnswer net.now from to (cut_claim cut))) }
    ensures cheapest { IfOk result (λ found. IfSome found (λ cut. IsCheapestAnswer net.now from to (cut_claim cut))) }
    ensures found { IsPreflowInput net.now from to preflow.old.trace.net.imports preflow.old.trace.net.source preflow.old.trace.net.sink → IfOk result (λ found. IsSome found) }
{
    preflow.settle()?;
    cut_of_quiet_preflow(alloc, net, preflow, from, to)
}
