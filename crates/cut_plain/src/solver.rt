//! The reference solver: Dinic's algorithm (1970) in one thread.
ghost use Rattle.std.specs.Prelude.{◌≡◌, ◌≢◌, ◌<◌, Err, IfOk, length};
ghost use Rattle.cut_net.specs.Answers.{answer_claim, cut_claim};
ghost use Rattle.cut_net.specs.Lines.{IsAnswer, IsCheapestAnswer};
ghost use Rattle.cut_solve.specs.Faults.{HasOutcome};
ghost use Rattle.cut_solve.specs.Solving.{AreNeeded, IsSolveOutcome, SolveError};

use crate::maximum_flow::maximum_flow;
use cut_net::{Answer, Cut, Net};
use cut_solve::{
    SolveFault, answer_of_cut, find_blocked_answer, graph_of, minimum_cut, module_number,
    nonzero_flow,
};
use std::alloc::{AllocError, Global};

/// A cheapest cut between two modules if pins are ignored, with a flow that proves it.
fn solve(alloc: Global, net: &Net, from: u32, to: u32) -> Result<Cut, AllocError>
    requires apart { from ≢ to }
    requires from { from < length net.now.names }
    requires to { to < length net.now.names }
    ensures answer { IfOk result (λ cut. IsAnswer net.now from to (cut_claim cut)) }
    ensures cheapest { IfOk result (λ cut. IsCheapestAnswer net.now from to (cut_claim cut)) }
{
    net.invariants();
    let mut graph = graph_of(alloc, net)?;
    let source_side = maximum_flow(alloc, &mut graph, from, to)?;
    graph.invariants();
    let flow = nonzero_flow(alloc, graph.arcs())?;
    minimum_cut(alloc, net, &source_side.reached_flags, flow, from, to)
}

/// A cheapest cut between the modules of two names: the reported imports with their weights, the sum of the weights, and a flow of that
/// value. Imports are in the order of their numbers, each once, and no flow is 0.
/// An import is reported if it leaves the minimal source side and the imported module reaches `to` outside of it. None is pinned.
/// If a path of pinned imports leads from the one module to the other, no cut exists. Then the result is that path: the shortest one, of
/// several the lexicographically smallest.
/// Fails with `NoSuchModule` for the first unknown name, `from` before `to`, with `SameModule` if both are the same module's, and with
/// `Memory`.
pub fn plain(alloc: Global, net: &Net, from: &str, to: &str) -> Result<Answer, SolveFault>
    // The result is a cheapest cut with a flow that proves it, a path of pinned imports, or the error in the names.
    ensures exact { HasOutcome answer_claim result (IsSolveOutcome net.now from.now to.now) }
    // An error in the names is returned, unless an allocation fails.
    ensures refused { (refusal : SolveError) → IsSolveOutcome net.now from.now to.now (Err refusal) → HasOutcome answer_claim result (λ o. o ≡ Err refusal) }
    // Each import of a cut is needed: if only the others are removed, a path still leads from the one module to the other.
    ensures needed { IfOk result (λ answer. AreNeeded net.now from.now to.now (answer_claim answer)) }
{
    net.invariants();
    let from = module_number(alloc, net, from)?;
    let to = module_number(alloc, net, to)?;
    if from == to {
        return Err(SolveFault::SameModule);
    }
    if let Some(answer) = find_blocked_answer(alloc, net, from, to)? {
        return Ok(answer);
    }
    let cut = solve(alloc, net, from, to)?;
    Ok(answer_of_cut(net, cut, from, to))
}
