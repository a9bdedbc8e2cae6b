//! The solver with many workers: pushes and relabels on one locked preflow, completed by the calling thread.
//! Clauses: `ends` are two different modules. `start` states that capacities are at most the network's weights. `answer` and `cheapest`: a
//! returned cut is the one to report, and no cut weighs less. `found`: if the capacities allow all flows, the result isn't `None`.
ghost use Rattle.std.specs.Prelude.{◌≡◌, ◌≤◌, Err, IfOk, IfSome, IsSome, length};
ghost use Rattle.cut_net.specs.Answers.{answer_claim, cut_claim};
ghost use Rattle.cut_net.specs.Lines.{IsAnswer, IsCheapestAnswer};
ghost use Rattle.cut_net.specs.Pins.{IsAnswerWithPins, IsCheapestAnswerWithPins};
ghost use Rattle.cut_preflow.specs.Flows.{AreEnds, network_on};
ghost use Rattle.cut_solve.specs.Faults.{HasOutcome};
ghost use Rattle.cut_solve.specs.Solving.{AreNeeded, IsSolveOutcome, SolveError};
ghost use Rattle.cut_solve.specs.Starts.{HasReducedWeights, IsPreflowInput};

use crate::blocking::{answer_of_cut, find_blocked_answer};
use crate::initial_capacities::reduce_to_initial_flow;
use crate::names::module_number;
use crate::settling::complete_and_cut;
use crate::start::{PreflowInput, preflow_input};
use crate::whole::renumbered_cut;
use crate::workers::worker;
use crate::{Gate, Locked, SolveFault};
use cut_net::{Answer, Cut, Net};
use cut_part::between;
use cut_preflow::{LEDGER_PARTS, NetworkLedger, Preflow, Share};
use std::alloc::{AllocError, Global};
use std::marker::Brand;
use std::sync::ledger::Blank;
use std::sync::{Mutex, Wait};
use std::thread;
use std::thread::{JoinHandle, Threads};

/// Runs a worker with a share of its own, and returns the share. If all 64 shares are in use, runs no worker and returns `None`.
fn run_worker<L: NetworkLedger, R: Wait, G: Gate>(
    rt: &R,
    locked: &Locked<L>,
    number: u32,
    gate: &G,
) -> Option<Share<L>> {
    let share = locked.lock(rt).share()?;
    Some(worker(rt, locked, number, share, gate))
}

/// Waits for the end of the threads, and gives their shares back to the preflow.
fn join_all<L: NetworkLedger, R: Threads + Wait>(
    rt: &R,
    locked: &Locked<L>,
    handles: Vec<JoinHandle<Option<Share<L>>>>,
) {
    for handle in handles {
        if let Some(share) = handle.join(rt) {
            locked.lock(rt).rejoin(share);
        }
    }
}

/// Starts the workers, each in a thread, waits for their end, and gives their shares back to the preflow. Leaves out a worker whose thread
/// can't be started.
fn run_threads<L: NetworkLedger + Send + Sync, R: Threads + Wait + Sync, G: Gate + Sync>(
    rt: &R,
    alloc: Global,
    locked: &Locked<L>,
    workers: u32,
    gate: &G,
) -> Result<(), AllocError> {
    thread::scope(thread::scope_env(), rt, |scope| -> Result<(), AllocError> {
        let mut handles: Vec<JoinHandle<Option<Share<L>>>> = Vec::with_capacity(
            alloc,
            workers as usize,
        )?;
        for number in 0..workers {
            if let Ok(handle) = scope.spawn(move || run_worker(rt, locked, number, gate)) {
                handles.push(handle)?;
            }
        }
        join_all(rt, locked, handles);
        Ok(())
    })
}

/// The preflow after `workers` threads have pushed and relabelled on it.
fn run_workers<L: NetworkLedger + Send + Sync, R: Threads + Wait + Sync, G: Gate + Sync>(
    rt: &R,
    alloc: Global,
    preflow: Preflow<L>,
    workers: u32,
    gate: &G,
) -> Result<Preflow<L>, AllocError> {
    let locked = Mutex::new(preflow);
    run_threads(rt, alloc, &locked, workers, gate)?;
    Ok(locked.into_inner())
}

/// A cheapest cut between the two modules `ends`, with a flow that proves it, computed by this number of workers on one preflow, whose
/// ledger is made from `blank`. `None` if the capacities of `start` don't allow a maximum flow of the network.
fn solve_with_ledger<L: NetworkLedger + Send + Sync, R: Threads + Wait + Sync, G: Gate + Sync>(
    rt: &R,
    alloc: Global,
    blank: Blank,
    start: PreflowInput,
    net: &Net,
    ends: (u32, u32),
    workers: u32,
    gate: &G,
) -> Result<Option<Cut>, AllocError>
    requires ends { AreEnds net.now ends.0 ends.1 }
    requires start { HasReducedWeights net.now ends.0 ends.1 start.imports.items start.source start.sink }
    requires net { network_on (length net.now.names) start.imports.items start.source start.sink ≡ L.net }
    requires name { blank.name ≡ L.name }
    requires parts { (blank.parts ≡ 65) × (L.parts ≡ 65) }
    ensures answer { IfOk result (λ found. IfSome found (λ cut. IsAnswer net.now ends.0 ends.1 (cut_claim cut))) }
    ensures cheapest { IfOk result (λ found. IfSome found (λ cut. IsCheapestAnswer net.now ends.0 ends.1 (cut_claim cut))) }
    ensures found { IsPreflowInput net.now ends.0 ends.1 start.imports.items start.source start.sink → IfOk result (λ found. IsSome found) }
{
    net.invariants();
    let (from, to) = ends;
    let PreflowInput {
        imports,
        source,
        sink,
    } = start;
    let preflow = Preflow::<L>::start_on(alloc, blank, net.nodes(), imports, source, sink)?;
    let mut preflow = run_workers(rt, alloc, preflow, workers, gate)?;
    preflow.invariants();
    complete_and_cut(alloc, net, &mut preflow, from, to)
}

/// A cheapest cut between the two modules `ends`, computed by this number of workers with a new ledger. `None` if the capacities of `start`
/// don't allow a maximum flow of the network.
fn solve_with_new_ledger<R: Threads + Wait + Sync, G: Gate + Sync>(
    rt: &R,
    alloc: Global,
    start: PreflowInput,
    net: &Net,
    ends: (u32, u32),
    workers: u32,
    gate: &G,
) -> Result<Option<Cut>, AllocError>
    requires ends { AreEnds net.now ends.0 ends.1 }
    requires start { HasReducedWeights net.now ends.0 ends.1 start.imports.items start.source start.sink }
    ensures answer { IfOk result (λ found. IfSome found (λ cut. IsAnswer net.now ends.0 ends.1 (cut_claim cut))) }
    ensures cheapest { IfOk result (λ found. IfSome found (λ cut. IsCheapestAnswer net.now ends.0 ends.1 (cut_claim cut))) }
    ensures found { IsPreflowInput net.now ends.0 ends.1 start.imports.items start.source start.sink → IfOk result (λ found. IsSome found) }
{
    solve_with_ledger::<Brand, R, G>(
        rt,
        alloc,
        Blank::new(LEDGER_PARTS),
        start,
        net,
        ends,
        workers,
        gate,
    )
}

/// A cheapest cut between the two modules `ends`. First tries capacities reduced to an initial flow. If these don't allow a maximum flow,
/// solves again with capacities that allow all flows.
fn solve_reduced<R: Threads + Wait + Sync, G: Gate + Sync>(
    rt: &R,
    alloc: Global,
    net: &Net,
    ends: (u32, u32),
    workers: u32,
    gate: &G,
) -> Result<Cut, AllocError>
    requires { AreEnds net.now ends.0 ends.1 }
    ensures answer { IfOk result (λ cut. IsAnswer net.now ends.0 ends.1 (cut_claim cut)) }
    ensures cheapest { IfOk result (λ cut. IsCheapestAnswer net.now ends.0 ends.1 (cut_claim cut)) }
{
    net.invariants();
    let start = preflow_input(alloc, net, ends.0, ends.1)?;
    let lower = reduce_to_initial_flow(alloc, net.nodes(), &start)?;
    if let Some(cut) = solve_with_new_ledger(rt, alloc, lower, net, ends, workers, gate)? {
        return Ok(cut);
    }
    match solve_with_new_ledger(rt, alloc, start, net, ends, workers, gate)? {
        Some(cut) => Ok(cut),
        None => unreachable!(),
    }
}

/// A cheapest cut between the two modules `ends`, computed in the subnetwork of the modules on paths from the first to the second one.
fn solve_subnetwork<R: Threads + Wait + Sync, G: Gate + Sync>(
    rt: &R,
    alloc: Global,
    net: &Net,
    ends: (u32, u32),
    workers: u32,
    gate: &G,
) -> Result<Cut, AllocError>
    requires { AreEnds net.now ends.0 ends.1 }
    ensures answer { IfOk result (λ cut. IsAnswer net.now ends.0 ends.1 (cut_claim cut)) }
    ensures cheapest { IfOk result (λ cut. IsCheapestAnswer net.now ends.0 ends.1 (cut_claim cut)) }
{
    let (from, to) = ends;
    let part = between(alloc, net, from, to)?;
    let here = (
        part.new_numbers[from as usize],
        part.new_numbers[to as usize],
    );
    let cut = solve_reduced(rt, alloc, &part.net, here, workers, gate)?;
    let whole = renumbered_cut(alloc, &cut, &part.numbers)?;
    Ok(whole)
}

/// The answer for the two modules `ends`: a cheapest cut, or the shortest path of pinned imports, because of which no cut exists.
fn answer_between<R: Threads + Wait + Sync, G: Gate + Sync>(
    rt: &R,
    alloc: Global,
    net: &Net,
    ends: (u32, u32),
    workers: u32,
    gate: &G,
) -> Result<Answer, AllocError>
    requires { AreEnds net.now ends.0 ends.1 }
    ensures answer { IfOk result (λ answer. IsAnswerWithPins net.now ends.0 ends.1 (answer_claim answer)) }
    ensures cheapest { IfOk result (λ answer. IsCheapestAnswerWithPins net.now ends.0 ends.1 (answer_claim answer)) }
{
    let (from, to) = ends;
    if let Some(answer) = find_blocked_answer(alloc, net, from, to)? {
        return Ok(answer);
    }
    let cut = solve_subnetwork(rt, alloc, net, ends, workers, gate)?;
    Ok(answer_of_cut(net, cut, from, to))
}

/// A cheapest cut between the modules of two names, or the shortest path of pinned imports, because of which no cut exists.
/// 1 to 64 threads push and relabel on one locked preflow (Goldberg and Tarjan 1988) and call `gate` between two critical sections.
/// The imports and the weight are equal for every schedule; the flow may differ. A worker ends if an allocation fails for it.
/// A thread that can't be started is left out. The calling thread takes the remaining steps; the bound on steps always suffices.
/// Fails with `NoSuchModule` for the first unknown name (`from` before `to`), with `SameModule` if both names denote one module, and with
/// `Memory` if an allocation fails. May wait for the lock and for its threads.
pub fn solve<R: Threads + Wait + Sync, G: Gate + Sync>(
    rt: &R,
    alloc: Global,
    net: &Net,
    from: &str,
    to: &str,
    workers: u32,
    gate: &G,
) -> Result<Answer, SolveFault>
    // The number of workers is 1 to 64.
    requires workers { (1 ≤ workers) × (workers ≤ 64) }
    // The result is a cheapest cut with a flow that proves it, a path of pinned imports, or the error in the names.
    ensures exact { HasOutcome answer_claim result (IsSolveOutcome net.now from.now to.now) }
    // If an error in the names is an outcome, it is the result, unless an allocation fails.
    ensures refused { (refusal : SolveError) → IsSolveOutcome net.now from.now to.now (Err refusal) → HasOutcome answer_claim result (λ o. o ≡ Err refusal) }
    // With `Ok` each import of a cut is needed: if all its other imports are removed, a path still leads from the module `from` to the
    // module `to`.
    ensures needed { IfOk result (λ answer. AreNeeded net.now from.now to.now (answer_claim answer)) }
{
    net.invariants();
    let from = module_number(alloc, net, from)?;
    let to = module_number(alloc, net, to)?;
    if from == to {
        return Err(SolveFault::SameModule);
    }
    Ok(answer_between(rt, alloc, net, (from, to), workers, gate)?)
}
