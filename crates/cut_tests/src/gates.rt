//! Two workers whose steps a gate orders, and workers with an open gate.
ghost use Rattle.std.specs.Prelude.{◌≡◌, ◌≤◌, false};
ghost use Rattle.cut_net.specs.Pins.{PinChain};
ghost use Rattle.cut_preflow.specs.Flows.{AreEnds, network_between};

use crate::description::expect;
use crate::preflows::has_no_pinned_path;
use crate::worked::{THREE_IMPORTS, describe_answer, net_of};
use cut_net::Net;
use cut_preflow::{LEDGER_PARTS, NetworkLedger, Preflow, Share};
use cut_solve::{Gate, Locked, OpenGate, solve, worker};
use std::alloc::{AllocError, Global};
use std::marker::Brand;
use std::sync::atomic::{AtomicU64, Ordering};
use std::sync::ledger::Blank;
use std::sync::{Mutex, Wait};
use std::test::Fail;
use std::thread;
use std::thread::Threads;
use std::time::{Clock, Duration};

/// The maximum number of waits.
const MOST_WAITS: u32 = 1000;

/// A gate that holds worker 0 at step 0 until worker 1 has come to step 1, and worker 1 at step 0 until worker 0 has come to step 0, and at
/// step 1 until worker 0 has come to step 2.
#[derive(Drop)]
struct Holds<'a, R> {
    clock: &'a R,
    /// The number of steps that each worker has come to.
    by_first: AtomicU64,
    by_second: AtomicU64,
    /// The number of the three holds that were released in time.
    ended_waits: AtomicU64,
}

impl<'a, R: Clock> Holds<'a, R> {
    fn new(clock: &'a R) -> Holds<'a, R> {
        Holds {
            clock,
            by_first: AtomicU64::new(0),
            by_second: AtomicU64::new(0),
            ended_waits: AtomicU64::new(0),
        }
    }

    fn wait(&self, turns: &AtomicU64, least: u64) {
        for _ in 0..MOST_WAITS {
            if turns.load(Ordering::SeqCst) >= least {
                self.ended_waits.fetch_add(1, Ordering::SeqCst);
                return;
            }
            thread::sleep(self.clock, Duration::from_millis(1));
        }
    }

    fn were_all_waits_ended(&self) -> bool {
        self.ended_waits.load(Ordering::SeqCst) == 3
    }
}

impl<R: Clock> Gate for Holds<'_, R> {
    fn at(&self, worker: u32, turn: u64) {
        let turns = turn.saturating_add(1);
        match worker {
            0 => self.by_first.store(turns, Ordering::SeqCst),
            _ => self.by_second.store(turns, Ordering::SeqCst),
        }
        match (worker, turn) {
            (0, 0) => self.wait(&self.by_second, 2),
            (1, 0) => self.wait(&self.by_first, 1),
            (1, 1) => self.wait(&self.by_first, 3),
            _ => {}
        }
    }
}

/// The state of both shares and of the preflow: whether both shares are marked and their counts sum to the number of events, the number of
/// shares out, whether no node is active, whether each worker took a step, and the events.
fn describe_two_workers<L: NetworkLedger>(
    alloc: Global,
    preflow: &mut Preflow<L>,
    first: Share<L>,
    second: Share<L>,
) -> Result<String, AllocError> {
    let marked = first.is_marked() && second.is_marked();
    let both = first.count() > 0 && second.count() > 0;
    let steps = first.count().saturating_add(second.count());
    let _ = preflow.rejoin(first);
    let out = preflow.rejoin(second);
    let events = preflow.history();
    let counted = steps == events.len() as u64;
    format!(in alloc;
        "marked {marked} counted {counted} out {out} quiet {}; both {both} {} events {:?} {:?}",
        preflow.is_quiet(),
        events.len(),
        events.first(),
        events.get(1)
    )
}

/// The state after a single worker: whether its share is marked and counts all events, and whether it took none or all; then the number of
/// shares out, whether no node is active, and the number of events after completion.
fn describe_one_worker<L: NetworkLedger>(
    alloc: Global,
    preflow: &mut Preflow<L>,
    share: Share<L>,
) -> Result<String, AllocError> {
    let marked = share.is_marked();
    let events = preflow.history().len();
    let counted = share.count() == events as u64;
    let whole = events == 0 || events == 4;
    let out = preflow.rejoin(share);
    preflow.settle()?;
    format!(in alloc;
        "marked {marked} counted {counted} whole {whole} out {out} quiet {} after {}",
        preflow.is_quiet(),
        preflow.history().len()
    )
}

/// Two workers in threads of their own run with a gate.
fn join<R: Threads + Wait + Sync, L: NetworkLedger + Send + Sync, G: Gate + Sync>(
    rt: &R,
    locked: &Locked<L>,
    first: Share<L>,
    second: Share<L>,
    gate: &G,
) -> (Share<L>, Share<L>)
    requires first { first.marked ≡ false }
    requires second { second.marked ≡ false }
{
    thread::join(
        rt,
        move || worker(rt, locked, 0, first, gate),
        move || worker(rt, locked, 1, second, gate),
    )
}

/// Two workers run from the initial preflow with a gate.
fn run_two_workers<R: Threads + Wait + Sync, L: NetworkLedger + Send + Sync, G: Gate + Sync>(
    rt: &R,
    alloc: Global,
    mut preflow: Preflow<L>,
    gate: &G,
) -> Result<String, AllocError> {
    let (Some(first), Some(second)) = (preflow.share(), preflow.share()) else {
        return Err(AllocError);
    };
    let locked: Locked<L> = Mutex::new(preflow);
    let (first, second) = join(rt, &locked, first, second, gate);
    describe_two_workers(alloc, &mut locked.into_inner(), first, second)
}

/// One worker runs from the initial preflow.
fn run_one_worker<R: Wait, L: NetworkLedger>(
    rt: &R,
    alloc: Global,
    mut preflow: Preflow<L>,
) -> Result<String, AllocError> {
    let Some(share) = preflow.share() else {
        return Err(AllocError);
    };
    let locked: Locked<L> = Mutex::new(preflow);
    let share = worker(rt, &locked, 0, share, &OpenGate);
    describe_one_worker(alloc, &mut locked.into_inner(), share)
}

/// One or two workers run from the initial preflow between the first two modules.
fn describe_run<L: NetworkLedger + Send + Sync, R: Threads + Wait + Sync, G: Gate + Sync>(
    rt: &R,
    alloc: Global,
    blank: Blank,
    net: &Net,
    gate: Option<&G>,
) -> Result<String, AllocError>
    requires ends { AreEnds net.now 0 1 }
    requires free { PinChain net.now 0 1 → ⊥ }
    requires net { network_between net.now 0 1 ≡ L.net }
    requires name { blank.name ≡ L.name }
    requires parts { (blank.parts ≡ 65) × (L.parts ≡ 65) }
{
    let preflow = Preflow::<L>::start(alloc, blank, net, 0, 1)?;
    match gate {
        Some(gate) => run_two_workers(rt, alloc, preflow, gate),
        None => run_one_worker(rt, alloc, preflow),
    }
}

/// The state after two workers with a gate on the path of three imports, and after one worker without a gate.
fn describe_line_run<R: Threads + Wait + Sync, G: Gate + Sync>(
    rt: &R,
    alloc: Global,
    gate: Option<&G>,
) -> Result<String, AllocError> {
    let net = net_of(alloc, THREE_IMPORTS, b"")?;
    if net.nodes() < 2 || !has_no_pinned_path(alloc, &net, 0, 1)? {
        return Err(AllocError);
    }
    describe_run::<Brand, R, G>(rt, alloc, Blank::new(LEDGER_PARTS), &net, gate)
}

/// The cut of the path of three imports by this many workers with a gate.
fn describe_cut<R: Threads + Wait + Sync, G: Gate + Sync>(
    rt: &R,
    alloc: Global,
    workers: u32,
    gate: &G,
) -> Result<String, AllocError>
    requires { (1 ≤ workers) × (workers ≤ 64) }
{
    let net = net_of(alloc, THREE_IMPORTS, b"")?;
    match solve(rt, alloc, &net, "A", "B", workers, gate) {
        Ok(answer) => describe_answer(alloc, &answer),
        Err(_) => Err(AllocError),
    }
}

// If the allocation of a worker's history fails, the other waits at the gate in vain, and this test or the next fails.
#[test]
fn two_workers_alternate(rt: HostRuntime) -> Result<(), Fail> {
    let gate = Holds::new(&rt);
    let found = describe_line_run(&rt, rt.alloc(), Some(&gate))?;
    assert!(rt; gate.were_all_waits_ended());
    expect(
        &rt,
        found.as_str(),
        "marked true counted true out 0 quiet true; \
        both true 4 events Some(Event { worker: 1, step: Relabel { node: 2 } }) Some(Event { worker: 0, step: Push { arc: 2 } })",
    );
    Ok(())
}

#[test]
fn workers_of_the_solver_alternate(rt: HostRuntime) -> Result<(), Fail> {
    let gate = Holds::new(&rt);
    let cut = describe_cut(&rt, rt.alloc(), 2, &gate)?;
    assert!(rt; gate.were_all_waits_ended());
    expect(
        &rt,
        cut.as_str(),
        "weight 2 remove 0 2 2 flow 0 2 2 flow 2 3 2 flow 3 1 2",
    );
    Ok(())
}

// If the allocation of one worker's history fails, the other goes on.
#[test]
fn each_worker_returns_a_marked_share(rt: HostRuntime) -> Result<(), Fail> {
    let found = describe_line_run(&rt, rt.alloc(), Some(&OpenGate))?;
    assert!(rt;
        found
            .as_str()
            .starts_with("marked true counted true out 0 quiet true; "),
        "{found}"
    );
    Ok(())
}

// If the allocation of the history fails, the worker ends at its first step, which isn't counted, and `settle` takes all four.
#[test]
fn one_worker_takes_all_steps_or_none(rt: HostRuntime) -> Result<(), Fail> {
    let found = describe_line_run::<_, OpenGate>(&rt, rt.alloc(), None)?;
    expect(
        &rt,
        found.as_str(),
        "marked true counted true whole true out 0 quiet true after 4",
    );
    Ok(())
}

// If the allocation of the worker's history fails, the last pass takes all steps.
#[test]
fn one_worker_or_none_finds_the_cut(rt: HostRuntime) -> Result<(), Fail> {
    let cut = describe_cut(&rt, rt.alloc(), 1, &OpenGate)?;
    expect(
        &rt,
        cut.as_str(),
        "weight 2 remove 0 2 2 flow 0 2 2 flow 2 3 2 flow 3 1 2",
    );
    Ok(())
}
