//! Workers in threads that share a scheduler guarded by a lock.
ghost use Rattle.std.specs.Prelude.{◌≡◌, map, IfErr, IfNone, IfOk, IfSome};
ghost use Rattle.std.specs.Arc.{arc_value};
ghost use Rattle.std.specs.Sync.Mutex.{mutex_guard_value};
ghost use Rattle.work_board.specs.Graphs.{IsAcyclic};
ghost use Rattle.work_board.specs.Cores.{IsOver};
ghost use Rattle.board_workers.specs.Parts.{AreEntries, IsJob};

use crate::single_thread::complete_entries;
use crate::{BoardGate, Work};
use std::alloc::{AllocError, Global};
use std::marker::Brand;
use std::sync::{Arc, Condvar, Mutex, MutexGuard, Wait};
use std::thread;
use std::thread::Threads;
use work_board::{Board, BoardFault, Claim, Graph, NamedTree, WorkEntry};

/// A scheduler guarded by a lock.
type Locked<'g, T, E> = Mutex<Board<'g, T, E>>;

/// A scheduler whose lock is held.
type Held<'l, 'g, T, E> = MutexGuard<'l, Board<'g, T, E>>;

/// The error of a claim while no module is ready but the work isn't over.
struct Later;

/// Claims a module, and returns it with the shared parts from which its entry is made; none if the work is over. If an allocation fails,
/// abandons the module, which ends the work.
fn claim_with_parts<T: NamedTree, E: WorkEntry>(
    board: &mut Board<'_, T, E>,
) -> Result<Option<(u32, Vec<Arc<E::Shared>>)>, Later>
    ensures job { IfOk result (λ job. IfSome job (λ j. IsJob E.is_of E.shared_of T.graph j.0 (map arc_value j.1.items))) }
    ensures over { IfOk result (λ job. IfNone job (IsOver board.new)) }
{
    board.invariants();
    match board.claim() {
        Claim::Finished => Ok(None),
        Claim::Later => Err(Later),
        Claim::Module { number } => {
            board.invariants();
            match board.interfaces(number) {
                Ok(parts) => Ok(Some((number, parts))),
                Err(BoardFault::Memory) => {
                    board.abandon(number);
                    Ok(None)
                }
                Err(_) => unreachable!(),
            }
        }
    }
}

/// Waits for a module to work on. If the work is over, returns the lock, which is still held. The claim and the wait are in one critical
/// section, so that no notification is missed.
fn wait_for_job<'l, 'g, T: NamedTree, E: WorkEntry, R: Wait>(
    rt: &R,
    locked: &'l Locked<'g, T, E>,
    changed: &Condvar,
) -> Result<(u32, Vec<Arc<E::Shared>>), Held<'l, 'g, T, E>>
    ensures job { IfOk result (λ j. IsJob E.is_of E.shared_of T.graph j.0 (map arc_value j.1.items)) }
    ensures over { IfErr result (λ board. IsOver (mutex_guard_value board)) }
{
    let mut board = locked.lock(rt);
    for _ in rt.forever() {
        match claim_with_parts(&mut *board) {
            Ok(Some(job)) => return Ok(job),
            Ok(None) => return Err(board),
            Err(Later) => board = changed.wait(rt, board),
        }
    }
    unreachable!()
}

/// Delivers the entry that a worker made, or abandons the module if an allocation failed. Drops an entry that the scheduler rejects.
fn deliver_or_abandon<T: NamedTree, E: WorkEntry>(
    board: &mut Board<'_, T, E>,
    number: u32,
    made: Result<E, AllocError>,
) {
    match made {
        Ok(entry) => {
            let _ = board.deliver(number, entry);
        }
        Err(_) => board.abandon(number),
    }
}

/// Runs the worker of this number. It returns only when the work is over, with the lock: all modules are delivered, or one was abandoned
/// since an allocation failed.
fn run_worker<'l, 'g, T: NamedTree, W: Work, G: BoardGate, R: Wait>(
    rt: &R,
    locked: &'l Locked<'g, T, W::Entry>,
    changed: &Condvar,
    number: u32,
    work: &W,
    gate: &G,
) -> Held<'l, 'g, T, W::Entry>
    requires { W.graph work.now ≡ T.graph }
    ensures { IsOver (mutex_guard_value result) }
{
    let mut turn = 0u64;
    for _ in rt.forever() {
        let (module, parts) = match wait_for_job(rt, locked, changed) {
            Ok(job) => job,
            Err(board) => {
                changed.notify_all();
                return board;
            }
        };
        gate.at(number, turn);
        turn = turn.saturating_add(1);
        let made = work.make(module, parts.as_slice());
        deliver_or_abandon(&mut *locked.lock(rt), module, made);
        changed.notify_all();
    }
    unreachable!()
}

/// Starts the other workers, each in a thread, and runs worker 0. Goes on without a thread that can't be started.
fn run_workers<
    T: NamedTree + Send + Sync,
    W: Work + Sync,
    G: BoardGate + Sync,
    R: Threads + Wait + Sync,
>(rt: &R, locked: &Locked<'_, T, W::Entry>, workers: u32, work: &W, gate: &G)
where
    W::Entry: Send + Sync,
    <W::Entry as WorkEntry>::Shared: Send + Sync,
    requires { W.graph work.now ≡ T.graph }
{
    let changed = Condvar::new();
    let waked = &changed;
    thread::scope(
        thread::scope_env(),
        rt,
        |scope|
            requires { W.graph work.now ≡ T.graph }
        {
            for number in 1..workers {
                let _ = scope.spawn(
                    move ||
                        requires { W.graph work.now ≡ T.graph }
                    { drop(run_worker(rt, locked, waked, number, work, gate)) },
                );
            }
            drop(run_worker(rt, locked, waked, 0, work, gate));
        },
    );
}

/// The entries of a graph's modules by number, made by `workers` workers. The type parameter `T` identifies the graph.
fn make_entries_by_workers<
    T: NamedTree + Send + Sync,
    W: Work + Sync,
    G: BoardGate + Sync,
    R: Threads + Wait + Sync,
>(
    rt: &R,
    alloc: Global,
    graph: &Graph,
    workers: u32,
    work: &W,
    gate: &G,
) -> Result<Vec<W::Entry>, AllocError>
where
    W::Entry: Send + Sync,
    <W::Entry as WorkEntry>::Shared: Send + Sync,
    requires tree { graph.now ≡ T.graph }
    requires acyclic { IsAcyclic T.graph.imports }
    requires work { W.graph work.now ≡ T.graph }
    ensures { IfOk result (λ entries. AreEntries W.Entry.is_of T.graph entries.items) }
{
    let locked: Locked<'_, T, W::Entry> = Mutex::new(Board::new(alloc, graph)?);
    run_workers(rt, &locked, workers, work, gate);
    complete_entries(alloc, locked.into_inner(), work)
}

/// The entries of a graph's modules by number, made by the calling thread and at most `workers - 1` others.
/// Each worker calls `gate` between a claim and its delivery. The result is the same for every schedule: the calling thread makes the
/// entries that are missing at the end. It goes on without threads that can't be started, and starts none for one worker.
/// Fails if an allocation fails. It may wait for the lock and for its threads.
pub fn make_entries<W: Work + Sync, G: BoardGate + Sync, R: Threads + Wait + Sync>(
    rt: &R,
    alloc: Global,
    graph: &Graph,
    workers: u32,
    work: &W,
    gate: &G,
) -> Result<Vec<W::Entry>, AllocError>
where
    W::Entry: Send + Sync,
    <W::Entry as WorkEntry>::Shared: Send + Sync,
    // No module reaches itself by imports.
    requires acyclic { IsAcyclic graph.now.imports }
    // The work is for the modules of this graph.
    requires work { W.graph work.now ≡ graph.now }
    // For every number of workers, every gate and every schedule the result has the entry of each module, by module number.
    ensures { IfOk result (λ entries. AreEntries W.Entry.is_of graph.now entries.items) }
{
    make_entries_by_workers::<Brand, W, G, R>(rt, alloc, graph, workers, work, gate)
}
