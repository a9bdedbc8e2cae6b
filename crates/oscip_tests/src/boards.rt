//! Indexes by two workers, with a gate that is called for each claimed module.
use crate::inputs::{THREE, TWO, sources};
use cut_solve::Gate;
use index_run::index_to;
use ob_board::{BoardGate, IndexOptions};
use oscip_run::RunFault;
use source_tree::{Source, in_order};
use std::alloc::AllocError;
use std::process::Abort;
use std::sync::Wait;
use std::sync::atomic::{AtomicU64, Ordering};
use std::test::Fail;
use std::thread;
use std::thread::Threads;
use std::time::{Clock, Duration};
use test_doubles::{FailingSink, MeetingGate};

/// A gate of the scheduler at which all workers meet.
#[derive(Drop)]
struct Meeting<'a, R>(MeetingGate<'a, R>);

impl<R: Clock> BoardGate for Meeting<'_, R> {
    fn at(&self, worker: u32, turn: u64) {
        self.0.at(worker, turn);
    }
}

/// A gate of the scheduler that delays the first claimed module, so that the other worker finds none ready, and lets both meet at the next
/// two.
#[derive(Drop)]
struct Waking<'a, R> {
    clock: &'a R,
    /// The number of claimed modules.
    arrived_workers: AtomicU64,
    later: MeetingGate<'a, R>,
}

impl<'a, R: Clock> Waking<'a, R> {
    fn new(clock: &'a R) -> Waking<'a, R> {
        Waking {
            clock,
            arrived_workers: AtomicU64::new(0),
            later: MeetingGate::new(clock, 2),
        }
    }
}

impl<R: Clock> BoardGate for Waking<'_, R> {
    fn at(&self, worker: u32, _turn: u64) {
        if self.arrived_workers.fetch_add(1, Ordering::SeqCst) == 0 {
            thread::sleep(self.clock, Duration::from_millis(50));
        } else {
            self.later.at(worker, 0);
        }
    }
}

/// Whether an index by two workers, without package and root, is written. A failed allocation is reported.
fn is_written<R: Abort + AllocGlobal + Threads + Wait + Sync, G: BoardGate + Sync>(
    rt: &R,
    sources: &[Source],
    gate: &G,
) -> Result<bool, AllocError> {
    assert!(rt; in_order(sources));
    let options = IndexOptions {
        package: String::new(rt.alloc()),
        root: String::new(rt.alloc()),
    };
    let mut sink = FailingSink::new(rt.alloc(), 10000);
    match index_to(rt, rt.alloc(), sources, &options, 2, gate, &mut sink) {
        Ok(()) => Ok(true),
        Err(RunFault::Memory) => Err(AllocError),
        Err(_) => Ok(false),
    }
}

#[test]
fn two_workers_hold_a_module_at_once(rt: HostRuntime) -> Result<(), Fail> {
    let sources = sources(rt.alloc(), TWO)?;
    let gate = Meeting(MeetingGate::new(&rt, 2));
    assert!(rt; is_written(&rt, sources.as_slice(), &gate)?);
    assert_eq!(rt; gate.0.released_workers.load(Ordering::SeqCst), 2);
    Ok(())
}

#[test]
fn a_worker_that_finds_no_module_ready_waits_for_one(rt: HostRuntime) -> Result<(), Fail> {
    let sources = sources(rt.alloc(), THREE)?;
    let gate = Waking::new(&rt);
    assert!(rt; is_written(&rt, sources.as_slice(), &gate)?);
    assert_eq!(rt; gate.later.released_workers.load(Ordering::SeqCst), 2);
    Ok(())
}
