//! A gate at which all workers meet.

use cut_solve::Gate;
use std::sync::atomic::{AtomicU64, Ordering};
use std::thread;
use std::time::{Clock, Duration};

/// The maximum number of waits, of a millisecond each.
const MOST_WAITS: u32 = 1000;

/// A gate that holds each worker in its call with `turn` 0 until all workers have made this call, but at most about a second.
#[derive(Drop)]
pub struct MeetingGate<'a, R> {
    clock: &'a R,
    workers: u64,
    /// The number of workers that called the gate with `turn` 0.
    pub arrived_workers: AtomicU64,
    /// The number of workers that were released because all workers had called.
    pub released_workers: AtomicU64,
}

impl<'a, R: Clock> MeetingGate<'a, R> {
    /// A gate for `workers` workers, none of which has called it.
    pub fn new(clock: &'a R, workers: u64) -> MeetingGate<'a, R> {
        MeetingGate {
            clock,
            workers,
            arrived_workers: AtomicU64::new(0),
            released_workers: AtomicU64::new(0),
        }
    }
}

impl<R: Clock> Gate for MeetingGate<'_, R> {
    fn at(&self, _worker: u32, turn: u64) {
        if turn > 0 {
            return;
        }
        self.arrived_workers.fetch_add(1, Ordering::SeqCst);
        for _ in 0..MOST_WAITS {
            if self.arrived_workers.load(Ordering::SeqCst) >= self.workers {
                self.released_workers.fetch_add(1, Ordering::SeqCst);
                return;
            }
            thread::sleep(self.clock, Duration::from_millis(1));
        }
    }
}
