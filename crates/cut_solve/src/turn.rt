//! What a worker finds while it holds the lock, and the callback between two of its critical sections.

use cut_preflow::{Event, Preflow};
use std::sync::Mutex;

/// A preflow guarded by a lock. The type parameter identifies the network, so no preflow on another network can replace it.
pub type Locked<L> = Mutex<Preflow<L>>;

/// What a worker finds while it holds the lock.
#[derive(Clone, Copy, Debug)]
pub enum Look {
    /// No module other than the source and the sink has excess.
    Quiet,
    /// A push or relabel that can be applied to the preflow.
    Try { event: Event },
}

/// A callback that a worker calls between two critical sections, when it doesn't hold the lock.
pub trait Gate {
    /// Called before a worker tries the event that it found. `turn` counts the events that this worker has found, from 0 up to 2^64 - 1.
    fn at(&self, worker: u32, turn: u64);
}
