//! Threads that share one scheduler: each repeatedly claims a module, makes its entry and delivers it, until all are delivered. Depends on
//! `work_board`, and on std for threads and the lock.
//! The main call is `make_entries`: for every number of workers, every gate and every schedule its result has the entry of each module.
#![tactic(auto)]

mod gate;
mod single_thread;
mod work;
mod workers;

pub use gate::BoardGate;
pub use single_thread::make_entries_by_caller;
pub use work::Work;
pub use workers::make_entries;
