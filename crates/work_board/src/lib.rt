//! A dependency scheduler: workers claim modules whose imports are all delivered, make an entry of each, and deliver it. The scheduler
//! starts no thread. Depends on std, and on `thiserror` for errors.
//! The main calls are `Board::claim` and `Board::deliver`. `Board::invariants` promises that each delivered entry is that of its module,
//! and that all modules that a claimed module reaches are delivered.
#![tactic(auto)]

mod board;
mod claim;
mod entry;
mod flags;
mod graph;
mod scans;
mod state;
mod tree;

pub use board::Board;
pub use claim::{BoardFault, Claim};
pub use entry::WorkEntry;
pub use graph::Graph;
pub use tree::NamedTree;
