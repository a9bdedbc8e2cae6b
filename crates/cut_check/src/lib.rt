//! The checker of reports: whether the reported flow proves that the reported imports are a cheapest cut, or whether the reported modules
//! are a path of pinned imports. Depends on `cut_net` for networks and on `residual_graph` for searches; on no solver.
//! The main call is `check`. It accepts any lines, and returns `Yes` or the first cause against the report. If it returns `Yes` for a cut,
//! no cut is cheaper; if it returns `Yes` for a path of pinned imports, no cut exists.
#![tactic(auto)]

mod arcs;
mod checking;
mod flow;
pub mod laws;
mod lines;
mod pins;
mod verdict;
mod weights;

pub use checking::check;
pub use verdict::Verdict;
