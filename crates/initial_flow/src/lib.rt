//! An initial flow, found by one thread: push-relabel (Goldberg and Tarjan 1988) with global relabelling, in first-in first-out order and
//! then by highest label (Cheriyan and Maheshwari 1989).
//! Depends on `residual_graph` for residual graphs.
//! The main call is `find_initial_flow`. It changes arcs only in their flow, which stays within the capacity. That the result is a flow,
//! and maximum, isn't proved; the caller verifies it.
#![tactic(auto)]

mod buckets;
mod distances;
mod heuristic;

pub use heuristic::find_initial_flow;
