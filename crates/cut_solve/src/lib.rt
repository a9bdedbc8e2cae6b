//! Cheapest cuts: the imports to remove, with a flow that proves that no cut is cheaper; or a path of pinned imports, because of which no
//! cut exists. The algorithm is push-relabel (Goldberg and Tarjan 1988) by many threads on one locked preflow.
//! Depends on `cut_part` for smaller networks, `initial_flow` for an initial flow, `cut_preflow` for steps, and `residual_graph` for the
//! final search. The main call is `solve`. For every schedule of its threads it returns the one canonical minimum cut, its weight and a
//! flow of that value.
#![tactic(auto)]

mod arcs;
mod blocking;
mod cutting;
mod fault;
mod initial_capacities;
pub mod laws;
mod names;
mod open_gate;
mod reporting;
mod settling;
mod solving;
mod start;
mod turn;
mod whole;
pub mod workers;

pub use arcs::{graph_of, nonzero_flow};
pub use blocking::{answer_of_cut, find_blocked_answer};
pub use cutting::minimum_cut;
pub use fault::SolveFault;
pub use names::module_number;
pub use open_gate::OpenGate;
pub use solving::solve;
pub use start::{PreflowInput, preflow_input};
pub use turn::{Gate, Locked, Look};
pub use workers::worker;
