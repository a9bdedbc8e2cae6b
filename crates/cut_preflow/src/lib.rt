//! Push-relabel on a network (Goldberg and Tarjan 1988), one event at a time, with the history of the applied events. Nodes are
//! discharged in topological order.
//! Depends on `cut_net` for networks, `residual_graph` for residual graphs, and `cut_part` for maximum flows.
//! The main calls are `Preflow::start`, `apply` and `settle`. For every schedule the state is that of a legal history, and each step is
//! counted in one share. Once no node is active, the flow is maximum, and `side` is the minimal source side.
#![tactic(auto)]

mod admissible;
mod bits;
mod discharge_order;
mod ends;
mod event;
mod excesses;
mod flow_graph;
pub mod laws;
mod node_set;
mod preflow;
mod preflow_core;
mod share;
mod sums;

pub use event::{Event, Outcome, Step};
pub use preflow::Preflow;
pub use share::{LEDGER_PARTS, NetworkLedger, Share};
