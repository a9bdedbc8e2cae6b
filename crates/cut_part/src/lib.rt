//! Smaller networks with equal flows between two modules: the subnetwork of the modules on paths between them, capacities reduced along
//! paths, and the reversed imports.
//! Depends on `cut_net` for networks, `residual_graph` for flags of nodes, and `digraph` for linked lists.
//! The main calls are `between` and `reduced_capacities`. An answer for the subnetwork is, after renumbering, an answer for the whole
//! network. Reduced capacities allow each flow of the original ones.
#![tactic(auto)]

pub mod laws;
mod order;
mod part;
mod reach;
mod reduction;

pub use order::topological_imports;
pub use part::{Subnetwork, between, renumbered_imports, reversed_imports};
pub use reduction::reduced_capacities;
