//! Import graphs: modules by number, their imports and importers, and the canonical import cycle if there is a cycle.
//! Depends on `digraph` for cycles and adjacency lists, `text_hash` and `indexmap` for tables, `thiserror` for errors.
//! The main call is `graph`. It returns exactly the graph of the files, which is acyclic, or their first error.
#![tactic(auto)]

mod build;
mod duplicates;
mod edges;
mod fault;
mod graphs;
pub mod laws;
mod names;
mod order;
mod parsed;
mod ready;
mod seeds;

pub use build::graph;
pub use digraph::{Edge, find_canonical_cycle};
pub use fault::GraphFault;
pub use graphs::Graph;
pub use parsed::Parsed;
