//! Residual graphs (Goldberg and Tarjan 1988, section 2): flows on arcs, augmentation, breadth-first search, and reachability without a
//! graph. Depends on `digraph` for linked lists and the worklist of a reachability search. The main calls are `ResidualGraph::new`,
//! `search`, `ResidualGraph::augment` and `flag_reachable`. `search` and `flag_reachable` find exactly the nodes that augmenting paths
//! reach; augmenting raises the value of each flow by the bottleneck of the path.
#![tactic(auto)]

mod arc;
mod augment;
mod current_arcs;
mod found;
mod graph;
mod groups;
mod order;
mod paths;
mod searches;
mod spread;

pub use arc::{Arc, OutArc, ResidualArc};
pub use current_arcs::CurrentArcs;
pub use found::SearchResult;
pub use graph::ResidualGraph;
pub use order::{positions_of, topological_order};
pub use paths::path_to;
pub use searches::search;
pub use spread::flag_reachable;
