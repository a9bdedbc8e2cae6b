//! Directed graphs: breadth-first search around barriers, shortest paths, the canonical cycle, adjacency lists and node renumbering.
//! The cycle search removes nodes without an edge to a remaining node, by a worklist. Depends on std alone.
//! The main calls are `graph_of`, `Graph::search_from` and `find_canonical_cycle`. A search finds a path exactly if one exists, and no path
//! is shorter; a cycle is returned exactly if the graph has one, and it is unique.
#![tactic(auto)]

mod adjacency;
mod canonical_cycle;
mod core_nodes;
mod edge;
mod graph;
mod incoming;
pub mod laws;
mod linked_lists;
mod ranks;
mod search;
mod shortest;
mod walk;

pub use adjacency::{predecessor_lists, transpose};
pub use canonical_cycle::find_canonical_cycle;
pub use core_nodes::is_marked;
pub use edge::Edge;
pub use graph::{Graph, graph_of};
pub use linked_lists::{LinkedLists, link_by_key};
pub use ranks::{ranks_of, renumber_edges, sort_and_dedup};
pub use search::Search;
pub use shortest::shortest_path;
