//! The SCIP index of a tree of Oberon-07 modules, and its unresolved identifiers, computed module by module in dependency order.
//! Depends on `work_board` and `board_workers` for the order and the threads, and on `source_tree` for the files of a tree.
//! It also depends on `ob_types`, `ob_resolve` and `ob_emit`, which process each module, and on the crates that laws are about.
//! The main calls are `index_tree`, `encode_tree_index` and `unresolved_in_tree`. Their results are exactly the tree's, for every number of
//! workers and every gate: a call-back between claim and delivery, for tests. A caller with its own workers uses a scheduler, `TreeBoard`,
//! from which `EntryBuilder::gather` makes the index that `index_tree` returns.
#![tactic(auto)]

mod built;
mod claimed_modules;
mod encoded;
mod entry;
mod files;
mod graphs;
mod indexing;
pub mod laws;
mod module_types;
mod named_index;
mod precomputed_chains;
pub mod reference_laws;
mod rows;
mod unresolved;
mod unresolved_entries;
mod unresolved_list;
mod writing;
mod written;

pub use board_workers::BoardGate;
pub use built::{EntryBuilder, IndexEntry};
pub use claimed_modules::{Job, TreeBoard};
pub use entry::Entry;
pub use graphs::board_graph;
pub use indexing::{IndexOptions, entries, index_tree};
pub use named_index::{BoardOf, NamedIndex};
pub use unresolved::Unresolved;
pub use unresolved_list::unresolved_in_tree;
pub use work_board::{Board, BoardFault, Claim, Graph, NamedTree, WorkEntry};
pub use writing::{EncodedIndex, encode_tree_index};
