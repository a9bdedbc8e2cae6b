//! Trees of Oberon-07 modules: from the bytes of the files to the network of their imports, or to the tokens, table, scopes and interface
//! of each module; or to the first error. Depends on `ob_scan`, `ob_grammar`, `table_reader` and `ob_scope` for each file, on
//! `ob_interface`, on `ob_imports` and `cut_net` for the tree, with `text_hash` and `indexmap` for tables and `thiserror` for errors. The
//! main calls are `net_of`, `tree_parts` and `tree_faults`. The weight of an import is the number of qualified uses across it; the error is
//! that of the first file that has one, or else that of the imports.
#![tactic(auto)]

mod crossing;
mod fault_text;
mod file_faults;
mod files;
mod from_graph;
mod front_end;
mod graph_net;
mod import_sites;
pub mod laws;
mod located;
mod module_scopes;
mod parts;
mod source;
mod tree_fault;
mod tree_reading;

pub use crossing::{ImportUses, Span, uses_of_import};
pub use fault_text::{is_out_of_memory, join_after_spaces, tree_fault_text};
pub use file_faults::{PartitionedFiles, partition_files, tree_faults};
pub use from_graph::net_of_graph;
pub use front_end::locate_parse_fault;
pub use graph_net::FromGraph;
pub use import_sites::ImportSite;
pub use located::{LocatedNet, located_net_of};
pub use module_scopes::scopes;
pub use parts::{ModuleParts, TreeParts, tree_parts};
pub use source::{Source, in_order};
pub use tree_fault::TreeFault;
pub use tree_reading::net_of;
