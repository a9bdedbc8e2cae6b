//! Runs that index: write the SCIP index of a tree, or the list of its unresolved identifiers, to any sink.
//! Depends on `ob_board` for the index, `scip_index` for its written form, `oscip_run` for readers and faults, and `oscip_job` and
//! `source_tree` for jobs and trees.
//! It also depends on `hex` for hexadecimal digits.
//! The main call is `write_requested_index`. It promises that the sink takes exactly the written form of the tree's index.
#![tactic(auto)]

mod hexadecimal;
mod indexing;
pub mod laws;
mod reading;
mod records;
mod writing;

pub use hexadecimal::hex_line;
pub use indexing::{OpenBoardGate, index_hex_to, index_to, unresolved_to, write_requested_index};
pub use reading::run_unresolved;
pub use records::write_encoded_index;
pub use writing::write_index;
