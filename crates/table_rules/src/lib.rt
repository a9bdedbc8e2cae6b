//! The declarations and uses of an Oberon-07 module: the table entries that each production of its syntax tree contributes, functions
//! that append them during one pass over the tokens, and their laws.
//! Depends on `module_table` for tables and their builder, on `ob_tree` for the productions, and on `ob_scan` for tokens.
//! Main calls: the functions of `walk`. Each appends exactly the entries of its production and advances the builder past its tokens.
#![tactic(auto)]

mod build;
pub mod laws;
pub mod walk;

pub use build::finish_table;
