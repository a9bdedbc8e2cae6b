//! From the tokens of an Oberon-07 module to its table of declarations and uses, in one pass that makes no syntax tree.
//! Depends on `ob_grammar` for the grammar, on `table_rules` for the entries of each production, and on `module_table`, `ob_scan` and
//! `ob_tree` below them.
//! Main call: `read_table`. It returns the table of the one syntax tree that derives the tokens, though no tree is made; or an error if no
//! tree does. Each parsing function reads what the reader of `ob_grammar` for its production reads, and appends the production's entries
//! (`AppendsEntries`).
#![tactic(auto)]

mod declarations;
mod ends;
mod expressions;
mod labels;
mod modules;
mod names;
mod parameters;
mod reading;
mod slots;
mod source;
mod statements;
mod types;
mod uses;
mod words;

pub use reading::read_table;
