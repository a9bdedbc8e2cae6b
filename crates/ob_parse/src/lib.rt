//! The parser: from the tokens of an Oberon-07 module to its syntax tree, by recursive descent with one token of look-ahead (a field list
//! needs two); and source trees with a syntax tree for each module. No command calls it.
//! Depends on `ob_grammar` for the grammar, on `ob_tree` for the tree, on `ob_scan` for tokens, and for `read_tree` on `source_tree` and
//! the crates from which a module's parts come.
//! Main call: `parse`. It returns the one tree that derives the tokens, of at most 200 nested levels and with the right names after END, or
//! an error if there is none. Each function returns what the grammar's reader in `ob_grammar` returns (`ParsesAs`).
#![tactic(auto)]

mod declarations;
mod ends;
mod expressions;
mod labels;
mod modules;
mod parameters;
mod parser;
mod reading;
mod statements;
mod stop;
mod types;

pub use ob_grammar::ParseFault;
pub use parser::parse;
pub use reading::{ParsedModule, ParsedTree, read_tree};
