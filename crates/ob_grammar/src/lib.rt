//! The grammar of Oberon-07 (report, appendix): functions that each parse one production at a cursor, tests with one token of look-ahead
//! (a field list needs two), the error of a text that has no tree, and laws of trees and errors.
//! Depends on `ob_scan` for tokens, on `ob_tree` for names, operators and event sequences, and on `thiserror` for the messages of errors.
//! Main calls: the functions of `tokens`, `names` and `operators`, which the parsers `table_reader` and `ob_parse` call. Each returns
//! exactly what the grammar reads at the cursor. By `laws` a text has at most one tree and at most one error.
#![tactic(auto)]

pub mod cursor;
pub mod declarations;
pub mod ends;
mod fault;
pub mod labels;
pub mod laws;
pub mod modules;
pub mod names;
pub mod operators;
pub mod statements;
pub mod stop;
pub mod tokens;
pub mod types;

pub use fault::{MAX_DEPTH, ParseFault, stop_fault};
