//! Tests of the tokens, tree, table and scopes of single modules, of what no command shows. The output of commands is in `rows/`.
//! Depends on `ob_scan`, `ob_tree`, `ob_walk`, `module_table`, `ob_grammar`, `ob_parse`, `table_reader`, `ob_scope`, `ob_view` and
//! `ob_types`, which it tests.
//! It also depends on `source_tree`, `texts`, `ob_imports` and `cut_net` for scopes of syntax trees and networks of graphs. It has nothing
//! but tests.
#![tactic(auto)]

#[cfg(test)]
mod asked;
#[cfg(test)]
mod module_scopes;
#[cfg(test)]
mod networks;
#[cfg(test)]
mod passes;
#[cfg(test)]
mod readings;
#[cfg(test)]
mod searches;
#[cfg(test)]
mod tables;
#[cfg(test)]
mod tokens;
#[cfg(test)]
mod trees;
#[cfg(test)]
mod walks;
