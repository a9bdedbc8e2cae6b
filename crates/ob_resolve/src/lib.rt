//! Finds what each identifier of a module denotes, and in which role.
//! A pass over each list of the module table gives the syntactic positions of tokens and the targets of uses and selectors.
//! Each identifier then gets its target from these lists.
//! Depends on `ob_targets` for the rules, on `ob_view` for names and declarations, on `ob_scan` and `module_table` for tokens and tables,
//! and on `ob_types` and `type_graph` to follow the types of designators.
//! The main call is `references`. It promises all identifiers in order, each with exactly the target and the role that the rules give it.
#![tactic(auto)]

mod decl_kinds;
mod identifier_reference;
mod precomputed;
mod refs;
mod selector_groups;
mod selectors;
mod steps;
mod syntax_positions;
mod targets;
mod used;
mod written;

pub use refs::{Refs, references};
