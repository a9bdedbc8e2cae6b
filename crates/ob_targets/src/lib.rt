//! The rules that determine what each identifier of a module denotes, and in which role (Oberon-07 report, sections 4 to 11).
//! The rules are definitions: `Refers` has one constructor for each syntactic position of an identifier. `ob_resolve` finds the targets.
//! Depends on `ob_view` for what modules declare and for the type `Target`, and on `ob_types` and `type_graph` for types.
//! It also depends on `ob_scan`, `module_table`, `scopes` and `ob_interface` for a module's data, and on `ob_tree` and `table_rules` for
//! trees.
//! The main law is `target_is_unique`: an identifier denotes at most one target, in one role.
#![tactic(auto)]

mod designator_type;
pub mod laws;
mod predeclared;
mod syntax_position;

pub use designator_type::DesignatorType;
pub use predeclared::is_predeclared;
pub use syntax_position::SyntaxPosition;
