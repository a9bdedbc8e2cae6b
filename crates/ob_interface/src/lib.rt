//! The interface of a module, what other modules can refer to, as one value that owns its names in one buffer.
//! It contains unexported declarations too, since exported ones may have their types.
//! Depends on `module_table` for the table of the module and on `ob_scan` for the spelling of tokens.
//! Main calls: `read_interface` returns exactly the declarations, bases and imports in the module's block that its table lists.
//! `Interface::new` adds sorted indexes; a look-up by name or record is then one binary search.
#![tactic(auto)]

mod buffer;
mod entries;
mod export_rows;
mod interface;
pub mod laws;
mod members;
mod module_level;
mod order;
mod rows;
mod type_exprs;
mod views;

pub use export_rows::{PlainInterface, read_interface};
pub use interface::Interface;
pub use views::{Base, Declaration, Part, TypeExpr, TypeName};
