//! A module (bytes, tokens, table, scopes) with the interfaces of the modules that it imports directly or indirectly, as one value; and
//! targets, what identifiers denote. Depends on `scopes` for the meanings of names, and on `module_table`, `ob_scan` and `ob_interface` for
//! declarations of this module and of others. `ob_types` adds the graph of types. Main type: `View`, whose value in contracts is the
//! `World`; each look-up returns exactly what the table and the interfaces contain.
#![tactic(auto)]

mod declarations;
mod external;
mod hints;
mod indexed_parts;
mod indexes;
mod module_numbers;
mod parts;
mod target;
mod view;

pub use module_numbers::module_number_in;
pub use target::{Reference, Target};
pub use view::View;
