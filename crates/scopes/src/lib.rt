//! The scopes of an Oberon-07 module as a value: which declaration each use means, and how many uses each import alias qualifies.
//! The definition of this value is the scope rule (Oberon-07 report, sections 4, 10 and 11); `ob_scope` computes it.
//! Depends on `module_table` for the entries of a module and for look-ups in sorted tables, and on `ob_scan` for tokens.
//! Main type: `Scopes`. `resolve` returns exactly the declaration that a use means, in logarithmic time; `resolve_by_hint` takes constant
//! time if uses are asked for in order.
#![tactic(auto)]

mod meaning;
mod members;
mod module_scopes;

pub use meaning::Resolution;
pub use members::{Member, Scope};
pub use module_scopes::{Alias, Scopes};
