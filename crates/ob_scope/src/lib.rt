//! Resolves the names of an Oberon-07 module: which declaration each use means, by the scope rule of the report's section 4.
//! Visits declarations and uses in token order with a stack of open blocks and a list of candidates for each name. The amortized cost of a
//! step doesn't depend on the depth of nesting, but for binary searches.
//! Depends on `module_table` for the table of the module, on `ob_scan` for its tokens, on `scopes` for the result, on `indexmap` and
//! `text_hash` for hash tables that an adversary's choice of names can't slow down.
//! Main call: `scopes_from` returns the declaration that each use means, or the first two identifiers with one name in one scope.
#![tactic(auto)]

mod bindings;
mod block_types;
mod build;
mod crossing_uses;
mod distinct;
mod fault;
pub mod laws;
mod member_index;
mod members;
mod numbering;
mod resolve;
mod scope_stack;
mod uses;

pub use build::scopes_from;
pub use crossing_uses::{Crossing, crossings};
pub use fault::ScopeFault;
pub use scopes::{Alias, Member, Scope, Scopes};
