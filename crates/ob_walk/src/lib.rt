//! Walkers of the syntax tree of an Oberon-07 module, for users of the library; no command of the program calls them.
//! Depends on `ob_tree`, and through it on `ob_scan`.
//! Main calls: `yield_of` returns the numbers of all tokens, `declarations` the numbers of the identifiers that are declared, and `uses`
//! the numbers of the identifiers that the scope rule looks up, each in order.
#![tactic(auto)]

mod item;
mod items;
mod walk;
mod walkers;

pub use walkers::{declarations, uses, yield_of};
