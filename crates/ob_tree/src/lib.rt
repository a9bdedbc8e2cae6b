//! The syntax tree of an Oberon-07 module, and its grammar as definitions over event sequences of the tree. Depends on `ob_scan` for the
//! kinds of tokens; token numbers are indexes in its `Tokens`, from 0. Main call: `walkers::collect_end_names` returns the names after END
//! in order. `laws::each_token_occurs_once` promises that a tree that derives tokens contains each of them exactly once.
#![tactic(auto)]

pub mod declaration;
mod end_names;
pub mod expression;
pub mod laws;
pub mod name;
pub mod role;
pub mod statement;
pub mod token;
pub mod walkers;
