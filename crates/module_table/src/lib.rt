//! The table of an Oberon-07 module: what it declares and uses, as sorted lists indexed by token numbers, and the builder that fills it.
//! Depends on std alone, neither on syntax trees nor on source text, so that a table can be built with or without a tree.
//! Main calls: the methods of `Table`. A look-up by token number returns the entry with that number exactly if there is one.
//! `TableBuilder::into_table` returns a table with exactly the entries that were appended.
#![tactic(auto)]

pub mod builder;
mod order;
mod rows;
mod table;

pub use order::{Keyed, index_of};
pub use rows::{
    Block, DeclGroup, DeclKind, Declared, Designator, End, Import, Part, Record, Selector, Step,
    TypeName, TypePart, Used,
};
pub use table::Table;
