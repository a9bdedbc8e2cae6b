//! Walks over a tree that emit its tokens in order, identifiers with their roles. Functions follow the productions of the grammar.

pub(crate) mod declarations;
mod expressions;
mod names;
mod statements;
mod types;
