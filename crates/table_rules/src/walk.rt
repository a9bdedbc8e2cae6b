//! The entries of the productions of the grammar, which a parser calls as it reads them: each function appends the entries of one
//! production to the builder, whose `number` is the index of the next token, and advances it.

pub mod declarations;
pub mod types;
pub mod uses;
