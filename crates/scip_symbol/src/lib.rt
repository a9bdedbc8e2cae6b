//! The strings of SCIP symbols: a reader, by recursive descent, and a writer (scip.proto, the grammar of `Symbol`).
//! Depends on `texts` for cuts of a string at a byte, and on `thiserror` for errors.
//! The main calls are `read` and `write`. `read` returns exactly the symbol that has the string by the grammar, or the first error.
//! `write` returns the symbol's one canonical string, in which a name is escaped with backticks only if necessary, or the first error.
#![tactic(auto)]

mod cuts;
mod descriptor;
mod descriptors;
mod fault;
mod kind;
pub mod laws;
mod name;
mod parts;
mod reader;
mod symbol;
mod writable;
mod writer;

pub use descriptor::Descriptor;
pub use fault::SymbolFault;
pub use kind::DescriptorKind;
pub use reader::read;
pub use symbol::Symbol;
pub use writer::{append_simple_descriptor, write, write_parts};
