//! Symbols.

use crate::Descriptor;

/// The symbol that a symbol string denotes (scip.proto, `Symbol`).
#[derive(PartialEq, Eq, Drop)]
pub enum Symbol {
    /// A local symbol, which has a meaning only within one document; its id.
    Local(String),
    /// A global symbol, which has a meaning in all documents.
    Global {
        /// The scheme, which identifies the indexer that chose the names.
        scheme: String,
        /// The package manager; empty for none.
        manager: String,
        /// The package's name; empty for none.
        package: String,
        /// The package's version; empty for none.
        version: String,
        /// The descriptors, outermost first.
        descriptors: Vec<Descriptor>,
    },
}
