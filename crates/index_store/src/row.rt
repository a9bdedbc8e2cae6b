//! The entries of a store's tables: what it stores of an occurrence.

use crate::span::Span;

/// An entry of a document's path, for one occurrence in the document: the occurrence's span, and the index of its symbol string.
#[derive(Clone, Copy)]
pub(crate) struct PathEntry {
    pub(crate) span: Span,
    pub(crate) symbol: usize,
}

/// An entry of a symbol string, for one occurrence of it: the index of the document's path, the span, and whether the occurrence has the
/// definition role.
#[derive(Clone, Copy)]
pub(crate) struct SymbolEntry {
    pub(crate) path: usize,
    pub(crate) span: Span,
    pub(crate) defines: bool,
}
