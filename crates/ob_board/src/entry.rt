//! The entry of a module: the result of indexing it.

use ob_interface::Interface;
use scip_index::{Document, SymbolInfo};
use std::sync::Arc;

/// The result of indexing a module: the module's name, its document, its interface for other modules, and the external symbols that it
/// uses, sorted by symbol string.
#[derive(Drop)]
pub struct Entry {
    pub name: String,
    pub document: Document,
    pub interface: Arc<Interface>,
    pub externals: Vec<SymbolInfo>,
}
