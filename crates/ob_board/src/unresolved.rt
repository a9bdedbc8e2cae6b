//! The type of an unresolved identifier of a tree.

use ob_scan::Position;
use std::sync::Arc;

/// An unresolved identifier, which denotes nothing: the path of its file, its position in the file, and its name. The identifiers of a file
/// share one allocation of the path.
#[derive(Drop)]
pub struct Unresolved {
    pub path: Arc<String>,
    pub at: Position,
    pub name: String,
}
