//! Parsed files, as the graph needs them.

/// One file of a tree.
#[derive(Drop)]
pub struct Parsed {
    /// The path of the file.
    pub path: String,
    /// The name of its module.
    pub name: String,
    /// The names in its import items, which may repeat.
    pub imports: Vec<String>,
}
