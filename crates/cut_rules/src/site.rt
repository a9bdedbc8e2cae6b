//! Locations of imports.

/// The location of an import in the file of its importer.
#[derive(Clone, Copy)]
pub struct Site<'a> {
    /// The path of the file relative to the tree's folder, with `/` between the names.
    pub path: &'a str,
    /// The line, from 0.
    pub line: u32,
    /// The column, from 0, in bytes.
    pub column: u32,
}
