//! The files of a tree's modules.

/// The file of a module.
#[derive(Clone, Copy)]
pub struct File<'a> {
    /// The path of the file relative to the tree's folder, with `/` between the names.
    pub path: &'a str,
    /// The number of the file's module in the network.
    pub module: u32,
}
