//! Source files, and their order.
ghost use Rattle.std.specs.Prelude.{◌↔◌, IsTrue};
ghost use Rattle.source_tree.specs.Sources.{ArePathsInOrder};

/// A source file of a tree.
#[derive(Drop)]
pub struct Source {
    /// The file's path relative to the tree's folder, with `/` between names.
    pub path: String,
    /// The file's bytes.
    pub bytes: Vec<u8>,
}

/// Whether the files are strictly sorted by path, so that no path repeats. Paths are compared byte by byte.
pub fn in_order(sources: &[Source]) -> bool
    // True exactly if the paths are strictly sorted.
    ensures { IsTrue result ↔ ArePathsInOrder sources.now }
{
    sources.is_sorted_by(|first, second| first.path < second.path)
}
