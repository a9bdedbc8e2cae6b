//! The answer for two modules: a cut, or a path of pinned imports.

use crate::Cut;

/// A claim about two modules: a cut between them, or that no cut exists. The type has no invariant, since a checker has to judge any value.
#[derive(Drop)]
pub enum Answer {
    /// A cut, whose removal leaves no path from the one module to the other.
    Cut(Cut),
    /// No cut exists, since a path of pinned imports leads from the one module to the other.
    Blocked {
        /// The modules of the path by their numbers, from the first to the second.
        chain: Vec<u32>,
    },
}
