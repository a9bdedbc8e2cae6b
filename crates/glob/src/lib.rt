//! Patterns of file names, and exclusion of files and folders by them: `*` matches any bytes of a name, also none.
//! Depends on `texts` to split at the first `*`, and on `memchr` to search for the pieces of a pattern.
//! Main calls: `Glob::matches` is true exactly if the pieces of the pattern occur in the name in order, the first one as its prefix and
//! the last one as its suffix. `Exclusion::excludes` is true exactly if a pattern matches the path or a folder on it.
#![tactic(auto)]

mod exclusion;
mod pattern;

pub use exclusion::Exclusion;
pub use pattern::Glob;
