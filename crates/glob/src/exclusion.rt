//! Exclusion of files and folders by patterns of paths.
ghost use Rattle.std.specs.Prelude.{◌≡◌, ◌↔◌, Contains, IfOk, IsTrue, map};
ghost use Rattle.std.specs.String.{string_bytes};
ghost use Rattle.glob.specs.Exclusions.{names_of, AreGlobs, AreRead, Excludes, ExcludesBy, FitEach, IsExcludedBy};
ghost use Rattle.glob.specs.declared.exclusion.PathGlob.TheVariants.{Name};

use crate::Glob;
use std::alloc::{AllocError, Global};

/// A pattern of paths, split at its slashes.
#[derive(Drop)]
pub(crate) enum PathGlob<'a> {
    /// Matches a path if the pattern matches one of the path's names.
    Name(Glob<'a>),
    /// Matches a path if the pattern at each index matches the name at this index in the path. The path may have more names than patterns.
    Path(Vec<Glob<'a>>),
}

/// The patterns of files and folders that are excluded. A folder is excluded with all that it contains. So a pattern with a `/` excludes
/// each path whose first names it matches. A pattern without `/` excludes each path with a name that it matches.
#[derive(Drop)]
pub struct Exclusion<'a> {
    pub(crate) globs: Vec<PathGlob<'a>>,
}

/// The names of a path, which slashes separate.
fn split_path(alloc: Global, path: &[u8]) -> Result<Vec<&[u8]>, AllocError>
    ensures { IfOk result (λ names. map (λ n. n.now) names.items ≡ names_of path.now) }
{
    let mut names = Vec::new(alloc);
    for name in path.split(|byte| *byte == b'/') {
        names.push(name)?;
    }
    Ok(names)
}

/// Parses patterns of single names.
fn parse_globs<'a>(alloc: Global, patterns: &[&'a [u8]]) -> Result<Vec<Glob<'a>>, AllocError>
    ensures { IfOk result (λ globs. AreGlobs (map (λ p. p.now) patterns.now) globs.items) }
{
    let mut globs = Vec::new(alloc);
    for pattern in patterns {
        globs.push(Glob::new(alloc, pattern)?)?;
    }
    Ok(globs)
}

/// Whether the pattern matches one of the names.
fn matches_any_name(glob: &Glob<'_>, names: &[&[u8]]) -> bool
    ensures { IsTrue result ↔ ExcludesBy (Name glob.now) (map (λ n. n.now) names.now) }
{
    for name in names {
        if glob.matches(name) {
            return true;
        }
    }
    false
}

/// Whether there are at least as many names as patterns, and each pattern matches the name at its index.
fn matches_first_names(globs: &[Glob<'_>], names: &[&[u8]]) -> bool
    ensures { IsTrue result ↔ FitEach globs.now (map (λ n. n.now) names.now) }
{
    if globs.len() > names.len() {
        return false;
    }
    for place in 0..globs.len() {
        if !globs[place].matches(names[place]) {
            return false;
        }
    }
    true
}

impl<'a> PathGlob<'a> {
    /// Parses a pattern: if it has a slash, as a list of patterns for the names of a path, otherwise as one pattern for any name.
    fn new(alloc: Global, pattern: &'a [u8]) -> Result<PathGlob<'a>, AllocError>
        ensures { IfOk result (λ glob. (path : _) → Excludes pattern.now path ↔ ExcludesBy glob (names_of path)) }
    {
        if !pattern.contains(&b'/') {
            return Ok(PathGlob::Name(Glob::new(alloc, pattern)?));
        }
        let names = split_path(alloc, pattern)?;
        Ok(PathGlob::Path(parse_globs(alloc, names.as_slice())?))
    }

    /// Whether the pattern excludes the path of these names.
    fn excludes(&self, names: &[&[u8]]) -> bool
        ensures { IsTrue result ↔ ExcludesBy self.now (map (λ n. n.now) names.now) }
    {
        match self {
            PathGlob::Name(glob) => matches_any_name(glob, names),
            PathGlob::Path(globs) => matches_first_names(globs.as_slice(), names),
        }
    }
}

/// Parses patterns of paths.
fn parse_path_globs<'a>(
    alloc: Global,
    patterns: &'a [String],
) -> Result<Vec<PathGlob<'a>>, AllocError>
    ensures { IfOk result (λ globs. AreRead (map string_bytes patterns.now) globs.items) }
{
    let mut globs = Vec::new(alloc);
    for pattern in patterns {
        globs.push(PathGlob::new(alloc, pattern.as_bytes())?)?;
    }
    Ok(globs)
}

impl<'a> Exclusion<'a> {
    /// Parses the patterns. Fails if an allocation does.
    pub fn new(alloc: Global, patterns: &'a [String]) -> Result<Exclusion<'a>, AllocError>
        // It excludes exactly the paths that the patterns exclude.
        ensures { IfOk result (λ exclusion. AreRead (map string_bytes patterns.now) exclusion.globs.items) }
    {
        let globs = parse_path_globs(alloc, patterns)?;
        Ok(Exclusion { globs })
    }

    /// Whether a pattern matches the path or a folder on it. Fails if an allocation does.
    pub fn excludes(&self, alloc: Global, path: &str) -> Result<bool, AllocError>
        // The result is true exactly if one of the patterns excludes the path.
        ensures { IfOk result (λ excludes. IsTrue excludes ↔ IsExcludedBy self.now.globs.items (names_of path.now)) }
    {
        let names = split_path(alloc, path.as_bytes())?;
        for glob in &self.globs {
            if glob.excludes(names.as_slice()) {
                return Ok(true);
            }
        }
        Ok(false)
    }
}
