//! Finds the files below a folder in the files of a tree. The files are sorted by path, so those below a folder are adjacent.
ghost use Rattle.std.specs.Prelude.{◌≡◌, ◌↔◌, ◌<◌, ◌≤◌, ◌||◌, ℕ, IfOk, List, Some, length, slice_get, nat_eq};
ghost use Rattle.std.specs.List.{starts_with};
ghost use Rattle.std.specs.Ordering.{is_lt, nat_cmp};
ghost use Rattle.std.specs.Cmp.Lexicographic.{slice_cmp};
ghost use Rattle.cut_rules.specs.Folders.{path_is_before, path_is_before_or_below, ArePathsInOrder};
ghost use Rattle.cut_rules.specs.Rules.{with_slash, without_dot, IsBelow};
ghost use Rattle.cut_rules.specs.declared.file.File.{File as TreeFile};

use crate::File;
use std::alloc::{AllocError, Global};

/// Whether the file's path comes before the text by bytes.
fn path_is_before(file: &File<'_>, text: &[u8]) -> bool
    ensures { result ≡ path_is_before text.now file.now }
{
    file.path.as_bytes().cmp(text).is_lt()
}

/// Whether the file's path comes before the text by bytes, or begins with it.
fn path_is_before_or_below(file: &File<'_>, text: &[u8]) -> bool
    ensures { result ≡ path_is_before_or_below text.now file.now }
{
    path_is_before(file, text) || file.path.as_bytes().starts_with(text)
}

/// The path with a slash at its end, which is added unless the path ends with one.
fn with_slash(alloc: Global, path: &[u8]) -> Result<Vec<u8>, AllocError>
    ensures { IfOk result (λ v. v.items ≡ with_slash path.now) }
{
    let mut with_slash = Vec::from_slice(alloc, path)?;
    if !path.ends_with(b"/") {
        with_slash.push(b'/')?;
    }
    Ok(with_slash)
}

/// The path without the `./` at its beginning, if it begins with that.
fn without_dot(path: &[u8]) -> &[u8]
    ensures { result.now ≡ without_dot path.now }
{
    path.strip_prefix(b"./").unwrap_or(path)
}

/// The range of the indices of the files below the folder `path`: its start, and its end, which is excluded.
pub(crate) fn folder_range(
    alloc: Global,
    files: &[File<'_>],
    path: &[u8],
) -> Result<(usize, usize), AllocError>
    // The files are sorted by path.
    requires { ArePathsInOrder files.now }
    // With `Ok` the end is at most the number of files.
    ensures within { IfOk result (λ places. places.1 ≤ length files.now) }
    // With `Ok` a file's index is in the range if and only if the file is below the folder.
    ensures elements { IfOk result (λ places. (k : ℕ) (f : TreeFile) → slice_get files.now k ≡ Some f → ((places.0 ≤ k) × (k < places.1)) ↔ IsBelow path.now f.path.now) }
{
    let with_slash = with_slash(alloc, path)?;
    let prefix = without_dot(with_slash.as_slice());
    let from = files.partition_point(|file| path_is_before(file, prefix));
    let to = files.partition_point(|file| path_is_before_or_below(file, prefix));
    Ok((from, to))
}
