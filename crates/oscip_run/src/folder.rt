//! The walk of a folder and the folders below it, and the reading of the modules' files that it finds.
ghost use Rattle.std.specs.Prelude.{◌≡◌, ◌≤◌, ℕ, IfErr, IfOk, List, map};
ghost use Rattle.std.specs.String.{string_bytes};
ghost use Rattle.cut_net.specs.Network.{texts};
ghost use Rattle.glob.specs.Exclusions.{AreRead};
ghost use Rattle.oscip_run.specs.Faults.{IsReadFault};
ghost use Rattle.oscip_run.specs.Exclusions.{AreIncluded, AreIncludedPaths};
ghost use Rattle.oscip_run.specs.Files.{AreModulePrefixes, IsModulePrefix};
ghost use Rattle.source_tree.specs.declared.source.Source.{Source as TreeSource};
ghost use Rattle.source_tree.specs.Sources.{ArePathsInOrder};

use crate::RunFault;
use crate::files::{ReadFault, cannot_read, file_fault, read_at_most};
use glob::Exclusion;
use source_tree::{Source, in_order};
use std::alloc::{AllocError, Global};
use std::fs;
use std::fs::ReadDir;
use std::io::ErrorKind;
use std::rt::Files;

/// The maximum level of a folder that is read. The folder that is walked has level 0, a folder in it level 1.
const LEVELS: u32 = 32;

/// The maximum number of names that a walk lists. A name that links lead to counts once for each path to it.
const NAMES: u64 = 1 << 20;

/// The maximum number of bytes of a module's file.
const MODULE_LIMIT: u64 = 1 << 24;

/// A path that the walk has yet to visit.
#[derive(Drop)]
struct PendingPath {
    /// The path relative to the folder that is walked; empty for that folder itself.
    path: String,
    /// The level of the path: 0 for the folder that is walked, 1 for a name in it.
    level: u32,
}

/// The state of a walk below a folder.
#[derive(Drop)]
struct Walk {
    /// The paths to visit, the next one last.
    pending: Vec<PendingPath>,
    /// The paths of the modules found so far, relative to the folder that is walked.
    files: Vec<String>,
    /// How many more names the walk may list.
    left: u64,
}

/// The path of a name in a folder, with a `/` between them unless the folder's path ends in one or is empty.
fn joined_path(alloc: Global, folder: &str, name: &str) -> Result<String, AllocError> {
    if folder.is_empty() || folder.ends_with('/') {
        format!(in alloc; "{folder}{name}")
    } else {
        format!(in alloc; "{folder}/{name}")
    }
}

/// Whether the path ends in `.Mod` or `.mod`. The walk takes a file with such a path for a module.
fn is_module_path(path: &str) -> bool {
    path.ends_with(".Mod") || path.ends_with(".mod")
}

/// Whether the path itself is too long for the system, by the error for its metadata. A link at the path isn't followed.
fn is_path_too_long<R: Files>(rt: &R, path: &str) -> bool {
    match fs::symlink_metadata(rt, path) {
        Ok(_) => false,
        Err(error) => error.kind() == ErrorKind::InvalidFilename,
    }
}

/// Whether the system reports a folder at the path. An error of the system, as for a dangling link, counts as no folder. Then reading a
/// module at the path fails, and the walk skips any other name.
/// Fails for a path that is too long for the system and isn't that of a module, since a folder there may be readable by another path.
fn is_folder<R: Files + AllocGlobal>(rt: &R, path: &str) -> Result<bool, ReadFault> {
    match fs::metadata(rt, path) {
        Ok(metadata) => Ok(metadata.is_dir()),
        Err(_) if is_module_path(path) => Ok(false),
        Err(error) if error.kind() == ErrorKind::OutOfMemory => Err(ReadFault::Memory),
        Err(_) if is_path_too_long(rt, path) => Err(cannot_read(rt.alloc(), path)),
        Err(_) => Ok(false),
    }
}

/// Appends a copy of the name to the names.
fn add_name(alloc: Global, names: &mut Vec<String>, name: &str) -> Result<(), AllocError> {
    names.push(String::from_str(alloc, name)?)?;
    Ok(())
}

/// The names that this listing returns, or `None` if there are more than `left`. The path is that of the listed folder, for the fault.
fn names_of_listing<R: Files + AllocGlobal + Clone + Drop>(
    alloc: Global,
    listing: ReadDir<R>,
    path: &str,
    left: u64,
) -> Result<Option<Vec<String>>, ReadFault> {
    let mut names = Vec::new(alloc);
    for entry in listing {
        match entry {
            Ok(_) if names.len() as u64 >= left => return Ok(None),
            Ok(entry) => add_name(alloc, &mut names, entry.file_name())?,
            Err(error) => return Err(file_fault(alloc, path, &error)),
        }
    }
    Ok(Some(names))
}

/// The names in the folder at this path, in any order, or `None` if there are more than `left`.
fn names_in_folder<R: Files + AllocGlobal + Clone + Drop>(
    rt: &R,
    path: &str,
    left: u64,
) -> Result<Option<Vec<String>>, ReadFault> {
    match fs::read_dir(rt, path) {
        Ok(listing) => names_of_listing(rt.alloc(), listing, path, left),
        Err(error) => Err(file_fault(rt.alloc(), path, &error)),
    }
}

/// The names in the folder at `path`, in descending order. Subtracts their number from `left`, the number of names that the walk may still
/// list.
/// Fails with `CannotRead` for `folder`, the folder that is walked, if there are more than `left`.
fn list_names_descending<R: Files + AllocGlobal + Clone + Drop>(
    rt: &R,
    folder: &str,
    path: &str,
    left: &mut u64,
) -> Result<Vec<String>, ReadFault> {
    let Some(mut names) = names_in_folder(rt, path, *left)? else {
        return Err(cannot_read(rt.alloc(), folder));
    };
    *left = left.saturating_sub(names.len() as u64);
    names.sort_unstable_by(|first, second| second.cmp(first));
    Ok(names)
}

/// Adds the paths of the names in a folder to the paths to visit, one level below the folder.
fn add_pending_paths(
    alloc: Global,
    folder: &PendingPath,
    names: &[String],
    pending: &mut Vec<PendingPath>,
) -> Result<(), AllocError>
    // The level of the names in the folder, which is one more, doesn't overflow.
    requires { folder.now.level ≤ 32 }
{
    for name in names {
        let path = joined_path(alloc, folder.path.as_str(), name.as_str())?;
        let level = folder.level + 1;
        pending.push(PendingPath { path, level })?;
    }
    Ok(())
}

/// Lists the folder at the path `opened`, and adds the paths of its names to the paths to visit. Fails with `CannotRead` if the level of
/// `location` is above `LEVELS`.
fn enter_folder<R: Files + AllocGlobal + Clone + Drop>(
    rt: &R,
    folder: &str,
    opened: &str,
    location: &PendingPath,
    walk: &mut Walk,
) -> Result<(), ReadFault>
    // Entering a folder adds no module's file.
    ensures { walk.new.files.items ≡ walk.old.files.items }
{
    if location.level > LEVELS {
        return Err(cannot_read(rt.alloc(), opened));
    }
    let names = list_names_descending(rt, folder, opened, &mut walk.left)?;
    add_pending_paths(rt.alloc(), location, names.as_slice(), &mut walk.pending)?;
    Ok(())
}

/// Visits one path of the walk: lists a folder there, or adds a module there to the files. An excluded path isn't opened.
fn visit_path<R: Files + AllocGlobal + Clone + Drop>(
    rt: &R,
    folder: &str,
    exclusion: &Exclusion<'_>,
    location: PendingPath,
    walk: &mut Walk,
) -> Result<(), ReadFault>
    // If the globs are the parsed `patterns`, and no pattern excludes a file found before the call, none excludes a file found after it.
    ensures { (patterns : List (List ℕ)) → AreRead patterns exclusion.now.globs.items → AreIncludedPaths patterns (texts walk.old.files.items) → AreIncludedPaths patterns (texts walk.new.files.items) }
{
    if exclusion.excludes(rt.alloc(), location.path.as_str())? {
        return Ok(());
    }
    let opened = joined_path(rt.alloc(), folder, location.path.as_str())?;
    if is_folder(rt, opened.as_str())? {
        return enter_folder(rt, folder, opened.as_str(), &location, walk);
    }
    if is_module_path(opened.as_str()) {
        walk.files.push(location.path)?;
    }
    Ok(())
}

/// Visits all pending paths, also those that the visits add. A walk lists at most `NAMES` names, so `NAMES + 1` iterations suffice.
fn visit_pending<R: Files + AllocGlobal + Clone + Drop>(
    rt: &R,
    folder: &str,
    exclusion: &Exclusion<'_>,
    walk: &mut Walk,
) -> Result<(), ReadFault>
    // If the globs are the parsed `patterns`, and no pattern excludes a file found before the call, none excludes a file found after it.
    ensures { (patterns : List (List ℕ)) → AreRead patterns exclusion.now.globs.items → AreIncludedPaths patterns (texts walk.old.files.items) → AreIncludedPaths patterns (texts walk.new.files.items) }
{
    for _ in 0..NAMES + 1 {
        let Some(location) = walk.pending.pop() else {
            return Ok(());
        };
        visit_path(rt, folder, exclusion, location, walk)?;
    }
    Err(cannot_read(rt.alloc(), folder))
}

/// The paths of the modules below a folder that aren't excluded, relative to the folder and in the order of the walk.
fn paths_below<R: Files + AllocGlobal + Clone + Drop>(
    rt: &R,
    folder: &str,
    exclusion: &Exclusion<'_>,
) -> Result<Vec<String>, ReadFault>
    // With `Ok`, if the globs are the parsed `patterns`, no pattern excludes one of the paths.
    ensures { IfOk result (λ paths. (patterns : List (List ℕ)) → AreRead patterns exclusion.now.globs.items → AreIncludedPaths patterns (texts paths.items)) }
{
    let mut walk = Walk {
        pending: Vec::new(rt.alloc()),
        files: Vec::new(rt.alloc()),
        left: NAMES,
    };
    let top = PendingPath {
        path: String::new(rt.alloc()),
        level: 0,
    };
    enter_folder(rt, folder, folder, &top, &mut walk)?;
    visit_pending(rt, folder, exclusion, &mut walk)?;
    Ok(walk.files)
}

/// The paths of the modules below a folder that no pattern in `excluded` excludes, sorted.
fn sorted_paths_below<R: Files + AllocGlobal + Clone + Drop>(
    rt: &R,
    folder: &str,
    excluded: &[String],
) -> Result<Vec<String>, ReadFault>
    // With `Ok` no pattern excludes one of the paths.
    ensures { IfOk result (λ paths. AreIncludedPaths (texts excluded.now) (texts paths.items)) }
{
    let exclusion = Exclusion::new(rt.alloc(), excluded)?;
    let mut paths = paths_below(rt, folder, &exclusion)?;
    paths.sort_unstable();
    Ok(paths)
}

/// The bytes of the regular file at this path, at most one byte more than a module may have. Fails if the path isn't that of a regular
/// file.
fn read_module<R: Files + AllocGlobal>(rt: &R, path: &str) -> Result<Vec<u8>, ReadFault>
    // With `Ok` there are at most 2^24 + 1 bytes.
    ensures { IfOk result (λ bytes. IsModulePrefix bytes.items) }
{
    match fs::metadata(rt, path) {
        Ok(metadata) if metadata.is_file() => read_at_most(rt, path, MODULE_LIMIT + 1),
        Ok(_) => Err(cannot_read(rt.alloc(), path)),
        Err(error) => Err(file_fault(rt.alloc(), path, &error)),
    }
}

/// The module's file with this path relative to the folder: the path and the bytes.
fn read_source<R: Files + AllocGlobal>(
    rt: &R,
    folder: &str,
    path: String,
) -> Result<Source, ReadFault>
    // With `Ok` the file has at most 2^24 + 1 bytes.
    ensures most { IfOk result (λ source. IsModulePrefix source.bytes.items) }
    // With `Ok` the path of the result is `path`.
    ensures path { IfOk result (λ source. string_bytes source.path ≡ string_bytes path) }
{
    let opened = joined_path(rt.alloc(), folder, path.as_str())?;
    let bytes = read_module(rt, opened.as_str())?;
    Ok(Source { path, bytes })
}

/// The modules' files with these paths relative to the folder, in the order of `paths`.
fn read_sources<R: Files + AllocGlobal>(
    rt: &R,
    folder: &str,
    paths: Vec<String>,
) -> Result<Vec<Source>, ReadFault>
    // With `Ok` each file has at most 2^24 + 1 bytes.
    ensures most { IfOk result (λ sources. AreModulePrefixes sources.items) }
    // With `Ok` the files have these paths, in this order.
    ensures paths { IfOk result (λ sources. map (λ (s : TreeSource). string_bytes s.path) sources.items ≡ texts paths.items) }
{
    let mut sources = Vec::new(rt.alloc());
    for path in paths {
        let source = read_source(rt, folder, path)?;
        sources.push(source)?;
    }
    Ok(sources)
}

/// The files of the modules below a folder that no pattern in `excluded` excludes, sorted by path.
fn read_sources_below<R: Files + AllocGlobal + Clone + Drop>(
    rt: &R,
    folder: &str,
    excluded: &[String],
) -> Result<Vec<Source>, ReadFault>
    // With `Ok` the files are sorted by path, each path once.
    ensures order { IfOk result (λ sources. ArePathsInOrder sources.items) }
    // With `Ok` each file has at most 2^24 + 1 bytes.
    ensures most { IfOk result (λ sources. AreModulePrefixes sources.items) }
    // With `Ok` no pattern excludes one of the files.
    ensures included { IfOk result (λ sources. AreIncluded (texts excluded.now) sources.items) }
{
    let paths = sorted_paths_below(rt, folder, excluded)?;
    let sources = read_sources(rt, folder, paths)?;
    // The paths are sorted, and they differ unless the system lists a name in a folder twice.
    if in_order(sources.as_slice()) {
        Ok(sources)
    } else {
        Err(cannot_read(rt.alloc(), folder))
    }
}

/// Reads the files below a folder whose names end in `.Mod` or `.mod` and that no pattern excludes, sorted by path.
/// Follows links, and walks a folder whatever its name is. Skips any other name, also if the system doesn't report what it denotes.
/// Lists all names first, and then reads the files by path, each up to one byte beyond the limit of a module.
/// An excluded path is neither opened nor listed.
/// Fails with `Memory`, or with `CannotRead` and a path that can't be read. That path may be too long for the system, or be the path of a
/// module that isn't a regular file. It may be the path of a folder more than 32 levels below `folder`, or of one with a name that isn't
/// UTF-8.
/// It is `folder` itself if there are more than 1,048,576 names, counted along links, or if a name is listed twice.
pub fn read_folder<R: Files + AllocGlobal + Clone + Drop>(
    rt: &R,
    folder: &str,
    excluded: &[String],
) -> Result<Vec<Source>, RunFault>
    // The files are sorted by path, each path once.
    ensures order { IfOk result (λ sources. ArePathsInOrder sources.items) }
    // With `Ok` each file has at most 2^24 + 1 bytes: one byte beyond the limit of a module shows that a file is too long.
    ensures most { IfOk result (λ sources. AreModulePrefixes sources.items) }
    // With `Ok` no pattern in `excluded` matches the path of a returned file, or the path of a folder that the file is in.
    ensures included { IfOk result (λ sources. AreIncluded (texts excluded.now) sources.items) }
    // The error is `CannotRead` or `Memory`.
    ensures fault { IfErr result IsReadFault }
{
    Ok(read_sources_below(rt, folder, excluded)?)
}
