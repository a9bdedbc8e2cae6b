//! The replacement of a file's content.
ghost use Rattle.std.specs.Fn.{FnOnceReturnsAtMut};
ghost use Rattle.std.specs.Prelude.{◌≡◌, ◌≢◌, Err, Ok, OnOk, OnErr, IfErr, IfOk, IfSome, IsErrAnd};
ghost use Rattle.std.specs.String.{string_bytes};
ghost use Rattle.atomic_file.specs.Entries.{IsFileOrMissing, KeepsAll, KeepsOthers};
ghost use Rattle.atomic_file.specs.declared.file_system.ContentFault.TheVariants.{Other};
ghost use Rattle.atomic_file.specs.Faults.{HasPath, IsFaultOf, IsMemory, IsTargetOrMemory};
ghost use Rattle.atomic_file.specs.StepFaults.{IsStepFaultOf};
ghost use Rattle.atomic_file.specs.Replacements.{CanBeReplaced, IsRenamed, IsReturned, IsWritten, partial_path, target_of};

use crate::{ContentFault, FileFault, FileKind, FileSystem};
use std::alloc::Global;

/// The suffix of the path of the new file.
const PARTIAL_SUFFIX: &str = ".oscip-partial";

/// Why the content of a file wasn't replaced.
#[derive(Drop)]
pub enum ReplaceFault<E> {
    /// The path names neither a regular file, nor a link to one, nor nothing; or this user may not write the file; or the rename failed.
    Target,
    /// The new file can't be opened or written, is locked by another process, or no longer has its path.
    Partial {
        /// The path of the new file.
        path: String,
    },
    /// The content's writer failed.
    Content(E),
    /// An allocation failed.
    Memory,
}

/// Why a step of a replacement failed: as `ReplaceFault`, but without the path, which the caller has, and without `Memory`.
#[derive(Drop)]
enum StepFault<E> {
    Target,
    Partial,
    Content(E),
}

impl<E> From<FileFault> for StepFault<E> {
    ghost use Rattle.std.specs.Prelude.{◌≡◌};
    ghost use Rattle.atomic_file.specs.declared.replace.StepFault.TheVariants as faults;

    ghost from_gives = { λ _ fault. fault ≡ faults.Partial };

    fn from(_fault: FileFault) -> StepFault<E> {
        StepFault::Partial
    }
}

/// The paths of a replacement.
#[derive(Drop)]
struct Paths {
    /// The path of the file to replace, which isn't a link.
    target: String,
    /// The path of the new file, in the same folder.
    partial: String,
    /// Whether the file to replace exists.
    is_file: bool,
}

/// The path of the file to replace, with all links followed, and whether the file exists.
fn find_target<F: FileSystem>(
    alloc: Global,
    files: &F,
    path: &str,
) -> Result<(String, bool), FileFault>
    ensures target { IfOk result (λ found. F.is_known → string_bytes found.0 ≡ target_of (F.entry_at files.now) path.now) }
    ensures replaced { IfOk result (λ found. F.is_known → CanBeReplaced (F.entry_at files.now) path.now) }
    ensures kind { IfOk result (λ found. F.is_known → IsFileOrMissing (F.entry_at files.now (string_bytes found.0))) }
{
    match files.kind(path)? {
        FileKind::Missing => Ok((copy_string(alloc, path)?, false)),
        FileKind::File => Ok((copy_string(alloc, path)?, true)),
        FileKind::Link => {
            let target = files.target(alloc, path)?;
            match files.kind(target.as_str())? {
                FileKind::File => Ok((target, true)),
                _ => Err(FileFault::System),
            }
        }
        FileKind::Other => Err(FileFault::System),
    }
}

/// A copy of the path.
fn copy_string(alloc: Global, path: &str) -> Result<String, FileFault>
    ensures { IfOk result (λ copy. string_bytes copy ≡ path.now) }
{
    String::from_str(alloc, path).map_err(|_| FileFault::Memory)
}

/// The path of the file to replace, which this user may write if it exists, and the path of the new file.
fn find_paths<F: FileSystem>(alloc: Global, files: &F, path: &str) -> Result<Paths, FileFault>
    ensures target { IfOk result (λ paths. F.is_known → string_bytes paths.target ≡ target_of (F.entry_at files.now) path.now) }
    ensures partial { IfOk result (λ paths. string_bytes paths.partial ≡ partial_path (string_bytes paths.target)) }
    ensures replaced { IfOk result (λ paths. F.is_known → CanBeReplaced (F.entry_at files.now) path.now) }
    ensures kind { IfOk result (λ paths. F.is_known → IsFileOrMissing (F.entry_at files.now (string_bytes paths.target))) }
{
    let (target, is_file) = find_target(alloc, files, path)?;
    if is_file && !files.is_writable(target.as_str()) {
        return Err(FileFault::System);
    }
    let mut partial = copy_string(alloc, target.as_str())?;
    let Ok(()) = partial.push_str(PARTIAL_SUFFIX) else {
        return Err(FileFault::Memory);
    };
    Ok(Paths {
        target,
        partial,
        is_file,
    })
}

/// Opens and locks the new file, if its path names nothing or a file, and the open file still has this path once the lock is held.
fn open_or_create_locked<F: FileSystem>(files: &mut F, paths: &Paths) -> Option<F::NewFile>
    ensures named { IfSome result (λ file. F.is_named files.new (string_bytes paths.now.partial) file) }
    ensures others { F.is_known → KeepsOthers (F.entry_at files.old) (F.entry_at files.new) (string_bytes paths.now.partial) }
{
    let partial = paths.partial.as_str();
    match files.kind(partial) {
        Ok(FileKind::Missing | FileKind::File) => {}
        _ => return None,
    }
    let Ok(file) = files.open_or_create_locked(partial, paths.is_file) else {
        return None;
    };
    if files.has_path(partial, &file) {
        Some(file)
    } else {
        None
    }
}

/// Calls the content's writer `write` on the file.
fn call_writer<F, R, W: FnOnce(&mut F) -> R>(file: &mut F, write: W) -> R
    requires { W.IsAlwaysCallable write }
    ensures { FnOnceReturnsAtMut W.FnOnce write file.old result file.new }
{
    write(file)
}

/// Calls the content's writer on the new file. A failed device is an error of the new file, any other error is the writer's.
fn write_content<F, E: Drop, W: FnOnce(&mut F) -> Result<(), ContentFault<E>>>(
    file: &mut F,
    write: W,
) -> Result<(), StepFault<E>>
    requires { W.IsAlwaysCallable write }
    ensures returned { OnOk result (FnOnceReturnsAtMut W.FnOnce write file.old (Ok tt) file.new) }
    ensures fault { IfErr result (IsStepFaultOf (λ fault. IsReturned (λ before after. FnOnceReturnsAtMut W.FnOnce write before (Err (Other fault)) after))) }
{
    match call_writer(file, write) {
        Ok(()) => Ok(()),
        Err(ContentFault::Device) => Err(StepFault::Partial),
        Err(ContentFault::Other(fault)) => Err(StepFault::Content(fault)),
    }
}

/// Truncates the new file, calls the content's writer, syncs the file, and copies the attributes of the target. Fails if the file no longer
/// has its path before it is truncated, or at the end.
fn write_new_file<
    F: FileSystem,
    E: Drop,
    W: FnOnce(&mut F::NewFile) -> Result<(), ContentFault<E>>,
>(files: &F, paths: &Paths, file: &mut F::NewFile, write: W) -> Result<(), StepFault<E>>
    requires can { W.IsAlwaysCallable write }
    requires named { F.is_named files.now (string_bytes paths.now.partial) file.old }
    ensures synced { OnOk result (F.is_synced file.new) }
    ensures like { OnOk result (F.is_like files.now (string_bytes paths.now.target) file.new) }
    ensures named { OnOk result (F.is_named files.now (string_bytes paths.now.partial) file.new) }
    ensures written { OnOk result (IsWritten F.is_known F.NewFile.taken (λ before after. FnOnceReturnsAtMut W.FnOnce write before (Ok tt) after) (F.NewFile.taken file.new)) }
    ensures fault { IfErr result (IsStepFaultOf (λ fault. IsReturned (λ before after. FnOnceReturnsAtMut W.FnOnce write before (Err (Other fault)) after))) }
{
    files.truncate(paths.partial.as_str(), file, paths.is_file)?;
    write_content(file, write)?;
    files.sync(file)?;
    files.copy_attributes(paths.target.as_str(), file)?;
    if files.has_path(paths.partial.as_str(), file) {
        Ok(())
    } else {
        Err(StepFault::Partial)
    }
}

/// Removes the new file if it still has its path.
fn remove_new_file<F: FileSystem>(files: &mut F, paths: &Paths, file: &F::NewFile)
    ensures { F.is_known → KeepsOthers (F.entry_at files.old) (F.entry_at files.new) (string_bytes paths.now.partial) }
{
    let partial = paths.partial.as_str();
    if files.has_path(partial, file) {
        files.remove(partial, file);
    }
}

/// Writes the whole content to the new file and renames it to the target. Removes the new file after an error.
fn write_and_rename<
    F: FileSystem,
    E: Drop,
    W: FnOnce(&mut F::NewFile) -> Result<(), ContentFault<E>>,
>(files: &mut F, paths: &Paths, mut file: F::NewFile, write: W) -> Result<(), StepFault<E>>
    requires can { W.IsAlwaysCallable write }
    requires named { F.is_named files.old (string_bytes paths.now.partial) file }
    requires kind { F.is_known → IsFileOrMissing (F.entry_at files.old (string_bytes paths.now.target)) }
    ensures renamed { OnOk result (IsRenamed F.is_known (F.entry_at files.old) (F.entry_at files.new) (string_bytes paths.now.partial) (string_bytes paths.now.target) F.NewFile.taken (λ before after. FnOnceReturnsAtMut W.FnOnce write before (Ok tt) after)) }
    ensures others { OnErr result (F.is_known → KeepsOthers (F.entry_at files.old) (F.entry_at files.new) (string_bytes paths.now.partial)) }
    ensures fault { IfErr result (IsStepFaultOf (λ fault. IsReturned (λ before after. FnOnceReturnsAtMut W.FnOnce write before (Err (Other fault)) after))) }
{
    match write_new_file(files, paths, &mut file, write) {
        Ok(()) => {}
        Err(fault) => {
            remove_new_file(files, paths, &file);
            return Err(fault);
        }
    }
    match files.rename(paths.partial.as_str(), &file, paths.target.as_str()) {
        Ok(()) => Ok(()),
        Err(_) => {
            remove_new_file(files, paths, &file);
            Err(StepFault::Target)
        }
    }
}

/// Opens the new file, writes the content to it, and renames it to the target. After an error removes the new file, if it still has its
/// path.
fn replace_target<
    F: FileSystem,
    E: Drop,
    W: FnOnce(&mut F::NewFile) -> Result<(), ContentFault<E>>,
>(files: &mut F, paths: &Paths, write: W) -> Result<(), StepFault<E>>
    requires can { W.IsAlwaysCallable write }
    requires other { string_bytes paths.now.target ≢ string_bytes paths.now.partial }
    requires kind { F.is_known → IsFileOrMissing (F.entry_at files.old (string_bytes paths.now.target)) }
    ensures renamed { OnOk result (IsRenamed F.is_known (F.entry_at files.old) (F.entry_at files.new) (string_bytes paths.now.partial) (string_bytes paths.now.target) F.NewFile.taken (λ before after. FnOnceReturnsAtMut W.FnOnce write before (Ok tt) after)) }
    ensures others { OnErr result (F.is_known → KeepsOthers (F.entry_at files.old) (F.entry_at files.new) (string_bytes paths.now.partial)) }
    ensures fault { IfErr result (IsStepFaultOf (λ fault. IsReturned (λ before after. FnOnceReturnsAtMut W.FnOnce write before (Err (Other fault)) after))) }
{
    match open_or_create_locked(files, paths) {
        Some(file) => write_and_rename(files, paths, file, write),
        None => Err(StepFault::Partial),
    }
}

/// Replaces the content of the file with this path as a whole. If the path names a link, the file that it leads to is replaced, and the
/// link stays.
/// The new file has the path of that file with the suffix `.oscip-partial`. It is renamed once it is synced, and removed after an error.
/// Fails with `Target`, and creates no file, if the path names neither a file, nor a link to one, nor nothing.
pub fn replace_file<
    F: FileSystem,
    E: Drop,
    W: FnOnce(&mut F::NewFile) -> Result<(), ContentFault<E>>,
>(alloc: Global, files: &mut F, path: &str, write: W) -> Result<(), ReplaceFault<E>>
    // The writer may be called on any file.
    requires { W.IsAlwaysCallable write }
    // With `Ok` the file has the whole content, the path of the new file names nothing, and all other paths are unchanged.
    ensures replaced { OnOk result (IsRenamed F.is_known (F.entry_at files.old) (F.entry_at files.new)
        (partial_path (target_of (F.entry_at files.old) path.now)) (target_of (F.entry_at files.old) path.now) F.NewFile.taken (λ before after. FnOnceReturnsAtMut W.FnOnce write before (Ok tt) after)) }
    // After an error each path but that of the new file names what it named before.
    ensures unchanged { OnErr result (F.is_known → KeepsOthers (F.entry_at files.old) (F.entry_at files.new)
        (partial_path (target_of (F.entry_at files.old) path.now))) }
    // If the path names neither a file, nor a link to one, nor nothing, the call fails and nothing is changed.
    ensures unreplaced { F.is_known → ¬ CanBeReplaced (F.entry_at files.old) path.now → IsErrAnd result (λ fault. IsTargetOrMemory fault × KeepsAll (F.entry_at files.old) (F.entry_at files.new)) }
    // If an allocation of this call itself failed, nothing is changed.
    ensures memory { IfErr result (λ fault. IsMemory fault → F.is_known → KeepsAll (F.entry_at files.old) (F.entry_at files.new)) }
    // The error in `Content` is an error that the content's writer returned.
    ensures content { IfErr result (IsFaultOf (λ fault. IsReturned (λ before after. FnOnceReturnsAtMut W.FnOnce write before (Err (Other fault)) after))) }
    // The path in an error is the path of the new file.
    ensures partial { IfErr result (λ fault. F.is_known → HasPath fault (partial_path (target_of (F.entry_at files.old) path.now))) }
{
    let paths = match find_paths(alloc, files, path) {
        Ok(paths) => paths,
        Err(FileFault::Memory) => return Err(ReplaceFault::Memory),
        Err(FileFault::System) => return Err(ReplaceFault::Target),
    };
    match replace_target(files, &paths, write) {
        Ok(()) => Ok(()),
        Err(StepFault::Target) => Err(ReplaceFault::Target),
        Err(StepFault::Partial) => Err(ReplaceFault::Partial {
            path: paths.partial,
        }),
        Err(StepFault::Content(fault)) => Err(ReplaceFault::Content(fault)),
    }
}
