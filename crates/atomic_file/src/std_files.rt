//! The file system of `std`. Its clauses don't describe what paths name.

use crate::{FileFault, FileKind, FileSystem};
use byte_sink::{Sink, SinkFault};
use std::alloc::Global;
use std::fs;
use std::fs::{File, Metadata, OpenOptions, Permissions};
use std::io::{ErrorKind, Write};
use std::os::unix::fs::{MetadataExt, OpenOptionsExt, PermissionsExt, fchown};
use std::rt::Files;

/// The mode of a file that no other user may read.
const PRIVATE_FILE_MODE: u32 = 0o600;
/// The mode of a new file; the system clears the bits of the process's umask.
const NEW_FILE_MODE: u32 = 0o666;
/// The permission bits of a mode.
const PERMISSION_BITS: u32 = 0o777;

/// The file system of `std`.
#[derive(Drop)]
pub struct StdFiles<'a, R>(pub &'a R);

/// An open and locked file of `std`.
#[derive(Drop)]
pub struct StdFile {
    file: File,
    /// The number of failed writes, at most 2^64 - 1.
    failures: u64,
}

impl Sink for StdFile {
    ghost use Rattle.std.specs.Prelude.{None};

    ghost taken = { λ _. None };

    ghost failures = { λ s. s.failures };

    fn put(&mut self, bytes: &[u8]) -> Result<usize, SinkFault> {
        match self.file.write(bytes) {
            Ok(k) if 0 < k || bytes.is_empty() => Ok(k),
            _ => {
                self.failures = self.failures.saturating_add(1);
                Err(SinkFault::Device)
            }
        }
    }
}

/// The kind of the file with these metadata, which exists.
fn kind_of(metadata: &Metadata) -> FileKind {
    if metadata.is_file() {
        FileKind::File
    } else if metadata.is_symlink() {
        FileKind::Link
    } else {
        FileKind::Other
    }
}

/// Copies owner and group from the metadata to the file; if the system forbids that, the group alone, and if it forbids that too, neither.
/// Then copies the mode. Fails only if the mode can't be set.
fn copy_metadata(file: &File, metadata: &Metadata) -> Result<(), FileFault> {
    let (owner, group) = (metadata.uid(), metadata.gid());
    if fchown(file, Some(owner), Some(group)).is_err() {
        let _ = fchown(file, None, Some(group));
    }
    file.set_permissions(Permissions::from_mode(metadata.mode() & PERMISSION_BITS))
        .map_err(|_| FileFault::System)
}

impl<R: Files<File = File> + AllocGlobal> FileSystem for StdFiles<'_, R> {
    type NewFile = StdFile;

    ghost use Rattle.atomic_file.specs.Entries.{Missing};

    ghost is_known = { ⊥ };

    ghost entry_at = { λ _ _. Missing };

    ghost is_named = { λ _ _ _. Unit {0} };

    ghost is_synced = { λ _. Unit {0} };

    ghost is_like = { λ _ _ _. Unit {0} };

    fn kind(&self, path: &str) -> Result<FileKind, FileFault> {
        match fs::symlink_metadata(self.0, path) {
            Ok(metadata) => Ok(kind_of(&metadata)),
            Err(error) if error.kind() == ErrorKind::NotFound && !path.is_empty() => {
                Ok(FileKind::Missing)
            }
            Err(_) => Err(FileFault::System),
        }
    }

    fn target(&self, _alloc: Global, link: &str) -> Result<String, FileFault> {
        match fs::canonicalize(self.0, link) {
            Ok(path) => Ok(path.into_string()),
            Err(error) if error.kind() == ErrorKind::OutOfMemory => Err(FileFault::Memory),
            Err(_) => Err(FileFault::System),
        }
    }

    fn is_writable(&self, path: &str) -> bool {
        OpenOptions::new().write(true).open(self.0, path).is_ok()
    }

    fn open_or_create_locked(
        &mut self,
        path: &str,
        is_private: bool,
    ) -> Result<StdFile, FileFault> {
        let mode = if is_private {
            PRIVATE_FILE_MODE
        } else {
            NEW_FILE_MODE
        };
        let opened = OpenOptions::new()
            .write(true)
            .create(true)
            .mode(mode)
            .open(self.0, path);
        let Ok(file) = opened else {
            return Err(FileFault::System);
        };
        match file.try_lock() {
            Ok(()) => Ok(StdFile { file, failures: 0 }),
            Err(_) => Err(FileFault::System),
        }
    }

    fn has_path(&self, path: &str, file: &StdFile) -> bool {
        match (fs::symlink_metadata(self.0, path), file.file.metadata()) {
            (Ok(named), Ok(open)) => {
                named.dev() == open.dev() && named.ino() == open.ino() && open.nlink() == 1
            }
            _ => false,
        }
    }

    fn truncate(&self, _path: &str, file: &mut StdFile, is_private: bool) -> Result<(), FileFault> {
        if is_private {
            file.file
                .set_permissions(Permissions::from_mode(PRIVATE_FILE_MODE))
                .map_err(|_| FileFault::System)?;
        }
        file.file.set_len(0).map_err(|_| FileFault::System)
    }

    fn sync(&self, file: &mut StdFile) -> Result<(), FileFault> {
        file.file.sync_all().map_err(|_| FileFault::System)
    }

    fn copy_attributes(&self, path: &str, file: &mut StdFile) -> Result<(), FileFault> {
        match fs::symlink_metadata(self.0, path) {
            Ok(metadata) if metadata.is_file() => copy_metadata(&file.file, &metadata),
            Err(error) if error.kind() == ErrorKind::NotFound => Ok(()),
            _ => Err(FileFault::System),
        }
    }

    fn rename(&mut self, from: &str, _file: &StdFile, to: &str) -> Result<(), FileFault> {
        fs::rename(self.0, from, to).map_err(|_| FileFault::System)
    }

    fn remove(&mut self, path: &str, _file: &StdFile) {
        let _ = fs::remove_file(self.0, path);
    }

    ghost knows_taken = { λ known. absurd known };
}
