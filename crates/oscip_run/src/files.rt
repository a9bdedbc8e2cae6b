//! Reading files, and the fault of a path that can't be read.
ghost use Rattle.std.specs.Prelude.{◌≤◌, IfErr, IfOk, length};
ghost use Rattle.oscip_run.specs.Faults.{IsReadFault};
ghost use Rattle.oscip_run.specs.Files.{IsFile};

use crate::RunFault;
use std::alloc::{AllocError, AllocFailed, Global};
use std::io::{ErrorKind, Read};
use std::rt::Files;
use std::{fs, io};

/// The largest number of bytes of a network, a report, a prices file, a rules file or an index.
const FILE_LIMIT: u64 = 1 << 30;

/// Why reading a file or a folder failed.
#[derive(Drop)]
pub(crate) enum ReadFault {
    /// The file or folder of this path can't be read.
    CannotRead { path: String },
    /// An allocation failed.
    Memory,
}

impl From<AllocError> for ReadFault {
    fn from(_error: AllocError) -> ReadFault {
        ReadFault::Memory
    }
}

impl<T: Drop> From<AllocFailed<T>> for ReadFault {
    fn from(_error: AllocFailed<T>) -> ReadFault {
        ReadFault::Memory
    }
}

impl From<ReadFault> for RunFault {
    ghost use Rattle.oscip_run.specs.Faults.{IsReadFault};

    ghost from_gives = { λ _ fault. IsReadFault fault };

    fn from(fault: ReadFault) -> RunFault {
        match fault {
            ReadFault::CannotRead { path } => RunFault::CannotRead { path },
            ReadFault::Memory => RunFault::Memory,
        }
    }
}

/// The fault `CannotRead` with a copy of the path, or `Memory` if the copy fails.
pub(crate) fn cannot_read(alloc: Global, path: &str) -> ReadFault {
    match String::from_str(alloc, path) {
        Ok(path) => ReadFault::CannotRead { path },
        Err(_) => ReadFault::Memory,
    }
}

/// The fault for an error that the system returned for a path: `Memory` if it ran out of memory, otherwise `CannotRead`.
pub(crate) fn file_fault(alloc: Global, path: &str, error: &io::Error) -> ReadFault {
    if error.kind() == ErrorKind::OutOfMemory {
        ReadFault::Memory
    } else {
        cannot_read(alloc, path)
    }
}

/// The first `most` bytes of the file at this path, or all its bytes if it has fewer.
pub(crate) fn read_at_most<R: Files + AllocGlobal>(
    rt: &R,
    path: &str,
    most: u64,
) -> Result<Vec<u8>, ReadFault>
    // With `Ok` there are at most `most` bytes.
    ensures { IfOk result (λ bytes. length bytes.items ≤ most) }
{
    let Ok(file) = fs::open(rt, path) else {
        return Err(cannot_read(rt.alloc(), path));
    };
    let mut bytes = Vec::new(rt.alloc());
    match file.take(most).read_to_end(&mut bytes) {
        // the contract of read_to_end doesn't bound the number of bytes
        Ok(_) if bytes.len() as u64 <= most => Ok(bytes),
        Ok(_) => Err(cannot_read(rt.alloc(), path)),
        Err(error) => Err(file_fault(rt.alloc(), path, &error)),
    }
}

/// Whether the system reports that the file at this path has more than `most` bytes. False if the system reports an error.
fn is_longer<R: Files>(rt: &R, path: &str, most: u64) -> bool {
    match fs::metadata(rt, path) {
        Ok(metadata) => metadata.len() > most,
        Err(_) => false,
    }
}

/// The bytes of the file at this path. Fails with `CannotRead` if there are more than `FILE_LIMIT` bytes.
fn read_limited<R: Files + AllocGlobal>(rt: &R, path: &str) -> Result<Vec<u8>, ReadFault>
    // With `Ok` there are at most 2^30 bytes.
    ensures { IfOk result (λ bytes. IsFile bytes.items) }
{
    if is_longer(rt, path, FILE_LIMIT) {
        return Err(cannot_read(rt.alloc(), path));
    }
    let bytes = read_at_most(rt, path, FILE_LIMIT + 1)?;
    if bytes.len() as u64 <= FILE_LIMIT {
        Ok(bytes)
    } else {
        Err(cannot_read(rt.alloc(), path))
    }
}

/// The bytes of the file at this path. Reads at most one byte beyond the limit of 2^30 bytes.
/// Fails with `CannotRead`, also for a longer file, or with `Memory`.
pub fn read_file<R: Files + AllocGlobal>(rt: &R, path: &str) -> Result<Vec<u8>, RunFault>
    // With `Ok` there are at most 2^30 bytes.
    ensures most { IfOk result (λ bytes. IsFile bytes.items) }
    // The error is `CannotRead` or `Memory`.
    ensures fault { IfErr result IsReadFault }
{
    Ok(read_limited(rt, path)?)
}
