//! A fake file system with three paths, in which one operation fails.
ghost use Rattle.std.specs.Prelude.{◌≡◌};

use atomic_file::{FileFault, FileKind, FileSystem};
use byte_sink::{Sink, SinkFault};
use std::alloc::Global;
use std::sync::atomic::{AtomicU64, Ordering};

/// A path that may be a link to `TARGET`.
pub const OUT: &str = "out";
/// The path of a file.
pub const TARGET: &str = "file";
/// The path of the new file.
pub const PARTIAL: &str = "file.oscip-partial";

/// The file system. Other paths name nothing.
#[derive(Drop)]
pub struct FakeFiles {
    pub alloc: Global,
    /// Whether `OUT` is a link to `TARGET`.
    pub is_link: bool,
    /// Whether `TARGET` is a folder if it has no content.
    pub is_folder: bool,
    /// The content of `TARGET`.
    pub target: Option<Vec<u8>>,
    /// The content of `PARTIAL`.
    pub partial: Option<Vec<u8>>,
    /// The number of writes that a new file takes before its device fails.
    pub writes: u64,
    /// The operation before which another process replaces `PARTIAL` by a file of its own.
    pub stolen: u64,
    /// Whether a rename came more than one operation after that replacement of `PARTIAL`.
    pub renames_stolen: bool,
    /// Whether an allocation failed.
    pub is_out_of_memory: bool,
    /// The number of operations so far.
    pub steps: AtomicU64,
    /// The operation that fails.
    pub refused: u64,
}

impl FakeFiles {
    /// Counts an operation, and fails if it is the one that is to fail.
    fn count_operation(&self) -> Result<(), FileFault> {
        if self.steps.fetch_add(1, Ordering::SeqCst) == self.refused {
            Err(FileFault::System)
        } else {
            Ok(())
        }
    }
}

/// A new file.
#[derive(Drop)]
pub struct FakeFile {
    /// The bytes that were written since it was truncated.
    pub bytes: Vec<u8>,
    /// Whether it was synced after the last write.
    pub is_synced: bool,
    /// Whether it has the mode of `TARGET`.
    pub is_like: bool,
    /// The number of writes that it takes before its device fails.
    pub writes: u64,
    /// The number of failed writes.
    pub failures: u64,
}

impl Sink for FakeFile {
    ghost use Rattle.std.specs.Prelude.{Some};

    ghost taken = { λ s. Some s.bytes.items };

    ghost failures = { λ s. s.failures };

    fn put(&mut self, bytes: &[u8]) -> Result<usize, SinkFault> {
        self.is_synced = false;
        if self.writes == 0 {
            self.failures = self.failures.saturating_add(1);
            return Err(SinkFault::Device);
        }
        self.bytes
            .extend_from_slice(bytes)
            .map_err(|_| SinkFault::Memory)?;
        self.writes -= 1;
        Ok(bytes.len())
    }
}

impl FileSystem for FakeFiles {
    type NewFile = FakeFile;

    ghost use Rattle.std.specs.Prelude.{◌≡◌, refl, true, codes, if◌then◌else◌};
    ghost use Rattle.std.specs.Str.{bytes_eq};
    ghost use Rattle.std.specs.Option.{option_map_or};
    ghost use Rattle.atomic_file.specs.Entries.{Entry, Missing, File, Link, Other};

    ghost is_known = { Unit {0} };

    ghost entry_at = { λ s path.
        if bytes_eq path (codes "out") then (if s.is_link then Link (codes "file") else Missing)
        else if bytes_eq path (codes "file") then option_map_or (λ v. File v.items) s.target (if s.is_folder then Other else Missing)
        else if bytes_eq path (codes "file.oscip-partial") then option_map_or (λ v. File v.items) s.partial Missing
        else Missing };

    ghost is_named = { λ s path file. path ≡ codes "file.oscip-partial" };

    ghost is_synced = { λ file. file.is_synced ≡ true };

    ghost is_like = { λ s path file. file.is_like ≡ true };

    fn kind(&self, path: &str) -> Result<FileKind, FileFault> {
        self.count_operation()?;
        if path == OUT && self.is_link {
            return Ok(FileKind::Link);
        }
        if path == TARGET && self.target.is_none() && self.is_folder {
            return Ok(FileKind::Other);
        }
        if path == TARGET && self.target.is_some() || path == PARTIAL && self.partial.is_some() {
            return Ok(FileKind::File);
        }
        Ok(FileKind::Missing)
    }

    fn target(&self, alloc: Global, link: &str) -> Result<String, FileFault> {
        self.count_operation()?;
        if link == OUT && self.is_link {
            String::from_str(alloc, TARGET).map_err(|_| FileFault::Memory)
        } else {
            Err(FileFault::System)
        }
    }

    fn is_writable(&self, path: &str) -> bool {
        self.count_operation().is_ok() && path == TARGET
    }

    fn open_or_create_locked(
        &mut self,
        path: &str,
        _is_private: bool,
    ) -> Result<FakeFile, FileFault> {
        self.count_operation()?;
        if path != PARTIAL {
            return Err(FileFault::System);
        }
        if self.partial.is_none() {
            self.partial = Some(Vec::new(self.alloc));
        }
        Ok(FakeFile {
            bytes: Vec::new(self.alloc),
            is_synced: false,
            is_like: false,
            writes: self.writes,
            failures: 0,
        })
    }

    fn has_path(&self, path: &str, _file: &FakeFile) -> bool {
        self.count_operation().is_ok()
            && path == PARTIAL
            && self.steps.load(Ordering::SeqCst) <= self.stolen
    }

    fn truncate(
        &self,
        _path: &str,
        file: &mut FakeFile,
        _is_private: bool,
    ) -> Result<(), FileFault> {
        self.count_operation()?;
        file.bytes.clear();
        Ok(())
    }

    fn sync(&self, file: &mut FakeFile) -> Result<(), FileFault> {
        self.count_operation()?;
        file.is_synced = true;
        Ok(())
    }

    fn copy_attributes(&self, _path: &str, file: &mut FakeFile) -> Result<(), FileFault> {
        self.count_operation()?;
        file.is_like = true;
        Ok(())
    }

    fn rename(&mut self, from: &str, file: &FakeFile, to: &str) -> Result<(), FileFault> {
        self.count_operation()?;
        if from != PARTIAL || to != TARGET {
            return Err(FileFault::System);
        }
        let Ok(bytes) = file.bytes.as_slice().to_vec(self.alloc) else {
            self.is_out_of_memory = true;
            return Err(FileFault::Memory);
        };
        self.target = Some(bytes);
        self.partial = None;
        self.renames_stolen = self.steps.load(Ordering::SeqCst) > self.stolen.saturating_add(1);
        Ok(())
    }

    fn remove(&mut self, path: &str, _file: &FakeFile) {
        if path == PARTIAL && self.count_operation().is_ok() {
            self.partial = None;
        }
    }

    ghost knows_taken = { λ _ _. refl };
}
