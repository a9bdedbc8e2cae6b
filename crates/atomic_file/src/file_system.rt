//! The operations that the replacement of a file needs, and the errors of a content's writer.
ghost use Rattle.std.specs.Prelude.{◌≡◌, ℕ, List, [], Some, OnOk, IfOk, IsSome, IsTrue, OnErr};
ghost use Rattle.std.specs.String.{string_bytes};
ghost use Rattle.atomic_file.specs.Entries.{Entry, Link, IsFileOrMissing, KeepsAll, KeepsOthers, RenamedTo, kind_of};

use byte_sink::Sink;
use std::alloc::Global;
use thiserror::Error;

/// Why an operation on a file system or a file failed.
#[derive(Clone, Copy, Debug, PartialEq, Eq, Error)]
pub enum FileFault {
    /// An allocation failed.
    #[error("out of memory")]
    Memory,
    /// The system returned an error.
    #[error("the system returned an error")]
    System,
}

/// What a path names, without the content. If the path names a link, it is the link's own kind, not that of its target.
#[derive(Clone, Copy, Debug, PartialEq, Eq)]
pub enum FileKind {
    /// Nothing.
    Missing,
    /// A regular file.
    File,
    /// A symbolic link.
    Link,
    /// Anything else, such as a folder, a named pipe or a device.
    Other,
}

/// The operations of a file system that the replacement of a file needs. Clauses about what paths name are claimed only if `is_known`
/// holds.
pub trait FileSystem {
    /// A new file that is open and locked. It is closed and unlocked when it is dropped.
    type NewFile: Sink + Drop;

    /// Whether the clauses describe what paths name. For the system's files they don't.
    ghost is_known: { Type 0 };

    /// What a path names: nothing, a file with its content, a link, or anything else.
    ghost entry_at: { Self → List ℕ → Entry };

    /// Whether the open file has this path and no other.
    ghost is_named: { Self → List ℕ → Self.NewFile → Type 0 };

    /// Whether the file was synced to the disk after its last write.
    ghost is_synced: { Self.NewFile → Type 0 };

    /// Whether the attributes of the file with this path, if there is one, were copied to the new file by `copy_attributes`.
    ghost is_like: { Self → List ℕ → Self.NewFile → Type 0 };

    /// The kind of what the path names, without following a link.
    fn kind(&self, path: &str) -> Result<FileKind, FileFault>
        // The result is the kind of what the path names.
        ensures { IfOk result (λ kind. is_known → kind ≡ kind_of (entry_at self.now path.now)) };

    /// The path that a link leads to, with all links in that path followed too.
    fn target(&self, alloc: Global, link: &str) -> Result<String, FileFault>
        // The path names a link to the returned path.
        ensures { IfOk result (λ target. is_known → entry_at self.now link.now ≡ Link (string_bytes target)) };

    /// Whether this user may write the file.
    fn is_writable(&self, path: &str) -> bool;

    /// Opens and locks the file with this path, which is created if the path names nothing. The content of an existing file stays. Fails
    /// if another process holds the lock. If `is_private` is true and the file is created, no other user may read it.
    fn open_or_create_locked(
        &mut self,
        path: &str,
        is_private: bool,
    ) -> Result<Self::NewFile, FileFault>
        // The path names a file or nothing.
        requires kind { is_known → IsFileOrMissing (entry_at self.old path.now) }
        // All other paths name what they named before.
        ensures others { is_known → KeepsOthers (entry_at self.old) (entry_at self.new) path.now };

    /// Whether the open file has this path and no other, so that it wasn't replaced, renamed or linked meanwhile.
    fn has_path(&self, path: &str, file: &Self::NewFile) -> bool
        // With `true` the open file has this path.
        ensures { IsTrue result → is_named self.now path.now file.now };

    /// Truncates the file to no bytes. If `is_private` is true, no other user may read it from then on.
    fn truncate(
        &self,
        path: &str,
        file: &mut Self::NewFile,
        is_private: bool,
    ) -> Result<(), FileFault>
        // The open file has this path.
        requires named { is_named self.now path.now file.old }
        // With `Ok` the file has no bytes.
        ensures emptied { OnOk result (is_known → Self.NewFile.taken file.new ≡ Some []) };

    /// Syncs the content of the file to the disk.
    fn sync(&self, file: &mut Self::NewFile) -> Result<(), FileFault>
        // With `Ok` the file is synced.
        ensures synced { OnOk result (is_synced file.new) }
        // The bytes of the file are unchanged.
        ensures taken { Self.NewFile.taken file.new ≡ Self.NewFile.taken file.old };

    /// Sets the mode of the file to that of the file with this path, and the owner too if the system permits it. Does nothing if the path
    /// names nothing, and fails if it names anything but a file.
    fn copy_attributes(&self, path: &str, file: &mut Self::NewFile) -> Result<(), FileFault>
        // With `Ok` the attributes were copied.
        ensures like { OnOk result (is_like self.now path.now file.new) }
        // A synced file remains synced.
        ensures synced { is_synced file.old → is_synced file.new }
        // The bytes of the file are unchanged.
        ensures taken { Self.NewFile.taken file.new ≡ Self.NewFile.taken file.old };

    /// Renames the file from `from` to `to`. A file that has the path `to` is replaced.
    fn rename(&mut self, from: &str, file: &Self::NewFile, to: &str) -> Result<(), FileFault>
        // The file is synced.
        requires synced { is_synced file.now }
        // The open file has this path.
        requires named { is_named self.old from.now file.now }
        // The attributes of the file that it replaces were copied to it.
        requires like { is_like self.old to.now file.now }
        // The path names a file or nothing.
        requires kind { is_known → IsFileOrMissing (entry_at self.old to.now) }
        // With `Ok` the path `to` names a file with these bytes, and the path `from` names nothing.
        ensures renamed { OnOk result (is_known → (bytes : List ℕ) → Self.NewFile.taken file.now ≡ Some bytes
            → RenamedTo (entry_at self.old) (entry_at self.new) from.now to.now bytes) }
        // After an error each path names what it named before.
        ensures unchanged { OnErr result (is_known → KeepsAll (entry_at self.old) (entry_at self.new)) };

    /// Removes the file with this path.
    fn remove(&mut self, path: &str, file: &Self::NewFile)
        // The open file has this path.
        requires named { is_named self.old path.now file.now }
        // All other paths name what they named before.
        ensures others { is_known → KeepsOthers (entry_at self.old) (entry_at self.new) path.now };

    /// If the clauses describe what paths name, they also describe the bytes that a new file took.
    ghost knows_taken: { is_known → (file : Self.NewFile) → IsSome (Self.NewFile.taken file) };
}

/// Why a content wasn't written as a whole.
#[derive(Drop)]
pub enum ContentFault<E> {
    /// The sink's device failed.
    Device,
    /// The error of the content's writer itself.
    Other(E),
}
