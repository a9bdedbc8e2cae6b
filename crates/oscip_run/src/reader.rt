//! The source of the files and folders that a job reads.
ghost use Rattle.std.specs.Prelude.{IfErr, IfOk};
ghost use Rattle.cut_net.specs.Network.{texts};
ghost use Rattle.oscip_run.specs.Faults.{IsReadFault};
ghost use Rattle.oscip_run.specs.Readings.{FileOf, FolderOf, IsOfSystem, Reading, Refused};
ghost use Rattle.source_tree.specs.Sources.{ArePathsInOrder};

use crate::{RunFault, read_file, read_folder};
use source_tree::Source;
use std::rt::Files;

/// Reads files and folders by their paths.
pub trait Reader {
    /// The relation of this reader to what it may return for a path: the bytes of a file, the modules of a folder, or a fault.
    ghost answers: { Self → Reading → Type 0 };

    /// The bytes of the file at this path. Fails with `CannotRead` or `Memory`.
    fn file(&self, path: &str) -> Result<Vec<u8>, RunFault>
        // With `Ok` the reader may return these bytes for the file at this path, by `answers`.
        ensures given { IfOk result (λ bytes. answers self.now (FileOf path.now bytes.items)) }
        // With an error the reader may return this fault for this path, by `answers`.
        ensures refused { IfErr result (λ fault. answers self.now (Refused path.now fault)) }
        // The error is `CannotRead` or `Memory`.
        ensures fault { IfErr result IsReadFault };

    /// The files of the modules below the folder at this path that no pattern excludes, sorted by path. Fails with `CannotRead` or
    /// `Memory`.
    fn modules(&self, path: &str, excluded: &[String]) -> Result<Vec<Source>, RunFault>
        // With `Ok` the reader may return these files for the folder at this path and these patterns, by `answers`.
        ensures given { IfOk result (λ sources. answers self.now (FolderOf path.now (texts excluded.now) sources.items)) }
        // The files are sorted by path, each path once.
        ensures order { IfOk result (λ sources. ArePathsInOrder sources.items) }
        // With an error the reader may return this fault for this path, by `answers`.
        ensures refused { IfErr result (λ fault. answers self.now (Refused path.now fault)) }
        // The error is `CannotRead` or `Memory`.
        ensures fault { IfErr result IsReadFault };
}

/// The reader of the system's files and folders. No clause states the content of these files, since the system isn't modelled.
#[derive(Drop)]
pub struct SystemFiles<'a, R>(pub &'a R);

impl<R: Files + AllocGlobal + Clone + Drop> Reader for SystemFiles<'_, R> {
    ghost answers = { λ _ reading. IsOfSystem reading };

    fn file(&self, path: &str) -> Result<Vec<u8>, RunFault> {
        read_file(self.0, path)
    }

    fn modules(&self, path: &str, excluded: &[String]) -> Result<Vec<Source>, RunFault> {
        read_folder(self.0, path, excluded)
    }
}
