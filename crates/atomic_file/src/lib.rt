//! Replaces the content of a file atomically, over any file system: the content is written to a new file beside it, which is then renamed.
//! Depends on `byte_sink` for the output to the new file and on `thiserror` for errors.
//! The main call is `replace_file`. With `Ok` the file has the whole content; after an error each file but the new one is unchanged.
//! A file is renamed only if it was synced after its last write, got the mode of the file that it replaces (and its owner, if the system
//! permits it), and is still the one that its path names.
#![tactic(auto)]

mod file_system;
mod replace;
mod std_files;

pub use file_system::{ContentFault, FileFault, FileKind, FileSystem};
pub use replace::{ReplaceFault, replace_file};
pub use std_files::{StdFile, StdFiles};
