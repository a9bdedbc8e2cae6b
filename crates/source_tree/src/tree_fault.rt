//! Errors of source trees.

use ob_grammar::ParseFault;
use ob_imports::GraphFault;
use ob_scan::{Position, ScanFault};
use ob_scope::ScopeFault;
use std::alloc::{AllocError, AllocFailed};
use thiserror::Error;

/// The error of a source tree: the error of the first file that has one, with the file's path and the position; or else the error of the
/// imports. A failed allocation is always `Memory`, never within another variant.
#[derive(Debug, Drop, Error)]
pub enum TreeFault {
    /// The scanner rejects a file.
    #[error("{path}: {fault}")]
    Scan {
        path: String,
        at: Position,
        fault: ScanFault,
    },
    /// The parser rejects a file.
    #[error("{path}: {fault}")]
    Parse {
        path: String,
        at: Position,
        fault: ParseFault,
    },
    /// A file declares a name twice.
    #[error("{path}: {fault}")]
    Scope {
        path: String,
        at: Position,
        fault: ScopeFault,
    },
    /// The imports of the files are rejected.
    #[error(transparent)]
    Graph(GraphFault),
    /// An allocation failed.
    #[error("memory ran out")]
    Memory,
}

impl From<AllocError> for TreeFault {
    ghost use Rattle.std.specs.Prelude.{◌≡◌};
    ghost use Rattle.source_tree.specs.declared.tree_fault.TreeFault.TheVariants.{Memory};

    ghost from_gives = { λ _ fault. fault ≡ Memory };

    fn from(_error: AllocError) -> TreeFault {
        TreeFault::Memory
    }
}

impl<T: Drop> From<AllocFailed<T>> for TreeFault {
    ghost use Rattle.std.specs.Prelude.{◌≡◌};
    ghost use Rattle.source_tree.specs.declared.tree_fault.TreeFault.TheVariants.{Memory};

    ghost from_gives = { λ _ fault. fault ≡ Memory };

    fn from(_error: AllocFailed<T>) -> TreeFault {
        TreeFault::Memory
    }
}

impl From<GraphFault> for TreeFault {
    ghost use Rattle.std.specs.Prelude.{◌≡◌};
    ghost use Rattle.source_tree.specs.TreeReading.{of_graph};

    ghost from_gives = { λ lower fault. fault ≡ of_graph lower };

    fn from(fault: GraphFault) -> TreeFault {
        match fault {
            GraphFault::Memory => TreeFault::Memory,
            fault => TreeFault::Graph(fault),
        }
    }
}
