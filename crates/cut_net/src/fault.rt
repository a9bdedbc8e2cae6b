//! Errors of a network's text.

use std::alloc::{AllocError, AllocFailed};
use thiserror::Error;

/// The error of a network's text: the error of the first line that has one, else `WeightOverflow`, else `Cycle`. Lines are numbered from
/// 1, and empty lines count.
#[derive(Debug, Drop, Error)]
pub enum NetFault {
    /// The line is neither empty nor a valid `module` or `import` line.
    #[error("line {line} breaks the form")]
    BadLine { line: u64 },
    /// An earlier line has the import of this line.
    #[error("line {line} repeats an import")]
    TwiceImport { line: u64 },
    /// Each of these modules imports the next, and the last one the first.
    #[error("the imports have a cycle")]
    Cycle { names: Vec<String> },
    /// The sum of the weights is above 2^64 - 1.
    #[error("the weights sum to more than 64 bits hold")]
    WeightOverflow,
    /// The line has the 8,193rd name or the 65,537th import.
    #[error("line {line} is one too many")]
    TooMany { line: u64 },
    /// An allocation failed.
    #[error("memory ran out")]
    Memory,
}

impl From<AllocError> for NetFault {
    ghost use Rattle.std.specs.Prelude.{◌≡◌};
    ghost use Rattle.cut_net.specs.declared.fault.NetFault.TheVariants.{Memory};

    ghost from_gives = { λ _ fault. fault ≡ Memory };

    fn from(_error: AllocError) -> NetFault {
        NetFault::Memory
    }
}

impl<T: Drop> From<AllocFailed<T>> for NetFault {
    ghost use Rattle.std.specs.Prelude.{◌≡◌};
    ghost use Rattle.cut_net.specs.declared.fault.NetFault.TheVariants.{Memory};

    ghost from_gives = { λ _ fault. fault ≡ Memory };

    fn from(_error: AllocFailed<T>) -> NetFault {
        NetFault::Memory
    }
}
