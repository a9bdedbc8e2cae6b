//! Errors of import graphs.

use std::alloc::{AllocError, AllocFailed};
use thiserror::Error;

/// The first error: too many files, then two modules with one name, then too many modules or imports, then a cycle.
#[derive(Debug, Drop, Error)]
pub enum GraphFault {
    /// Two files have modules of this name: the smallest repeated name, and its two smallest paths.
    #[error("two files have the module {name}")]
    TwoModules {
        name: String,
        first_path: String,
        second_path: String,
    },
    /// The names of modules each of which imports the next, and the last of which imports the first.
    #[error("the imports have a cycle")]
    Cycle {
        names: Vec<String>,
    },
    /// There are more than 4,096 files, 8,192 modules including external ones, or 65,536 imports.
    #[error("there are too many modules or imports")]
    TooMany,
    /// An allocation failed.
    #[error("memory ran out")]
    Memory,
}

impl From<AllocError> for GraphFault {
    ghost use Rattle.std.specs.Prelude.{◌≡◌};
    ghost use Rattle.ob_imports.specs.declared.fault.GraphFault.TheVariants.{Memory};

    ghost from_gives = { λ _ fault. fault ≡ Memory };

    fn from(_error: AllocError) -> GraphFault {
        GraphFault::Memory
    }
}

impl<T: Drop> From<AllocFailed<T>> for GraphFault {
    ghost use Rattle.std.specs.Prelude.{◌≡◌};
    ghost use Rattle.ob_imports.specs.declared.fault.GraphFault.TheVariants.{Memory};

    ghost from_gives = { λ _ fault. fault ≡ Memory };

    fn from(_error: AllocFailed<T>) -> GraphFault {
        GraphFault::Memory
    }
}
