//! The errors of scope resolution.

use std::alloc::{AllocError, AllocFailed};
use thiserror::Error;

/// The error because of which a module has no scopes. `first` and `second` are the byte offsets of the two identifiers named `name`.
#[derive(Debug, PartialEq, Eq, Drop, Error)]
pub enum ScopeFault {
    /// Two identifiers with one name are declared in one block.
    #[error("{name} is declared twice")]
    Twice {
        name: String,
        first: u32,
        second: u32,
    },
    /// Two fields of one record have one name.
    #[error("the field {name} is declared twice")]
    TwiceField {
        name: String,
        first: u32,
        second: u32,
    },
    /// An allocation failed.
    #[error("memory ran out")]
    Memory,
}

impl From<AllocError> for ScopeFault {
    ghost use Rattle.std.specs.Prelude.{◌≡◌};
    ghost use Rattle.ob_scope.specs.declared.fault.ScopeFault.TheVariants.{Memory};

    ghost from_gives = { λ _ fault. fault ≡ Memory };

    fn from(_error: AllocError) -> ScopeFault {
        ScopeFault::Memory
    }
}

impl<T: Drop> From<AllocFailed<T>> for ScopeFault {
    ghost use Rattle.std.specs.Prelude.{◌≡◌};
    ghost use Rattle.ob_scope.specs.declared.fault.ScopeFault.TheVariants.{Memory};

    ghost from_gives = { λ _ fault. fault ≡ Memory };

    fn from(_error: AllocFailed<T>) -> ScopeFault {
        ScopeFault::Memory
    }
}
