//! Why a document can't be made.

use std::alloc::AllocError;
use thiserror::Error;

/// Why a document can't be made.
#[derive(Clone, Copy, Debug, Error)]
pub enum EmitFault {
    /// The package is `.` or begins with a space, so no symbol string can contain it.
    #[error("the package is '.' or begins with a space")]
    BadPackage,
    /// An allocation failed.
    #[error("memory ran out")]
    Memory,
}

impl From<AllocError> for EmitFault {
    ghost use Rattle.std.specs.Prelude.{◌≡◌};
    ghost use Rattle.ob_emit.specs.declared.fault.EmitFault.TheVariants.{Memory};

    ghost from_gives = { λ _ fault. fault ≡ Memory };

    fn from(_error: AllocError) -> EmitFault {
        EmitFault::Memory
    }
}
