//! The errors of the solver.

use std::alloc::AllocError;
use thiserror::Error;

/// An error of the solver: an error in the two names of modules, or a failed allocation.
#[derive(Debug, Drop, Error)]
pub enum SolveFault {
    /// Both names denote one module.
    #[error("both names are of one module")]
    SameModule,
    /// No module has this name. `from` is looked up before `to`.
    #[error("no module is named {name}")]
    NoSuchModule { name: String },
    /// An allocation failed.
    #[error("memory ran out")]
    Memory,
}

impl From<AllocError> for SolveFault {
    ghost use Rattle.std.specs.Prelude.{◌≡◌};
    ghost use Rattle.cut_solve.specs.declared.fault.SolveFault.TheVariants.{Memory};

    ghost from_gives = { λ _ fault. fault ≡ Memory };

    fn from(_error: AllocError) -> SolveFault {
        SolveFault::Memory
    }
}
