//! The errors of a store.

use std::alloc::AllocError;
use thiserror::Error;

/// Why a store can't be built, or why a query on it fails.
#[derive(Clone, Copy, Debug, Error)]
pub enum StoreFault {
    /// No document of the index has the path in the query.
    #[error("no document has this path")]
    NoDocument,
    /// An allocation failed.
    #[error("memory ran out")]
    Memory,
}

impl From<AllocError> for StoreFault {
    ghost use Rattle.std.specs.Prelude.{◌≡◌};
    ghost use Rattle.index_store.specs.declared.fault.StoreFault.TheVariants.{Memory};

    ghost from_gives = { λ _ fault. fault ≡ Memory };

    fn from(_error: AllocError) -> StoreFault {
        StoreFault::Memory
    }
}
