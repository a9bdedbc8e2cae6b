//! Errors of a prices file.

use std::alloc::{AllocError, AllocFailed};
use thiserror::Error;

/// The error of a prices file: the error of the first line that has one, else `PriceOverflow`. If a line has several errors, the first
/// one in this order is returned. Lines are numbered from 1, and empty lines count.
#[derive(Clone, Copy, Debug, Error)]
pub enum PriceFault {
    /// The line is neither empty nor a valid `price` or `pin` line.
    #[error("line {line} breaks the form")]
    BadLine { line: u64 },
    /// The network lacks the import of the line, or one of its names.
    #[error("line {line} is of no import")]
    NoSuchImport { line: u64 },
    /// An earlier line has the import of this line.
    #[error("line {line} is the second of its import")]
    TwicePrice { line: u64 },
    /// The weights of the unpinned imports sum to more than 2^40.
    #[error("the weights sum to more than 2^40")]
    PriceOverflow,
    /// An allocation failed.
    #[error("memory ran out")]
    Memory,
}

impl From<AllocError> for PriceFault {
    ghost use Rattle.std.specs.Prelude.{◌≡◌};
    ghost use Rattle.cut_net.specs.declared.price_fault.PriceFault.TheVariants.{Memory};

    ghost from_gives = { λ _ fault. fault ≡ Memory };

    fn from(_error: AllocError) -> PriceFault {
        PriceFault::Memory
    }
}

impl<T: Drop> From<AllocFailed<T>> for PriceFault {
    ghost use Rattle.std.specs.Prelude.{◌≡◌};
    ghost use Rattle.cut_net.specs.declared.price_fault.PriceFault.TheVariants.{Memory};

    ghost from_gives = { λ _ fault. fault ≡ Memory };

    fn from(_error: AllocFailed<T>) -> PriceFault {
        PriceFault::Memory
    }
}

/// The errors of one line, in the order of testing.
#[derive(Clone, Copy)]
pub(crate) enum PriceLineFault {
    BadLine,
    NoSuchImport,
    TwicePrice,
}

impl PriceLineFault {
    ghost use Rattle.std.specs.Prelude.{◌≡◌};
    ghost use Rattle.cut_net.specs.PriceReading.{price_fault_in_line};

    /// The error with the number of its line.
    pub(crate) fn at(self, line: u64) -> PriceFault
        ensures { result ≡ price_fault_in_line line self }
    {
        match self {
            PriceLineFault::BadLine => PriceFault::BadLine { line },
            PriceLineFault::NoSuchImport => PriceFault::NoSuchImport { line },
            PriceLineFault::TwicePrice => PriceFault::TwicePrice { line },
        }
    }
}
