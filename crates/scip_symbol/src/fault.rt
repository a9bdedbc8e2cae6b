//! The errors of the reader and the writer.

use std::alloc::{AllocError, AllocFailed};
use thiserror::Error;

/// The first error in a symbol string or in a symbol.
#[derive(Clone, Copy, Debug, Error)]
pub enum SymbolFault {
    /// In a string: the string, the local id, or the list of descriptors after the four parts is empty.
    /// In a symbol: the scheme, the local id, a name or the list of descriptors is empty.
    #[error("something is empty")]
    Empty,
    /// In a string: the offset, in bytes from 0, of the first wrong descriptor, or of the first byte in a local id that isn't an identifier
    /// character.
    /// In a symbol: the index, from 0, of the first descriptor whose disambiguator has a byte that isn't an identifier character, or 0 if
    /// the local id has one.
    #[error("the descriptor at {at} is wrong")]
    BadDescriptor { at: usize },
    /// The scheme of a global symbol begins with `local`.
    #[error("the scheme begins with local")]
    LocalScheme,
    /// In a string: the name of the first wrong descriptor begins with a backtick that isn't closed.
    #[error("a backtick is open")]
    OpenQuote,
    /// An allocation failed.
    #[error("memory ran out")]
    Memory,
    /// In a string: the number of the first part that no single space ends, or 0 if the string begins with a space.
    /// In a symbol: the number of the first part that begins with a space, or is `.` and isn't the scheme.
    /// The scheme is part 0, the manager 1, the package name 2 and the version 3.
    #[error("part {part} is wrong")]
    BadPart { part: usize },
}

impl From<AllocError> for SymbolFault {
    ghost use Rattle.std.specs.Prelude.{◌≡◌};
    ghost use Rattle.scip_symbol.specs.declared.fault.SymbolFault.TheVariants.{Memory};

    ghost from_gives = { λ _ fault. fault ≡ Memory };

    fn from(_error: AllocError) -> SymbolFault {
        SymbolFault::Memory
    }
}

impl<T: Drop> From<AllocFailed<T>> for SymbolFault {
    ghost use Rattle.std.specs.Prelude.{◌≡◌};
    ghost use Rattle.scip_symbol.specs.declared.fault.SymbolFault.TheVariants.{Memory};

    ghost from_gives = { λ _ fault. fault ≡ Memory };

    fn from(_error: AllocFailed<T>) -> SymbolFault {
        SymbolFault::Memory
    }
}
