//! The errors of the scanner.

use std::alloc::AllocFailed;
use thiserror::Error;

/// The first error of a text. Offsets are in bytes, from 0.
#[derive(Clone, Copy, Debug, PartialEq, Eq, Error)]
pub enum ScanFault {
    /// The byte at this offset begins no token, no comment and no blank.
    #[error("the byte at {offset} begins no token")]
    BadByte { offset: u32 },
    /// The digits that begin at this offset form no number.
    #[error("the digits at {offset} are no number")]
    BadNumber { offset: u32 },
    /// The string that opens with the quote at this offset has no end.
    #[error("the string at {offset} has no end")]
    OpenString { offset: u32 },
    /// The comment whose outermost `(*` is at this offset has no end.
    #[error("the comment at {offset} has no end")]
    OpenComment { offset: u32 },
    /// The text has more than 16,777,216 bytes.
    #[error("the text is too long")]
    TooLong,
    /// An allocation failed.
    #[error("memory ran out")]
    Memory,
}

impl<T: Drop> From<AllocFailed<T>> for ScanFault {
    ghost use Rattle.std.specs.Prelude.{◌≡◌};
    ghost use Rattle.ob_scan.specs.declared.fault.ScanFault.TheVariants.{Memory};

    ghost from_gives = { λ _ fault. fault ≡ Memory };

    fn from(_error: AllocFailed<T>) -> ScanFault {
        ScanFault::Memory
    }
}

/// Why no blank, comment or token begins at an offset.
#[derive(Clone, Copy)]
pub(crate) enum Reason {
    Byte,
    Number,
    String,
    Comment,
}

impl Reason {
    ghost use Rattle.std.specs.Prelude.{◌≡◌};
    ghost use Rattle.ob_scan.specs.Lexemes.{fault_of_reason};

    /// The error with this reason at this offset.
    pub(crate) fn at(self, offset: u32) -> ScanFault
        ensures { result ≡ fault_of_reason offset self }
    {
        match self {
            Reason::Byte => ScanFault::BadByte { offset },
            Reason::Number => ScanFault::BadNumber { offset },
            Reason::String => ScanFault::OpenString { offset },
            Reason::Comment => ScanFault::OpenComment { offset },
        }
    }
}
