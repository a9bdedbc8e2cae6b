//! The errors of the reader and of the writer of reports.

use crate::SinkFault;
use std::alloc::{AllocError, AllocFailed};
use thiserror::Error;

/// The error of the first line of a report that has an error, or the error of a sink. If a line has several errors, the one that is listed
/// first here is returned. Lines are numbered from 1.
#[derive(Clone, Copy, Debug, Error)]
pub enum ReportFault {
    /// The line is malformed, its kind may not follow the previous line, or it follows the line `end`.
    #[error("line {line} breaks the form")]
    BadLine { line: u64 },
    /// The line has a name that no module of the network has.
    #[error("line {line} names no module")]
    UnknownName { line: u64 },
    /// The line doesn't come after its predecessor of the same kind, by the two names.
    #[error("line {line} is out of order")]
    Order { line: u64 },
    /// The text ends without the line `end` and its LF.
    #[error("the text has no end")]
    NoEnd,
    /// The device of the sink failed.
    #[error("the device failed")]
    Device,
    /// An allocation failed.
    #[error("memory ran out")]
    Memory,
}

impl From<AllocError> for ReportFault {
    ghost use Rattle.std.specs.Prelude.{◌≡◌};
    ghost use Rattle.cut_report.specs.declared.fault.ReportFault.TheVariants.{Memory};

    ghost from_gives = { λ _ fault. fault ≡ Memory };

    fn from(_error: AllocError) -> ReportFault {
        ReportFault::Memory
    }
}

impl<T: Drop> From<AllocFailed<T>> for ReportFault {
    ghost use Rattle.std.specs.Prelude.{◌≡◌};
    ghost use Rattle.cut_report.specs.declared.fault.ReportFault.TheVariants.{Memory};

    ghost from_gives = { λ _ fault. fault ≡ Memory };

    fn from(_error: AllocFailed<T>) -> ReportFault {
        ReportFault::Memory
    }
}

impl From<SinkFault> for ReportFault {
    ghost use Rattle.std.specs.Prelude.{◌≡◌};
    ghost use Rattle.cut_report.specs.Faults.{fault_of_sink};

    ghost from_gives = { λ fault given. given ≡ fault_of_sink fault };

    fn from(fault: SinkFault) -> ReportFault {
        match fault {
            SinkFault::Memory => ReportFault::Memory,
            SinkFault::Device => ReportFault::Device,
        }
    }
}

/// The errors of a line without its number, in the order in which they are tested, and a failed allocation.
#[derive(Clone, Copy)]
pub(crate) enum ReportLineFault {
    BadLine,
    UnknownName,
    Order,
    Memory,
}

impl ReportLineFault {
    ghost use Rattle.std.specs.Prelude.{◌≡◌};
    ghost use Rattle.cut_report.specs.Builders.{report_fault_in_line};

    /// This error as an error of the report, with the number of its line.
    pub(crate) fn at(self, line: u64) -> ReportFault
        ensures { result ≡ report_fault_in_line line self }
    {
        match self {
            ReportLineFault::BadLine => ReportFault::BadLine { line },
            ReportLineFault::UnknownName => ReportFault::UnknownName { line },
            ReportLineFault::Order => ReportFault::Order { line },
            ReportLineFault::Memory => ReportFault::Memory,
        }
    }
}

impl<T: Drop> From<AllocFailed<T>> for ReportLineFault {
    ghost use Rattle.std.specs.Prelude.{◌≡◌};
    ghost use Rattle.cut_report.specs.declared.fault.ReportLineFault.TheVariants.{Memory};

    ghost from_gives = { λ _ fault. fault ≡ Memory };

    fn from(_error: AllocFailed<T>) -> ReportLineFault {
        ReportLineFault::Memory
    }
}
