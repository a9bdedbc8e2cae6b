//! The reader of reports.
ghost use Rattle.std.specs.Prelude.{◌≡◌, Result};
ghost use Rattle.cut_net.specs.WellFormed.{IsNetwork};
ghost use Rattle.cut_report.specs.Faults.{HasOutcome};
ghost use Rattle.cut_report.specs.Reading.{entry_of};
ghost use Rattle.cut_report.specs.ReportClaim.{ReportClaim};
ghost use Rattle.cut_report.specs.ReportLines.{IsReportOutcome};
ghost use Rattle.cut_report.specs.declared.fault.ReportFault.{ReportFault};

use crate::builder::ReportBuilder;
use crate::import_guess::ImportCursor;
use crate::line::cut_first_line;
use crate::{Report, ReportFault};
use cut_net::Net;
use std::alloc::Global;

/// The report that the bytes represent, or their first error. Adds the lines to a builder one by one.
fn read_lines(alloc: Global, bytes: &[u8], net: &Net) -> Result<Report, ReportFault>
    requires { IsNetwork net.now }
    // The result is an outcome of the bytes, a report or an error, unless an allocation failed.
    ensures { HasOutcome entry_of result (IsReportOutcome net.now bytes.now) }
{
    let mut builder = ReportBuilder::Start;
    let mut cursor = ImportCursor::first();
    let mut before = 0;
    let mut rest = bytes;
    while let Some((line, after)) = cut_first_line(rest) {
        builder = builder.with_numbered_line(alloc, net, &mut cursor, before + 1, line)?;
        before += 1;
        rest = after;
    }
    builder.finish(before, rest)
}

/// The report that the bytes represent, for two modules of the network. Fails with the error of the first line that has one, with `NoEnd`,
/// or with `Memory` if an allocation fails.
pub fn read(alloc: Global, bytes: &[u8], net: &Net) -> Result<Report, ReportFault>
    // The result is an outcome of the bytes, a report or an error, unless an allocation failed. So the error is never `Device`.
    ensures exact { HasOutcome entry_of result (IsReportOutcome net.now bytes.now) }
    // Each outcome of the bytes, a report or an error, is the result, unless an allocation failed.
    ensures only { (o : Result ReportClaim ReportFault) → IsReportOutcome net.now bytes.now o → HasOutcome entry_of result (λ p. p ≡ o) }
{
    net.invariants();
    read_lines(alloc, bytes, net)
}
