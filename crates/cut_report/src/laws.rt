//! Laws of reports, proved as contracts of functions with an empty body.
ghost use Rattle.std.specs.Prelude.{◌≡◌, ℕ, List, [], Contains, Ok, Result};
ghost use Rattle.cut_net.specs.declared.priced.Priced.{Priced};
ghost use Rattle.cut_net.specs.NetText.{IsNetOutcome, NetText};
ghost use Rattle.cut_net.specs.Network.{Network};
ghost use Rattle.cut_report.specs.ReportClaim.{ReportClaim};
ghost use Rattle.cut_net.specs.WellFormed.{IsNetwork};
ghost use Rattle.cut_report.specs.NetLines.{imports_along, net_text, AreImportChain};
ghost use Rattle.cut_report.specs.ReportText.{report_text, IsReport, ReportText};
ghost use Rattle.cut_report.specs.ReportLines.{IsReportOutcome};
ghost use Rattle.cut_report.specs.declared.fault.ReportFault.{ReportFault};

/// For a given network, a text has at most one outcome of reading: a report, or the text's first error.
pub fn one_reading()
    // Any two outcomes of one text, for one network, are equal.
    ensures { (net : Network) (bytes : List ℕ) (o p : Result ReportClaim ReportFault) → IsNetwork net → IsReportOutcome net bytes o → IsReportOutcome net bytes p → o ≡ p }
{}

/// `read` inverts `write`: the text that `write` writes has the report as its only outcome. So `read` returns the report that was written,
/// unless an allocation fails.
pub fn read_inverts_write()
    // The text that `write` writes is a text of the report.
    ensures text { (net : Network) (entry : ReportClaim) → IsReport net entry → ReportText net (report_text net entry) entry }
    // A text of a report has the report as an outcome.
    ensures some { (net : Network) (bytes : List ℕ) (entry : ReportClaim) → ReportText net bytes entry → IsReportOutcome net bytes (Ok entry) }
    // Each outcome of a text of a report is the report.
    ensures only { (net : Network) (bytes : List ℕ) (entry : ReportClaim) (o : Result ReportClaim ReportFault) →
        IsNetwork net → ReportText net bytes entry → IsReportOutcome net bytes o → o ≡ Ok entry }
{}

/// `Net::read` inverts `write_net` for networks without pins: the text that `write_net` writes has the network as an outcome. A text has
/// at most one outcome (`outcome_is_unique` of `cut_net`). So `Net::read` returns the network, unless an allocation fails.
pub fn net_read_inverts_write_net()
    // The text that `write_net` writes is a text of the network.
    ensures text { (net : Network) → IsNetwork net → net.pins ≡ [] → NetText (net_text net) net }
    // The text that `write_net` writes has the network as an outcome.
    ensures read { (net : Network) → IsNetwork net → net.pins ≡ [] → IsNetOutcome (net_text net) (Ok net) }
{}

/// Each line that `write_chain` writes for a path of imports is the line of an import of the network, with the import's weight.
pub fn path_imports_are_in_net()
    // Each import along a path of imports is an import of the network.
    ensures { (net : Network) (modules : List ℕ) (i : Priced) → AreImportChain net modules → Contains (imports_along net modules) i → Contains net.imports i }
{}
