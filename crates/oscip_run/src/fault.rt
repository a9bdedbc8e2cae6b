//! The faults of runs, the lines that report them, and their exit statuses.
ghost use Rattle.std.specs.Prelude.{◌≡◌, ◌++◌, IfOk, codes};
ghost use Rattle.std.specs.String.{string_bytes};
ghost use Rattle.oscip_run.specs.Faults.{fault_text, last_name, last_rules_name, net_status, net_fault_text, price_fault_text, price_status, report_status, report_fault_text, rules_fault_text, rules_status, solve_fault_text, solve_status, status_number, tree_status};
ghost use Rattle.texts.specs.Escapes.{escaped, IsOneLine};
ghost use Rattle.texts.specs.Places.{style_of};

use byte_sink::SinkFault;
use cut_net::{NetFault, PriceFault};
use cut_report::ReportFault;
use cut_rules::RulesFault;
use cut_solve::SolveFault;
use index_store::{QueryFault, query_fault_text, query_status};
use source_tree::{TreeFault, is_out_of_memory, join_after_spaces, tree_fault_text};
use std::alloc::{AllocError, Global};
use texts::laws::escaped_is_one_line;
use texts::{EscapingWriter, LocationStyle};
use thiserror::Error;

/// Why a run fails. The conversions from faults of other crates map each failed allocation to `Memory` and each failed sink to `Device`. So
/// the fault inside another variant that they return is neither a failed allocation nor a failed sink.
#[derive(Debug, Drop, Error)]
pub enum RunFault {
    /// A file or a folder can't be read. For example it doesn't exist, isn't a regular file, has more than 2^30 bytes or a name that isn't
    /// UTF-8, or is too deep in a tree.
    #[error("cannot read {path}")]
    CannotRead { path: String },
    /// A file can't be written.
    #[error("cannot write {path}")]
    CannotWrite { path: String },
    /// The tree is rejected.
    #[error(transparent)]
    Tree(TreeFault),
    /// The network is rejected.
    #[error(transparent)]
    Net(NetFault),
    /// The prices are rejected.
    #[error(transparent)]
    Price(PriceFault),
    /// The rules are rejected.
    #[error(transparent)]
    Rules(RulesFault),
    /// The report is rejected.
    #[error(transparent)]
    Report(ReportFault),
    /// The names of modules in a question are rejected: one is unknown, or both are the same.
    #[error(transparent)]
    Solve(SolveFault),
    /// The index is rejected, or no document of it has the path that the question names.
    #[error(transparent)]
    Query(QueryFault),
    /// The sink failed.
    #[error("cannot write")]
    Device,
    /// An allocation failed.
    #[error("memory ran out")]
    Memory,
}

impl From<AllocError> for RunFault {
    ghost use Rattle.std.specs.Prelude.{◌≡◌};
    ghost use Rattle.oscip_run.specs.declared.fault.RunFault.TheVariants.{Memory};

    ghost from_gives = { λ _ fault. fault ≡ Memory };

    fn from(_error: AllocError) -> RunFault {
        RunFault::Memory
    }
}

impl From<TreeFault> for RunFault {
    ghost use Rattle.std.specs.Prelude.{◌≡◌};
    ghost use Rattle.oscip_run.specs.Faults.{of_tree};

    ghost from_gives = { λ lower fault. fault ≡ of_tree lower };

    fn from(fault: TreeFault) -> RunFault {
        if is_out_of_memory(&fault) {
            RunFault::Memory
        } else {
            RunFault::Tree(fault)
        }
    }
}

impl From<NetFault> for RunFault {
    ghost use Rattle.std.specs.Prelude.{◌≡◌};
    ghost use Rattle.oscip_run.specs.Faults.{of_net};

    ghost from_gives = { λ lower fault. fault ≡ of_net lower };

    fn from(fault: NetFault) -> RunFault {
        match fault {
            NetFault::Memory => RunFault::Memory,
            fault => RunFault::Net(fault),
        }
    }
}

impl From<PriceFault> for RunFault {
    ghost use Rattle.std.specs.Prelude.{◌≡◌};
    ghost use Rattle.oscip_run.specs.Faults.{of_price};

    ghost from_gives = { λ lower fault. fault ≡ of_price lower };

    fn from(fault: PriceFault) -> RunFault {
        match fault {
            PriceFault::Memory => RunFault::Memory,
            fault => RunFault::Price(fault),
        }
    }
}

impl From<RulesFault> for RunFault {
    ghost use Rattle.std.specs.Prelude.{◌≡◌};
    ghost use Rattle.oscip_run.specs.Faults.{of_rules};

    ghost from_gives = { λ lower fault. fault ≡ of_rules lower };

    fn from(fault: RulesFault) -> RunFault {
        match fault {
            RulesFault::Memory => RunFault::Memory,
            fault => RunFault::Rules(fault),
        }
    }
}

impl From<ReportFault> for RunFault {
    ghost use Rattle.std.specs.Prelude.{◌≡◌};
    ghost use Rattle.oscip_run.specs.Faults.{of_report};

    ghost from_gives = { λ lower fault. fault ≡ of_report lower };

    fn from(fault: ReportFault) -> RunFault {
        match fault {
            ReportFault::Memory => RunFault::Memory,
            ReportFault::Device => RunFault::Device,
            fault => RunFault::Report(fault),
        }
    }
}

impl From<SolveFault> for RunFault {
    ghost use Rattle.std.specs.Prelude.{◌≡◌};
    ghost use Rattle.oscip_run.specs.Faults.{of_solve};

    ghost from_gives = { λ lower fault. fault ≡ of_solve lower };

    fn from(fault: SolveFault) -> RunFault {
        match fault {
            SolveFault::Memory => RunFault::Memory,
            fault => RunFault::Solve(fault),
        }
    }
}

impl From<QueryFault> for RunFault {
    ghost use Rattle.std.specs.Prelude.{◌≡◌};
    ghost use Rattle.oscip_run.specs.Faults.{of_query};

    ghost from_gives = { λ lower fault. fault ≡ of_query lower };

    fn from(fault: QueryFault) -> RunFault {
        match fault {
            QueryFault::Memory => RunFault::Memory,
            QueryFault::Device => RunFault::Device,
            fault => RunFault::Query(fault),
        }
    }
}

impl From<SinkFault> for RunFault {
    ghost use Rattle.std.specs.Prelude.{◌≡◌};
    ghost use Rattle.oscip_run.specs.Faults.{of_sink};

    ghost from_gives = { λ lower fault. fault ≡ of_sink lower };

    fn from(fault: SinkFault) -> RunFault {
        match fault {
            SinkFault::Memory => RunFault::Memory,
            SinkFault::Device => RunFault::Device,
        }
    }
}

/// The text of a fault of a network, as it follows `oscip: ` in a line.
fn net_fault_text(alloc: Global, fault: &NetFault) -> Result<String, AllocError>
    ensures { IfOk result (λ t. string_bytes t ≡ net_fault_text fault.now) }
{
    match fault {
        NetFault::BadLine { line } => format!(in alloc; "{line}: BadLine"),
        NetFault::TwiceImport { line } => format!(in alloc; "{line}: TwiceImport"),
        NetFault::Cycle { names } => {
            let names = join_after_spaces(alloc, names.as_slice())?;
            format!(in alloc; "Cycle{names}")
        }
        NetFault::WeightOverflow => String::from_str(alloc, "WeightOverflow"),
        NetFault::TooMany { line } => format!(in alloc; "{line}: TooMany"),
        NetFault::Memory => String::from_str(alloc, "Memory"),
    }
}

/// The text of a fault of prices, as it follows `oscip: ` in a line.
fn price_fault_text(alloc: Global, fault: &PriceFault) -> Result<String, AllocError>
    ensures { IfOk result (λ t. string_bytes t ≡ price_fault_text fault.now) }
{
    match fault {
        PriceFault::BadLine { line } => format!(in alloc; "{line}: BadLine"),
        PriceFault::NoSuchImport { line } => format!(in alloc; "{line}: NoSuchImport"),
        PriceFault::TwicePrice { line } => format!(in alloc; "{line}: TwicePrice"),
        PriceFault::PriceOverflow => String::from_str(alloc, "PriceOverflow"),
        PriceFault::Memory => String::from_str(alloc, "Memory"),
    }
}

/// The text of a fault of rules up to the name, path or pattern at its end. `last_rules_name` returns what follows.
fn rules_fault_text_start(alloc: Global, fault: &RulesFault) -> Result<String, AllocError>
    // With `Ok` the result followed by `last_rules_name` of the fault is the text of the fault.
    ensures { IfOk result (λ t. string_bytes t ++ last_rules_name fault.now ≡ rules_fault_text fault.now) }
{
    match fault {
        RulesFault::BadLine { line } => format!(in alloc; "{line}: BadLine"),
        RulesFault::SetIsModule { line, .. } => format!(in alloc; "{line}: SetIsModule "),
        RulesFault::NoSuchModule { line, .. } => format!(in alloc; "{line}: NoSuchModule "),
        RulesFault::TwiceAllowed { line, importer, .. } => {
            format!(in alloc; "{line}: TwiceAllowed {importer} ")
        }
        RulesFault::EmptySet { line, .. } => format!(in alloc; "{line}: EmptySet "),
        RulesFault::TooMany { line } => format!(in alloc; "{line}: TooMany"),
        RulesFault::Memory => String::from_str(alloc, "Memory"),
    }
}

/// The name, path or pattern at the end of the text of a fault of rules; empty if there is none.
fn last_rules_name(fault: &RulesFault) -> &str
    ensures { result.now ≡ last_rules_name fault.now }
{
    match fault {
        RulesFault::SetIsModule { name, .. } | RulesFault::NoSuchModule { name, .. } => {
            name.as_str()
        }
        RulesFault::TwiceAllowed { imported, .. } => imported.as_str(),
        RulesFault::EmptySet { text, .. } => text.as_str(),
        RulesFault::BadLine { .. } | RulesFault::TooMany { .. } | RulesFault::Memory => "",
    }
}

/// The text of a fault of a report, as it follows `oscip: ` in a line.
fn report_fault_text(alloc: Global, fault: &ReportFault) -> Result<String, AllocError>
    ensures { IfOk result (λ t. string_bytes t ≡ report_fault_text fault.now) }
{
    match fault {
        ReportFault::BadLine { line } => format!(in alloc; "{line}: BadLine"),
        ReportFault::UnknownName { line } => format!(in alloc; "{line}: UnknownName"),
        ReportFault::Order { line } => format!(in alloc; "{line}: Order"),
        ReportFault::NoEnd => String::from_str(alloc, "NoEnd"),
        ReportFault::Device => String::from_str(alloc, "cannot write"),
        ReportFault::Memory => String::from_str(alloc, "Memory"),
    }
}

/// The text of a fault of the solver, as it follows `oscip: ` in a line.
fn solve_fault_text(alloc: Global, fault: &SolveFault) -> Result<String, AllocError>
    ensures { IfOk result (λ t. string_bytes t ≡ solve_fault_text fault.now) }
{
    match fault {
        SolveFault::SameModule => String::from_str(alloc, "SameModule"),
        SolveFault::NoSuchModule { name } => format!(in alloc; "NoSuchModule {name}"),
        SolveFault::Memory => String::from_str(alloc, "Memory"),
    }
}

/// The text of a fault up to the name at its end, which `last_name` returns. That name may have as many bytes as the input, so only
/// `fault_line` copies it, once.
fn fault_text_start(
    alloc: Global,
    style: LocationStyle<'_>,
    fault: &RunFault,
) -> Result<String, AllocError>
    // With `Ok` the result followed by `last_name` of the fault is the text of the fault.
    ensures { IfOk result (λ t. string_bytes t ++ last_name fault.now ≡ fault_text (style_of style.entry) fault.now) }
{
    match fault {
        RunFault::CannotRead { path } => format!(in alloc; "cannot read {path}"),
        RunFault::CannotWrite { path } => format!(in alloc; "cannot write {path}"),
        RunFault::Tree(fault) => tree_fault_text(alloc, style, fault),
        RunFault::Net(fault) => net_fault_text(alloc, fault),
        RunFault::Price(fault) => price_fault_text(alloc, fault),
        RunFault::Rules(fault) => rules_fault_text_start(alloc, fault),
        RunFault::Report(fault) => report_fault_text(alloc, fault),
        RunFault::Solve(fault) => solve_fault_text(alloc, fault),
        RunFault::Query(fault) => query_fault_text(alloc, fault),
        RunFault::Device => String::from_str(alloc, "cannot write"),
        RunFault::Memory => String::from_str(alloc, "Memory"),
    }
}

/// The name at the end of the text of a fault of rules, which may have as many bytes as the input; empty for every other fault.
fn last_name(fault: &RunFault) -> &str
    ensures { result.now ≡ last_name fault.now }
{
    match fault {
        RunFault::Rules(fault) => last_rules_name(fault),
        RunFault::CannotRead { .. }
        | RunFault::CannotWrite { .. }
        | RunFault::Tree(_)
        | RunFault::Net(_)
        | RunFault::Price(_)
        | RunFault::Report(_)
        | RunFault::Solve(_)
        | RunFault::Query(_)
        | RunFault::Device
        | RunFault::Memory => "",
    }
}

/// The line that reports a fault: `oscip: `, the fault with the control characters of names and paths escaped, and an LF. The locations and
/// paths in a fault of a tree are written in this style. Fails with `AllocError` if an allocation fails.
pub fn fault_line(
    alloc: Global,
    style: LocationStyle<'_>,
    fault: &RunFault,
) -> Result<String, AllocError>
    // The line is `oscip: `, the escaped text of the fault, and an LF.
    ensures text { IfOk result (λ t. string_bytes t ≡ codes "oscip: " ++ escaped (fault_text (style_of style.entry) fault.now) ++ codes "\n") }
    // The line ends with an LF, and has no other control character.
    ensures one_line { IfOk result (λ t. IsOneLine (string_bytes t)) }
{
    escaped_is_one_line();
    let start = fault_text_start(alloc, style, fault)?;
    let mut line = String::from_str(alloc, "oscip: ")?;
    let mut writer = EscapingWriter::new();
    writer.push(&mut line, start.as_str())?;
    writer.push(&mut line, last_name(fault))?;
    line.push('\n')?;
    Ok(line)
}

/// The exit status of a fault of a network: 1 for rejected input, 4 if an allocation failed.
fn net_status(fault: &NetFault) -> u8
    ensures { result ≡ net_status fault.now }
{
    match fault {
        NetFault::Memory => 4,
        NetFault::BadLine { .. }
        | NetFault::TwiceImport { .. }
        | NetFault::Cycle { .. }
        | NetFault::WeightOverflow
        | NetFault::TooMany { .. } => 1,
    }
}

/// The exit status of a fault of prices: 1 for rejected input, 4 if an allocation failed.
fn price_status(fault: &PriceFault) -> u8
    ensures { result ≡ price_status fault.now }
{
    match fault {
        PriceFault::Memory => 4,
        PriceFault::BadLine { .. }
        | PriceFault::NoSuchImport { .. }
        | PriceFault::TwicePrice { .. }
        | PriceFault::PriceOverflow => 1,
    }
}

/// The exit status of a fault of rules: 1 for rejected input, 4 if an allocation failed.
fn rules_status(fault: &RulesFault) -> u8
    ensures { result ≡ rules_status fault.now }
{
    match fault {
        RulesFault::Memory => 4,
        RulesFault::BadLine { .. }
        | RulesFault::SetIsModule { .. }
        | RulesFault::NoSuchModule { .. }
        | RulesFault::TwiceAllowed { .. }
        | RulesFault::EmptySet { .. }
        | RulesFault::TooMany { .. } => 1,
    }
}

/// The exit status of a fault of a report: 1 for rejected input, 3 if the sink failed, 4 if an allocation failed.
fn report_status(fault: &ReportFault) -> u8
    ensures { result ≡ report_status fault.now }
{
    match fault {
        ReportFault::Memory => 4,
        ReportFault::Device => 3,
        ReportFault::BadLine { .. }
        | ReportFault::UnknownName { .. }
        | ReportFault::Order { .. }
        | ReportFault::NoEnd => 1,
    }
}

/// The exit status of a fault of the solver: 1 for rejected names, 4 if an allocation failed.
fn solve_status(fault: &SolveFault) -> u8
    ensures { result ≡ solve_status fault.now }
{
    match fault {
        SolveFault::Memory => 4,
        SolveFault::SameModule | SolveFault::NoSuchModule { .. } => 1,
    }
}

/// The exit status of a fault of a tree: 1 for rejected input, 4 if an allocation failed.
fn tree_status(fault: &TreeFault) -> u8
    ensures { result ≡ tree_status fault.now }
{
    if is_out_of_memory(fault) { 4 } else { 1 }
}

/// The exit status of a fault: 1 for rejected input, 3 for a file or device that failed, 4 for memory.
pub fn status_of(fault: &RunFault) -> u8
    // The result is exactly the exit status of the fault.
    ensures { result ≡ status_number fault.now }
{
    match fault {
        RunFault::CannotRead { .. } | RunFault::CannotWrite { .. } | RunFault::Device => 3,
        RunFault::Tree(fault) => tree_status(fault),
        RunFault::Net(fault) => net_status(fault),
        RunFault::Price(fault) => price_status(fault),
        RunFault::Rules(fault) => rules_status(fault),
        RunFault::Report(fault) => report_status(fault),
        RunFault::Solve(fault) => solve_status(fault),
        RunFault::Query(fault) => query_status(fault),
        RunFault::Memory => 4,
    }
}
