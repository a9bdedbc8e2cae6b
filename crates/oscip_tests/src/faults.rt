//! Faults that no input of the program causes, each with its exit status and its line.
use cut_net::PriceFault;
use ob_imports::GraphFault;
use ob_scan::{Position, ScanFault};
use oscip_run::{RunFault, fault_line, status_of};
use source_tree::TreeFault;
use std::alloc::{AllocError, Global};
use std::test::Fail;
use texts::LocationStyle;

/// The part that fails or runs out of memory.
enum Failing {
    Sink,
    Run,
    Tokens,
    Tree,
    Graph,
    Prices,
}

const FAULTS: &[(Failing, &str)] = &[
    (Failing::Sink, "3 oscip: cannot write\n"),
    (Failing::Run, "4 oscip: Memory\n"),
    (Failing::Tokens, "4 oscip: Memory\n"),
    (Failing::Tree, "4 oscip: Memory\n"),
    (Failing::Graph, "4 oscip: Memory\n"),
    (Failing::Prices, "4 oscip: Memory\n"),
];

/// The fault of a part, with this path if it has one.
fn fault_of_part(place: &Failing, path: String) -> RunFault {
    match place {
        Failing::Sink => RunFault::Device,
        Failing::Run => RunFault::Memory,
        Failing::Tokens => RunFault::from(TreeFault::Scan {
            path,
            at: Position { line: 0, column: 0 },
            fault: ScanFault::Memory,
        }),
        Failing::Tree => RunFault::from(TreeFault::Memory),
        Failing::Graph => RunFault::from(TreeFault::Graph(GraphFault::Memory)),
        Failing::Prices => RunFault::from(PriceFault::Memory),
    }
}

/// The exit status and the line of a fault.
pub fn describe_fault(alloc: Global, fault: &RunFault) -> Result<String, AllocError> {
    let status = status_of(fault);
    let line = fault_line(alloc, LocationStyle::Plain, fault)?;
    format!(in alloc; "{status} {line}")
}

#[test]
fn failed_allocations_and_sinks_have_their_lines(rt: HostRuntime) -> Result<(), Fail> {
    for (place, want) in FAULTS {
        let path = String::from_str(rt.alloc(), "a/M.Mod")?;
        let description = describe_fault(rt.alloc(), &fault_of_part(place, path))?;
        assert_eq!(rt; description.as_str(), *want);
    }
    Ok(())
}
