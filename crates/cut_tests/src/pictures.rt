//! Pictures by flow: of a cut, of a path of pinned imports, and to a sink that fails.

use crate::worked::net_of;
use byte_sink::SinkFault;
use cut_dot::draw_flow;
use cut_net::Net;
use std::alloc::{AllocError, Global};
use std::process::Abort;
use std::test::Fail;
use test_doubles::FailingSink;

/// Three paths from A to D, one with weight 0, and E, which imports A. The modules are A, B, C, D, E and Z.
const NETWORK: &[u8] =
    b"import A B 1\nimport A C 2\nimport A Z 0\nimport B D 3\nimport C D 1\nimport E A 4\nimport Z D 5\n";

/// A cut. It removes an import without flow, D doesn't import A, and A E has no flow.
const CUT: &[u8] = b"cut A D\nweight 2\nremove A B 1\nremove A Z 0\nremove C D 1\n\
    flow A B 1\nflow A C 1\nflow B D 1\nflow C D 1\nflow D A 7\nend\n";

/// Its picture by flow: without E and the imports E A and Z D, which have no flow.
const CUT_BY_FLOW: &str = "digraph cut {\n  rankdir=LR;\n  \
    label=\"flow/weight; red: removed; bold: pinned; gray: still reached; double border: the two ends\";\n  \
    \"A\" [peripheries=2] [style=filled];\n  \"B\";\n  \"C\" [style=filled];\n  \"D\" [peripheries=2];\n  \"Z\";\n  \
    \"A\" -> \"B\" [label=\"1/1\"] [style=dashed, color=red];\n  \
    \"A\" -> \"C\" [label=\"1/2\"];\n  \
    \"A\" -> \"Z\" [label=\"0/0\"] [style=dashed, color=red];\n  \
    \"B\" -> \"D\" [label=\"1/3\"];\n  \
    \"C\" -> \"D\" [label=\"1/1\"] [style=dashed, color=red];\n}\n";

/// Prices that pin the imports from A over B to D.
const PINS: &[u8] = b"pin A B\npin B D\n";

/// The report of this path.
const BLOCKED: &[u8] = b"cut A D\nblocked A B D\nend\n";

/// Its picture by flow: the path, and no other import.
const BLOCKED_BY_FLOW: &str = "digraph cut {\n  rankdir=LR;\n  \
    label=\"flow/weight; red: removed; bold: pinned; gray: still reached; double border: the two ends\";\n  \
    \"A\" [peripheries=2] [style=filled];\n  \"B\" [style=filled];\n  \"D\" [peripheries=2] [style=filled];\n  \
    \"A\" -> \"B\" [label=\"0/pin\"] [style=bold];\n  \
    \"B\" -> \"D\" [label=\"0/pin\"] [style=bold];\n}\n";

/// A wrong report: the path has a cycle, E doesn't import B, and B doesn't import A.
const WRONG_PATH: &[u8] = b"cut A D\nblocked E B A B A B\nend\n";

/// Its picture by flow: of the path's steps the one that is an import, once, and both ends.
const WRONG_PATH_BY_FLOW: &str = "digraph cut {\n  rankdir=LR;\n  \
    label=\"flow/weight; red: removed; bold: pinned; gray: still reached; double border: the two ends\";\n  \
    \"A\" [peripheries=2] [style=filled];\n  \"B\" [style=filled];\n  \"D\" [peripheries=2] [style=filled];\n  \
    \"A\" -> \"B\" [label=\"0/1\"];\n}\n";

/// Writes the picture by flow of a report.
fn draw_report(
    alloc: Global,
    net: &Net,
    report: &[u8],
    sink: &mut FailingSink,
) -> Result<(), SinkFault> {
    let Ok(report) = cut_report::read(alloc, report, net) else {
        return Err(SinkFault::Memory);
    };
    draw_flow(alloc, net, report.from, report.to, &report.answer, sink)
}

/// Checks the bytes in a sink that fails after this many, at most those of the text.
fn check_prefix(
    rt: &impl Abort,
    alloc: Global,
    net: &Net,
    report: &[u8],
    writes: u64,
    text: &str,
) -> Result<(), AllocError> {
    let mut sink = FailingSink::new(alloc, writes);
    let is_complete = writes == text.len() as u64;
    match draw_report(alloc, net, report, &mut sink) {
        Ok(()) => assert!(rt; is_complete),
        Err(SinkFault::Device) => assert!(rt; !is_complete),
        Err(SinkFault::Memory) => return Err(AllocError),
    }
    assert_eq!(rt; (sink.failures, sink.empty), (u64::from(!is_complete), 0));
    assert_eq!(rt; sink.taken.len() as u64, writes);
    assert!(rt; text.as_bytes().starts_with(sink.taken.as_slice()));
    Ok(())
}

/// Checks the picture, and that a sink that fails at each write in turn has a prefix of it.
fn check_picture(
    rt: &impl Abort,
    alloc: Global,
    net: &Net,
    report: &[u8],
    text: &str,
) -> Result<(), AllocError> {
    for writes in 0..=text.len() as u64 {
        check_prefix(rt, alloc, net, report, writes, text)?;
    }
    Ok(())
}

#[test]
fn a_cut_is_drawn_with_its_flow(rt: HostRuntime) -> Result<(), Fail> {
    let net = net_of(rt.alloc(), NETWORK, b"")?;
    check_picture(&rt, rt.alloc(), &net, CUT, CUT_BY_FLOW)?;
    Ok(())
}

#[test]
fn a_path_of_pins_is_drawn(rt: HostRuntime) -> Result<(), Fail> {
    let net = net_of(rt.alloc(), NETWORK, PINS)?;
    check_picture(&rt, rt.alloc(), &net, BLOCKED, BLOCKED_BY_FLOW)?;
    Ok(())
}

#[test]
fn a_list_of_modules_that_is_no_path_is_drawn(rt: HostRuntime) -> Result<(), Fail> {
    let net = net_of(rt.alloc(), NETWORK, b"")?;
    check_picture(&rt, rt.alloc(), &net, WRONG_PATH, WRONG_PATH_BY_FLOW)?;
    Ok(())
}
