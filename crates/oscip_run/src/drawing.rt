//! The engines of the commands `dot` and `dot-net`: they write the picture of a report to any sink.
ghost use Rattle.std.specs.Prelude.{◌≡◌, ◌<◌, length, option_copied};
ghost use Rattle.byte_sink.specs.Sinks.{failures_after, failures_by};
ghost use Rattle.cut_dot.specs.Drawing.{IsDrawingOf};
ghost use Rattle.cut_dot.specs.Pictures.{answer_flow, answer_removed};
ghost use Rattle.cut_net.specs.Answers.{answer_claim};
ghost use Rattle.cut_net.specs.Lines.{IsAscending};
ghost use Rattle.oscip_run.specs.DotRuns.{IsAskedPicture, IsDotRun};
ghost use Rattle.oscip_run.specs.Faults.{is_device};
ghost use Rattle.oscip_run.specs.PricedInputs.{IsNetOfPricedText, IsNetOfPricedTree, IsRejectedPricedText, IsRejectedPricedTree};
ghost use Rattle.oscip_run.specs.Runs.{IsNeverRejected, IsThis};
ghost use Rattle.source_tree.specs.Sources.{ArePathsInOrder};

use crate::RunFault;
use crate::engine::READERS;
use crate::priced_network::{net_of_text, net_of_tree};
use byte_sink::{Sink, SinkFault};
use cut_dot::{draw, draw_flow};
use cut_net::Net;
use cut_report::Report;
use source_tree::Source;
use std::alloc::Global;
use std::thread::Threads;

/// Writes the picture of a report on the network. With `by_flow` it shows only the imports of the report's cut, flow or blocked path.
/// Otherwise it shows all imports on paths between the report's two modules.
fn write_picture<S: Sink>(
    alloc: Global,
    net: &Net,
    report: &Report,
    by_flow: bool,
    sink: &mut S,
) -> Result<(), SinkFault>
    // The report's two modules are modules of the network.
    requires from { report.now.from < length net.now.names }
    requires to { report.now.to < length net.now.names }
    // The removed imports of the report, and those with flow, are sorted.
    requires removed { IsAscending (answer_removed report.now.answer) }
    requires flow { IsAscending (answer_flow report.now.answer) }
    // With `Ok` the sink took the whole picture that `by_flow` selects, with an error at most a prefix of it.
    ensures run { IsDrawingOf (IsAskedPicture by_flow net.now report.now.from report.now.to (answer_claim report.now.answer)) (S.taken sink.old) (S.taken sink.new) result }
    // The sink counts a failure if and only if the result is `Device`.
    ensures failures { S.failures sink.new ≡ failures_after result (S.failures sink.old) }
{
    if by_flow {
        draw_flow(alloc, net, report.from, report.to, &report.answer, sink)
    } else {
        draw(alloc, net, report.from, report.to, &report.answer, sink)
    }
}

/// Reads a report on this network, and writes the picture of the report.
fn draw_report<S: Sink>(
    alloc: Global,
    net: &Net,
    report: &[u8],
    by_flow: bool,
    sink: &mut S,
) -> Result<(), RunFault>
    // This is the run of `draw_net_bytes` for a network that is already read, so no network or prices are rejected.
    ensures run { IsDotRun (IsAskedPicture by_flow) (IsThis net.now) IsNeverRejected report.now (S.taken sink.old) (S.taken sink.new) result }
    // The sink counts a failure if and only if the result is `Device`.
    ensures failures { S.failures sink.new ≡ failures_by is_device result (S.failures sink.old) }
{
    let report = cut_report::read(alloc, report, net)?;
    write_picture(alloc, net, &report, by_flow, sink)?;
    Ok(())
}

/// Reads a network, its prices if they are given, and then a report on it. Writes the picture of the report as a graph in DOT, without
/// verifying the report.
/// With `by_flow`, the picture has only the imports that the report removes or gives flow, or those of its blocked path, with their
/// modules. See `draw` and `draw_flow` of `cut_dot`.
/// Fails with `Net`, `Price`, `Report`, `Device` or `Memory`.
pub fn draw_net_bytes<S: Sink>(
    alloc: Global,
    network: &[u8],
    report: &[u8],
    prices: Option<&[u8]>,
    by_flow: bool,
    sink: &mut S,
) -> Result<(), RunFault>
    // With `Ok` the sink took exactly the requested picture. After `Device` or `Memory` it has at most a prefix of it, after another error
    // none.
    ensures run { IsDotRun (IsAskedPicture by_flow) (IsNetOfPricedText network.now (option_copied prices.entry)) (IsRejectedPricedText network.now (option_copied prices.entry)) report.now (S.taken sink.old) (S.taken sink.new) result }
    // The sink counts a failure if and only if the result is `Device`.
    ensures failures { S.failures sink.new ≡ failures_by is_device result (S.failures sink.old) }
{
    let net = net_of_text(alloc, network, prices)?;
    draw_report(alloc, &net, report, by_flow, sink)
}

/// Reads the files of a tree, its prices if they are given, and then a report on its network. Writes the picture of the report, as
/// `draw_net_bytes` does.
/// Fails with `Tree`, `Price`, `Report`, `Device` or `Memory`.
pub fn draw_tree<R: Threads + Sync, S: Sink>(
    rt: &R,
    alloc: Global,
    sources: &[Source],
    report: &[u8],
    prices: Option<&[u8]>,
    by_flow: bool,
    sink: &mut S,
) -> Result<(), RunFault>
    // The files are sorted by path, each path once.
    requires { ArePathsInOrder sources.now }
    // With `Ok` the sink took exactly the requested picture. After `Device` or `Memory` it has at most a prefix of it, after another error
    // none.
    ensures run { IsDotRun (IsAskedPicture by_flow) (IsNetOfPricedTree sources.now (option_copied prices.entry)) (IsRejectedPricedTree sources.now (option_copied prices.entry)) report.now (S.taken sink.old) (S.taken sink.new) result }
    // The sink counts a failure if and only if the result is `Device`.
    ensures failures { S.failures sink.new ≡ failures_by is_device result (S.failures sink.old) }
{
    let net = net_of_tree(rt, alloc, sources, READERS, prices)?;
    draw_report(alloc, &net, report, by_flow, sink)
}
