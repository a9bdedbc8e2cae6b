//! Runs the engine of a question about a network: the kind of the question selects the engine.
ghost use Rattle.std.specs.Prelude.{◌≡◌, option_copied};
ghost use Rattle.byte_sink.specs.Sinks.{failures_by};
ghost use Rattle.oscip_job.specs.Jobs.{HasNetWorkers};
ghost use Rattle.oscip_run.specs.Faults.{is_device};
ghost use Rattle.oscip_run.specs.JobRuns.{IsJobRun};
ghost use Rattle.oscip_run.specs.PricedInputs.{IsNetOfPricedText, IsNetOfPricedTree, IsRejectedPricedText, IsRejectedPricedTree};
ghost use Rattle.source_tree.specs.Sources.{ArePathsInOrder};

use crate::{
    RunFault, check_net_bytes, check_tree, cut_net_bytes, cut_tree, draw_net_bytes, draw_tree,
    list_reachable_in_net, list_reachable_in_tree, write_net_shortest_path,
    write_tree_shortest_path,
};
use byte_sink::Sink;
use cut_solve::Gate;
use oscip_job::NetQuestion;
use source_tree::Source;
use std::alloc::Global;
use std::sync::Wait;
use std::thread::Threads;

/// Runs the engine of a question about the network that `network` states, on the bytes of its report and its prices if the question has
/// them.
/// A cut is searched for by the question's number of threads, which call `gate`.
/// Returns false if a check says no or `why` finds no path. Fails as the engine does.
pub fn answer_net_question<R: Threads + Wait + Sync, G: Gate + Sync, S: Sink>(
    rt: &R,
    alloc: Global,
    question: &NetQuestion,
    network: &[u8],
    report: &[u8],
    gate: &G,
    prices: Option<&[u8]>,
    sink: &mut S,
) -> Result<bool, RunFault>
    // A question with a number of workers has 1 to 64 of them.
    requires workers { HasNetWorkers question.now }
    // The engine of the question runs on these bytes, with the names and options in the question. `why` and `reach` ignore the prices.
    ensures run { IsJobRun (IsNetOfPricedText network.now) (IsRejectedPricedText network.now) question.now report.now (option_copied prices.entry) (S.taken sink.old) (S.taken sink.new) result }
    // The sink counts a failure if and only if the result is `Device`.
    ensures failures { S.failures sink.new ≡ failures_by is_device result (S.failures sink.old) }
{
    match question {
        NetQuestion::Cut(cutting) => {
            let (from, to) = (cutting.from.as_str(), cutting.to.as_str());
            let workers = cutting.workers;
            cut_net_bytes(rt, alloc, network, from, to, workers, gate, prices, sink)?;
            Ok(true)
        }
        NetQuestion::Check(_) => check_net_bytes(alloc, network, report, prices, sink),
        NetQuestion::Dot(drawing) => {
            draw_net_bytes(alloc, network, report, prices, drawing.by_flow, sink)?;
            Ok(true)
        }
        NetQuestion::Why(names) => {
            let (first, last) = (names.from.as_str(), names.to.as_str());
            write_net_shortest_path(alloc, network, first, last, sink)
        }
        NetQuestion::Reach(reaching) => {
            let (module, direction) = (reaching.module.as_str(), reaching.direction);
            list_reachable_in_net(alloc, network, module, direction, sink)?;
            Ok(true)
        }
    }
}

/// Runs the engine of a question about the network of a tree's files, on the bytes of its report and its prices if the question has them.
/// A cut is searched for by the question's number of threads, which call `gate`.
/// Returns false if a check says no or `why` finds no path. Fails as the engine does.
pub fn answer_tree_net_question<R: Threads + Wait + Sync, G: Gate + Sync, S: Sink>(
    rt: &R,
    alloc: Global,
    question: &NetQuestion,
    sources: &[Source],
    report: &[u8],
    gate: &G,
    prices: Option<&[u8]>,
    sink: &mut S,
) -> Result<bool, RunFault>
    // The files are sorted by path, each path once.
    requires in_order { ArePathsInOrder sources.now }
    // A question with a number of workers has 1 to 64 of them.
    requires workers { HasNetWorkers question.now }
    // The engine of the question runs on these files and bytes, with the names and options that the question has. `why` and `reach` ignore
    // the prices.
    ensures run { IsJobRun (IsNetOfPricedTree sources.now) (IsRejectedPricedTree sources.now) question.now report.now (option_copied prices.entry) (S.taken sink.old) (S.taken sink.new) result }
    // The sink counts a failure if and only if the result is `Device`.
    ensures failures { S.failures sink.new ≡ failures_by is_device result (S.failures sink.old) }
{
    match question {
        NetQuestion::Cut(cutting) => {
            let (from, to) = (cutting.from.as_str(), cutting.to.as_str());
            let workers = cutting.workers;
            cut_tree(rt, alloc, sources, from, to, workers, gate, prices, sink)?;
            Ok(true)
        }
        NetQuestion::Check(_) => check_tree(rt, alloc, sources, report, prices, sink),
        NetQuestion::Dot(drawing) => {
            draw_tree(rt, alloc, sources, report, prices, drawing.by_flow, sink)?;
            Ok(true)
        }
        NetQuestion::Why(names) => {
            let (first, last) = (names.from.as_str(), names.to.as_str());
            write_tree_shortest_path(rt, alloc, sources, first, last, sink)
        }
        NetQuestion::Reach(reaching) => {
            let (module, direction) = (reaching.module.as_str(), reaching.direction);
            list_reachable_in_tree(rt, alloc, sources, module, direction, sink)?;
            Ok(true)
        }
    }
}
