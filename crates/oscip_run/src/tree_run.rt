//! Runs the commands whose input is the modules of a tree, with any reader and any sink.
ghost use Rattle.std.specs.Io.KnownBytes.{Keeps};
ghost use Rattle.std.specs.Prelude.{◌≡◌, IfErr, IfOk, map};
ghost use Rattle.std.specs.String.{string_bytes};
ghost use Rattle.byte_sink.specs.Sinks.{failures_by};
ghost use Rattle.oscip_job.specs.Jobs.{HasNetWorkers, HasTreeWorkers};
ghost use Rattle.oscip_run.specs.Faults.{is_device};
ghost use Rattle.oscip_run.specs.FileRuns.{IsTreeNetRun};
ghost use Rattle.oscip_run.specs.CrossingRuns.{IsCrossingsRun};
ghost use Rattle.oscip_run.specs.ImportRuns.{IsNetTextRun};
ghost use Rattle.oscip_run.specs.JobRuns.{without_boolean};
ghost use Rattle.oscip_run.specs.ModuleRuns.{IsModulesRun};
ghost use Rattle.oscip_run.specs.Readings.{returned_bytes};
ghost use Rattle.oscip_run.specs.Runs.{IsRejectedTree};
ghost use Rattle.oscip_run.specs.TreeQuestionRuns.{IsRulesFileRun, IsTreeQuestionRun, IsNeverFalse};
ghost use Rattle.oscip_run.specs.TreeRuns.{AreTreeFiles, IsTreeQuestionRunOn, IsTreeUnread};
ghost use Rattle.source_tree.specs.Sources.{ArePathsInOrder};
ghost use Rattle.source_tree.specs.Trees.{IsNetOfTree};
ghost use Rattle.texts.specs.Places.{style_of};

use crate::engine::READERS;
use crate::reading::{bytes_or_empty, read_question_files};
use crate::{
    Reader, RunFault, answer_tree_net_question, check_tree_rules, list_tree_crossings,
    list_tree_faults, list_tree_modules, style_of_tree, write_tree_net,
};
use byte_sink::Sink;
use cut_solve::OpenGate;
use oscip_job::{NetQuestion, SourceTree, TreeQuestion, TwoNames};
use source_tree::{PartitionedFiles, Source, TreeFault, partition_files};
use std::alloc::Global;
use std::sync::Wait;
use std::thread::Threads;
use texts::LocationStyle;

/// The outcome of a run on the modules of a tree.
#[derive(Drop)]
pub struct TreeRun {
    /// The faults of the files that were left out, in the order of the files.
    pub faults: Vec<TreeFault>,
    /// The result of the command on the other files. False means that the command answered `no`.
    pub ended: Result<bool, RunFault>,
}

/// Reads the files of a tree's modules. With `tree.skips_faults`, leaves out the files with faults of their own, and also returns these
/// faults.
/// Checks the files in at most `workers` chunks. Fails with the fault of the reader for the folder, or with `Memory`.
pub fn read_tree_files<R: Threads + Sync, F: Reader>(
    rt: &R,
    alloc: Global,
    reader: &F,
    tree: &SourceTree,
    workers: u32,
) -> Result<PartitionedFiles, RunFault>
    // The files are those that the reader returned for the folder and its patterns, without the files that were left out. The faults are
    // those of the files that were left out.
    ensures files { IfOk result (λ parted. AreTreeFiles (F.answers reader.now) tree.now parted.accepted.items parted.faults.items) }
    // The files are sorted by path, each path once.
    ensures order { IfOk result (λ parted. ArePathsInOrder parted.accepted.items) }
    // The error is the reader's fault for the folder, or `Memory`.
    ensures fault { IfErr result (IsTreeUnread (F.answers reader.now) tree.now) }
{
    let sources = reader.modules(tree.folder.as_str(), tree.excluded.as_slice())?;
    if tree.skips_faults {
        return Ok(partition_files(rt, alloc, sources, workers)?);
    }
    Ok(PartitionedFiles {
        accepted: sources,
        faults: Vec::new(alloc),
    })
}

/// Answers a question about the network of these modules. First reads the files that the question names: the report, then the prices.
fn run_net_question<R: Threads + Wait + Sync, F: Reader, S: Sink>(
    rt: &R,
    alloc: Global,
    reader: &F,
    sources: &[Source],
    question: &NetQuestion,
    sink: &mut S,
) -> Result<bool, RunFault>
    // The files are sorted by path, each path once.
    requires in_order { ArePathsInOrder sources.now }
    // If the question has a number of workers, it is from 1 to 64.
    requires workers { HasNetWorkers question.now }
    // `answer_tree_net_question` runs on these files and on the files that the question names, as the reader returned them. If one can't be
    // read, the sink is unchanged.
    ensures run { IsTreeNetRun (F.answers reader.now) sources.now question.now (S.taken sink.old) (S.taken sink.new) result }
    // The sink counts a failure if and only if the result is `Device`.
    ensures failures { S.failures sink.new ≡ failures_by is_device result (S.failures sink.old) }
{
    let beside = read_question_files(reader, question)?;
    let report = bytes_or_empty(&beside.report);
    let prices = beside.prices.as_deref();
    answer_tree_net_question(
        rt, alloc, question, sources, report, &OpenGate, prices, sink,
    )
}

/// Writes the locations where the module named `names.from` uses the one named `names.to`. Returns true.
fn run_crossings<R: Threads + Sync, S: Sink>(
    rt: &R,
    alloc: Global,
    sources: &[Source],
    names: &TwoNames,
    style: LocationStyle<'_>,
    sink: &mut S,
) -> Result<bool, RunFault>
    // The files are sorted by path, each path once.
    requires { ArePathsInOrder sources.now }
    // This is a run of `list_tree_crossings`, apart from the Boolean.
    ensures run { IsCrossingsRun (style_of style.entry) sources.now (string_bytes names.now.from) (string_bytes names.now.to) (S.taken sink.old) (S.taken sink.new) (without_boolean result) }
    // With `Ok` the result is true.
    ensures answer { IsNeverFalse result }
    // The sink counts a failure if and only if the result is `Device`.
    ensures failures { S.failures sink.new ≡ failures_by is_device result (S.failures sink.old) }
{
    let (from, to) = (names.from.as_str(), names.to.as_str());
    list_tree_crossings(rt, alloc, sources, from, to, style, sink)?;
    Ok(true)
}

/// Writes the network of these modules as text. Returns true.
fn run_network_text<R: Threads + Sync, S: Sink>(
    rt: &R,
    alloc: Global,
    sources: &[Source],
    sink: &mut S,
) -> Result<bool, RunFault>
    // The files are sorted by path, each path once.
    requires { ArePathsInOrder sources.now }
    // This is a run of `write_tree_net`, apart from the Boolean.
    ensures run { IsNetTextRun (IsNetOfTree sources.now) (IsRejectedTree sources.now) (S.taken sink.old) (S.taken sink.new) (without_boolean result) }
    // With `Ok` the result is true.
    ensures answer { IsNeverFalse result }
    // The sink counts a failure if and only if the result is `Device`.
    ensures failures { S.failures sink.new ≡ failures_by is_device result (S.failures sink.old) }
{
    write_tree_net(rt, alloc, sources, sink)?;
    Ok(true)
}

/// Writes a line for each module of the tree. Returns true.
fn run_modules<R: Threads + Sync, S: Sink>(
    rt: &R,
    alloc: Global,
    sources: &[Source],
    style: LocationStyle<'_>,
    sink: &mut S,
) -> Result<bool, RunFault>
    // The files are sorted by path, each path once.
    requires { ArePathsInOrder sources.now }
    // This is a run of `list_tree_modules`, apart from the Boolean.
    ensures run { IsModulesRun (style_of style.entry) sources.now (S.taken sink.old) (S.taken sink.new) (without_boolean result) }
    // With `Ok` the result is true.
    ensures answer { IsNeverFalse result }
    // The sink counts a failure if and only if the result is `Device`.
    ensures failures { S.failures sink.new ≡ failures_by is_device result (S.failures sink.old) }
{
    list_tree_modules(rt, alloc, sources, style, sink)?;
    Ok(true)
}

/// Checks these modules against the rules in the file at this path. Returns whether the verdict is `yes`.
fn run_rules<R: Threads + Sync, F: Reader, S: Sink>(
    rt: &R,
    alloc: Global,
    reader: &F,
    sources: &[Source],
    path: &str,
    style: LocationStyle<'_>,
    sink: &mut S,
) -> Result<bool, RunFault>
    // The files are sorted by path, each path once.
    requires { ArePathsInOrder sources.now }
    // `check_tree_rules` runs on the rules that the reader returned for this path. If they can't be read, the sink is unchanged.
    ensures run { IsRulesFileRun (F.answers reader.now) (style_of style.entry) sources.now path.now (S.taken sink.old) (S.taken sink.new) result }
    // The sink counts a failure if and only if the result is `Device`.
    ensures failures { S.failures sink.new ≡ failures_by is_device result (S.failures sink.old) }
{
    let rules = reader.file(path)?;
    check_tree_rules(rt, alloc, sources, rules.as_slice(), style, sink)
}

/// Answers a question about these modules, with locations in this style. First reads the other files that the question names.
/// Returns false if the answer is `no`. Fails with the fault of the reader, and otherwise as the engine of the question does.
fn run_tree_question<R: Threads + Wait + Sync, F: Reader, S: Sink>(
    rt: &R,
    alloc: Global,
    reader: &F,
    sources: &[Source],
    question: &TreeQuestion,
    style: LocationStyle<'_>,
    sink: &mut S,
) -> Result<bool, RunFault>
    // The files are sorted by path, each path once.
    requires in_order { ArePathsInOrder sources.now }
    // If the question has a number of workers, it is from 1 to 64.
    requires workers { HasTreeWorkers question.now }
    // This is a run of the engine of the question on these files, and on what the reader returned for the paths that the question names.
    ensures run { IsTreeQuestionRun (F.answers reader.now) (style_of style.entry) sources.now question.now (S.taken sink.old) (S.taken sink.new) result }
    // The sink counts a failure if and only if the result is `Device`.
    ensures failures { S.failures sink.new ≡ failures_by is_device result (S.failures sink.old) }
{
    match question {
        TreeQuestion::OfNet(question) => run_net_question(
            rt, alloc, reader, sources, question, sink,
        ),
        TreeQuestion::Crossings(names) => run_crossings(rt, alloc, sources, names, style, sink),
        TreeQuestion::Net => run_network_text(rt, alloc, sources, sink),
        TreeQuestion::Rules(rules) => {
            run_rules(rt, alloc, reader, sources, rules.as_str(), style, sink)
        }
        TreeQuestion::Faults => list_tree_faults(rt, alloc, sources, style, sink),
        TreeQuestion::Modules => run_modules(rt, alloc, sources, style, sink),
    }
}

/// Answers a question about the modules of a tree.
/// Fails with the fault of the reader for the tree's folder, or with `Memory`, before anything is written. Any other fault is in the
/// returned `ended`.
pub fn run_tree_job<R: Threads + Wait + Sync, F: Reader, S: Sink>(
    rt: &R,
    alloc: Global,
    reader: &F,
    tree: &SourceTree,
    question: &TreeQuestion,
    sink: &mut S,
) -> Result<TreeRun, RunFault>
    // If the question has a number of workers, it is from 1 to 64.
    requires workers { HasTreeWorkers question.now }
    // The engine of the question runs on the files that `read_tree_files` returns. With an error there is no run, and the sink is
    // unchanged.
    ensures run { IsTreeQuestionRunOn (F.answers reader.now) tree.now question.now (S.taken sink.old) (S.taken sink.new) result }
    // If the engine ran, the sink counts a failure if and only if the engine ended with `Device`.
    ensures failures { IfOk result (λ run. S.failures sink.new ≡ failures_by is_device run.ended (S.failures sink.old)) }
    // If the function fails, so that no engine ran, the sink counts no failure.
    ensures failed { IfErr result (λ _. S.failures sink.new ≡ S.failures sink.old) }
{
    let PartitionedFiles { accepted, faults } = read_tree_files(rt, alloc, reader, tree, READERS)?;
    let sources = accepted.as_slice();
    let style = style_of_tree(tree);
    let ended = run_tree_question(rt, alloc, reader, sources, question, style, sink);
    Ok(TreeRun { faults, ended })
}
