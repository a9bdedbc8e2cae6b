//! Runs that list the unresolved identifiers of a tree, over any reader and any sink.
ghost use Rattle.std.specs.Prelude.{◌≡◌, IfErr, IfOk};
ghost use Rattle.byte_sink.specs.Sinks.{failures_by};
ghost use Rattle.index_run.specs.FolderRuns.{IsUnresolvedRunOn};
ghost use Rattle.index_run.specs.IndexRuns.{IsUnresolvedRun};
ghost use Rattle.oscip_run.specs.JobRuns.{without_boolean};
ghost use Rattle.oscip_run.specs.TreeQuestionRuns.{IsNeverFalse};
ghost use Rattle.source_tree.specs.Sources.{ArePathsInOrder};
ghost use Rattle.texts.specs.Places.{style_of};
ghost use Rattle.oscip_run.specs.Faults.{is_device};

use crate::unresolved_to;
use byte_sink::Sink;
use oscip_job::SourceTree;
use oscip_run::{READERS, Reader, RunFault, TreeRun, read_tree_files, style_of_tree};
use source_tree::{PartitionedFiles, Source};
use std::alloc::Global;
use std::thread::Threads;
use texts::LocationStyle;

/// Writes a line for each unresolved identifier of the modules in these files. Returns true.
fn run_unresolved_list<R: Threads + Sync, S: Sink>(
    rt: &R,
    alloc: Global,
    sources: &[Source],
    style: LocationStyle<'_>,
    sink: &mut S,
) -> Result<bool, RunFault>
    // The files are sorted by path, each path once.
    requires { ArePathsInOrder sources.now }
    // This is a run of `unresolved_to`, apart from the Boolean.
    ensures run { IsUnresolvedRun (style_of style.entry) sources.now (S.taken sink.old) (S.taken sink.new) (without_boolean result) }
    // With `Ok` the result is true.
    ensures answer { IsNeverFalse result }
    // The sink counts a failure if and only if the result is `Device`.
    ensures failures { S.failures sink.new ≡ failures_by is_device result (S.failures sink.old) }
{
    unresolved_to(rt, alloc, sources, style, sink)?;
    Ok(true)
}

/// Writes a line for each unresolved identifier of the modules of a tree. The Boolean in the returned `ended` is never false.
/// Fails with the fault of the reader for the tree's folder, or with `Memory`, before anything is written. Any other fault is in `ended`.
pub fn run_unresolved<R: Threads + Sync, F: Reader, S: Sink>(
    rt: &R,
    alloc: Global,
    reader: &F,
    tree: &SourceTree,
    sink: &mut S,
) -> Result<TreeRun, RunFault>
    // `unresolved_to` runs on the files that `read_tree_files` returns, in the style of the tree. With an error there is no run, and the
    // sink is unchanged.
    ensures run { IsUnresolvedRunOn (F.answers reader.now) tree.now (S.taken sink.old) (S.taken sink.new) result }
    // If `unresolved_to` ran, the sink counts a failure if and only if `unresolved_to` ended with `Device`.
    ensures failures { IfOk result (λ run. S.failures sink.new ≡ failures_by is_device run.ended (S.failures sink.old)) }
    // If the function fails, so that `unresolved_to` didn't run, the sink counts no failure.
    ensures failed { IfErr result (λ _. S.failures sink.new ≡ S.failures sink.old) }
{
    let PartitionedFiles { accepted, faults } = read_tree_files(rt, alloc, reader, tree, READERS)?;
    let ended = run_unresolved_list(rt, alloc, accepted.as_slice(), style_of_tree(tree), sink);
    Ok(TreeRun { faults, ended })
}
