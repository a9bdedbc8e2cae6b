//! The engine of the command `faults`: it writes the faults of a tree's files to any sink.
ghost use Rattle.std.specs.Prelude.{◌≡◌, ◌++◌, IfErr, IfOk, OnOk};
ghost use Rattle.std.specs.String.{string_bytes};
ghost use Rattle.byte_sink.specs.Sinks.{failures_after, failures_by, AppendsPrefix, Writes};
ghost use Rattle.oscip_run.specs.FaultRuns.{fault_lines, escaped_line, IsFaultsRun};
ghost use Rattle.oscip_run.specs.Faults.{is_device};
ghost use Rattle.source_tree.specs.Sources.{ArePathsInOrder};
ghost use Rattle.source_tree.specs.TreeFaults.{tree_fault_text};
ghost use Rattle.texts.specs.Places.{style_of};
ghost use Rattle.byte_sink.specs.Pieces.{WritesAllBut};

use crate::RunFault;
use crate::engine::READERS;
use byte_sink::{Sink, SinkFault, flush_if_full, write_fully};
use source_tree::{Source, TreeFault, tree_fault_text, tree_faults};
use std::alloc::{AllocError, Global};
use std::thread::Threads;
use texts::{LocationStyle, escaped};

/// Appends the line of a fault to the text: the fault with its control characters escaped, and an LF.
fn append_line(
    alloc: Global,
    style: LocationStyle<'_>,
    text: &mut String,
    fault: &TreeFault,
) -> Result<(), AllocError>
    // With `Ok` the text has grown by exactly this line.
    ensures { IfOk result (λ _. string_bytes text.new ≡ string_bytes text.old ++ escaped_line (tree_fault_text (style_of style.entry) fault.now)) }
{
    let told = tree_fault_text(alloc, style, fault)?;
    let shown = escaped(alloc, told.as_str())?;
    writeln!(text, "{shown}")
}

/// Appends the line of a fault to the text. If the text is then long, writes it to the sink and empties it.
fn write_line<S: Sink>(
    alloc: Global,
    style: LocationStyle<'_>,
    text: &mut String,
    fault: &TreeFault,
    sink: &mut S,
) -> Result<(), SinkFault>
    // With `Ok` the sink took the old text and the line, without what the new text still holds.
    ensures gathered { OnOk result (WritesAllBut (S.taken sink.old) (S.taken sink.new)
        (string_bytes text.old ++ escaped_line (tree_fault_text (style_of style.entry) fault.now)) (string_bytes text.new)) }
    // After an error the sink took a prefix of the old text and the line.
    ensures error_prefix { IfErr result (λ _. AppendsPrefix (S.taken sink.old) (S.taken sink.new)
        (string_bytes text.old ++ escaped_line (tree_fault_text (style_of style.entry) fault.now))) }
    // The sink counts a failure if and only if the result is `Device`.
    ensures failures { S.failures sink.new ≡ failures_after result (S.failures sink.old) }
{
    append_line(alloc, style, text, fault).map_err(|_| SinkFault::Memory)?;
    flush_if_full(text, sink)
}

/// Writes a line for each fault, in the order of `faults`. After an error the sink took a prefix of the lines.
fn write_lines<S: Sink>(
    alloc: Global,
    style: LocationStyle<'_>,
    faults: &[TreeFault],
    sink: &mut S,
) -> Result<(), SinkFault>
    // With `Ok` the sink took all lines, otherwise a prefix of them.
    ensures writes { Writes (S.taken sink.old) (S.taken sink.new) result (fault_lines (style_of style.entry) faults.now) }
    // The sink counts a failure if and only if the result is `Device`.
    ensures failures { S.failures sink.new ≡ failures_after result (S.failures sink.old) }
{
    let mut text = String::new(alloc);
    for fault in faults {
        write_line(alloc, style, &mut text, fault, sink)?;
    }
    write_fully(sink, text.as_bytes())
}

/// Reads the files of a tree, and writes a line for each file that has a fault of its own, in the order of the files.
/// If no file has one, writes the line of the tree's fault, for example of a cycle of imports; if the tree is accepted, writes `yes`.
/// Returns whether the tree is accepted.
/// The line of a fault is that of `fault_line` in this style, without `oscip: ` at its start. Fails with `Device` or `Memory`.
pub fn list_tree_faults<R: Threads + Sync, S: Sink>(
    rt: &R,
    alloc: Global,
    sources: &[Source],
    style: LocationStyle<'_>,
    sink: &mut S,
) -> Result<bool, RunFault>
    // The files are sorted by path, each path once.
    requires { ArePathsInOrder sources.now }
    // With `Ok` the sink took exactly the lines of the tree's faults, or `yes`, and the result is whether the tree is accepted. After an
    // error it has at most a prefix of the lines.
    ensures run { IsFaultsRun (style_of style.entry) sources.now (S.taken sink.old) (S.taken sink.new) result }
    // The sink counts a failure if and only if the result is `Device`.
    ensures failures { S.failures sink.new ≡ failures_by is_device result (S.failures sink.old) }
{
    let faults = tree_faults(rt, alloc, sources, READERS)?;
    if faults.is_empty() {
        write_fully(sink, b"yes\n")?;
        return Ok(true);
    }
    write_lines(alloc, style, faults.as_slice(), sink)?;
    Ok(false)
}
