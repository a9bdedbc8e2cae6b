//! The engines of the commands `index` and `unresolved`, which write to any sink.
ghost use Rattle.std.specs.Prelude.{◌≡◌, ◌++◌, IfErr, IfOk, OnOk, false, map};
ghost use Rattle.std.specs.String.{string_bytes};
ghost use Rattle.byte_sink.specs.Sinks.{failures_after, failures_by, AppendsPrefix, Writes};
ghost use Rattle.ob_board.specs.Unresolved.{unresolved_model};
ghost use Rattle.oscip_job.specs.Jobs.{IsPackage, IsWorkerCount};
ghost use Rattle.oscip_run.specs.Faults.{is_device};
ghost use Rattle.index_run.specs.IndexRuns.{unresolved_line, unresolved_lines, IsHexRun, IsIndexingRun, IsIndexRun, IsUnresolvedRun};
ghost use Rattle.source_tree.specs.Sources.{ArePathsInOrder};
ghost use Rattle.scip_symbol.specs.Outcomes.{is_wrong_part};
ghost use Rattle.texts.specs.Places.{style_of, writer_style};
ghost use Rattle.byte_sink.specs.Pieces.{WritesAllBut};

use crate::{hex_line, write_encoded_index};
use byte_sink::{Sink, SinkFault, flush_if_full, write_fully};
use ob_board::{
    BoardGate, EncodedIndex, IndexOptions, Unresolved, encode_tree_index, unresolved_in_tree,
};
use oscip_job::{IndexRequest, Output};
use oscip_run::{READERS, RunFault};
use scip_index::laws::written_form_is_concatenation;
use source_tree::Source;
use std::alloc::{AllocError, Global};
use std::sync::Wait;
use std::thread::Threads;
use texts::{LocationStyle, LocationWriter};

/// A gate that returns at once: workers that call it between claiming and completing a module never wait in it.
#[derive(Drop)]
pub struct OpenBoardGate;

impl BoardGate for OpenBoardGate {
    fn at(&self, _worker: u32, _turn: u64) {}
}

/// Makes the index of a tree, and writes it in its binary form (scip.proto, `Index`).
/// At most `workers` threads make the index, each of which calls `gate` between claiming and completing a module. The index doesn't depend
/// on the number of threads or on the gate.
/// Fails with `Tree`, `Device` or `Memory`. The call may wait for a lock and for the threads.
pub fn index_to<R: Threads + Wait + Sync, G: BoardGate + Sync, S: Sink>(
    rt: &R,
    alloc: Global,
    sources: &[Source],
    options: &IndexOptions,
    workers: u32,
    gate: &G,
    sink: &mut S,
) -> Result<(), RunFault>
    // The files are sorted by path, each path once.
    requires in_order { ArePathsInOrder sources.now }
    // The package isn't `.` and doesn't begin with a space.
    requires package { is_wrong_part (string_bytes options.now.package) ≡ false }
    // The number of workers is 1 to 64.
    requires workers { IsWorkerCount workers }
    // With `Ok` the sink took exactly the written form of the tree's index. After `Device` or `Memory` it has at most a prefix of it, after
    // `Tree` none.
    ensures run { IsIndexRun sources.now (string_bytes options.now.package) (string_bytes options.now.root) (S.taken sink.old) (S.taken sink.new) result }
    // The sink counts a failure if and only if the result is `Device`.
    ensures failures { S.failures sink.new ≡ failures_by is_device result (S.failures sink.old) }
{
    written_form_is_concatenation();
    let parts = encode_tree_index(rt, alloc, sources, options, workers, gate)?;
    let EncodedIndex {
        metadata,
        records,
        external_symbols,
    } = parts;
    write_encoded_index(alloc, &metadata, records, external_symbols.as_slice(), sink)?;
    Ok(())
}

/// Makes the index of a tree, and writes the bytes that `index_to` would write as a line of lower-case hexadecimal digits. Fails as
/// `index_to` does.
pub fn index_hex_to<R: Threads + Wait + Sync, G: BoardGate + Sync, S: Sink>(
    rt: &R,
    alloc: Global,
    sources: &[Source],
    options: &IndexOptions,
    workers: u32,
    gate: &G,
    sink: &mut S,
) -> Result<(), RunFault>
    // The files are sorted by path, each path once.
    requires in_order { ArePathsInOrder sources.now }
    // The package isn't `.` and doesn't begin with a space.
    requires package { is_wrong_part (string_bytes options.now.package) ≡ false }
    // The number of workers is 1 to 64.
    requires workers { IsWorkerCount workers }
    // With `Ok` the sink took exactly the digits of the index's written form, and an LF. After `Device` or `Memory` it has at most a prefix
    // of this line, after `Tree` none.
    ensures run { IsHexRun sources.now (string_bytes options.now.package) (string_bytes options.now.root) (S.taken sink.old) (S.taken sink.new) result }
    // The sink counts a failure if and only if the result is `Device`.
    ensures failures { S.failures sink.new ≡ failures_by is_device result (S.failures sink.old) }
{
    let mut bytes = Vec::new(alloc);
    index_to(rt, alloc, sources, options, workers, gate, &mut bytes)?;
    hex_line(alloc, bytes.as_slice(), sink)?;
    Ok(())
}

/// The options of an index: copies of the package and the root of a request.
#[tactic(auto, using(crate::proofs::Packages::not_wrong))]
fn copy_options(alloc: Global, indexing: &IndexRequest) -> Result<IndexOptions, AllocError>
    // The package isn't `.` and doesn't begin with a space.
    requires { IsPackage (string_bytes indexing.now.package) }
    ensures package { IfOk result (λ options. string_bytes options.package ≡ string_bytes indexing.now.package) }
    ensures root { IfOk result (λ options. string_bytes options.root ≡ string_bytes indexing.now.root) }
    // With `Ok` the package of the options is a valid part of a symbol.
    ensures right { IfOk result (λ options. is_wrong_part (string_bytes options.package) ≡ false) }
{
    let package = String::from_str(alloc, indexing.package.as_str())?;
    let root = String::from_str(alloc, indexing.root.as_str())?;
    Ok(IndexOptions { package, root })
}

/// Makes the index that a job requests, with the number of threads, the package and the root of the request.
/// Writes the index as bytes if the request's output is a file, and otherwise as a line of hexadecimal digits. Fails as `index_to` does.
pub fn write_requested_index<R: Threads + Wait + Sync, G: BoardGate + Sync, S: Sink>(
    rt: &R,
    alloc: Global,
    indexing: &IndexRequest,
    sources: &[Source],
    gate: &G,
    sink: &mut S,
) -> Result<(), RunFault>
    // The files are sorted by path, each path once.
    requires in_order { ArePathsInOrder sources.now }
    // The package isn't `.` and doesn't begin with a space.
    requires package { IsPackage (string_bytes indexing.now.package) }
    // The number of workers is 1 to 64.
    requires workers { IsWorkerCount indexing.now.workers }
    // `index_to` runs if the output is a file, and `index_hex_to` if it is standard output, with the package and root of the request.
    ensures run { IsIndexingRun sources.now indexing.now (S.taken sink.old) (S.taken sink.new) result }
    // The sink counts a failure if and only if the result is `Device`.
    ensures failures { S.failures sink.new ≡ failures_by is_device result (S.failures sink.old) }
{
    let options = copy_options(alloc, indexing)?;
    match &indexing.output {
        Output::File(_) => index_to(rt, alloc, sources, &options, indexing.workers, gate, sink),
        Output::Hex => index_hex_to(rt, alloc, sources, &options, indexing.workers, gate, sink),
    }
}

/// Appends the line of an unresolved identifier to the text. The writer keeps its style.
fn append_line<'a>(
    writer: &mut LocationWriter<'a>,
    text: &mut String,
    row: &'a Unresolved,
) -> Result<(), AllocError>
    // With `Ok` the text has grown by exactly this line.
    ensures appended { IfOk result (λ _. string_bytes text.new ≡ string_bytes text.old ++ unresolved_line (writer_style writer.old) (unresolved_model row.now)) }
    // The style of the writer is unchanged.
    ensures style { writer_style writer.new ≡ writer_style writer.old }
{
    let (at, name) = (row.at, &row.name);
    writer.append_location(text, row.path.as_str(), at.line, at.column)?;
    writeln!(text, " {name}")
}

/// Appends the line of an unresolved identifier to the text. If the text is then long, writes it to the sink and empties it.
fn write_line<'a, S: Sink>(
    writer: &mut LocationWriter<'a>,
    text: &mut String,
    row: &'a Unresolved,
    sink: &mut S,
) -> Result<(), SinkFault>
    // With `Ok` the sink took the old text and the line, without what the new text still holds.
    ensures gathered { OnOk result (WritesAllBut (S.taken sink.old) (S.taken sink.new)
        (string_bytes text.old ++ unresolved_line (writer_style writer.old) (unresolved_model row.now)) (string_bytes text.new)) }
    // After an error the sink took a prefix of the old text and the line.
    ensures error_prefix { IfErr result (λ _. AppendsPrefix (S.taken sink.old) (S.taken sink.new)
        (string_bytes text.old ++ unresolved_line (writer_style writer.old) (unresolved_model row.now))) }
    // The style of the writer is unchanged.
    ensures style { writer_style writer.new ≡ writer_style writer.old }
    // The sink counts a failure if and only if the result is `Device`.
    ensures failures { S.failures sink.new ≡ failures_after result (S.failures sink.old) }
{
    append_line(writer, text, row).map_err(|_| SinkFault::Memory)?;
    flush_if_full(text, sink)
}

/// Writes a line for each unresolved identifier, in the order of `rows`. After an error the sink took a prefix of the lines.
fn write_lines<S: Sink>(
    alloc: Global,
    style: LocationStyle<'_>,
    rows: &[Unresolved],
    sink: &mut S,
) -> Result<(), SinkFault>
    // With `Ok` the sink took all lines, otherwise a prefix of them.
    ensures writes { Writes (S.taken sink.old) (S.taken sink.new) result (unresolved_lines (style_of style.entry) (map unresolved_model rows.now)) }
    // The sink counts a failure if and only if the result is `Device`.
    ensures failures { S.failures sink.new ≡ failures_after result (S.failures sink.old) }
{
    let mut writer = LocationWriter::new(style);
    let mut text = String::new(alloc);
    for row in rows {
        write_line(&mut writer, &mut text, row, sink)?;
    }
    write_fully(sink, text.as_bytes())
}

/// Writes a line `PATH:LINE:COL NAME` for each identifier of a tree that can't be resolved and isn't predeclared.
/// LINE and COL are where the identifier begins, in this style, with columns in bytes. The control characters of a path are escaped.
/// The lines are in the order of the files, and within a file by position. Fails with `Tree`, `Device` or `Memory`.
pub fn unresolved_to<R: Threads + Sync, S: Sink>(
    rt: &R,
    alloc: Global,
    sources: &[Source],
    style: LocationStyle<'_>,
    sink: &mut S,
) -> Result<(), RunFault>
    // The files are sorted by path, each path once.
    requires { ArePathsInOrder sources.now }
    // With `Ok` the sink took exactly the lines of the tree's unresolved identifiers. After `Device` or `Memory` it has at most a prefix of
    // the lines, after `Tree` nothing.
    ensures run { IsUnresolvedRun (style_of style.entry) sources.now (S.taken sink.old) (S.taken sink.new) result }
    // The sink counts a failure if and only if the result is `Device`.
    ensures failures { S.failures sink.new ≡ failures_by is_device result (S.failures sink.old) }
{
    let rows = unresolved_in_tree(rt, alloc, sources, READERS)?;
    write_lines(alloc, style, rows.as_slice(), sink)?;
    Ok(())
}
