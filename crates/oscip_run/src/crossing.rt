//! The engine of the command `crossings`: it writes to any sink the locations where one module uses another one.
ghost use Rattle.std.specs.Prelude.{◌≡◌, ℕ, IfOk, List, map};
ghost use Rattle.byte_sink.specs.Sinks.{failures_by};
ghost use Rattle.texts.specs.Places.{style_of};
ghost use Rattle.index_store.specs.Queries.{location_model};
ghost use Rattle.oscip_run.specs.CrossingRuns.{location_in_file, IsCrossingsRun, IsNoName};
ghost use Rattle.oscip_run.specs.Faults.{is_device};
ghost use Rattle.source_tree.specs.Crossings.{AreUses};
ghost use Rattle.source_tree.specs.Sources.{ArePathsInOrder};
ghost use Rattle.source_tree.specs.declared.source.Source.{Source};

use crate::RunFault;
use crate::engine::READERS;
use byte_sink::Sink;
use cut_solve::SolveFault;
use index_store::{Place, Position, write_lines};
use source_tree::{ImportUses, Source, Span, uses_of_import};
use std::alloc::{AllocError, Global};
use std::thread::Threads;
use texts::LocationStyle;

/// The location of this span in the file at this path, in the type that `index_store` uses for locations.
fn location_in_file<'a>(path: &'a str, span: &Span) -> Place<'a>
    ensures { location_model result ≡ location_in_file path.now span.now }
{
    Place {
        path,
        start: Position {
            line: span.start.line,
            column: span.start.column,
        },
        end: Position {
            line: span.end.line,
            column: span.end.column,
        },
    }
}

/// The locations of these spans in the file at this path, in the order of `spans`.
fn locations_of_spans<'a>(
    alloc: Global,
    path: &'a str,
    spans: &[Span],
) -> Result<Vec<Place<'a>>, AllocError>
    // With `Ok` there is a location for each span, in the order of the spans.
    ensures { IfOk result (λ places. map location_model places.items ≡ map (location_in_file path.now) spans.now) }
{
    let mut places = Vec::new(alloc);
    for span in spans {
        places.push(location_in_file(path, span))?;
    }
    Ok(places)
}

/// Writes a line for each of these spans of the file at this path, with locations in this style.
fn write_locations<S: Sink>(
    alloc: Global,
    style: LocationStyle<'_>,
    path: &str,
    spans: &[Span],
    sink: &mut S,
) -> Result<(), RunFault>
    // If a module m uses a module n at exactly these spans of the file at this path, this is a run that lists where m uses n.
    ensures run { (sources : List Source) (m n : List ℕ) → AreUses sources m n path.now spans.now → IsCrossingsRun (style_of style.entry) sources m n (S.taken sink.old) (S.taken sink.new) result }
    // The sink counts a failure if and only if the result is `Device`.
    ensures failures { S.failures sink.new ≡ failures_by is_device result (S.failures sink.old) }
{
    let places = locations_of_spans(alloc, path, spans)?;
    write_lines(alloc, style, places.as_slice(), sink)?;
    Ok(())
}

/// The fault `NoSuchModule` with a copy of this name, or `Memory` if the copy fails.
fn unknown_module(alloc: Global, name: &str) -> RunFault
    // The fault is `NoSuchModule` with this name, or `Memory`.
    ensures { IsNoName name.now result }
{
    match String::from_str(alloc, name) {
        Ok(name) => RunFault::Solve(SolveFault::NoSuchModule { name }),
        Err(_) => RunFault::Memory,
    }
}

/// Reads the files of a tree, and writes a line `PATH:LINE:COL-LINE:COL` for each qualified name by which module `from` uses module `to`.
/// A location begins at the first byte of the alias and ends after the name that follows the dot; columns count bytes.
/// The lines are in this style and in the order of the file, with the control characters of the path escaped. Their number is the weight of
/// the import, and there are none if `from` doesn't import `to`.
/// Fails with `Tree` if the tree is rejected, then with `Solve` for the first unknown name, and with `Device` or `Memory`. The name `from`
/// is unknown unless a module with a file has it.
pub fn list_tree_crossings<R: Threads + Sync, S: Sink>(
    rt: &R,
    alloc: Global,
    sources: &[Source],
    from: &str,
    to: &str,
    style: LocationStyle<'_>,
    sink: &mut S,
) -> Result<(), RunFault>
    // The files are sorted by path, each path once.
    requires { ArePathsInOrder sources.now }
    // With `Ok` the sink took exactly the lines of the locations where module `from` uses module `to`. After `Device` or `Memory` it has at
    // most a prefix of the lines, after another error nothing.
    ensures run { IsCrossingsRun (style_of style.entry) sources.now from.now to.now (S.taken sink.old) (S.taken sink.new) result }
    // The sink counts a failure if and only if the result is `Device`.
    ensures failures { S.failures sink.new ≡ failures_by is_device result (S.failures sink.old) }
{
    match uses_of_import(rt, alloc, sources, from, to, READERS)? {
        ImportUses::Places { path, spans } => {
            write_locations(alloc, style, path.as_str(), spans.as_slice(), sink)
        }
        ImportUses::NoImporter => Err(unknown_module(alloc, from)),
        ImportUses::NoImported => Err(unknown_module(alloc, to)),
    }
}
