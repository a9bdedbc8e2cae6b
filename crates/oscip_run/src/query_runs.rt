//! The engine of the commands that query an index: `def`, `refs`, `symbol` and `symbols`.
ghost use Rattle.std.specs.Prelude.{◌≡◌};
ghost use Rattle.byte_sink.specs.Sinks.{failures_by};
ghost use Rattle.index_store.specs.Faults.{is_device as is_query_device};
ghost use Rattle.oscip_run.specs.AskedRuns.{position_of, which_of, IsAskedRun, IsIndexRun, IsLocationsRun};
ghost use Rattle.oscip_run.specs.Faults.{is_device};
ghost use Rattle.texts.specs.Places.{style_of};

use crate::RunFault;
use byte_sink::Sink;
use index_store::{Position, QueryFault, Which, list_symbols, query, query_symbol, write_symbol};
use oscip_job::{AskedSymbol, IndexQuestion, Places};
use std::alloc::Global;
use texts::LocationStyle;

/// Converts a position of a question to a position of `index_store`, without the path.
fn position_of(at: &oscip_job::Position) -> Position
    ensures { result ≡ position_of at.now }
{
    Position {
        line: at.line,
        column: at.column,
    }
}

/// Converts the kind of occurrence that a question asks for to the type that `index_store` uses.
fn which_of(places: Places) -> Which
    ensures { result ≡ which_of places }
{
    match places {
        Places::Definitions => Which::Definitions,
        Places::References => Which::References,
    }
}

/// Writes the locations where a symbol is defined, or where it is used and not defined. The symbol is given by a position or by its text.
fn write_locations<S: Sink>(
    alloc: Global,
    places: Places,
    symbol: &AskedSymbol,
    index: &[u8],
    style: LocationStyle<'_>,
    sink: &mut S,
) -> Result<(), QueryFault>
    // This is the run of `query` at the position, or of `query_symbol` for the text of the symbol.
    ensures run { IsLocationsRun (style_of style.entry) index.now places symbol.now (S.taken sink.old) (S.taken sink.new) result }
    // The sink counts a failure if and only if the result is `Device`.
    ensures failures { S.failures sink.new ≡ failures_by is_query_device result (S.failures sink.old) }
{
    let which = which_of(places);
    match symbol {
        AskedSymbol::At(at) => {
            query(
                alloc,
                index,
                at.path.as_str(),
                position_of(at),
                which,
                style,
                sink,
            )
        }
        AskedSymbol::Named { symbol, path } => {
            query_symbol(
                alloc,
                index,
                path.as_deref(),
                symbol.as_str(),
                which,
                style,
                sink,
            )
        }
    }
}

/// Writes the result of a question about an index.
fn write_query<S: Sink>(
    alloc: Global,
    question: &IndexQuestion,
    index: &[u8],
    style: LocationStyle<'_>,
    sink: &mut S,
) -> Result<(), QueryFault>
    // This is the run of the query of `index_store` that answers the question.
    ensures run { IsIndexRun (style_of style.entry) index.now question.now (S.taken sink.old) (S.taken sink.new) result }
    // The sink counts a failure if and only if the result is `Device`.
    ensures failures { S.failures sink.new ≡ failures_by is_query_device result (S.failures sink.old) }
{
    match question {
        IndexQuestion::PlacesOf { places, symbol } => write_locations(
            alloc, *places, symbol, index, style, sink,
        ),
        IndexQuestion::SymbolAt(at) => {
            write_symbol(alloc, index, at.path.as_str(), position_of(at), sink)
        }
        IndexQuestion::Symbols { path } => list_symbols(alloc, index, path.as_deref(), style, sink),
    }
}

/// Answers a question about the index that the bytes encode.
/// Writes a line for each location where a symbol is defined, or for each location where it is used and not defined. For other questions
/// writes the line of the symbol at a position, or a line for each definition. Without a result nothing is written.
/// Locations are written in this style. The position in the question counts from 0 in each style.
/// Fails with `Query`, `Device` or `Memory`.
pub fn answer_question<S: Sink>(
    alloc: Global,
    question: &IndexQuestion,
    index: &[u8],
    style: LocationStyle<'_>,
    sink: &mut S,
) -> Result<(), RunFault>
    // The run is that of the query for the question's symbol or position. After `Device` or `Memory` the sink has at most a prefix of the
    // lines, after another error none.
    ensures run { IsAskedRun (style_of style.entry) index.now question.now (S.taken sink.old) (S.taken sink.new) result }
    // The sink counts a failure if and only if the result is `Device`.
    ensures failures { S.failures sink.new ≡ failures_by is_device result (S.failures sink.old) }
{
    write_query(alloc, question, index, style, sink)?;
    Ok(())
}
