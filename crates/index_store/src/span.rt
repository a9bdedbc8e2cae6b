//! Spans of documents, and which of two spans is nearer.
ghost use Rattle.std.specs.Prelude.{◌≡◌};
ghost use Rattle.index_store.specs.Spans.{is_in_span, is_before, is_nearer, natural, span_between, span_of};

use crate::Position;

/// A half-open range of positions in a document: it contains `start`, but not `end`.
#[derive(Clone, Copy)]
pub(crate) struct Span {
    pub(crate) start: Position,
    pub(crate) end: Position,
}

/// The number, or `None` if it is negative.
fn natural(number: i32) -> Option<u32>
    ensures { result ≡ natural number }
{
    u32::try_from(number).ok()
}

/// The span from line `line` and column `start` to line `last` and column `end`, or `None` if one of the numbers is missing.
fn span_between(
    line: Option<u32>,
    start: Option<u32>,
    last: Option<u32>,
    end: Option<u32>,
) -> Option<Span>
    ensures { result ≡ span_between line start last end }
{
    let start = Position {
        line: line?,
        column: start?,
    };
    let end = Position {
        line: last?,
        column: end?,
    };
    Some(Span { start, end })
}

/// The span that the numbers of a range denote (scip.proto, `Occurrence.range`): three numbers if it is on one line, otherwise four. `None`
/// for another count or a negative number.
pub(crate) fn span_of(range: &[i32]) -> Option<Span>
    ensures { result ≡ span_of range.now }
{
    match range {
        [line, start, end] => {
            let line = natural(*line);
            span_between(line, natural(*start), line, natural(*end))
        }
        [line, start, last, end] => {
            span_between(
                natural(*line),
                natural(*start),
                natural(*last),
                natural(*end),
            )
        }
        _ => None,
    }
}

/// Whether the position `a` is before the position `b` in a document.
fn is_before(a: Position, b: Position) -> bool
    ensures { result ≡ is_before a b }
{
    a.line < b.line || (a.line == b.line && a.column < b.column)
}

/// Whether the span contains the position: it starts at or before the position, and ends after it.
pub(crate) fn is_in_span(at: Position, span: Span) -> bool
    ensures { result ≡ is_in_span at span }
{
    !is_before(at, span.start) && is_before(at, span.end)
}

/// Whether the first span starts later than the second, or starts at the same position and ends earlier.
pub(crate) fn is_nearer(a: Span, b: Span) -> bool
    ensures { result ≡ is_nearer a b }
{
    is_before(b.start, a.start) || (!is_before(a.start, b.start) && is_before(a.end, b.end))
}
