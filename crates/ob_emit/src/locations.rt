//! The ranges of identifiers and constructs as plain numbers. The functions of `ranges` return the same ranges in vectors, which they
//! allocate. In the clauses of this file:
//! - `in_text`: the tokens are nonempty ranges of the bytes, each before the next. `short`: there are fewer than 2^31 bytes.
//! - `lined`: `lines` has the offsets of the line starts. `fits`: each number of the span is less than 2^31.
ghost use Rattle.std.specs.Prelude.{◌≡◌, ◌≤◌, ◌<◌, ◌^◌, ℕ, List, length};
ghost use Rattle.ob_scan.specs.Position.{line_starts};
ghost use Rattle.ob_scan.specs.Spelling.{AreInText};
ghost use Rattle.ob_emit.specs.Documents.{column_of, declaration_range, enclosing_range, line_number, token_range, span_of};
ghost use Rattle.scip_index.specs.Ranges.{numbers_in, numbers_of, SpanFits};

use crate::hinted_lookup::{Hints, decl_group_by_hints};
use crate::ranges::token_offsets;
use ob_scan::{Lines, Position};
use ob_view::{Reference, Target, View};
use scip_index::{Range, TokenSpan};

/// The line and the column of an offset, both from 0. The search begins at the line in `hint`, and stores the found line there.
fn position_by_hint(lines: &Lines, hint: &mut u32, offset: u32) -> Position
    ensures line { (bytes : List ℕ) → lines.now ≡ line_starts bytes → offset ≤ length bytes → result.line ≡ line_number bytes offset }
    ensures column { (bytes : List ℕ) → lines.now ≡ line_starts bytes → offset ≤ length bytes → result.column ≡ column_of bytes offset }
{
    lines.position_from_hint(hint, offset)
}

/// The line and the column of the start of token `first` and of the end of token `last`. The search for the lines begins at the line in
/// `hint`, and stores the last found line there.
fn span_of(view: &View<'_>, lines: &Lines, hint: &mut u32, first: usize, last: usize) -> TokenSpan
    requires in_text { AreInText view.now.bytes view.now.tokens }
    requires short { length view.now.bytes < 2 ^ 31 }
    requires lined { lines.now ≡ line_starts view.now.bytes }
    ensures numbers { numbers_in result ≡ span_of view.now first last }
    ensures fits { SpanFits result }
{
    let (start, _) = token_offsets(view, first);
    let (_, end) = token_offsets(view, last);
    let from = position_by_hint(lines, hint, start);
    let to = position_by_hint(lines, hint, end);
    TokenSpan {
        line: from.line,
        column: from.column,
        last: to.line,
        end: to.column,
    }
}

/// The range of the construct that declares a target; `Nowhere` if the module has none for it. The searches begin at the entries in `hint`.
fn declaration_range(view: &View<'_>, lines: &Lines, hint: &mut Hints, target: Target) -> Range
    requires in_text { AreInText view.now.bytes view.now.tokens }
    requires short { length view.now.bytes < 2 ^ 31 }
    requires lined { lines.now ≡ line_starts view.now.bytes }
    ensures { numbers_of result ≡ declaration_range view.now target }
{
    let mut line = hint.line;
    match target {
        Target::Declared(number) => match decl_group_by_hints(view, hint, number) {
            Some(by) => {
                let (first, last) = (by.first as usize, by.last as usize);
                span_of(view, lines, &mut line, first, last).range()
            }
            None => Range::Nowhere,
        },
        Target::Own => {
            let last = view.tokens().len().saturating_sub(1);
            span_of(view, lines, &mut line, 0, last).range()
        }
        Target::Imported { .. } => Range::Nowhere,
        Target::External { .. } => Range::Nowhere,
        Target::Module(_) => Range::Nowhere,
        Target::Predeclared => Range::Nowhere,
        Target::Unresolved => Range::Nowhere,
    }
}

/// The range of the construct that declares the target, if the reference is the declaration itself, and otherwise `Nowhere`. The searches
/// begin at the entries in `hint`.
pub(crate) fn enclosing_range(
    view: &View<'_>,
    lines: &Lines,
    hint: &mut Hints,
    reference: &Reference,
) -> Range
    requires in_text { AreInText view.now.bytes view.now.tokens }
    requires short { length view.now.bytes < 2 ^ 31 }
    requires lined { lines.now ≡ line_starts view.now.bytes }
    ensures { numbers_of result ≡ enclosing_range view.now reference.now }
{
    if reference.role != 1 {
        return Range::Nowhere;
    }
    declaration_range(view, lines, hint, reference.target)
}

/// The line and the column of the start and of the end of token `number`. The search for the lines begins at the line in `hint`, and stores
/// the last found line there.
pub(crate) fn token_span(view: &View<'_>, lines: &Lines, hint: &mut u32, number: u32) -> TokenSpan
    requires in_text { AreInText view.now.bytes view.now.tokens }
    requires short { length view.now.bytes < 2 ^ 31 }
    requires lined { lines.now ≡ line_starts view.now.bytes }
    ensures numbers { numbers_in result ≡ token_range view.now number }
    ensures fits { SpanFits result }
{
    span_of(view, lines, hint, number as usize, number as usize)
}
