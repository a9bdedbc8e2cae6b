//! The ranges of identifiers and constructs, in lines and columns, as vectors of numbers. In the clauses of this file:
//! - `in_text`: the tokens are nonempty ranges of the bytes, each before the next. `short`: there are fewer than 2^31 bytes.
//! - `lined`: `lines` has the offsets of the line starts.
ghost use Rattle.std.specs.Prelude.{◌≡◌, ◌≤◌, ◌<◌, ◌^◌, IfOk, length};
ghost use Rattle.ob_scan.specs.Position.{line_starts};
ghost use Rattle.ob_scan.specs.Spelling.{AreInText};
ghost use Rattle.ob_scan.specs.Texts.{token_at};
ghost use Rattle.ob_emit.specs.Documents.{column_of, declaration_range, enclosing_range, line_number, token_range, span_of};
ghost use Rattle.scip_index.specs.Ranges.{range_between};
ghost use Rattle.std.specs.Prelude.{List, ℕ};

use crate::own_declarations::decl_group_of;
use ob_scan::{Lines, Position};
use ob_view::{Reference, Target, View};
use std::alloc::{AllocError, Global};

/// The line and the column of an offset, both from 0.
pub(crate) fn position_at(lines: &Lines, offset: u32) -> Position
    ensures line { (bytes : List ℕ) → lines.now ≡ line_starts bytes → offset ≤ length bytes → result.line ≡ line_number bytes offset }
    ensures column { (bytes : List ℕ) → lines.now ≡ line_starts bytes → offset ≤ length bytes → result.column ≡ column_of bytes offset }
{
    lines.position(offset)
}

/// The numbers of a range (scip.proto, `Occurrence.range`): line, column and end column for a range on one line; line, column, last line
/// and end column for a range over several lines. The requirements keep each number within 32 bits with a sign.
fn range_between(
    alloc: Global,
    line: u32,
    column: u32,
    last: u32,
    end: u32,
) -> Result<Vec<i32>, AllocError>
    requires line { line < 2 ^ 31 }
    requires column { column < 2 ^ 31 }
    requires last { last < 2 ^ 31 }
    requires end { end < 2 ^ 31 }
    ensures { IfOk result (λ v. v.items ≡ range_between line column last end) }
{
    if line == last {
        Ok(vec![in alloc; line as i32, column as i32, end as i32]?)
    } else {
        Ok(vec![in alloc; line as i32, column as i32, last as i32, end as i32]?)
    }
}

/// The offsets of the start and of the end of a token; both are 0 for a number after the last token.
pub(crate) fn token_offsets(view: &View<'_>, number: usize) -> (u32, u32)
    ensures start { result.0 ≡ (token_at view.now.tokens number).start }
    ensures end { result.1 ≡ (token_at view.now.tokens number).end }
{
    match view.tokens().get(number) {
        Some(token) => (token.start, token.end),
        None => (0, 0),
    }
}

/// The range from the start of token `first` to the end of token `last`.
pub(crate) fn span_of(
    alloc: Global,
    view: &View<'_>,
    lines: &Lines,
    first: usize,
    last: usize,
) -> Result<Vec<i32>, AllocError>
    requires in_text { AreInText view.now.bytes view.now.tokens }
    requires short { length view.now.bytes < 2 ^ 31 }
    requires lined { lines.now ≡ line_starts view.now.bytes }
    ensures { IfOk result (λ v. v.items ≡ span_of view.now first last) }
{
    let (start, _) = token_offsets(view, first);
    let (_, end) = token_offsets(view, last);
    let from = position_at(lines, start);
    let to = position_at(lines, end);
    range_between(alloc, from.line, from.column, to.line, to.column)
}

/// The range of the construct that declares a target: of its declaration group, or of the whole module. An empty list if this module has no
/// such construct.
fn declaration_range(
    alloc: Global,
    view: &View<'_>,
    lines: &Lines,
    target: Target,
) -> Result<Vec<i32>, AllocError>
    requires in_text { AreInText view.now.bytes view.now.tokens }
    requires short { length view.now.bytes < 2 ^ 31 }
    requires lined { lines.now ≡ line_starts view.now.bytes }
    ensures { IfOk result (λ v. v.items ≡ declaration_range view.now target) }
{
    match target {
        Target::Declared(number) => match decl_group_of(view, number) {
            Some(by) => span_of(alloc, view, lines, by.first as usize, by.last as usize),
            None => Ok(Vec::new(alloc)),
        },
        Target::Own => {
            let last = view.tokens().len().saturating_sub(1);
            span_of(alloc, view, lines, 0, last)
        }
        Target::Imported { .. } => Ok(Vec::new(alloc)),
        Target::External { .. } => Ok(Vec::new(alloc)),
        Target::Module(_) => Ok(Vec::new(alloc)),
        Target::Predeclared => Ok(Vec::new(alloc)),
        Target::Unresolved => Ok(Vec::new(alloc)),
    }
}

/// The range of the construct that declares the target, if the reference is the declaration itself (role 1), and otherwise an empty list.
pub(crate) fn enclosing_range(
    alloc: Global,
    view: &View<'_>,
    lines: &Lines,
    reference: &Reference,
) -> Result<Vec<i32>, AllocError>
    requires in_text { AreInText view.now.bytes view.now.tokens }
    requires short { length view.now.bytes < 2 ^ 31 }
    requires lined { lines.now ≡ line_starts view.now.bytes }
    ensures { IfOk result (λ v. v.items ≡ enclosing_range view.now reference.now) }
{
    if reference.role != 1 {
        return Ok(Vec::new(alloc));
    }
    declaration_range(alloc, view, lines, reference.target)
}

/// The range of token `number`, from its start to its end.
pub(crate) fn token_range(
    alloc: Global,
    view: &View<'_>,
    lines: &Lines,
    number: u32,
) -> Result<Vec<i32>, AllocError>
    requires in_text { AreInText view.now.bytes view.now.tokens }
    requires short { length view.now.bytes < 2 ^ 31 }
    requires lined { lines.now ≡ line_starts view.now.bytes }
    ensures { IfOk result (λ v. v.items ≡ token_range view.now number) }
{
    span_of(alloc, view, lines, number as usize, number as usize)
}
