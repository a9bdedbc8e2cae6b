//! Lines and columns, computed from the bytes.
ghost use Rattle.std.specs.Prelude.{◌≡◌, ◌≤◌, ◌<◌, ℕ, false, length, IfOk};
ghost use Rattle.ob_scan.specs.Position.{IsPosition, ends_line, line_starts};

use crate::lanes::lanes_before_line_end;
use crate::{Lines, Position};
use std::alloc::{AllocError, Global};
use texts::lanes::LANES;

/// Whether the byte at `at` is the last one of a line end.
fn ends_line(bytes: &[u8], at: usize) -> bool
    requires { at < length bytes.now }
    ensures { result ≡ ends_line bytes.now at }
{
    match bytes[at] {
        b'\n' => true,
        b'\r' => bytes.get(at + 1) != Some(&b'\n'),
        _ => false,
    }
}

/// The line and the column of an offset, which may be the length of the text. A line ends with LF, CR LF, or a CR alone, and the bytes of
/// its line end belong to it. Takes time linear in the offset; for many offsets use `Lines`.
pub fn position(bytes: &[u8], offset: u32) -> Position
    requires { offset ≤ length bytes.now }
    // The line is the number of line ends before the offset, the column its distance from the start of that line.
    ensures { IsPosition bytes.now offset result.line result.column }
{
    let mut line = 0;
    let mut first = 0;
    for at in 0..offset {
        if ends_line(bytes, at as usize) {
            line += 1;
            first = at + 1;
        }
    }
    Position {
        line,
        column: offset - first,
    }
}

/// Skips bytes that end no line, sixteen at once, and returns the offset after the skipped bytes. If fewer than sixteen bytes are left
/// before `end`, it skips none of them.
fn skip_within_line(bytes: &[u8], from: usize, end: usize) -> usize
    requires ordered { from ≤ end }
    requires within { end ≤ length bytes.now }
    ensures lower { from ≤ result }
    ensures before { result ≤ end }
    ensures passed { (k : ℕ) → from ≤ k → k < result → ends_line bytes.now k ≡ false }
{
    let mut at = from;
    'lanes: while end - at >= LANES {
        let passed = lanes_before_line_end(bytes, at);
        at += passed;
        if passed < LANES {
            return at;
        }
    }
    at
}

/// The table of the line starts of a text. For a text of more than 4 GiB it has the line starts in the first 4 GiB. Fails if an allocation
/// fails.
pub fn lines(alloc: Global, bytes: &[u8]) -> Result<Lines, AllocError>
    // The table has exactly the offsets below 2^32 at which lines begin.
    ensures { IfOk result (λ l. l ≡ line_starts bytes.now) }
{
    let end = bytes.len().min(u32::MAX as usize);
    let mut starts = vec![in alloc; 0]?;
    let mut last = skip_within_line(bytes, 0, end);
    'ends: while last < end {
        if ends_line(bytes, last) {
            starts.push(last as u32 + 1)?;
        }
        last = skip_within_line(bytes, last + 1, end);
    }
    Ok(Lines::from_starts(starts))
}
