//! Line lookups that begin at the line that was found last.
ghost use Rattle.std.specs.Prelude.{◌≡◌, ◌≤◌, ◌<◌, length, leb};
ghost use Rattle.std.specs.Bool.{OnTrue};
ghost use Rattle.ob_scan.specs.Position.{IsLineTable};
ghost use Rattle.ob_scan.specs.LineLookup.{IsInLine};

/// Whether an offset is in this line.
fn is_in_line(starts: &[u32], line: usize, offset: u32) -> bool
    requires { line < length starts.now }
    ensures { OnTrue result (IsInLine starts.now line offset) }
{
    if offset < starts[line] {
        return false;
    }
    match starts.get(line + 1) {
        Some(next) => offset < *next,
        None => true,
    }
}

/// The line of an offset, by a binary search.
fn line_by_search(starts: &[u32], offset: u32) -> usize
    requires { IsLineTable starts.now }
    ensures { IsInLine starts.now result offset }
{
    starts.partition_point(
        |start: &u32| -> bool
            ensures { result ≡ leb start.now offset }
        { *start <= offset },
    ) - 1
}

/// The line of an offset. Tries line `hint` and the seven lines after it, then a binary search.
pub(crate) fn line_by_hint(starts: &[u32], hint: usize, offset: u32) -> usize
    requires { IsLineTable starts.now }
    ensures { IsInLine starts.now result offset }
{
    /// The number of lines that are tried before the binary search.
    const MAX_PROBES: usize = 8;
    for line in hint..hint.saturating_add(MAX_PROBES).min(starts.len()) {
        if is_in_line(starts, line, offset) {
            return line;
        }
    }
    line_by_search(starts, offset)
}
