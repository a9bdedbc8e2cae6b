//! The offsets of the line starts of a text.
use crate::Position;
use crate::line_search::line_by_hint;
use std::marker::Model;

/// The offsets of the line starts of a text, sorted. A position is found by binary search. The table takes four bytes for each line.
#[derive(Drop)]
pub struct Lines {
    starts: Vec<u32>,
}

impl Model for Lines {
    ghost use Rattle.std.specs.Prelude.{List, ℕ};
    ghost use Rattle.ob_scan.specs.Position.{IsLineTable};

    ghost Value = { List ℕ };

    ghost view = { λ l. l.starts.items };

    ghost invariant = { λ l. IsLineTable l.starts.items };
}

impl Lines {
    ghost use Rattle.std.specs.Prelude.{◌≡◌, ◌≤◌, ℕ, List, length, leb};
    ghost use Rattle.ob_scan.specs.Position.{IsLineTable, IsPosition, line_starts};

    /// The table with these line starts.
    pub(crate) fn from_starts(starts: Vec<u32>) -> Lines
        requires { IsLineTable starts.items }
        ensures { result ≡ starts.items }
    {
        Lines { starts }
    }

    /// The offsets of the first bytes of the lines, sorted. The first one is 0.
    pub fn starts(&self) -> &[u32]
        // The result has the offsets of the table.
        ensures offsets { result.now ≡ self.now }
        // There is at least one offset, the first is 0, and the offsets are sorted.
        ensures table { IsLineTable self.now }
    {
        self.starts.as_slice()
    }

    /// The line and the column of an offset in the text of this table. The offset may be the length of the text.
    pub fn position(&self, offset: u32) -> Position
        // The position is the one that `position` computes from the bytes.
        ensures { (bytes : List ℕ) → self.now ≡ line_starts bytes → offset ≤ length bytes → IsPosition bytes offset result.line result.column }
    {
        let starts = self.starts.as_slice();
        let line = starts.partition_point(
            |start: &u32| -> bool
                ensures { result ≡ leb start.now offset }
            { *start <= offset },
        ) - 1;
        Position {
            line: line as u32,
            column: offset - starts[line],
        }
    }

    /// The line and the column of an offset in the source with these lines. Tries line `hint` first, and stores the found line in `hint`.
    pub fn position_from_hint(&self, hint: &mut u32, offset: u32) -> Position
        ensures { (bytes : List ℕ) → self.now ≡ line_starts bytes → offset ≤ length bytes → IsPosition bytes offset result.line result.column }
    {
        let starts = self.starts();
        let line = line_by_hint(starts, *hint as usize, offset);
        *hint = line as u32;
        Position {
            line: line as u32,
            column: offset - starts[line],
        }
    }
}
