//! Ranges of source text as numbers (scip.proto, `Occurrence.range`), lines and columns from 0.
ghost use Rattle.std.specs.Prelude.{◌≡◌};
ghost use Rattle.scip_index.specs.Ranges.{numbers_in, numbers_of, SpanFits};

/// The numbers of a range.
#[derive(Clone, Copy)]
pub enum Range {
    /// No range.
    Nowhere,
    /// On one line: the line, and the columns of the start and of the end.
    SingleLine([i32; 3]),
    /// Over several lines: line and column of the start, line and column of the end.
    MultiLine([i32; 4]),
}

/// The range of a token: it starts at `line` and `column`, and ends at the line `last` before the column `end`. All count from 0.
#[derive(Clone, Copy)]
pub struct TokenSpan {
    pub line: u32,
    pub column: u32,
    pub last: u32,
    pub end: u32,
}

impl TokenSpan {
    /// The range with this start and end.
    pub fn range(&self) -> Range
        requires { SpanFits self.now }
        // Three numbers if start and end are on one line, otherwise four.
        ensures { numbers_of result ≡ numbers_in self.now }
    {
        let (line, column, last, end) = (self.line, self.column, self.last, self.end);
        if line == last {
            Range::SingleLine([line as i32, column as i32, end as i32])
        } else {
            Range::MultiLine([line as i32, column as i32, last as i32, end as i32])
        }
    }
}
