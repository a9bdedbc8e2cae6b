//! Positions by line and column.

/// A position in a text by line and column, both from 0. Columns count bytes.
#[derive(Clone, Copy, PartialEq, Eq, Debug)]
pub struct Position {
    /// The number of line ends before the position.
    pub line: u32,
    /// The number of bytes between the start of the line and the position.
    pub column: u32,
}
