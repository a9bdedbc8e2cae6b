//! Positions and locations in documents.

/// A position between two characters: its line and its column, both zero-based. The document's `position_encoding` says what columns count.
#[derive(Clone, Copy)]
pub struct Position {
    pub line: u32,
    pub column: u32,
}

/// A location: the path of a document, and a half-open range in the document that has the position `start` but not `end`.
#[derive(Clone, Copy)]
pub struct Place<'a> {
    pub path: &'a str,
    pub start: Position,
    pub end: Position,
}
