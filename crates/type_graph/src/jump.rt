//! Jumps of a search for a field.

/// How a search for a field continues from a record that lacks it. Bases are skipped that are known to lack the field too.
#[derive(Clone, Copy, Drop)]
pub enum Jump<R> {
    /// At this ancestor; no record below it has the field.
    Onto(R),
    /// At the parent of this record; neither this record nor any below it has the field.
    From(R),
}
