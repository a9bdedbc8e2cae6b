//! The fields that a graph lists.

/// A field that a record declares itself.
#[derive(Clone, Copy, Drop)]
pub struct RecordField<'a, R> {
    /// The record.
    pub of_record: R,
    /// The field's name.
    pub name: &'a [u8],
}
