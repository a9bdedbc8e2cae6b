//! The kinds of types.

/// A type, with the nodes of its component types.
#[derive(Drop)]
pub enum Shape<Node, Declaration, Record> {
    /// An array, with the type of its elements. `ARRAY 2, 3 OF T` is an array of arrays: one for each length.
    Array(Node),
    /// A pointer, with the type of its target.
    Pointer(Node),
    /// A record type.
    Record(Record),
    /// A procedure type.
    Procedure,
    /// A name, with the type declaration that it denotes and the type that this declaration gives.
    Named(Declaration, Node),
    /// A name that denotes no type.
    Unknown,
}
