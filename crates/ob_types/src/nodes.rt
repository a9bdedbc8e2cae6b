//! The nodes of the graph of types.

/// A node of the graph of types: a type, identified by its location in a source.
#[derive(Clone, Copy, Drop)]
pub enum Node {
    /// The component at this index of the module table, in a type expression of the module itself.
    Own(usize),
    /// The name of a type in the module itself, by its one or two tokens: the base of a record, or a type guard.
    Name {
        head: u32,
        member: Option<u32>,
    },
    /// A component of the type expression of a reached module's declaration, by the indexes of module, declaration and component.
    Other {
        reached: u32,
        declaration: u32,
        part: usize,
    },
    /// The base of a record of a reached module, by the index of the module and the token number of the RECORD keyword.
    OtherBase {
        reached: u32,
        record: u32,
    },
}

/// A type declaration: the token that it declares, or the indexes of a reached module and a declaration in its interface.
#[derive(Clone, Copy, PartialEq, Eq, Hash, Drop)]
pub enum Named {
    Own(u32),
    Other { reached: u32, declaration: u32 },
}

/// A record type of the module itself or of a reached module, by the token number of its RECORD keyword.
#[derive(Clone, Copy, PartialEq, Eq, Hash, Drop)]
pub enum Record {
    Own(u32),
    Other { reached: u32, record: u32 },
}

/// A field: the token that declares it, or the indexes of a reached module and of a declaration in that module's interface.
#[derive(Clone, Copy, Drop)]
pub enum Field {
    Own(u32),
    Other { reached: u32, declaration: u32 },
}
