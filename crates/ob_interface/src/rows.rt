//! The entries of an interface: numbers, and spans of one buffer of names.

use module_table::DeclKind;
use std::alloc::Global;

/// A range of the buffer, as two byte offsets.
#[derive(Clone, Copy, Drop)]
pub(crate) struct BufferSpan {
    pub(crate) start: usize,
    pub(crate) end: usize,
}

/// A name of one identifier, or a qualified name of two.
#[derive(Clone, Copy, Drop)]
pub(crate) struct NameRow {
    pub(crate) head: BufferSpan,
    pub(crate) member: Option<BufferSpan>,
}

/// A component of a type expression.
#[derive(Clone, Copy, Drop)]
pub(crate) enum RowPart {
    Array,
    Pointer,
    /// A record type, by the token number of its RECORD keyword.
    Record(u32),
    Procedure,
    /// A type's name, with its byte offset in the file.
    Named { start: u32, name: NameRow },
}

/// A component with the first token of its declaration group.
#[derive(Clone, Copy, Drop)]
pub(crate) struct PartRow {
    pub(crate) declared_by: u32,
    pub(crate) part: RowPart,
}

/// A declaration. Its type expression has the components from index `first_part` to before `parts_end`.
#[derive(Clone, Copy, Drop)]
pub(crate) struct DeclarationRow {
    pub(crate) name: BufferSpan,
    pub(crate) start: u32,
    pub(crate) decl_kind: DeclKind,
    pub(crate) exported: bool,
    pub(crate) record: Option<u32>,
    pub(crate) declared_by: u32,
    pub(crate) first_part: usize,
    pub(crate) parts_end: usize,
}

/// The base of a record.
#[derive(Clone, Copy, Drop)]
pub(crate) struct BaseRow {
    pub(crate) record: u32,
    pub(crate) start: u32,
    pub(crate) name: NameRow,
}

/// An import item.
#[derive(Clone, Copy, Drop)]
pub(crate) struct ImportRow {
    pub(crate) alias: BufferSpan,
    pub(crate) start: u32,
    pub(crate) imported: BufferSpan,
}

/// An index entry by name: the record, if any, and the name of a declaration or import item, with its index.
#[derive(Clone, Copy, Drop)]
pub(crate) struct NameIndexEntry {
    pub(crate) record: Option<u32>,
    pub(crate) name: BufferSpan,
    pub(crate) index: u32,
}

/// An index entry by record: the record, with the index of its base or of a declaration that owns it.
#[derive(Clone, Copy, Drop)]
pub(crate) struct RecordIndexEntry {
    pub(crate) record: u32,
    pub(crate) index: u32,
}

/// The entries of an interface, with the buffer of their names.
#[derive(Drop)]
pub(crate) struct Rows {
    pub(crate) text: Vec<u8>,
    pub(crate) name: BufferSpan,
    pub(crate) declarations: Vec<DeclarationRow>,
    /// The components of one declaration group are adjacent, from the outermost to the innermost.
    pub(crate) parts: Vec<PartRow>,
    pub(crate) bases: Vec<BaseRow>,
    pub(crate) imports: Vec<ImportRow>,
}

impl Rows {
    /// An interface without entries.
    pub(crate) fn new(alloc: Global) -> Rows {
        Rows {
            text: Vec::new(alloc),
            name: BufferSpan { start: 0, end: 0 },
            declarations: Vec::new(alloc),
            parts: Vec::new(alloc),
            bases: Vec::new(alloc),
            imports: Vec::new(alloc),
        }
    }
}
