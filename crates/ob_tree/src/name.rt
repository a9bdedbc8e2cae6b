//! Names, and lists of one or more elements (Oberon-07 report, section 4). An identifier is represented by its token number, from 0.

/// A list of one or more elements; the separator depends on the production that contains it.
#[derive(Drop)]
pub struct OneOrMore<T: Drop> {
    pub first: T,
    pub rest: Vec<T>,
}

/// A qualified identifier: a name, or `head.member` with a name exported by the imported module `head`. Both are token numbers.
#[derive(Clone, Copy)]
pub struct Qualident {
    pub head: u32,
    pub member: Option<u32>,
}

/// An identifier that is declared. `is_exported` states whether the export mark `*` follows.
#[derive(Clone, Copy)]
pub struct Identdef {
    pub name: u32,
    pub is_exported: bool,
}
