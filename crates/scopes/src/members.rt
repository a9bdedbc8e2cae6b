//! The members of a module: its declared identifiers, each with its scope.

use module_table::{DeclKind, Keyed};

/// The scope of a declared identifier.
#[derive(Clone, Copy, PartialEq, Eq, Hash)]
pub enum Scope {
    /// The block with this first token; the module's block is 0.
    Block(u32),
    /// The record with this RECORD keyword.
    Record(u32),
}

/// A declared identifier, by its token number, with its scope and kind.
#[derive(Clone, Copy)]
pub struct Member {
    pub place: Scope,
    pub number: u32,
    pub decl_kind: DeclKind,
}

impl Keyed for Member {
    ghost number_in = { λ member. member.number };

    fn key(&self) -> u32 {
        self.number
    }
}
