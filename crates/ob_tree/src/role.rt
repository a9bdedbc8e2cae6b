//! The roles of identifiers in a tree.

/// The role of an identifier at its location in a tree.
#[derive(Clone, Copy, Drop)]
pub enum Role {
    /// It is declared here; `is_exported` states whether it has the export mark. A parameter never has one.
    Declares { is_exported: bool },
    /// The first name of an import item, which declares the alias.
    Aliases,
    /// The name after `:=` in an import item: the imported module's own name.
    Imports,
    /// It is looked up by the scope rule: the head of a designator, qualident or label, or the variable of a FOR.
    Uses,
    /// The second identifier of a qualident.
    Completes,
    /// A field name in a selector.
    Selects,
    /// The module's own name.
    Names,
    /// The name after END, which must equal the identifier with this token number.
    Repeats(u32),
}
