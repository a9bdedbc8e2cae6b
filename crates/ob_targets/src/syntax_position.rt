//! The syntactic positions of identifiers.

/// The syntactic position of an identifier in its module. The module table has a list of entries for each kind of entry; an index is that
/// of an entry in the list of its kind.
#[derive(Clone, Copy, Drop)]
pub enum SyntaxPosition {
    /// The module's own name after MODULE.
    OwnName,
    /// In the import item at this index: the alias, or the name of the imported module.
    Item(usize),
    /// The declared identifier at this index, unless it is the alias of an import item.
    Declaration(usize),
    /// The name after an END, by its index in the list of the names after END.
    End(usize),
    /// The use at this index: the head of a designator, the first identifier of a qualident, a label, or the variable of a FOR.
    Use(usize),
    /// The name after the dot of the selector at this index, in a designator.
    Selected(usize),
    /// The second identifier of a qualident, after the dot. The first one is the use at this index.
    QualidentMember(usize),
    /// No entry of the module table has the identifier.
    Nowhere,
}
