//! Tokens of a tree with their roles.

use ob_tree::role::Role;

/// A token of a tree with its role. Identifiers and literals carry their token number.
#[derive(Clone, Copy, Drop)]
pub(crate) enum Item {
    /// An identifier with its role.
    Identifier(Role, u32),
    /// A literal.
    Value(u32),
    /// A reserved word, an operator or a delimiter.
    Word,
}
