//! The leaves of a tree.

ghost use Rattle.std.specs.Prelude.{◌≡◌};
ghost use Rattle.ob_tree.specs.Leaves.{leaf_of};

use crate::expression::Literal;
use ob_scan::Kind;

/// A token as a leaf: an identifier or a literal by its token number, any other token by its kind.
#[derive(Clone, Copy)]
pub enum Leaf {
    /// An identifier.
    Name(u32),
    /// A literal.
    Value(Literal, u32),
    /// A reserved word, an operator or a delimiter.
    Word(Kind),
}

/// The leaf of the token with this number and kind.
#[inline(always)]
pub fn leaf_at(number: u32, kind: Kind) -> Leaf
    ensures { result ≡ leaf_of number kind }
{
    match kind {
        Kind::Ident => Leaf::Name(number),
        Kind::Integer => Leaf::Value(Literal::Integer, number),
        Kind::Real => Leaf::Value(Literal::Real, number),
        Kind::Text => Leaf::Value(Literal::Text, number),
        _ => Leaf::Word(kind),
    }
}
