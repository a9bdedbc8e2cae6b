//! A trait whose types name the files of a tree.

use std::marker::Brand;

/// A type that names the files of a tree; this serves proofs alone. In a call with the type `Brand`, the proof of the call chooses the
/// files that the type names.
pub(crate) trait NamedFiles {
    ghost use Rattle.std.specs.Prelude.{List};
    ghost use Rattle.ob_board.specs.Reached.{FileModel};

    ghost files: { List FileModel };
}

impl NamedFiles for Brand {
    ghost use Rattle.std.specs.Prelude.{[]};

    ghost files = { [] };
}
