//! A trait whose types name what an index is made from: the files of a tree, the graph of their imports, and a package.

use std::marker::{Brand, PhantomData};
use work_board::NamedTree;

/// A type that names the files of a tree, the graph of their imports, and a package; this serves proofs alone. Entries of another tree or
/// package have another type. In a call with the type `Brand`, the proof of the call chooses what the type names.
pub trait NamedIndex {
    ghost use Rattle.std.specs.Prelude.{ℕ, List};
    ghost use Rattle.ob_imports.specs.Graphs.{ImportGraph};
    ghost use Rattle.ob_board.specs.Reached.{FileModel};

    ghost files: { List FileModel };

    ghost graph: { ImportGraph };

    ghost package_name: { List ℕ };
}

impl NamedIndex for Brand {
    ghost use Rattle.std.specs.Prelude.{[]};

    ghost files = { [] };

    ghost graph = { record { modules = 0; names = []; pairs = [] } };

    ghost package_name = { [] };
}

/// A type that names the scheduler's graph of the tree that `F` names: the tree's modules by number, with the imports among them.
#[derive(Drop)]
pub struct BoardOf<F: NamedIndex>(PhantomData<F>);

impl<F: NamedIndex> NamedTree for BoardOf<F> {
    ghost use Rattle.ob_board.specs.BoardGraphs.{modules_of};

    ghost graph = { modules_of F.graph };
}
