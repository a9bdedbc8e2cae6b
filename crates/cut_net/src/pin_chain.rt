//! Paths of pinned imports.
ghost use Rattle.std.specs.Prelude.{◌<◌, IfNone, IfOk, IfSome, length};
ghost use Rattle.cut_net.specs.Pins.{IsLeastPinChain, PinChain};

use crate::Net;
use crate::cycle::import_edges;
use digraph::shortest_path;
use std::alloc::AllocError;

impl Net {
    /// The shortest path of pinned imports from one module to another, of several the lexicographically smallest, as module numbers. None
    /// if there is none. The path from a module to itself has that module alone. If there is a path, no cut exists. Fails if an
    /// allocation fails.
    pub fn pinned_chain(&self, from: u32, to: u32) -> Result<Option<Vec<u32>>, AllocError>
        // `from` is a module.
        requires from { from < length self.now.names }
        // `to` is a module.
        requires to { to < length self.now.names }
        // The path has the fewest imports of all paths of pinned imports; of several it is the lexicographically smallest.
        ensures found { IfOk result (λ answer. IfSome answer (λ chain. IsLeastPinChain self.now from to chain.items)) }
        // Without a result no path of pinned imports leads from `from` to `to`.
        ensures none { IfOk result (λ answer. IfNone answer (PinChain self.now from to → ⊥)) }
    {
        self.invariants();
        let alloc = *self.names.allocator();
        let pairs = import_edges(alloc, self.pins())?;
        shortest_path(alloc, pairs.as_slice(), self.nodes() as usize, from, to)
    }
}
