//! Current arcs: how many leading residual arcs of each node need no inspection.

use std::alloc::{AllocError, Global};

/// For each node the index of its current arc (Goldberg and Tarjan 1988): the number of its leading residual arcs over which no push is
/// possible. A push needs residual capacity and a head one label lower. Labels only rise, and an arc gains residual capacity only by a
/// push over the opposite arc, from a higher label. So an arc that can't be pushed over stays so until its node is relabelled, and a
/// node's arcs are scanned once for each of its labels instead of once for each push. No clause states this: a caller that must know that
/// no push is possible also inspects the skipped arcs.
#[derive(Drop)]
pub struct CurrentArcs {
    indices: Vec<u32>,
    any: bool,
}

impl CurrentArcs {
    /// The current arc of each of `nodes` nodes is its first one, with index 0. Fails if an allocation fails.
    pub fn new(alloc: Global, nodes: u32) -> Result<CurrentArcs, AllocError> {
        Ok(CurrentArcs {
            indices: vec![in alloc; 0u32; nodes as usize]?,
            any: false,
        })
    }

    /// The index of the node's current arc; 0 if there is no such node.
    pub fn current_index(&self, node: u32) -> usize {
        self.indices.get(node as usize).copied().unwrap_or(0) as usize
    }

    /// Sets the index of the node's current arc.
    pub fn set_current(&mut self, node: u32, index: usize) {
        if let Some(written) = self.indices.get_mut(node as usize) {
            *written = u32::try_from(index).unwrap_or(0);
            self.any = true;
        }
    }

    /// Resets all indices to 0.
    pub fn reset_all(&mut self) {
        if self.any {
            self.indices.as_mut_slice().fill(0);
            self.any = false;
        }
    }
}
