//! The order in which active nodes are discharged. No clause depends on it; it affects only the number of steps.
ghost use Rattle.std.specs.Prelude.{◌<◌, All};

use crate::bits::BitSet;
use residual_graph::positions_of;
use std::alloc::{AllocError, Global};

/// The nodes in discharge order, for each node its index in the order, the set of the indices of scheduled nodes, and the current index.
#[derive(Drop)]
pub(crate) struct DischargeOrder {
    nodes: Vec<u32>,
    positions: Vec<u32>,
    bits: BitSet,
    at: usize,
}

impl DischargeOrder {
    /// The discharge order of these nodes, none of which is scheduled. In topological order a node has received all its inflow before it
    /// is discharged, unless flow must return. Fails if an allocation fails.
    pub(crate) fn of_nodes(
        alloc: Global,
        order: Vec<u32>,
        nodes: u32,
    ) -> Result<DischargeOrder, AllocError>
        requires { All (λ v. v < nodes) order.items }
    {
        let positions = positions_of(alloc, &order, nodes)?;
        let bits = BitSet::new(alloc, order.len())?;
        Ok(DischargeOrder {
            nodes: order,
            positions,
            bits,
            at: 0,
        })
    }

    /// The node at the current index; none if the order is empty.
    pub(crate) fn node(&self) -> Option<u32> {
        self.nodes.get(self.at).copied()
    }

    /// The index of a node in the discharge order; none for a node that isn't in it.
    fn position(&self, node: u32) -> Option<usize> {
        let position = self.positions.get(node as usize).copied()? as usize;
        let stands = self.nodes.get(position).copied()?;
        if stands == node { Some(position) } else { None }
    }

    /// Schedules a node. Not inlined, since callers rarely reach it.
    #[inline(never)]
    pub(crate) fn schedule_node(&mut self, node: u32) {
        if let Some(position) = self.position(node) {
            self.bits.insert_bit(position);
        }
    }

    /// Unschedules a node.
    #[inline(never)]
    pub(crate) fn unschedule_node(&mut self, node: u32) {
        if let Some(position) = self.position(node) {
            self.bits.remove_bit(position);
        }
    }

    /// Advances cyclically to the next scheduled node, from the current one on. Without one it doesn't move.
    #[inline(always)]
    pub(crate) fn advance(&mut self) {
        if !self.bits.has(self.at) {
            self.find_next_scheduled();
        }
    }

    /// Moves the current index to the next scheduled node, from the current index on and then from the beginning.
    #[inline(never)]
    fn find_next_scheduled(&mut self) {
        if let Some(position) = self.bits.next_member(self.at) {
            self.at = position;
            return;
        }
        if let Some(position) = self.bits.next_member(0) {
            self.at = position;
        }
    }
}
