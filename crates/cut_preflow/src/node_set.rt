//! Sets of nodes with constant-time insertion, removal and choice, without further allocation.
ghost use Rattle.std.specs.Prelude.{◌≡◌, ◌<◌, ℕ, true, false, IfOk, IfSome, IsNone, length, map, replicate, slice_index_or, slice_set};
ghost use Rattle.std.specs.List.{range_with_len};
ghost use Rattle.cut_preflow.specs.NodeSets.{AreInverse, exchanged};

use crate::discharge_order::DischargeOrder;
use std::alloc::{AllocError, Global};
use std::marker::Model;

/// A set of the nodes of a network, with a discharge order for its members. Contracts see it as a flag for each node. `order` is a
/// permutation of all nodes whose first `size` nodes are the members; `position` is its inverse.
#[derive(Drop)]
pub(crate) struct NodeSet {
    order: Vec<u32>,
    position: Vec<u32>,
    size: u32,
    discharge_order: DischargeOrder,
}

impl Model for NodeSet {
    ghost use Rattle.std.specs.Prelude.{List, Bool, map, nat_lt};
    ghost use Rattle.cut_preflow.specs.NodeSets.{IsArranged};

    ghost Value = { List Bool };

    ghost view = { λ s. map (λ p. nat_lt p s.size) s.position.items };

    ghost invariant = { λ s. IsArranged s.order.items s.position.items s.size };
}

/// The nodes in ascending order.
fn ascending_nodes(alloc: Global, nodes: u32) -> Result<Vec<u32>, AllocError>
    ensures { IfOk result (λ v. v.items ≡ range_with_len 0 nodes) }
{
    (0..nodes).collect(alloc)
}

/// Swaps the nodes at the indices `first` and `second` of the permutation, and updates its inverse.
fn swap_nodes(order: &mut [u32], position: &mut [u32], first: u32, second: u32)
    requires inverse { AreInverse order.old position.old }
    requires first { first < length order.old }
    requires second { second < length order.old }
    ensures inverse { AreInverse order.new position.new }
    ensures position { position.new ≡ map (exchanged first second) position.old }
{
    let here = order[first as usize];
    let there = order[second as usize];
    order[first as usize] = there;
    order[second as usize] = here;
    position[here as usize] = second;
    position[there as usize] = first;
}

impl NodeSet {
    /// The empty set, for nodes below `nodes`. No node may be scheduled in the discharge order. Fails if an allocation fails.
    pub(crate) fn new(
        alloc: Global,
        nodes: u32,
        discharge_order: DischargeOrder,
    ) -> Result<NodeSet, AllocError>
        ensures { IfOk result (λ s. s ≡ replicate nodes false) }
    {
        Ok(NodeSet {
            order: ascending_nodes(alloc, nodes)?,
            position: ascending_nodes(alloc, nodes)?,
            size: 0,
            discharge_order,
        })
    }

    /// Adds a node; no change if it is a member.
    pub(crate) fn insert(&mut self, node: u32)
        requires { node < length self.old }
        ensures { self.new ≡ slice_set self.old node true }
    {
        let at = self.position[node as usize];
        if at >= self.size {
            swap_nodes(
                self.order.as_mut_slice(),
                self.position.as_mut_slice(),
                at,
                self.size,
            );
            self.size += 1;
            self.discharge_order.schedule_node(node);
        }
    }

    /// Removes a node; no change if it isn't a member.
    pub(crate) fn remove(&mut self, node: u32)
        requires { node < length self.old }
        ensures { self.new ≡ slice_set self.old node false }
    {
        let at = self.position[node as usize];
        if at < self.size {
            let last = self.size - 1;
            swap_nodes(
                self.order.as_mut_slice(),
                self.position.as_mut_slice(),
                at,
                last,
            );
            self.size = last;
            self.discharge_order.unschedule_node(node);
        }
    }

    /// A member, the last one in the permutation; none if the set is empty.
    pub(crate) fn any_member(&self) -> Option<u32>
        ensures some { IfSome result (λ v. slice_index_or self.now v false ≡ true) }
        ensures none { IsNone result → (v : ℕ) → slice_index_or self.now v false ≡ false }
    {
        if self.size == 0 {
            return None;
        }
        Some(self.order[(self.size - 1) as usize])
    }

    /// Advances the discharge order to a member, if one is scheduled.
    pub(crate) fn advance(&mut self)
        ensures { self.new ≡ self.old }
    {
        self.discharge_order.advance();
    }

    /// The current node of the discharge order, which is a member if one is scheduled.
    pub(crate) fn scheduled_node(&self) -> Option<u32> {
        self.discharge_order.node()
    }
}
