//! The excess of each node, and the set of active nodes.
ghost use Rattle.std.specs.Prelude.{◌≡◌, ◌≢◌, ◌+◌, ◌^◌, ◌<◌, ◌≤◌, ℕ, IfOk, length, slice_index, slice_set};
ghost use Rattle.cut_preflow.specs.Total.{total};
ghost use Rattle.cut_preflow.specs.Preflow.{import_in, into, opening_flows};
ghost use Rattle.cut_preflow.specs.Indexed.{AreActive, with_added_excess, with_moved_excess};

use crate::discharge_order::DischargeOrder;
use crate::ends::FlowEnds;
use crate::node_set::NodeSet;
use cut_net::Priced;
use std::alloc::{AllocError, Global};

/// The excess of each node, and the set of active nodes.
#[derive(Drop)]
pub(crate) struct Excesses {
    pub(crate) each: Vec<u64>,
    pub(crate) active: NodeSet,
}

/// Sets the excess of a node, and updates whether it is active. The source and the sink never are.
#[inline(always)]
fn set_excess(ends: FlowEnds, excesses: &mut Vec<u64>, active: &mut NodeSet, node: u32, excess: u64)
    requires node { node < ends.nodes }
    requires active { AreActive ends excesses.old.items active.old }
    ensures excesses { excesses.new.items ≡ slice_set excesses.old.items node excess }
    ensures active { AreActive ends excesses.new.items active.new }
{
    excesses[node as usize] = excess;
    if node != ends.source && node != ends.sink {
        if excess > 0 {
            active.insert(node);
        } else {
            active.remove(node);
        }
    }
}

/// Adds an amount to the excess of a node, except the source's, which isn't recorded.
pub(crate) fn add_excess(
    ends: FlowEnds,
    excesses: &mut Vec<u64>,
    active: &mut NodeSet,
    node: u32,
    amount: u64,
)
    requires node { node < ends.nodes }
    requires active { AreActive ends excesses.old.items active.old }
    requires fits { node ≢ ends.source → slice_index excesses.old.items node + amount < 2 ^ 64 }
    ensures excesses { excesses.new.items ≡ with_added_excess ends.source excesses.old.items node amount }
    ensures active { AreActive ends excesses.new.items active.new }
{
    if node != ends.source {
        let excess = excesses[node as usize] + amount;
        set_excess(ends, excesses, active, node, excess);
    }
}

/// Moves an amount of excess from one node to another.
pub(crate) fn move_excess(
    ends: FlowEnds,
    excesses: &mut Vec<u64>,
    active: &mut NodeSet,
    from: u32,
    to: u32,
    amount: u64,
)
    requires from { from < ends.nodes }
    requires to { to < ends.nodes }
    requires active { AreActive ends excesses.old.items active.old }
    requires pays { amount ≤ slice_index excesses.old.items from }
    requires fits { to ≢ ends.source → slice_index excesses.old.items to + amount < 2 ^ 64 }
    ensures excesses { excesses.new.items ≡ with_moved_excess ends.source excesses.old.items from to amount }
    ensures active { AreActive ends excesses.new.items active.new }
{
    let left = excesses[from as usize] - amount;
    set_excess(ends, excesses, active, from, left);
    add_excess(ends, excesses, active, to, amount);
}

/// Adds to the excess of each module that the source imports the weight of this import, since the initial preflow saturates it.
fn add_initial_excess(
    ends: FlowEnds,
    imports: &[Priced],
    excesses: &mut Vec<u64>,
    active: &mut NodeSet,
)
    requires nodes { (i : ℕ) → i < length imports.now → (import_in imports.now i).to < ends.nodes }
    requires weights { total (length imports.now) (λ i. (import_in imports.now i).amount) < 2 ^ 64 }
    requires none { (v : ℕ) → slice_index excesses.old.items v ≡ 0 }
    requires active { AreActive ends excesses.old.items active.old }
    ensures excesses { (v : ℕ) → v ≢ ends.source → slice_index excesses.new.items v ≡ into imports.now (opening_flows ends.source imports.now) v }
    ensures active { AreActive ends excesses.new.items active.new }
{
    for import in imports {
        if import.from == ends.source {
            add_excess(ends, excesses, active, import.to, import.amount);
        }
    }
}

/// The excess of each node in the initial preflow, and the set of active nodes, with their discharge order. Fails if an allocation fails.
pub(crate) fn initial_excesses(
    alloc: Global,
    ends: FlowEnds,
    imports: &[Priced],
    discharge_order: DischargeOrder,
) -> Result<Excesses, AllocError>
    requires nodes { (i : ℕ) → i < length imports.now → (import_in imports.now i).to < ends.nodes }
    requires weights { total (length imports.now) (λ i. (import_in imports.now i).amount) < 2 ^ 64 }
    ensures each { IfOk result (λ e. (v : ℕ) → v ≢ ends.source → slice_index e.each.items v ≡ into imports.now (opening_flows ends.source imports.now) v) }
    ensures active { IfOk result (λ e. AreActive ends e.each.items e.active) }
{
    let mut each = vec![in alloc; 0u64; ends.nodes as usize]?;
    let mut active = NodeSet::new(alloc, ends.nodes, discharge_order)?;
    add_initial_excess(ends, imports, &mut each, &mut active);
    Ok(Excesses { each, active })
}
