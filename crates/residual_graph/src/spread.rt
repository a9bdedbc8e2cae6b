//! Reachability by augmenting paths without building a residual graph.
ghost use Rattle.std.specs.Prelude.{◌≡◌, ◌<◌, ◌≤◌, ◌*◌, ◌++◌, ◌∷◌, [], ℕ, All, IfOk, OnOk, length, vec_len, if◌then◌else◌};
ghost use Rattle.digraph.specs.Spreading.{left_over};
ghost use Rattle.residual_graph.specs.Graphs.{head, tail, AreClosed, AreReached, HasArc};
ghost use Rattle.residual_graph.specs.Spreading.{residual_arc_at, AreArcLists, IsSpreading};

use crate::augment::residual_of;
use crate::{Arc, ResidualArc};
use std::alloc::{AllocError, Global};

/// For each node a linked list of its residual arcs with capacity, from the last one back to the first. Residual arc 2k is arc k in its
/// direction, 2k + 1 is arc k against it. A link is the number of a residual arc plus one; 0 ends a list. The lists take one number for
/// each node and two for each arc.
#[derive(Drop)]
struct LinkedLists {
    /// For each node its last residual arc.
    last: Vec<usize>,
    /// For each residual arc the previous one of its tail.
    before: Vec<usize>,
}

/// The residual arc of this number: arc k in its direction for 2k, against it for 2k + 1.
fn residual_arc_at(number: usize) -> ResidualArc
    ensures { result ≡ residual_arc_at number }
{
    ResidualArc {
        arc: number / 2,
        forward: number % 2 == 0,
    }
}

/// The tail of a residual arc.
fn tail_of(arcs: &[Arc], step: ResidualArc) -> u32
    requires { HasArc arcs.now step }
    ensures { result ≡ tail arcs.now step }
{
    let arc = arcs[step.arc];
    if step.forward { arc.from } else { arc.to }
}

/// The head of a residual arc.
fn head_of(arcs: &[Arc], step: ResidualArc) -> u32
    requires { HasArc arcs.now step }
    ensures { result ≡ head arcs.now step }
{
    let arc = arcs[step.arc];
    if step.forward { arc.to } else { arc.from }
}

/// Links the residual arcs with capacity into a list for each node.
fn link_by_tail(alloc: Global, arcs: &[Arc], nodes: u32) -> Result<LinkedLists, AllocError>
    requires within { All (λ r. r.flow ≤ r.capacity) arcs.now }
    requires between { All (λ r. (r.from < nodes) × (r.to < nodes)) arcs.now }
    ensures { IfOk result (λ t. AreArcLists arcs.now nodes t.last.items t.before.items (length arcs.now * 2)) }
{
    let mut last = vec![in alloc; 0usize; nodes as usize]?;
    let mut before = Vec::with_capacity(alloc, arcs.len() * 2)?;
    for number in 0..arcs.len() * 2 {
        let step = residual_arc_at(number);
        if residual_of(arcs, step) > 0 {
            let node = tail_of(arcs, step) as usize;
            before.push(last[node])?;
            last[node] = number + 1;
        } else {
            before.push(0)?;
        }
    }
    Ok(LinkedLists { last, before })
}

/// Flags the heads of the node's residual arcs with capacity; a newly flagged head joins the worklist.
fn flag_heads(
    arcs: &[Arc],
    linked: &LinkedLists,
    node: u32,
    reached_flags: &mut Vec<bool>,
    waiting: &mut Vec<u32>,
) -> Result<(), AllocError>
    requires between { All (λ r. (r.from < vec_len reached_flags.old) × (r.to < vec_len reached_flags.old)) arcs.now }
    requires linked { AreArcLists arcs.now (vec_len reached_flags.old) linked.now.last.items linked.now.before.items (length arcs.now * 2) }
    requires node { node < vec_len reached_flags.old }
    ensures size { OnOk result (vec_len reached_flags.new ≡ vec_len reached_flags.old) }
    ensures spreading { OnOk result ((start : ℕ) → IsSpreading arcs.now start reached_flags.old.items (waiting.old.items ++ node ∷ []) →
        IsSpreading arcs.now start reached_flags.new.items waiting.new.items) }
    ensures less { OnOk result (left_over reached_flags.new.items waiting.new.items ≡ left_over reached_flags.old.items waiting.old.items) }
{
    let mut next = linked.last[node as usize];
    while next > 0 {
        let number = next - 1;
        let to = head_of(arcs, residual_arc_at(number));
        if !reached_flags[to as usize] {
            reached_flags[to as usize] = true;
            waiting.push(to)?;
        }
        next = linked.before[number];
    }
    Ok(())
}

/// Flags the nodes that augmenting paths from `start` reach, as `search` does, but from a list of arcs without a `ResidualGraph`. Takes
/// time linear in nodes and arcs, which isn't proved. Fails if an allocation fails.
pub fn flag_reachable(
    alloc: Global,
    arcs: &[Arc],
    nodes: u32,
    start: u32,
) -> Result<Vec<bool>, AllocError>
    // No flow exceeds its capacity.
    requires within { All (λ r. r.flow ≤ r.capacity) arcs.now }
    // The ends of each arc are nodes.
    requires between { All (λ r. (r.from < nodes) × (r.to < nodes)) arcs.now }
    // `start` is a node.
    requires start { start < nodes }
    // Exactly the reachable nodes are flagged.
    ensures reached { IfOk result (λ reached_flags. AreReached (record { nodes = nodes; arcs = arcs.now }) start reached_flags.items) }
    // No residual arc with capacity leaves the flagged nodes.
    ensures closed { IfOk result (λ reached_flags. AreClosed arcs.now reached_flags.items) }
{
    let linked = link_by_tail(alloc, arcs, nodes)?;
    let mut reached_flags = vec![in alloc; false; nodes as usize]?;
    let mut waiting = Vec::new(alloc);
    reached_flags[start as usize] = true;
    waiting.push(start)?;
    while let Some(node) = waiting.pop() {
        flag_heads(arcs, &linked, node, &mut reached_flags, &mut waiting)?;
    }
    Ok(reached_flags)
}
