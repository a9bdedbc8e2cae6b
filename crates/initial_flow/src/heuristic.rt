//! A heuristic for a maximum flow by push-relabel (Goldberg and Tarjan 1988). It runs while a node with excess has a label below the
//! number of nodes; labels are lower bounds of distances to the sink. Then the remaining excess is returned to the source.
//! Each round first recomputes all labels as distances (global relabelling), so nodes without a path to the sink are found at once.
//! Active nodes are discharged in first-in first-out order. If that doesn't end a round within a limit, as when units arrive one by one,
//! they are discharged by highest label (Cheriyan and Maheshwari 1989).
ghost use Rattle.std.specs.Prelude.{◌≡◌, ◌<◌, ◌≤◌, ◌^◌, ℕ, All, IfOk, IfSome, OnOk, length, vec_len};
ghost use Rattle.residual_graph.specs.OutArcs.{IsOutOf, out_at};
ghost use Rattle.initial_flow.specs.Heuristics.{label_at, DiffersOnlyInFlow, IsAdmissible};

use crate::buckets::LabelBuckets;
use crate::distances::sink_distances;
use residual_graph::{CurrentArcs, OutArc, ResidualGraph, topological_order};
use std::alloc::{AllocError, Global};
use std::marker::Model;

/// The limit on discharges in first-in first-out order in a round, as a multiple of the number of nodes.
const FIFO_DISCHARGES_PER_NODE: usize = 16;

/// A graph with its flow, and for each node its excess, its label and its current arc. `waiting` is the queue of active nodes; in
/// first-in first-out order the discharged ones stay in it until the order changes or the round ends.
#[derive(Drop)]
struct MaxFlowHeuristic {
    graph: ResidualGraph,
    excesses: Vec<u64>,
    labels: Vec<u32>,
    waiting: Vec<u32>,
    current: CurrentArcs,
}

impl Model for MaxFlowHeuristic {
    ghost use Rattle.residual_graph.specs.Graphs.{Graph};
    ghost use Rattle.initial_flow.specs.Heuristics.{IsHeuristic};

    ghost Value = { Graph };

    ghost view = { λ t. t.graph };

    ghost invariant = { λ t. IsHeuristic t.graph.nodes t.excesses.items t.labels.items t.waiting.items };
}

/// The result of a scan for an admissible residual arc.
#[derive(Clone, Copy)]
struct ArcScan {
    /// The index of the admissible residual arc; the number of the node's residual arcs if none is admissible.
    place: usize,
    /// The smallest label at the heads of the skipped arcs with residual capacity, 2^32 - 1 without one.
    passed: u32,
}

/// Finds the first admissible residual arc from index `start` on: it has residual capacity, and the label of its head is `label - 1`.
fn first_admissible(outs: &[OutArc], labels: &[u32], label: u32, start: usize) -> ArcScan
    requires { All (λ a. a.head < length labels.now) outs.now }
    ensures found { result.place < length outs.now → IsAdmissible labels.now label (out_at outs.now result.place) }
    ensures none_before { (p : ℕ) → start ≤ p → p < result.place → IsAdmissible labels.now label (out_at outs.now p) → ⊥ }
    ensures passed { (p : ℕ) → start ≤ p → p < result.place → 0 < (out_at outs.now p).residual → result.passed ≤ label_at labels.now (out_at outs.now p).head }
    ensures most { (m : ℕ) → m < 2 ^ 32 → ((p : ℕ) → start ≤ p → p < result.place → 0 < (out_at outs.now p).residual → m ≤ label_at labels.now (out_at outs.now p).head) → m ≤ result.passed }
{
    let mut passed = u32::MAX;
    for place in start..outs.len() {
        let out = &outs[place];
        if out.residual > 0 {
            let below = labels[out.head as usize];
            if below.saturating_add(1) == label {
                return ArcScan { place, passed };
            }
            passed = passed.min(below);
        }
    }
    ArcScan {
        place: outs.len(),
        passed,
    }
}

/// The smallest label at the heads of the first `count` residual arcs with residual capacity, 2^32 - 1 without one.
fn least_label(outs: &[OutArc], labels: &[u32], count: usize) -> u32
    requires { All (λ a. a.head < length labels.now) outs.now }
{
    let mut least = u32::MAX;
    for place in 0..count.min(outs.len()) {
        let out = &outs[place];
        if out.residual > 0 {
            least = least.min(labels[out.head as usize]);
        }
    }
    least
}

/// Those of `nodes` that have excess, without the sink `end`, in reverse order.
fn nodes_with_excess(
    alloc: Global,
    nodes: &[u32],
    excesses: &[u64],
    end: u32,
) -> Result<Vec<u32>, AllocError>
    requires { All (λ n. n < length excesses.now) nodes.now }
    ensures { IfOk result (λ found. All (λ n. n < length excesses.now) found.items) }
{
    let mut found = Vec::new(alloc);
    for back in 0..nodes.len() {
        let node = nodes[nodes.len() - 1 - back];
        if node != end && excesses[node as usize] > 0 {
            found.push(node)?;
        }
    }
    Ok(found)
}

impl MaxFlowHeuristic {
    /// The residual arc of a node at this index, if there is one.
    fn out_at(&self, node: u32, place: usize) -> Option<OutArc>
        requires { node < self.now.nodes }
        ensures { IfSome result (IsOutOf self.now node) }
    {
        let outs = self.graph.residual_arcs(node);
        if place < outs.len() {
            Some(outs[place])
        } else {
            None
        }
    }

    /// Finds the first admissible residual arc of a node, from this index on.
    fn admissible_from(&self, node: u32, start: usize) -> ArcScan
        requires { node < self.now.nodes }
    {
        let label = self.labels[node as usize];
        first_admissible(self.graph.residual_arcs(node), &self.labels, label, start)
    }

    /// Sends the residual capacity, but at most `most`, over a residual arc that leaves the node. The head joins the queue if it had no
    /// excess before.
    fn send(&mut self, node: u32, out: OutArc, most: u64) -> Result<(), AllocError>
        requires node { node < self.old.nodes }
        requires out { IsOutOf self.old node out }
        ensures { OnOk result (DiffersOnlyInFlow self.old self.new) }
    {
        let amount = out.residual.min(most);
        self.graph.send(out.step, amount);
        let left = self.excesses[node as usize].saturating_sub(amount);
        self.excesses[node as usize] = left;
        let before = self.excesses[out.head as usize];
        self.excesses[out.head as usize] = before.saturating_add(amount);
        if before == 0 {
            self.waiting.push(out.head)?;
        }
        Ok(())
    }

    /// Pushes excess of a node over a residual arc, as much as the arc admits, if the arc is admissible. Returns the label of the head, or
    /// 2^32 - 1 if the arc then has no residual capacity.
    fn push(&mut self, node: u32, out: OutArc) -> Result<u32, AllocError>
        requires node { node < self.old.nodes }
        requires out { IsOutOf self.old node out }
        ensures { OnOk result (DiffersOnlyInFlow self.old self.new) }
    {
        if out.residual == 0 {
            return Ok(u32::MAX);
        }
        let label = self.labels[out.head as usize];
        let excess = self.excesses[node as usize];
        if excess > 0 && label.saturating_add(1) == self.labels[node as usize] {
            self.send(node, out, excess)?;
            if excess >= out.residual {
                return Ok(u32::MAX);
            }
        }
        Ok(label)
    }

    /// The smallest label at the heads of those residual arcs with capacity that precede the node's current arc, 2^32 - 1 without one.
    /// Then makes the first residual arc the current one.
    fn least_skipped_label(&mut self, node: u32) -> u32
        requires { node < self.old.nodes }
        ensures { self.new ≡ self.old }
    {
        let passed = self.current.current_index(node);
        if passed == 0 {
            return u32::MAX;
        }
        self.current.set_current(node, 0);
        least_label(self.graph.residual_arcs(node), &self.labels, passed)
    }

    /// Pushes the excess of a node over admissible arcs, from its current arc on; earlier arcs stay inadmissible until the node is
    /// relabelled. If excess is left, returns the smallest label at the heads of arcs with capacity from the old current arc on.
    fn push_all(&mut self, node: u32) -> Result<u32, AllocError>
        requires { node < self.old.nodes }
        ensures { OnOk result (DiffersOnlyInFlow self.old self.new) }
    {
        let mut least = u32::MAX;
        let mut next = self.current.current_index(node);
        for _ in 0..self.graph.residual_arcs(node).len() {
            if self.excesses[node as usize] == 0 {
                self.current.set_current(node, next);
                return Ok(least);
            }
            let down = self.admissible_from(node, next);
            least = least.min(down.passed);
            let Some(out) = self.out_at(node, down.place) else {
                return Ok(least);
            };
            let label = self.push(node, out)?;
            least = least.min(label);
            next = if label == u32::MAX {
                down.place.saturating_add(1)
            } else {
                down.place
            };
        }
        Ok(least)
    }

    /// Discharges a node. If excess is left, relabels the node, which stays active if its label is below the number of nodes. Returns
    /// whether it was relabelled.
    fn discharge(&mut self, node: u32) -> Result<bool, AllocError>
        requires { node < self.old.nodes }
        ensures { OnOk result (DiffersOnlyInFlow self.old self.new) }
    {
        let least = self.push_all(node)?;
        if self.excesses[node as usize] == 0 {
            return Ok(false);
        }
        let label = least.min(self.least_skipped_label(node)).saturating_add(1);
        self.labels[node as usize] = label;
        if label < self.graph.nodes() {
            self.waiting.push(node)?;
        }
        Ok(true)
    }

    /// Discharges a node unless it is the sink `end`. Adds one to `raised` if the node was relabelled.
    fn discharge_unless_sink(
        &mut self,
        node: u32,
        end: u32,
        raised: &mut u32,
    ) -> Result<(), AllocError>
        requires { node < self.old.nodes }
        ensures { OnOk result (DiffersOnlyInFlow self.old self.new) }
    {
        if node != end && self.discharge(node)? {
            *raised = raised.saturating_add(1);
        }
        Ok(())
    }

    /// Discharges active nodes in first-in first-out order. Stops if none is left, if `raised` reaches the number of nodes, or after `most`
    /// nodes. Returns how many nodes of the queue were processed.
    fn discharge_fifo(
        &mut self,
        end: u32,
        most: usize,
        raised: &mut u32,
    ) -> Result<usize, AllocError>
        ensures { OnOk result (DiffersOnlyInFlow self.old self.new) }
    {
        for place in 0..most {
            if place >= self.waiting.len() || *raised >= self.graph.nodes() {
                return Ok(place);
            }
            let node = self.waiting[place];
            self.discharge_unless_sink(node, end, raised)?;
        }
        Ok(most)
    }

    /// Moves the nodes of the queue from index `start` on to the buckets, and empties the queue.
    fn fill_buckets(&mut self, buckets: &mut LabelBuckets, start: usize)
        ensures graph { self.new ≡ self.old }
        ensures nodes { vec_len buckets.new.nexts ≡ vec_len buckets.old.nexts }
    {
        for place in start..self.waiting.len() {
            let node = self.waiting[place];
            buckets.add(node, self.labels[node as usize]);
        }
        self.waiting.clear();
    }

    /// Discharges active nodes by highest label, until none is left or `raised` reaches the number of nodes.
    fn discharge_highest(
        &mut self,
        end: u32,
        buckets: &mut LabelBuckets,
        raised: &mut u32,
    ) -> Result<(), AllocError>
        requires { vec_len buckets.old.nexts ≡ self.old.nodes }
        ensures { OnOk result (DiffersOnlyInFlow self.old self.new) }
    {
        for _ in 0..u64::MAX {
            if *raised >= self.graph.nodes() {
                return Ok(());
            }
            let Some(node) = buckets.pop_highest() else {
                return Ok(());
            };
            self.discharge_unless_sink(node, end, raised)?;
            self.fill_buckets(buckets, 0);
        }
        Ok(())
    }

    /// Runs one round: discharges active nodes until none is left or the number of relabels is that of nodes. Begins in first-in first-out
    /// order, up to a limit, and goes on by highest label. Each round begins with first-in first-out order, since highest-label order may
    /// find dead ends one by one, each in a round of its own.
    fn discharge_all(&mut self, alloc: Global, end: u32) -> Result<(), AllocError>
        ensures { OnOk result (DiffersOnlyInFlow self.old self.new) }
    {
        let mut raised = 0u32;
        let nodes = self.graph.nodes();
        let most = (nodes as usize).saturating_mul(FIFO_DISCHARGES_PER_NODE);
        let taken = self.discharge_fifo(end, most, &mut raised)?;
        if taken < most {
            return Ok(());
        }
        let mut buckets = LabelBuckets::new(alloc, nodes)?;
        self.fill_buckets(&mut buckets, taken);
        self.discharge_highest(end, &mut buckets, &mut raised)
    }

    /// Labels all nodes by their distances to the sink, and activates the nodes with excess and a path to the sink. Returns false if there
    /// is no node to activate.
    fn global_relabel(&mut self, alloc: Global, end: u32) -> Result<bool, AllocError>
        requires { end < self.old.nodes }
        ensures { OnOk result (self.new ≡ self.old) }
    {
        let distances = sink_distances(alloc, &self.graph, end)?;
        self.waiting = nodes_with_excess(alloc, &distances.reached, &self.excesses, end)?;
        self.labels = distances.labels;
        self.current.reset_all();
        Ok(!self.waiting.is_empty())
    }

    /// Saturates the arcs that leave the source.
    fn saturate_source(&mut self, start: u32) -> Result<(), AllocError>
        requires { start < self.old.nodes }
        ensures { OnOk result (DiffersOnlyInFlow self.old self.new) }
    {
        for place in 0..self.graph.residual_arcs(start).len() {
            let Some(out) = self.out_at(start, place) else {
                return Ok(());
            };
            if out.step.forward {
                self.send(start, out, u64::MAX)?;
            }
        }
        Ok(())
    }

    /// Sends the excess of a node back over arcs that lead to it, by reducing their flow.
    fn return_excess(&mut self, node: u32) -> Result<(), AllocError>
        requires { node < self.old.nodes }
        ensures { OnOk result (DiffersOnlyInFlow self.old self.new) }
    {
        for place in 0..self.graph.residual_arcs(node).len() {
            let Some(out) = self.out_at(node, place) else {
                return Ok(());
            };
            let excess = self.excesses[node as usize];
            if excess == 0 {
                return Ok(());
            }
            if !out.step.forward {
                self.send(node, out, excess)?;
            }
        }
        Ok(())
    }

    /// Sends all remaining excess but the sink's back towards the source, node by node from the last one of the order to the first.
    fn return_all_excess(&mut self, order: &[u32], end: u32) -> Result<(), AllocError>
        requires { All (λ n. n < self.old.nodes) order.now }
        ensures { OnOk result (DiffersOnlyInFlow self.old self.new) }
    {
        for back in 0..order.len() {
            let node = order[order.len() - 1 - back];
            if node != end {
                self.return_excess(node)?;
            }
        }
        Ok(())
    }

    /// Runs rounds of relabelling and discharging, until no node with excess has a path to the sink.
    fn run_rounds(&mut self, alloc: Global, end: u32) -> Result<(), AllocError>
        requires { end < self.old.nodes }
        ensures { OnOk result (DiffersOnlyInFlow self.old self.new) }
    {
        for _ in 0..u64::MAX {
            if !self.global_relabel(alloc, end)? {
                return Ok(());
            }
            self.discharge_all(alloc, end)?;
        }
        Ok(())
    }

    /// Saturates the arcs out of the source, runs rounds, and sends the remaining excess back to the source.
    fn find_flow(
        &mut self,
        alloc: Global,
        order: &[u32],
        start: u32,
        end: u32,
    ) -> Result<(), AllocError>
        requires order { All (λ n. n < self.old.nodes) order.now }
        requires start { start < self.old.nodes }
        requires end { end < self.old.nodes }
        ensures { OnOk result (DiffersOnlyInFlow self.old self.new) }
    {
        self.saturate_source(start)?;
        self.run_rounds(alloc, end)?;
        self.return_all_excess(order, end)
    }
}

/// The graph with a flow from `start` to `end`, which the heuristic makes as large as it can. `graph` should have no flow and no cycle.
/// Proved is only that no flow exceeds its arc's capacity; the caller verifies the rest. Fails if an allocation fails.
pub fn find_initial_flow(
    alloc: Global,
    graph: ResidualGraph,
    start: u32,
    end: u32,
) -> Result<ResidualGraph, AllocError>
    // `start` is a node.
    requires start { start < graph.nodes }
    // `end` is a node.
    requires end { end < graph.nodes }
    // The graph is unchanged but for its flow, which is within the capacities.
    ensures { IfOk result (DiffersOnlyInFlow graph) }
{
    let nodes = graph.nodes();
    let order = topological_order(alloc, &graph)?;
    let mut heuristic = MaxFlowHeuristic {
        graph,
        excesses: vec![in alloc; 0u64; nodes as usize]?,
        labels: vec![in alloc; nodes; nodes as usize]?,
        waiting: Vec::new(alloc),
        current: CurrentArcs::new(alloc, nodes)?,
    };
    heuristic.find_flow(alloc, &order, start, end)?;
    Ok(heuristic.graph)
}
