//! An initial flow by a simpler algorithm, which inspects one residual arc after the other. It is the reference for `initial_flow`, so its
//! steps stay as they are.
//! Nothing is proved of it but safety.
ghost use Rattle.std.specs.Prelude.{◌≡◌, ◌<◌, All, IfOk, IfSome, OnOk, length, not, vec_len};
ghost use Rattle.residual_graph.specs.OutArcs.{IsOutOf};

use residual_graph::{OutArc, ResidualArc, ResidualGraph, topological_order};
use std::alloc::{AllocError, Global};
use std::marker::Model;

/// For each node its distance to the sink in the residual graph, or the number of nodes if there is no path; and the nodes with a path,
/// sorted by distance.
#[derive(Drop)]
struct Distances {
    labels: Vec<u32>,
    reached: Vec<u32>,
}

/// The reverse of a residual arc.
fn reverse_arc(step: ResidualArc) -> ResidualArc
    ensures { result ≡ record { arc = step.arc; forward = not step.forward } }
{
    ResidualArc {
        forward: !step.forward,
        ..step
    }
}

/// Labels the unlabelled nodes that have a residual arc to this node, and appends them to the reached ones.
fn label_predecessors(
    graph: &ResidualGraph,
    node: u32,
    labels: &mut Vec<u32>,
    reached: &mut Vec<u32>,
) -> Result<(), AllocError>
    requires node { node < graph.now.nodes }
    requires labels { vec_len labels.old ≡ graph.now.nodes }
    requires reached { All (λ n. n < graph.now.nodes) reached.old.items }
    ensures labels { OnOk result (vec_len labels.new ≡ graph.now.nodes) }
    ensures reached { OnOk result (All (λ n. n < graph.now.nodes) reached.new.items) }
{
    let none = graph.nodes();
    let label = labels[node as usize].saturating_add(1);
    for out in graph.residual_arcs(node) {
        let before = out.head;
        if labels[before as usize] == none && graph.residual(reverse_arc(out.step)) > 0 {
            labels[before as usize] = label;
            reached.push(before)?;
        }
    }
    Ok(())
}

/// The distances to the sink.
fn distances_to(alloc: Global, graph: &ResidualGraph, end: u32) -> Result<Distances, AllocError>
    requires { end < graph.now.nodes }
    ensures labels { IfOk result (λ d. vec_len d.labels ≡ graph.now.nodes) }
    ensures reached { IfOk result (λ d. All (λ n. n < graph.now.nodes) d.reached.items) }
{
    let nodes = graph.nodes();
    let mut labels = vec![in alloc; nodes; nodes as usize]?;
    let mut reached = Vec::new(alloc);
    labels[end as usize] = 0;
    reached.push(end)?;
    for place in 0..nodes as usize {
        if place >= reached.len() {
            return Ok(Distances { labels, reached });
        }
        let node = reached[place];
        label_predecessors(graph, node, &mut labels, &mut reached)?;
    }
    Ok(Distances { labels, reached })
}

/// A graph with its flow, the excess and the label of each node, and the queue of active nodes.
#[derive(Drop)]
struct Scenario {
    graph: ResidualGraph,
    excesses: Vec<u64>,
    labels: Vec<u32>,
    waiting: Vec<u32>,
}

impl Model for Scenario {
    ghost use Rattle.residual_graph.specs.Graphs.{Graph};
    ghost use Rattle.initial_flow.specs.Heuristics.{IsHeuristic};

    ghost Value = { Graph };

    ghost view = { λ t. t.graph };

    ghost invariant = { λ t. IsHeuristic t.graph.nodes t.excesses.items t.labels.items t.waiting.items };
}

/// The active nodes without the sink; the last one is discharged first.
fn active_nodes(
    alloc: Global,
    nodes: &[u32],
    excesses: &[u64],
    end: u32,
) -> Result<Vec<u32>, AllocError>
    requires { All (λ n. n < length excesses.now) nodes.now }
    ensures { IfOk result (λ found. All (λ n. n < length excesses.now) found.items) }
{
    let mut found = Vec::new(alloc);
    for back in 0..nodes.len() {
        let node = nodes[nodes.len() - 1 - back];
        if node != end && excesses[node as usize] > 0 {
            found.push(node)?;
        }
    }
    Ok(found)
}

impl Scenario {
    /// The residual arc at this index among those that leave a node, if there is one.
    fn leaving_arc(&self, node: u32, place: usize) -> Option<OutArc>
        requires { node < self.now.nodes }
        ensures { IfSome result (IsOutOf self.now node) }
    {
        let outs = self.graph.residual_arcs(node);
        if place < outs.len() {
            Some(outs[place])
        } else {
            None
        }
    }

    /// Pushes at most this amount over a residual arc, up to its residual capacity. A node without excess before becomes active.
    fn push_at_most(&mut self, node: u32, out: OutArc, most: u64) -> Result<(), AllocError>
        requires node { node < self.old.nodes }
        requires out { IsOutOf self.old node out }
        ensures { OnOk result (self.new.nodes ≡ self.old.nodes) }
    {
        let amount = out.residual.min(most);
        self.graph.send(out.step, amount);
        let left = self.excesses[node as usize].saturating_sub(amount);
        self.excesses[node as usize] = left;
        let before = self.excesses[out.head as usize];
        self.excesses[out.head as usize] = before.saturating_add(amount);
        if before == 0 {
            self.waiting.push(out.head)?;
        }
        Ok(())
    }

    /// Pushes the excess of a node over a residual arc to a node whose label is lower by one. Returns the label of the head, or 2^32 - 1 if
    /// the residual capacity is used up.
    fn push(&mut self, node: u32, out: OutArc) -> Result<u32, AllocError>
        requires node { node < self.old.nodes }
        requires out { IsOutOf self.old node out }
        ensures { OnOk result (self.new.nodes ≡ self.old.nodes) }
    {
        if out.residual == 0 {
            return Ok(u32::MAX);
        }
        let label = self.labels[out.head as usize];
        let excess = self.excesses[node as usize];
        if excess > 0 && label.saturating_add(1) == self.labels[node as usize] {
            self.push_at_most(node, out, excess)?;
            if excess >= out.residual {
                return Ok(u32::MAX);
            }
        }
        Ok(label)
    }

    /// Pushes the excess of a node to nodes whose label is lower by one. If excess is left, returns the lowest label of a head of a
    /// residual arc.
    fn push_admissible(&mut self, node: u32) -> Result<u32, AllocError>
        requires { node < self.old.nodes }
        ensures { OnOk result (self.new.nodes ≡ self.old.nodes) }
    {
        let mut least = u32::MAX;
        for place in 0..self.graph.residual_arcs(node).len() {
            let Some(out) = self.leaving_arc(node, place) else {
                return Ok(least);
            };
            if self.excesses[node as usize] == 0 {
                return Ok(least);
            }
            let label = self.push(node, out)?;
            least = least.min(label);
        }
        Ok(least)
    }

    /// Discharges a node. If excess is left, its label is raised, and it stays active if the label is below the number of nodes. Returns
    /// whether the label was raised.
    fn discharge(&mut self, node: u32) -> Result<bool, AllocError>
        requires { node < self.old.nodes }
        ensures { OnOk result (self.new.nodes ≡ self.old.nodes) }
    {
        let label = self.push_admissible(node)?.saturating_add(1);
        if self.excesses[node as usize] == 0 {
            return Ok(false);
        }
        self.labels[node as usize] = label;
        if label < self.graph.nodes() {
            self.waiting.push(node)?;
        }
        Ok(true)
    }

    /// Discharges the active nodes in turn, until none is left or as many labels were raised as there are nodes.
    fn discharge_all(&mut self, end: u32) -> Result<(), AllocError>
        ensures { OnOk result (self.new.nodes ≡ self.old.nodes) }
    {
        let mut raised = 0u32;
        for place in 0..usize::MAX {
            if place >= self.waiting.len() || raised >= self.graph.nodes() {
                return Ok(());
            }
            let node = self.waiting[place];
            if node != end && self.discharge(node)? {
                raised = raised.saturating_add(1);
            }
        }
        Ok(())
    }

    /// Labels all nodes by their distances to the sink, makes those with excess and a path active, and returns whether there is one.
    fn label_all(&mut self, alloc: Global, end: u32) -> Result<bool, AllocError>
        requires { end < self.old.nodes }
        ensures { OnOk result (self.new ≡ self.old) }
    {
        let distances = distances_to(alloc, &self.graph, end)?;
        self.waiting = active_nodes(alloc, &distances.reached, &self.excesses, end)?;
        self.labels = distances.labels;
        Ok(!self.waiting.is_empty())
    }

    /// Saturates the arcs that leave the source.
    fn saturate_source(&mut self, start: u32) -> Result<(), AllocError>
        requires { start < self.old.nodes }
        ensures { OnOk result (self.new.nodes ≡ self.old.nodes) }
    {
        for place in 0..self.graph.residual_arcs(start).len() {
            let Some(out) = self.leaving_arc(start, place) else {
                return Ok(());
            };
            if out.step.forward {
                self.push_at_most(start, out, u64::MAX)?;
            }
        }
        Ok(())
    }

    /// Pushes the excess of a node back over its incoming arcs.
    fn return_excess(&mut self, node: u32) -> Result<(), AllocError>
        requires { node < self.old.nodes }
        ensures { OnOk result (self.new.nodes ≡ self.old.nodes) }
    {
        for place in 0..self.graph.residual_arcs(node).len() {
            let Some(out) = self.leaving_arc(node, place) else {
                return Ok(());
            };
            let excess = self.excesses[node as usize];
            if excess == 0 {
                return Ok(());
            }
            if !out.step.forward {
                self.push_at_most(node, out, excess)?;
            }
        }
        Ok(())
    }

    /// Returns the excess that can't reach the sink, from the last node of the order to the first.
    fn return_all(&mut self, order: &[u32], end: u32) -> Result<(), AllocError>
        requires { All (λ n. n < self.old.nodes) order.now }
        ensures { OnOk result (self.new.nodes ≡ self.old.nodes) }
    {
        for back in 0..order.len() {
            let node = order[order.len() - 1 - back];
            if node != end {
                self.return_excess(node)?;
            }
        }
        Ok(())
    }

    /// Runs rounds until no more excess reaches the sink.
    fn run(&mut self, alloc: Global, end: u32) -> Result<(), AllocError>
        requires { end < self.old.nodes }
        ensures { OnOk result (self.new.nodes ≡ self.old.nodes) }
    {
        for _ in 0..u64::MAX {
            if !self.label_all(alloc, end)? {
                return Ok(());
            }
            self.discharge_all(end)?;
        }
        Ok(())
    }

    /// Saturates the arcs of the source, sends to the sink what can reach it, and returns the rest.
    fn settle(
        &mut self,
        alloc: Global,
        order: &[u32],
        start: u32,
        end: u32,
    ) -> Result<(), AllocError>
        requires order { All (λ n. n < self.old.nodes) order.now }
        requires start { start < self.old.nodes }
        requires end { end < self.old.nodes }
        ensures { OnOk result (self.new.nodes ≡ self.old.nodes) }
    {
        self.saturate_source(start)?;
        self.run(alloc, end)?;
        self.return_all(order, end)
    }
}

/// A flow from the source to the sink over the arcs of a graph without flow, of maximum value if the arcs have no cycle. No flow exceeds
/// its arc's capacity. Fails if an allocation fails.
pub(crate) fn find_initial_flow(
    alloc: Global,
    graph: ResidualGraph,
    start: u32,
    end: u32,
) -> Result<ResidualGraph, AllocError>
    requires start { start < graph.nodes }
    requires end { end < graph.nodes }
{
    let nodes = graph.nodes();
    let order = topological_order(alloc, &graph)?;
    let mut trial = Scenario {
        graph,
        excesses: vec![in alloc; 0u64; nodes as usize]?,
        labels: vec![in alloc; nodes; nodes as usize]?,
        waiting: Vec::new(alloc),
    };
    trial.settle(alloc, &order, start, end)?;
    Ok(trial.graph)
}
