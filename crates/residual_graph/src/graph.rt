//! Residual graphs.
ghost use Rattle.std.specs.Prelude.{ℕ, ◌≡◌, ◌≢◌, ◌<◌, ◌≤◌, ◌^◌, All, AllPairs, Contains, IfOk, map, slice_set};
ghost use Rattle.residual_graph.specs.declared.arc.ResidualArc.{ResidualArc};
ghost use Rattle.residual_graph.specs.Flows.{pushed, DifferInFlowOnly, RaisesFlowValue};
ghost use Rattle.residual_graph.specs.Graphs.{arc_of, head, residual, tail, HasArc, IsGraph, IsResidualWalk};
ghost use Rattle.residual_graph.specs.OutArcs.{step_of, IsOutOf};

use crate::arc::out_arc_of;
use crate::augment::{min_residual, push, residual_of};
use crate::groups::{OutArcIndexes, count_residual_arcs, out_arcs_by_tail, range_starts};
use crate::{Arc, OutArc, ResidualArc};
use std::alloc::{AllocError, Global};
use std::marker::Model;

/// A graph whose arcs have a flow, with the residual arcs of each node: forward ones with what is left of the capacity, backward ones
/// with the flow. All are in one array, those of a node adjacent, each with its head and residual capacity. For each node the graph has
/// the start of its range in that array, and for each arc the indices of its two residual arcs within the ranges of their nodes.
#[derive(Drop)]
pub struct ResidualGraph {
    nodes: u32,
    arcs: Vec<Arc>,
    begins: Vec<usize>,
    outs: Vec<OutArc>,
    indexes: Vec<OutArcIndexes>,
}

impl Model for ResidualGraph {
    ghost use Rattle.residual_graph.specs.Graphs.{Graph};
    ghost use Rattle.residual_graph.specs.OutArcs.{AreListed};

    ghost Value = { Graph };

    ghost view = { λ g. record { nodes = g.nodes; arcs = g.arcs.items } };

    ghost invariant = { λ g. AreListed g.arcs.items g.nodes g.begins.items g.outs.items g.indexes.items };
}

impl ResidualGraph {
    /// The graph of these arcs. The ends of each are below `nodes`, and its flow is at most its capacity. Fails if an allocation fails.
    pub fn new(alloc: Global, arcs: Vec<Arc>, nodes: u32) -> Result<ResidualGraph, AllocError>
        // No flow is above its capacity.
        requires within { All (λ r. r.flow ≤ r.capacity) arcs.items }
        // The ends of each arc are nodes.
        requires between { All (λ r. (r.from < nodes) × (r.to < nodes)) arcs.items }
        // The graph has these nodes and arcs.
        ensures { IfOk result (λ g. g ≡ record { nodes = nodes; arcs = arcs.items }) }
    {
        let counted = count_residual_arcs(alloc, &arcs, nodes)?;
        let begins = range_starts(alloc, &counted.sizes)?;
        let outs = out_arcs_by_tail(alloc, &arcs, nodes, &begins, &counted)?;
        Ok(ResidualGraph {
            nodes,
            arcs,
            begins,
            outs,
            indexes: counted.indexes,
        })
    }

    /// The invariant of a graph.
    pub fn invariants(&self)
        // No flow exceeds its capacity, and the ends of arcs are nodes.
        ensures { IsGraph self.now }
    {
        // The prover knows the type's invariant only after a use of a field.
        let _ = &self.arcs;
    }

    /// The number of nodes.
    pub fn nodes(&self) -> u32
        // It is the number of nodes.
        ensures { result ≡ self.now.nodes }
    {
        self.nodes
    }

    /// The arcs with their flow, by number.
    pub fn arcs(&self) -> &[Arc]
        // They are the arcs of the graph.
        ensures { result.now ≡ self.now.arcs }
    {
        &self.arcs
    }

    /// The residual arcs of a node, including those without residual capacity, as one slice.
    pub fn residual_arcs(&self, node: u32) -> &[OutArc]
        // `node` is a node.
        requires { node < self.now.nodes }
        // Each residual arc leaves the node, and its head and residual capacity are those in the graph.
        ensures each { All (IsOutOf self.now node) result.now }
        // No residual arc of the node is missing.
        ensures all { (s : ResidualArc) → HasArc self.now.arcs s → tail self.now.arcs s ≡ node → Contains (map step_of result.now) s }
    {
        let begin = self.begins[node as usize];
        let end = self.begins[node as usize + 1];
        &self.outs[begin..end]
    }

    /// The tail of a residual arc.
    pub fn tail(&self, step: ResidualArc) -> u32
        // The graph has the arc that the residual arc follows.
        requires { HasArc self.now.arcs step }
        // It is the tail of the residual arc.
        ensures is { result ≡ tail self.now.arcs step }
        // It is a node.
        ensures node { result < self.now.nodes }
    {
        let arc = self.arcs[step.arc];
        if step.forward { arc.from } else { arc.to }
    }

    /// The head of a residual arc.
    pub fn head(&self, step: ResidualArc) -> u32
        // The graph has the arc that the residual arc follows.
        requires { HasArc self.now.arcs step }
        // It is the head of the residual arc.
        ensures is { result ≡ head self.now.arcs step }
        // It is a node.
        ensures node { result < self.now.nodes }
    {
        let arc = self.arcs[step.arc];
        if step.forward { arc.to } else { arc.from }
    }

    /// The residual capacity of a residual arc.
    pub fn residual(&self, step: ResidualArc) -> u64
        // The graph has the arc that the residual arc follows.
        requires { HasArc self.now.arcs step }
        // It is the residual capacity of the residual arc.
        ensures { result ≡ residual self.now.arcs step }
    {
        residual_of(&self.arcs, step)
    }

    /// Sends an amount, at most the residual capacity, over a residual arc: adds it to the arc's flow, or subtracts it against the arc's
    /// direction.
    pub fn send(&mut self, step: ResidualArc, amount: u64)
        // The graph has the arc that the residual arc follows.
        requires known { HasArc self.old.arcs step }
        // The amount is at most the residual capacity of the residual arc.
        requires left { amount ≤ residual self.old.arcs step }
        // The number of nodes is unchanged.
        ensures nodes { self.new.nodes ≡ self.old.nodes }
        // Only the flow of the arc that the residual arc follows changes, by the amount.
        ensures arcs { self.new.arcs ≡ slice_set self.old.arcs step.arc (pushed (arc_of self.old.arcs step) step.forward amount) }
        // The arcs differ at most in their flow.
        ensures same { DifferInFlowOnly self.old.arcs self.new.arcs }
    {
        let arc = push(self.arcs[step.arc], step.forward, amount);
        let indexes = self.indexes[step.arc];
        let forth = self.begins[arc.from as usize] + indexes.forward;
        let back = self.begins[arc.to as usize] + indexes.backward;
        self.arcs[step.arc] = arc;
        self.outs[forth] = out_arc_of(
            arc,
            ResidualArc {
                arc: step.arc,
                forward: true,
            },
        );
        self.outs[back] = out_arc_of(
            arc,
            ResidualArc {
                arc: step.arc,
                forward: false,
            },
        );
    }

    /// Sends this amount over each residual arc of the path: the value of a flow between the ends of the path rises by the amount.
    fn send_along(&mut self, path: &[ResidualArc], amount: u64)
        requires known { All (HasArc self.old.arcs) path.now }
        requires left { All (λ s. amount ≤ residual self.old.arcs s) path.now }
        requires once { AllPairs (λ s t. s.arc ≢ t.arc) path.now }
        ensures nodes { self.new.nodes ≡ self.old.nodes }
        ensures same { DifferInFlowOnly self.old.arcs self.new.arcs }
        ensures raises { (a b : ℕ) → a ≢ b → IsResidualWalk self.old.arcs a path.now b → RaisesFlowValue self.old.arcs self.new.arcs a b amount }
    {
        self.invariants();
        for step in path {
            self.send(*step, amount);
        }
    }

    /// Sends the bottleneck of the path along it, and returns that amount, 2^64 - 1 for a path without arcs. The value of each flow
    /// between the ends of the path rises by that amount. No arc may occur on the path twice.
    pub fn augment(&mut self, path: &[ResidualArc]) -> u64
        // The graph has the arc of each residual arc.
        requires known { All (HasArc self.old.arcs) path.now }
        // No arc occurs twice on the path.
        requires once { AllPairs (λ s t. s.arc ≢ t.arc) path.now }
        // The nodes are unchanged.
        ensures nodes { self.new.nodes ≡ self.old.nodes }
        // The arcs differ at most in their flow.
        ensures same { DifferInFlowOnly self.old.arcs self.new.arcs }
        // The amount was at most the residual capacity of each residual arc.
        ensures left { All (λ s. result ≤ residual self.old.arcs s) path.now }
        // No larger amount was at most the residual capacity of each residual arc.
        ensures most { (m : ℕ) → m < 2 ^ 64 → All (λ s. m ≤ residual self.old.arcs s) path.now → m ≤ result }
        // The value of each flow between the ends of the path rises by the amount.
        ensures raises { (a b : ℕ) → a ≢ b → IsResidualWalk self.old.arcs a path.now b → RaisesFlowValue self.old.arcs self.new.arcs a b result }
    {
        let amount = min_residual(&self.arcs, path);
        self.send_along(path, amount);
        amount
    }
}
