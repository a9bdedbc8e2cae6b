//! The imports of a network with their flow, as a residual graph.
ghost use Rattle.std.specs.Prelude.{◌≡◌, ◌+◌, ◌-◌, ◌*◌, ◌/◌, ◌^◌, ◌<◌, ◌≤◌, ℕ, All, Contains, IfOk, if◌then◌else◌, length, map, slice_index, slice_set};
ghost use Rattle.residual_graph.specs.declared.arc.ResidualArc.{ResidualArc};
ghost use Rattle.cut_preflow.specs.Total.{total};
ghost use Rattle.cut_preflow.specs.FlowGraphs.{IsArcFrom, initial_arcs, arc_number, out_arc_number};
ghost use Rattle.cut_preflow.specs.Side.{IsReachableSet};
ghost use Rattle.cut_preflow.specs.Preflow.{import_in, into, is_forward, opening_flows, out_of, tail_in, head_in, residual_in};

use crate::ends::FlowEnds;
use crate::sums::excess;
use cut_net::Priced;
use residual_graph::{Arc, OutArc, ResidualArc, ResidualGraph, search, topological_order};
use std::alloc::{AllocError, Global};
use std::marker::Model;

/// The residual graph of a network's imports. Contracts see it as the number of nodes, the imports, and the flow on each import.
#[derive(Drop)]
pub(crate) struct FlowGraph {
    graph: ResidualGraph,
}

impl Model for FlowGraph {
    ghost use Rattle.std.specs.Prelude.{◌≤◌, length};
    ghost use Rattle.cut_preflow.specs.FlowGraphs.{FlowGraphModel, flows_of, imports_of};

    ghost Value = { FlowGraphModel };

    ghost view = { λ f. record { nodes = f.graph.nodes; imports = imports_of f.graph.arcs; flow = flows_of f.graph.arcs } };

    ghost invariant = { λ f. length f.graph.arcs ≤ 65536 };
}

/// The arcs of the initial preflow: an arc of an import by the source is saturated, any other has flow 0.
fn initial_arcs(alloc: Global, source: u32, imports: &[Priced]) -> Result<Vec<Arc>, AllocError>
    ensures { IfOk result (λ arcs. arcs.items ≡ initial_arcs source imports.now) }
{
    imports
        .iter()
        .map(|i| Arc {
            from: i.from,
            to: i.to,
            capacity: i.amount,
            flow: if i.from == source { i.amount } else { 0 },
        })
        .collect(alloc)
}

/// The residual arc of this number: 2i is import i forward, 2i + 1 backward.
fn step_of(arc: u32) -> ResidualArc
    ensures { result ≡ record { arc = arc / 2; forward = is_forward arc } }
{
    ResidualArc {
        arc: (arc / 2) as usize,
        forward: arc % 2 == 0,
    }
}

/// The number of a residual arc: 2i for import i forward, 2i + 1 backward.
pub(crate) fn arc_number(step: ResidualArc) -> u32
    requires { step.arc < 65536 }
    ensures { result ≡ arc_number step }
{
    let arc = step.arc as u32;
    if step.forward { 2 * arc } else { 2 * arc + 1 }
}

impl FlowGraph {
    /// The initial preflow: imports by the source are saturated, and the others have flow 0. Fails if an allocation fails.
    pub(crate) fn initial_preflow(
        alloc: Global,
        ends: FlowEnds,
        imports: &[Priced],
    ) -> Result<FlowGraph, AllocError>
        requires between { (i : ℕ) → i < length imports.now → ((import_in imports.now i).from < ends.nodes) × ((import_in imports.now i).to < ends.nodes) }
        requires few { length imports.now ≤ 65536 }
        ensures { IfOk result (λ f. f ≡ record { nodes = ends.nodes; imports = imports.now; flow = opening_flows ends.source imports.now }) }
    {
        let arcs = initial_arcs(alloc, ends.source, imports)?;
        let graph = ResidualGraph::new(alloc, arcs, ends.nodes)?;
        Ok(FlowGraph { graph })
    }

    /// The nodes in topological order.
    pub(crate) fn order(&self, alloc: Global) -> Result<Vec<u32>, AllocError>
        ensures { IfOk result (λ order. All (λ v. v < self.now.nodes) order.items) }
    {
        topological_order(alloc, &self.graph)
    }

    /// The number of imports.
    pub(crate) fn count(&self) -> usize
        ensures is { result ≡ length self.now.imports }
        ensures few { result ≤ 65536 }
    {
        self.graph.arcs().len()
    }

    /// The flow on an import.
    pub(crate) fn flow(&self, import: u32) -> u64
        requires { import < length self.now.imports }
        ensures { result ≡ slice_index self.now.flow import }
    {
        self.graph.arcs()[import as usize].flow
    }

    /// The tail of an arc.
    pub(crate) fn tail(&self, arc: u32) -> u32
        requires { arc / 2 < length self.now.imports }
        ensures { result ≡ tail_in self.now.imports arc }
    {
        self.graph.tail(step_of(arc))
    }

    /// The head of an arc.
    pub(crate) fn head(&self, arc: u32) -> u32
        requires { arc / 2 < length self.now.imports }
        ensures { result ≡ head_in self.now.imports arc }
    {
        self.graph.head(step_of(arc))
    }

    /// The residual capacity of an arc.
    pub(crate) fn residual(&self, arc: u32) -> u64
        requires { arc / 2 < length self.now.imports }
        ensures { result ≡ residual_in self.now.imports self.now.flow arc }
    {
        self.graph.residual(step_of(arc))
    }

    /// The arcs of a node, each with its head and residual capacity, as one slice.
    pub(crate) fn out_arcs(&self, node: u32) -> &[OutArc]
        requires { node < self.now.nodes }
        ensures each { All (IsArcFrom self.now node) result.now }
        ensures all { (a : ℕ) → a < 2 * length self.now.imports → tail_in self.now.imports a ≡ node → Contains (map out_arc_number result.now) a }
    {
        self.graph.residual_arcs(node)
    }

    /// Sends an amount, at most the residual capacity, over an arc.
    pub(crate) fn send(&mut self, arc: u32, amount: u64)
        requires known { arc / 2 < length self.old.imports }
        requires left { amount ≤ residual_in self.old.imports self.old.flow arc }
        ensures { self.new ≡ record self.old { flow = slice_set self.old.flow (arc / 2) (if is_forward arc then slice_index self.old.flow (arc / 2) + amount else slice_index self.old.flow (arc / 2) - amount) } }
    {
        self.graph.send(step_of(arc), amount);
    }

    /// Flags the nodes that the source reaches by arcs with residual capacity. Fails if an allocation fails.
    pub(crate) fn reach(&self, alloc: Global, source: u32) -> Result<Vec<bool>, AllocError>
        requires { source < self.now.nodes }
        ensures size { IfOk result (λ bits. length bits.items ≡ self.now.nodes) }
        ensures reach { IfOk result (λ bits. IsReachableSet self.now.imports self.now.flow source bits.items) }
    {
        let found = search(alloc, &self.graph, source)?;
        Ok(found.reached_flags)
    }

    /// The inflow of a node less its outflow, 0 if that is negative. Sums over all imports.
    pub(crate) fn excess(&self, node: u32) -> u64
        requires { total (length self.now.flow) (λ i. slice_index self.now.flow i) < 2 ^ 64 }
        ensures { result ≡ into self.now.imports self.now.flow node - out_of self.now.imports self.now.flow node }
    {
        excess(self.graph.arcs(), node)
    }
}
