//! Preflows with their history, without ledger.
ghost use Rattle.std.specs.Prelude.{◌≡◌, ◌≢◌, ◌+◌, ◌*◌, ◌/◌, ◌<◌, ◌≤◌, ◌↔◌, ℕ, true, false, All, IfOk, IfSome, IsNone, Contains, length, map, replicate, slice_set, []};
ghost use Rattle.cut_preflow.specs.Preflow.{count, head, import_at, residual, tail, flow_at, label_at, excess, inflow, outflow, is_active, applies, after, opening, is_legal};
ghost use Rattle.cut_preflow.specs.FlowGraphs.{IsArcFrom, out_arc_number};
ghost use Rattle.cut_preflow.specs.Kept.{IsFlowNetwork, IsQuiet};
ghost use Rattle.cut_preflow.specs.Bound.{max_steps};
ghost use Rattle.cut_preflow.specs.Flows.{AreEnds, AreSourceSide, AreReached, HasFlow, IsSinkUnreachable, network_between};
ghost use Rattle.cut_preflow.specs.Side.{has};
ghost use Rattle.cut_preflow.specs.Trace.{flow_graph_model_of, state_of, step_outcome, history_after, IsSound, IsWithinLimits, flow_network};

use crate::discharge_order::DischargeOrder;
use crate::ends::FlowEnds;
use crate::excesses::{initial_excesses, move_excess};
use crate::flow_graph::FlowGraph;
use crate::node_set::NodeSet;
use crate::{Event, Outcome, Step};
use cut_net::{Net, Priced};
use residual_graph::{CurrentArcs, OutArc};
use std::alloc::{AllocError, Global};
use std::marker::Model;

/// A preflow on a network between two of its modules (Goldberg and Tarjan 1988, section 3): a flow for each import, a label for each
/// module, and the applied events. Contracts see it as the network and the events, which determine flows and labels. For speed it also
/// has the excess of each node but the source, the set of active nodes with their discharge order, and the current arc of each node.
#[derive(Drop)]
pub(crate) struct PreflowCore {
    ends: FlowEnds,
    graph: FlowGraph,
    labels: Vec<u32>,
    history: Vec<Event>,
    excesses: Vec<u64>,
    active: NodeSet,
    current: CurrentArcs,
}

impl Model for PreflowCore {
    ghost use Rattle.cut_preflow.specs.Indexed.{IsIndexed};
    ghost use Rattle.cut_preflow.specs.Trace.{Trace, flow_network, state_with, IsTrace};

    ghost Value = { Trace };

    ghost view = { λ p. record { net = flow_network p.ends p.graph.imports; history = p.history.items } };

    ghost invariant = { λ p. IsTrace (flow_network p.ends p.graph.imports) p.graph.flow p.labels.items p.history.items × IsIndexed (flow_network p.ends p.graph.imports) (state_with p.graph.flow p.labels.items) p.graph.nodes p.excesses.items p.active };
}

/// The initial labels: the number of nodes for the source, 0 for the others.
fn initial_labels(alloc: Global, ends: FlowEnds) -> Result<Vec<u32>, AllocError>
    requires { ends.source < ends.nodes }
    ensures { IfOk result (λ labels. labels.items ≡ slice_set (replicate ends.nodes 0) ends.source ends.nodes) }
{
    let mut labels = vec![in alloc; 0u32; ends.nodes as usize]?;
    labels[ends.source as usize] = ends.nodes;
    Ok(labels)
}

/// The initial preflow, before the discharge order is advanced.
fn new_core(alloc: Global, ends: FlowEnds, imports: Vec<Priced>) -> Result<PreflowCore, AllocError>
    requires network { IsFlowNetwork (flow_network ends imports.items) }
    requires limits { IsWithinLimits (flow_network ends imports.items) }
    ensures { IfOk result (λ p. p ≡ record { net = flow_network ends imports.items; history = [] }) }
{
    let graph = FlowGraph::initial_preflow(alloc, ends, imports.as_slice())?;
    let labels = initial_labels(alloc, ends)?;
    let order = graph.order(alloc)?;
    let discharge_order = DischargeOrder::of_nodes(alloc, order, ends.nodes)?;
    let excesses = initial_excesses(alloc, ends, imports.as_slice(), discharge_order)?;
    let current = CurrentArcs::new(alloc, ends.nodes)?;
    Ok(PreflowCore {
        ends,
        graph,
        labels,
        history: Vec::new(alloc),
        excesses: excesses.each,
        active: excesses.active,
        current,
    })
}

/// The initial preflow on these nodes and imports, which may be in any order.
pub(crate) fn opening(
    alloc: Global,
    ends: FlowEnds,
    imports: Vec<Priced>,
) -> Result<PreflowCore, AllocError>
    requires network { IsFlowNetwork (flow_network ends imports.items) }
    requires limits { IsWithinLimits (flow_network ends imports.items) }
    ensures { IfOk result (λ p. p ≡ record { net = flow_network ends imports.items; history = [] }) }
{
    let mut preflow = new_core(alloc, ends, imports)?;
    preflow.advance();
    Ok(preflow)
}

impl PreflowCore {
    /// The initial preflow between two different modules: the imports by `from` are saturated, and its label is the number of modules.
    /// Fails if an allocation fails.
    pub(crate) fn start(
        alloc: Global,
        net: &Net,
        from: u32,
        to: u32,
    ) -> Result<PreflowCore, AllocError>
        requires { AreEnds net.now from to }
        ensures { IfOk result (λ p. p ≡ record { net = network_between net.now from to; history = [] }) }
    {
        net.invariants();
        let imports = net.imports().to_vec(alloc)?;
        let ends = FlowEnds {
            nodes: net.nodes(),
            source: from,
            sink: to,
        };
        opening(alloc, ends, imports)
    }

    /// Tries an event: applies its step and appends it to the history, if the step applies. Returns the moved amount or the new label;
    /// `Stale` if the step doesn't apply; `Refused` if the history's allocation fails, and nothing changes then.
    pub(crate) fn apply(&mut self, event: Event) -> Outcome
        ensures stale { (result ≡ Outcome.Stale) ↔ (applies self.old.net (state_of self.old) event.step ≡ false) }
        ensures outcome { result ≢ Outcome.Refused → result ≡ step_outcome self.old.net (state_of self.old) event.step }
        ensures history { self.new ≡ record self.old { history = history_after self.old.history event result } }
        ensures state { result ≢ Outcome.Refused → state_of self.new ≡ after self.old.net (state_of self.old) event.step }
    {
        let outcome = self.apply_step(event);
        self.advance();
        outcome
    }

    /// As `apply`, without advancing the discharge order.
    fn apply_step(&mut self, event: Event) -> Outcome
        ensures stale { (result ≡ Outcome.Stale) ↔ (applies self.old.net (state_of self.old) event.step ≡ false) }
        ensures outcome { result ≢ Outcome.Refused → result ≡ step_outcome self.old.net (state_of self.old) event.step }
        ensures history { self.new ≡ record self.old { history = history_after self.old.history event result } }
        ensures state { result ≢ Outcome.Refused → state_of self.new ≡ after self.old.net (state_of self.old) event.step }
    {
        match event.step {
            Step::Push { arc } => self.push(event, arc),
            Step::Relabel { node } => self.relabel(event, node),
        }
    }

    /// Advances the discharge order to an active node, if there is one.
    fn advance(&mut self)
        ensures { self.new ≡ self.old }
    {
        self.active.advance();
    }

    /// Advances the current arc of a node after a push over one of its arcs.
    fn advance_current_arc(&mut self, node: u32, arc: u32)
        requires { node < self.old.net.nodes }
        ensures { self.new ≡ self.old }
    {
        let index = self.next_current_arc(node, arc);
        self.current.set_current(node, index);
    }

    /// The index of the node's current arc.
    pub(crate) fn current_arc_index(&self, node: u32) -> usize {
        self.current.current_index(node)
    }

    /// The current node of the discharge order, if it is active.
    fn scheduled_node(&self) -> Option<u32>
        ensures { IfSome result (λ v. is_active self.now.net (state_of self.now) v ≡ true) }
    {
        let node = self.active.scheduled_node()?;
        if self.is_active(node) {
            Some(node)
        } else {
            None
        }
    }

    /// An active node: the current one of the discharge order, if that is active.
    pub(crate) fn choose_node(&self) -> Option<u32>
        ensures some { IfSome result (λ v. is_active self.now.net (state_of self.now) v ≡ true) }
        ensures none { IsNone result ↔ IsQuiet self.now.net (state_of self.now) }
    {
        let other = self.active()?;
        match self.scheduled_node() {
            Some(node) => Some(node),
            None => Some(other),
        }
    }
}

impl PreflowCore {
    /// The invariant of a preflow: no flow exceeds its import's weight, no module but the source has more outflow than inflow, the
    /// labelling is valid, and labels are below twice the number of modules. If no node is active, the flow is a flow of the network.
    pub(crate) fn invariants(&self)
        ensures sound { IsSound self.now.net (state_of self.now) }
        ensures flow { IsQuiet self.now.net (state_of self.now) → HasFlow self.now.net (state_of self.now) }
        ensures shut { IsQuiet self.now.net (state_of self.now) → IsSinkUnreachable self.now.net (state_of self.now) }
    {
        // The prover knows the type's invariant only after a use of a field.
        let _ = &self.labels;
    }

    /// The applied events, in order; each applied in the state after its predecessors. Their number is bounded.
    pub(crate) fn history(&self) -> &[Event]
        ensures events { result.now ≡ self.now.history }
        ensures legal { is_legal self.now.net (opening self.now.net) self.now.history ≡ true }
        ensures few { length self.now.history ≤ max_steps self.now.net }
    {
        self.history.as_slice()
    }

    /// The label of a node.
    pub(crate) fn label(&self, node: u32) -> u32
        requires { node < self.now.net.nodes }
        ensures value { result ≡ label_at (state_of self.now) node }
        ensures low { result < 2 * self.now.net.nodes }
    {
        self.labels[node as usize]
    }

    /// The flow on an import.
    pub(crate) fn flow(&self, import: u32) -> u64
        requires { import < count self.now.net }
        ensures value { result ≡ flow_at (state_of self.now) import }
        ensures fits { result ≤ (import_at self.now.net import).amount }
    {
        self.graph.flow(import)
    }

    /// The excess of a node: its inflow less its outflow. For the source it is 0 if that is negative; it isn't stored, but summed over
    /// all imports.
    pub(crate) fn excess(&self, node: u32) -> u64
        requires { node < self.now.net.nodes }
        ensures value { result ≡ excess self.now.net (state_of self.now) node }
        ensures exact { node ≢ self.now.net.source → outflow self.now.net (state_of self.now) node + result ≡ inflow self.now.net (state_of self.now) node }
    {
        if node == self.ends.source {
            self.graph.excess(node)
        } else {
            self.excesses[node as usize]
        }
    }

    /// The number of nodes, and the source and the sink.
    pub(crate) fn ends(&self) -> FlowEnds
        ensures nodes { result.nodes ≡ self.now.net.nodes }
        ensures source { result.source ≡ self.now.net.source }
        ensures sink { result.sink ≡ self.now.net.sink }
    {
        self.ends
    }

    /// The number of imports.
    pub(crate) fn count(&self) -> usize
        ensures { result ≡ count self.now.net }
    {
        self.graph.count()
    }

    /// The arcs of a node, each with its head and residual capacity.
    pub(crate) fn out_arcs(&self, node: u32) -> &[OutArc]
        requires { node < self.now.net.nodes }
        ensures each { All (IsArcFrom (flow_graph_model_of self.now.net (state_of self.now)) node) result.now }
        ensures arcs { (a : ℕ) → Contains (map out_arc_number result.now) a ↔ ((a < 2 * count self.now.net) × (tail self.now.net a ≡ node)) }
        ensures few { count self.now.net ≤ 65536 }
    {
        self.graph.out_arcs(node)
    }

    /// The tail of an arc.
    pub(crate) fn tail(&self, arc: u32) -> u32
        requires { arc / 2 < count self.now.net }
        ensures value { result ≡ tail self.now.net arc }
        ensures low { result < self.now.net.nodes }
    {
        self.graph.tail(arc)
    }

    /// The head of an arc.
    pub(crate) fn head(&self, arc: u32) -> u32
        requires { arc / 2 < count self.now.net }
        ensures value { result ≡ head self.now.net arc }
        ensures low { result < self.now.net.nodes }
    {
        self.graph.head(arc)
    }

    /// The residual capacity of an arc.
    pub(crate) fn residual(&self, arc: u32) -> u64
        requires { arc / 2 < count self.now.net }
        ensures { result ≡ residual self.now.net (state_of self.now) arc }
    {
        self.graph.residual(arc)
    }

    /// Whether a node other than the source and the sink has excess.
    pub(crate) fn is_active(&self, node: u32) -> bool
        ensures value { result ≡ is_active self.now.net (state_of self.now) node }
        ensures low { result ≡ true → node < self.now.net.nodes }
    {
        node < self.ends.nodes
            && node != self.ends.source
            && node != self.ends.sink
            && self.excesses[node as usize] > 0
    }

    /// The bound on applied steps: 4n²m + 2nm + 4n² for n modules and m imports.
    pub(crate) fn step_bound(&self) -> u64
        ensures { result ≡ max_steps self.now.net }
    {
        self.invariants();
        let (nodes, imports) = (u64::from(self.ends.nodes), self.graph.count() as u64);
        4 * nodes * nodes * imports + 2 * nodes * imports + 4 * nodes * nodes
    }

    /// A node other than the source and the sink that has excess, if there is one.
    pub(crate) fn active(&self) -> Option<u32>
        ensures some { IfSome result (λ v. is_active self.now.net (state_of self.now) v ≡ true) }
        ensures none { IsNone result ↔ IsQuiet self.now.net (state_of self.now) }
    {
        self.active.any_member()
    }

    /// Flags the nodes that the source reaches by arcs with residual capacity. If no node is active, they are the minimal source side,
    /// and the sink isn't one of them.
    pub(crate) fn side(&self) -> Result<Vec<bool>, AllocError>
        ensures size { IfOk result (λ m. length m.items ≡ self.now.net.nodes) }
        ensures reached { IfOk result (λ m. AreReached self.now.net (state_of self.now) m.items) }
        ensures near { IsQuiet self.now.net (state_of self.now) → IfOk result (λ m. AreSourceSide self.now.net m.items) }
        ensures end { IsQuiet self.now.net (state_of self.now) → IfOk result (λ m. has m.items self.now.net.sink ≡ false) }
    {
        self.invariants();
        self.graph.reach(*self.labels.allocator(), self.ends.source)
    }

    /// Pushes over the arc of the event, if the push applies, and appends the event to the history.
    fn push(&mut self, event: Event, arc: u32) -> Outcome
        requires { event.step ≡ Step.Push arc }
        ensures outcome { result ≢ Outcome.Refused → result ≡ step_outcome self.old.net (state_of self.old) event.step }
        ensures refused { result ≡ Outcome.Refused → applies self.old.net (state_of self.old) event.step ≡ true }
        ensures history { self.new ≡ record self.old { history = history_after self.old.history event result } }
    {
        let Some(amount) = self.push_amount(arc) else {
            return Outcome::Stale;
        };
        let from = self.tail(arc);
        let to = self.head(arc);
        let Ok(()) = self.history.push(event) else {
            return Outcome::Refused;
        };
        self.graph.send(arc, amount);
        move_excess(
            self.ends,
            &mut self.excesses,
            &mut self.active,
            from,
            to,
            amount,
        );
        self.advance_current_arc(from, arc);
        Outcome::Moved { amount }
    }

    /// Relabels the node of the event, if the relabel applies, and appends the event to the history.
    fn relabel(&mut self, event: Event, node: u32) -> Outcome
        requires { event.step ≡ Step.Relabel node }
        ensures outcome { result ≢ Outcome.Refused → result ≡ step_outcome self.old.net (state_of self.old) event.step }
        ensures refused { result ≡ Outcome.Refused → applies self.old.net (state_of self.old) event.step ≡ true }
        ensures history { self.new ≡ record self.old { history = history_after self.old.history event result } }
    {
        let Some(label) = self.raised_label(node) else {
            return Outcome::Stale;
        };
        let Ok(()) = self.history.push(event) else {
            return Outcome::Refused;
        };
        let at = node as usize;
        self.labels[at] = label;
        self.current.set_current(node, 0);
        Outcome::Raised { label }
    }
}
