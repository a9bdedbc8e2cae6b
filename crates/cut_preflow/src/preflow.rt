//! Preflows for many workers: each step is counted in a share of a ledger, whose total is the length of the history.
ghost use Rattle.std.specs.Prelude.{◌≡◌, ◌≢◌, ◌+◌, ◌*◌, ◌<◌, ◌≤◌, ◌↔◌, ◌||◌, ℕ, true, false, IsTrue, IfOk, IfSome, IsNone, IsErr, IsSome, OnOk, Err, length, []};
ghost use Rattle.cut_net.specs.Pins.{PinChain};
ghost use Rattle.cut_preflow.specs.Preflow.{count, import_at, flow_at, label_at, excess, inflow, outflow, is_active, applies, after, opening, is_legal};
ghost use Rattle.cut_preflow.specs.Kept.{IsFlowNetwork, IsQuiet};
ghost use Rattle.cut_preflow.specs.Bound.{max_steps};
ghost use Rattle.cut_preflow.specs.Flows.{AreEnds, AreSourceSide, AreSourceSideWithPins, AreReached, HasFlow, IsSinkUnreachable, network_between, network_on};
ghost use Rattle.cut_preflow.specs.Trace.{state_of, step_outcome, history_after, IsSound, IsWithinLimits};
ghost use Rattle.cut_preflow.specs.Settled.{Appends, AppendsUpTo};
ghost use Rattle.cut_preflow.specs.Shares.{count_after, mark_after};
ghost use Rattle.cut_preflow.specs.Side.{has};

use crate::ends::FlowEnds;
use crate::event::SettleFault;
use crate::preflow_core::{PreflowCore, opening};
use crate::share::MOST_SHARES;
use crate::{Event, NetworkLedger, Outcome, Share, Step};
use cut_net::laws::source_side_with_pins;
use cut_net::{Net, Priced};
use std::alloc::{AllocError, Global};
use std::marker::Model;
use std::sync::ledger;
use std::sync::ledger::{Blank, Book};

/// A preflow on a network between two of its modules (Goldberg and Tarjan 1988, section 3), to be guarded by a lock: a flow for each
/// import, a label for each module, the applied events, and a ledger that counts these. Contracts see it as the network, the events and
/// the counts, since the events determine flows and labels. The type parameter identifies the network.
#[derive(Drop)]
pub struct Preflow<L: NetworkLedger> {
    core_state: PreflowCore,
    book: Book<L>,
    own: ledger::Share<L>,
    shares_out: u32,
}

impl<L: NetworkLedger> Model for Preflow<L> {
    ghost use Rattle.std.specs.Prelude.{◌≡◌, ◌+◌, ◌≤◌, length};
    ghost use Rattle.cut_preflow.specs.Shares.{Shared};

    ghost Value = { Shared };

    ghost view = { λ p. record { trace = p.core_state; counted = p.book.total; own = p.own.amount; shares_out = p.shares_out } };

    ghost invariant = { λ p. (p.book.total ≡ length p.core_state.history) × (p.own.parts + p.shares_out ≡ L.parts) × (L.parts ≡ 65) × (p.shares_out ≤ 64) × (p.core_state.net ≡ L.net) × (p.shares_out ≡ 0 → p.own.amount ≡ p.book.total) };
}

impl<L: NetworkLedger> Preflow<L> {
    /// The initial preflow between two different modules, which are given by their numbers: the imports by `from` are saturated, and its
    /// label is the number of modules. No path of pinned imports may lead from `from` to `to` (see `pinned_chain`), since its flow would
    /// be unbounded. Steps are counted in the ledger of `blank`, which has 65 parts. Fails if an allocation fails; `blank` is then lost.
    pub fn start(
        alloc: Global,
        blank: Blank,
        net: &Net,
        from: u32,
        to: u32,
    ) -> Result<Preflow<L>, AllocError>
        // `from` and `to` are two modules.
        requires ends { AreEnds net.now from to }
        // No path of pinned imports leads from `from` to `to`.
        requires free { PinChain net.now from to → ⊥ }
        // The type names this network.
        requires net { network_between net.now from to ≡ L.net }
        // The ledger is that of `blank`.
        requires name { blank.name ≡ L.name }
        // It has 65 parts.
        requires parts { (blank.parts ≡ 65) × (L.parts ≡ 65) }
        // The preflow is on this network, with an empty history and no counted step.
        ensures { IfOk result (λ p. p ≡ record { trace = record { net = network_between net.now from to; history = [] }; counted = 0; own = 0; shares_out = 0 }) }
    {
        let core_state = PreflowCore::start(alloc, net, from, to)?;
        let (book, own) = blank.open::<L>();
        Ok(Preflow {
            core_state,
            book,
            own,
            shares_out: 0,
        })
    }

    /// As `start`, on a network with the nodes below `nodes` and these imports, in any order.
    pub fn start_on(
        alloc: Global,
        blank: Blank,
        nodes: u32,
        imports: Vec<Priced>,
        from: u32,
        to: u32,
    ) -> Result<Preflow<L>, AllocError>
        // Imports lead between nodes, without repeats, and `from` and `to` are two nodes.
        requires network { IsFlowNetwork (network_on nodes imports.items from to) }
        // There are at most 8,192 nodes and 65,536 imports, and the total weight is below 2^64.
        requires limits { IsWithinLimits (network_on nodes imports.items from to) }
        // The type names this network.
        requires net { network_on nodes imports.items from to ≡ L.net }
        // The ledger is that of `blank`.
        requires name { blank.name ≡ L.name }
        // It has 65 parts.
        requires parts { (blank.parts ≡ 65) × (L.parts ≡ 65) }
        // The preflow is on this network, with an empty history and no counted step.
        ensures { IfOk result (λ p. p ≡ record { trace = record { net = network_on nodes imports.items from to; history = [] }; counted = 0; own = 0; shares_out = 0 }) }
    {
        let ends = FlowEnds {
            nodes,
            source: from,
            sink: to,
        };
        let core_state = opening(alloc, ends, imports)?;
        let (book, own) = blank.open::<L>();
        Ok(Preflow {
            core_state,
            book,
            own,
            shares_out: 0,
        })
    }

    /// A new share of the ledger, which counts no step and isn't flagged. It is out until `rejoin`. None if 64 shares are out.
    pub fn share(&mut self) -> Option<Share<L>>
        // There is a share exactly if fewer than 64 are out.
        ensures some { IsSome result ↔ (self.old.shares_out < 64) }
        // The share is empty and unflagged, and counts as out.
        ensures empty { IfSome result (λ s. (s ≡ record { count = 0; marked = false }) × (self.new ≡ record self.old { shares_out = self.old.shares_out + 1 })) }
        // Without a share nothing changes.
        ensures none { IsNone result → self.new ≡ self.old }
    {
        if self.shares_out >= MOST_SHARES {
            return None;
        }
        let part = self.own.split_off(1, 0);
        self.shares_out += 1;
        Some(Share {
            part,
            count: 0,
            marked: false,
        })
    }

    /// Tries an event: applies its step and appends it to the history, if the step applies. Returns the moved amount or the new label;
    /// `Stale` if the step doesn't apply; `Refused` if the history's allocation fails, and nothing changes then. Counts the step in the
    /// preflow's own share.
    pub fn apply(&mut self, event: Event) -> Outcome
        // The outcome is `Stale` exactly if the step doesn't apply.
        ensures stale { (result ≡ Outcome.Stale) ↔ (applies self.old.trace.net (state_of self.old.trace) event.step ≡ false) }
        // The outcome has the amount or the label of the step, unless it is `Refused`.
        ensures outcome { result ≢ Outcome.Refused → result ≡ step_outcome self.old.trace.net (state_of self.old.trace) event.step }
        // The history has the event appended, if the step was applied.
        ensures history { self.new.trace ≡ record self.old.trace { history = history_after self.old.trace.history event result } }
        // The state is that after the step, unless the outcome is `Refused`.
        ensures state { result ≢ Outcome.Refused → state_of self.new.trace ≡ after self.old.trace.net (state_of self.old.trace) event.step }
        // An applied step is counted in the ledger and in the own share.
        ensures counted { self.new ≡ record self.old { trace = self.new.trace; counted = count_after self.old.counted result; own = count_after self.old.own result } }
    {
        let tried = self.core_state.apply(event);
        match tried {
            Outcome::Moved { .. } | Outcome::Raised { .. } => self.book.add(&mut self.own, 1),
            Outcome::Stale | Outcome::Refused => {}
        }
        tried
    }

    /// As `apply`, but counts the step in this share. An event with outcome `Refused` flags the share.
    pub fn apply_as(&mut self, event: Event, share: &mut Share<L>) -> Outcome
        // The outcome is `Stale` exactly if the step doesn't apply.
        ensures stale { (result ≡ Outcome.Stale) ↔ (applies self.old.trace.net (state_of self.old.trace) event.step ≡ false) }
        // The outcome has the amount or the label of the step, unless it is `Refused`.
        ensures outcome { result ≢ Outcome.Refused → result ≡ step_outcome self.old.trace.net (state_of self.old.trace) event.step }
        // The history has the event appended, if the step was applied.
        ensures history { self.new.trace ≡ record self.old.trace { history = history_after self.old.trace.history event result } }
        // The state is that after the step, unless the outcome is `Refused`.
        ensures state { result ≢ Outcome.Refused → state_of self.new.trace ≡ after self.old.trace.net (state_of self.old.trace) event.step }
        // An applied step is counted in the ledger.
        ensures counted { self.new ≡ record self.old { trace = self.new.trace; counted = count_after self.old.counted result } }
        // An applied step is counted in the share, and `Refused` flags it.
        ensures share { share.new ≡ record { count = count_after share.old.count result; marked = mark_after share.old.marked result } }
    {
        let outcome = self.core_state.apply(event);
        match outcome {
            Outcome::Moved { .. } | Outcome::Raised { .. } => {
                // Called only for its contract: with 0 parts and 0 counts nothing changes. The contract states that both shares together
                // have at most the ledger's 65 parts, which shows that a share is out.
                self.own.give(&mut share.part, 0, 0);
                self.book.add(&mut share.part, 1);
                // Shows that the share's count fits 64 bits: it is at most the ledger's total, which is the length of the history, and
                // that is bounded.
                self.book.audit(&mut share.part);
                let _ = self.core_state.history();
                share.count += 1;
            }
            Outcome::Stale => {}
            Outcome::Refused => share.marked = true,
        }
        outcome
    }

    /// Returns whether no node is active, and flags the share if so.
    pub fn note_quiet(&self, share: &mut Share<L>) -> bool
        // The result is whether no node is active.
        ensures quiet { IsTrue result ↔ IsQuiet self.now.trace.net (state_of self.now.trace) }
        // The share is flagged if no node is active.
        ensures marked { share.new ≡ record share.old { marked = share.old.marked || result } }
    {
        let quiet = self.is_quiet();
        if quiet {
            share.marked = true;
        }
        quiet
    }

    /// Merges a share into the preflow's own share. Returns the number of shares that are still out; if it is 0, the own share counts all
    /// steps of the history.
    pub fn rejoin(&mut self, share: Share<L>) -> u32
        // The result is the number of shares that are out, one less than before.
        ensures out { (result ≡ self.new.shares_out) × (result + 1 ≡ self.old.shares_out) }
        // The steps of the share are counted in the own share.
        ensures own { self.new.own ≡ self.old.own + share.count }
        // Network and history are unchanged.
        ensures trace { self.new.trace ≡ self.old.trace }
        // If no share is out, the own share counts all steps of the history.
        ensures whole { result ≡ 0 → self.new.own ≡ length self.new.trace.history }
    {
        let Share {
            part,
            count: _,
            marked: _,
        } = share;
        self.own.merge(part);
        self.book.audit(&mut self.own);
        self.shares_out -= 1;
        self.shares_out
    }
}

impl<L: NetworkLedger> Preflow<L> {
    /// The invariant of a preflow: its network is the one that its type names, the ledger's total is the length of its history, and the
    /// history is legal. If no share is out, its own share counts all steps. No flow exceeds its import's weight, no module but the
    /// source has more outflow than inflow, the labelling is valid, and labels are below twice the number of modules. If no node is
    /// active, the flow is a flow of the network.
    pub fn invariants(&self)
        // The network is the one that the type names.
        ensures net { self.now.trace.net ≡ L.net }
        // The ledger counts all steps of the history.
        ensures counted { self.now.counted ≡ length self.now.trace.history }
        // If no share is out, the own share counts all steps of the history.
        ensures whole { self.now.shares_out ≡ 0 → self.now.own ≡ length self.now.trace.history }
        // The history is legal.
        ensures legal { is_legal self.now.trace.net (opening self.now.trace.net) self.now.trace.history ≡ true }
        // The state satisfies the invariant.
        ensures sound { IsSound self.now.trace.net (state_of self.now.trace) }
        // If no node is active, the flow is a flow of the network.
        ensures flow { IsQuiet self.now.trace.net (state_of self.now.trace) → HasFlow self.now.trace.net (state_of self.now.trace) }
        // If no node is active, the sink isn't reachable in the residual graph.
        ensures shut { IsQuiet self.now.trace.net (state_of self.now.trace) → IsSinkUnreachable self.now.trace.net (state_of self.now.trace) }
    {
        // The clause `legal` of `history` states that the history is legal.
        let _ = self.core_state.history();
        self.core_state.invariants();
    }

    /// The applied events, in order; each applied in the state after its predecessors. For n modules and m imports there are at most
    /// 4n²m + 2nm + 4n² events.
    pub fn history(&self) -> &[Event]
        // They are the events of the history.
        ensures events { result.now ≡ self.now.trace.history }
        // Each event applied in the state after its predecessors.
        ensures legal { is_legal self.now.trace.net (opening self.now.trace.net) self.now.trace.history ≡ true }
        // Their number is bounded.
        ensures few { length self.now.trace.history ≤ max_steps self.now.trace.net }
    {
        self.core_state.history()
    }

    /// The label of a node, given by its module number.
    pub fn label(&self, node: u32) -> u32
        // `node` is a node.
        requires { node < self.now.trace.net.nodes }
        // It is the node's label.
        ensures value { result ≡ label_at (state_of self.now.trace) node }
        // It is below twice the number of nodes.
        ensures low { result < 2 * self.now.trace.net.nodes }
    {
        self.core_state.label(node)
    }

    /// The flow on the import of this number, in units of weight.
    pub fn flow(&self, import: u32) -> u64
        // There is an import of this number.
        requires { import < count self.now.trace.net }
        // It is the import's flow.
        ensures value { result ≡ flow_at (state_of self.now.trace) import }
        // It is at most the import's weight.
        ensures fits { result ≤ (import_at self.now.trace.net import).amount }
    {
        self.core_state.flow(import)
    }

    /// The excess of a node, given by its module number: its inflow less its outflow, in units of weight. For the source it is 0 if that is
    /// negative.
    pub fn excess(&self, node: u32) -> u64
        // `node` is a node.
        requires { node < self.now.trace.net.nodes }
        // It is the node's excess.
        ensures value { result ≡ excess self.now.trace.net (state_of self.now.trace) node }
        // Except for the source, it is exactly the inflow less the outflow.
        ensures exact { node ≢ self.now.trace.net.source → outflow self.now.trace.net (state_of self.now.trace) node + result ≡ inflow self.now.trace.net (state_of self.now.trace) node }
    {
        self.core_state.excess(node)
    }

    /// A node other than the source and the sink that has excess, if there is one.
    pub fn active(&self) -> Option<u32>
        // The node is active.
        ensures some { IfSome result (λ v. is_active self.now.trace.net (state_of self.now.trace) v ≡ true) }
        // There is no result exactly if no node is active.
        ensures none { IsNone result ↔ IsQuiet self.now.trace.net (state_of self.now.trace) }
    {
        self.core_state.active()
    }

    /// Whether no node but the source and the sink has excess.
    pub fn is_quiet(&self) -> bool
        // The result is whether no node is active.
        ensures { IsTrue result ↔ IsQuiet self.now.trace.net (state_of self.now.trace) }
    {
        self.active().is_none()
    }

    /// A step that applies; none if no node is active.
    pub fn next_step(&self) -> Option<Step>
        // The step applies.
        ensures some { IfSome result (λ step. applies self.now.trace.net (state_of self.now.trace) step ≡ true) }
        // There is no result exactly if no node is active.
        ensures none { IsNone result ↔ IsQuiet self.now.trace.net (state_of self.now.trace) }
        // With a result the history is shorter than its bound.
        ensures few { IsSome result → length self.now.trace.history < max_steps self.now.trace.net }
    {
        self.core_state.next_step()
    }

    /// Applies at most `fuel` steps as worker 0, until no node is active.
    fn settle_within(&mut self, fuel: u64) -> Result<(), SettleFault>
        ensures net { self.new.trace.net ≡ self.old.trace.net }
        ensures appended { AppendsUpTo 0 fuel self.old.trace.history self.new.trace.history }
        ensures own { self.new.own + length self.old.trace.history ≡ self.old.own + length self.new.trace.history }
        ensures out { self.new.shares_out ≡ self.old.shares_out }
        ensures ok { OnOk result (IsQuiet self.new.trace.net (state_of self.new.trace)) }
        ensures enough { max_steps self.old.trace.net ≤ fuel → result ≢ Err SettleFault.Unfinished }
        ensures unfinished { result ≡ Err SettleFault.Unfinished → (IsQuiet self.new.trace.net (state_of self.new.trace) → ⊥) × Appends 0 fuel self.old.trace.history self.new.trace.history }
        ensures memory { result ≡ Err SettleFault.Memory → (IsQuiet self.new.trace.net (state_of self.new.trace) → ⊥) × (length self.new.trace.history < length self.old.trace.history + fuel) }
    {
        for _i in 0..fuel {
            let Some(step) = self.next_step() else {
                return Ok(());
            };
            let event = Event { worker: 0, step };
            if let Outcome::Refused = self.apply(event) {
                return Err(SettleFault::Memory);
            }
        }
        match self.next_step() {
            None => Ok(()),
            Some(_) => Err(SettleFault::Unfinished),
        }
    }

    /// Applies steps as worker 0 until no node is active: at most 4n²m + 2nm + 4n² for n modules and m imports. Counts them in the
    /// preflow's own share. Fails if the history's allocation fails; the applied steps stay, and a node is active.
    pub fn settle(&mut self) -> Result<(), AllocError>
        // The network is unchanged.
        ensures net { self.new.trace.net ≡ self.old.trace.net }
        // The history has at most the bound of events by worker 0 appended.
        ensures appended { AppendsUpTo 0 (max_steps self.old.trace.net) self.old.trace.history self.new.trace.history }
        // The own share counts the new steps.
        ensures own { self.new.own + length self.old.trace.history ≡ self.old.own + length self.new.trace.history }
        // The number of shares that are out is unchanged.
        ensures out { self.new.shares_out ≡ self.old.shares_out }
        // With `Ok` no node is active.
        ensures ok { OnOk result (IsQuiet self.new.trace.net (state_of self.new.trace)) }
        // With an error a node is active.
        ensures memory { IsErr result → IsQuiet self.new.trace.net (state_of self.new.trace) → ⊥ }
    {
        self.invariants();
        let most = self.core_state.step_bound();
        match self.settle_within(most) {
            Ok(()) => Ok(()),
            Err(SettleFault::Unfinished) => unreachable!(),
            Err(SettleFault::Memory) => Err(AllocError),
        }
    }

    /// For each module whether the source reaches it by arcs with residual capacity. If no node is active, the flagged modules are the
    /// minimal source side, and the sink isn't one of them. If also no path of pinned imports leads from the source to the sink, they are
    /// the minimal source side with pins. Fails if an allocation fails.
    pub fn side(&self) -> Result<Vec<bool>, AllocError>
        // There is a flag for each node.
        ensures size { IfOk result (λ m. length m.items ≡ self.now.trace.net.nodes) }
        // Exactly the nodes that the source reaches in the residual graph are flagged.
        ensures reached { IfOk result (λ m. AreReached self.now.trace.net (state_of self.now.trace) m.items) }
        // If no node is active, they are the minimal source side.
        ensures near { IsQuiet self.now.trace.net (state_of self.now.trace) → IfOk result (λ m. AreSourceSide self.now.trace.net m.items) }
        // If no node is active, they are the minimal source side with pins.
        ensures source_side_with_pins { IsQuiet self.now.trace.net (state_of self.now.trace) → IfOk result (λ m. AreSourceSideWithPins self.now.trace.net m.items) }
        // If no node is active, the sink isn't flagged.
        ensures end { IsQuiet self.now.trace.net (state_of self.now.trace) → IfOk result (λ m. has m.items self.now.trace.net.sink ≡ false) }
    {
        source_side_with_pins();
        self.core_state.side()
    }
}
