//! Which pushes and relabels apply, and what they change.
ghost use Rattle.std.specs.Prelude.{◌≡◌, ◌*◌, ◌<◌, ◌≤◌, ◌↔◌, ℕ, All, Some, None, IfSome, IsNone, IsSome, true, false, length, if◌then◌else◌};
ghost use Rattle.cut_preflow.specs.FlowGraphs.{IsArcFrom, out_arc_number};
ghost use Rattle.cut_preflow.specs.Preflow.{applies, can_push, count, is_active, push_amount, relabel_target, smaller, tail};
ghost use Rattle.cut_preflow.specs.Kept.{IsQuiet};
ghost use Rattle.cut_preflow.specs.Bound.{max_steps};
ghost use Rattle.cut_preflow.specs.Trace.{flow_graph_model_of, state_of};
ghost use Rattle.cut_preflow.specs.Relabels.{LeadsTo};

use crate::Step;
use crate::flow_graph::arc_number;
use crate::preflow_core::PreflowCore;
use residual_graph::OutArc;

/// The smaller one of a label and an optional label, which counts as infinite if it is `None`.
fn smaller(least: Option<u32>, label: u32) -> u32
    ensures { result ≡ smaller least label }
{
    match least {
        None => label,
        Some(other) => other.min(label),
    }
}

impl PreflowCore {
    /// The amount that a push over the arc moves; none if the push doesn't apply. Arcs are numbered as in `Step`.
    pub(crate) fn push_amount(&self, arc: u32) -> Option<u64>
        ensures { result ≡ (if can_push self.now.net (state_of self.now) arc then Some (push_amount self.now.net (state_of self.now) arc) else None) }
    {
        if (arc / 2) as usize >= self.count() {
            return None;
        }
        let from = self.tail(arc);
        let to = self.head(arc);
        let room = self.residual(arc);
        let downhill = u64::from(self.label(from)) == u64::from(self.label(to)) + 1;
        if self.is_active(from) && room > 0 && downhill {
            Some(self.excess(from).min(room))
        } else {
            None
        }
    }

    /// The smallest label at the heads of a node's arcs with residual capacity; `None` if no arc of the node has capacity.
    fn least_label(&self, node: u32) -> Option<u32>
        requires { node < self.now.net.nodes }
        ensures some { IfSome result (λ least. LeadsTo self.now.net (state_of self.now) node least × ((other : ℕ) → LeadsTo self.now.net (state_of self.now) node other → least ≤ other)) }
        ensures none { IsNone result → (label : ℕ) → LeadsTo self.now.net (state_of self.now) node label → ⊥ }
    {
        let mut least = None;
        for out in self.out_arcs(node) {
            if out.residual > 0 {
                let label = self.label(out.head);
                least = Some(smaller(least, label));
            }
        }
        least
    }

    /// The label that a relabel gives the node: one more than the smallest label at the heads of its arcs with residual capacity. None if
    /// the relabel doesn't apply.
    pub(crate) fn raised_label(&self, node: u32) -> Option<u32>
        ensures { result ≡ relabel_target self.now.net (state_of self.now) node }
    {
        if !self.is_active(node) {
            return None;
        }
        self.invariants();
        let least = self.least_label(node)?;
        if self.label(node) <= least {
            Some(least + 1)
        } else {
            None
        }
    }

    /// Whether a push over an arc of a node applies, provided that the node is active.
    fn can_push(&self, out: OutArc, node: u32) -> bool
        requires out { IsArcFrom (flow_graph_model_of self.now.net (state_of self.now)) node out }
        requires node { node < self.now.net.nodes }
        ensures { is_active self.now.net (state_of self.now) node ≡ true → result ≡ can_push self.now.net (state_of self.now) (out_arc_number out) }
    {
        out.residual > 0 && u64::from(self.label(node)) == u64::from(self.label(out.head)) + 1
    }

    /// The index of a node's new current arc after a push over `arc`: of the first arc, from the current one on, over which a push applies,
    /// but at most the index after `arc`.
    pub(crate) fn next_current_arc(&self, node: u32, arc: u32) -> usize
        requires { node < self.now.net.nodes }
    {
        let outs = self.out_arcs(node);
        for position in self.current_arc_index(node)..outs.len() {
            let out = outs[position];
            if self.can_push(out, node) {
                return position;
            }
            if out.step.arc == (arc / 2) as usize && out.step.forward == (arc % 2 == 0) {
                return position + 1;
            }
        }
        outs.len()
    }

    /// The number of the first arc in `outs` over which a push applies. They are arcs of `node`, which is active.
    fn first_pushable_arc(&self, node: u32, outs: &[OutArc]) -> Option<u32>
        requires each { All (IsArcFrom (flow_graph_model_of self.now.net (state_of self.now)) node) outs.now }
        requires active { is_active self.now.net (state_of self.now) node ≡ true }
        requires node { node < self.now.net.nodes }
        requires few { count self.now.net ≤ 65536 }
        ensures some { IfSome result (λ arc. can_push self.now.net (state_of self.now) arc ≡ true) }
        ensures none { IsNone result → All (λ out. can_push self.now.net (state_of self.now) (out_arc_number out) ≡ false) outs.now }
    {
        for out in outs {
            if self.can_push(*out, node) {
                return Some(arc_number(out.step));
            }
        }
        None
    }

    /// The first arc of an active node over which a push applies, from its current arc on and then from its first arc. A node with label
    /// 0 has none, which saves a scan of all arcs before its first relabel.
    fn find_pushable_arc(&self, node: u32) -> Option<u32>
        requires active { is_active self.now.net (state_of self.now) node ≡ true }
        requires node { node < self.now.net.nodes }
        ensures some { IfSome result (λ arc. can_push self.now.net (state_of self.now) arc ≡ true) }
        ensures none { IsNone result → (a : ℕ) → a < 2 * count self.now.net → tail self.now.net a ≡ node → can_push self.now.net (state_of self.now) a ≡ false }
    {
        if self.label(node) == 0 {
            return None;
        }
        let outs = self.out_arcs(node);
        let (passed, ahead) = outs.split_at(self.current_arc_index(node).min(outs.len()));
        match self.first_pushable_arc(node, ahead) {
            Some(arc) => Some(arc),
            None => self.first_pushable_arc(node, passed),
        }
    }

    /// A step that applies: a push of an active node, or its relabel if no push applies. None if no node is active.
    pub(crate) fn next_step(&self) -> Option<Step>
        ensures some { IfSome result (λ step. applies self.now.net (state_of self.now) step ≡ true) }
        ensures none { IsNone result ↔ IsQuiet self.now.net (state_of self.now) }
        ensures few { IsSome result → length self.now.history < max_steps self.now.net }
    {
        let node = self.choose_node()?;
        self.invariants();
        let _ = self.history();
        match self.find_pushable_arc(node) {
            Some(arc) => Some(Step::Push { arc }),
            None => Some(Step::Relabel { node }),
        }
    }
}
