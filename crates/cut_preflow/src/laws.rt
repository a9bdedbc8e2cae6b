//! Laws of all lists of events, including events that don't apply or have numbers out of range. Each law is the contract of a function
//! with an empty body. The definitions are those that the contracts of `start` and `apply` cite.
ghost use Rattle.std.specs.Prelude.{◌≡◌, ◌≢◌, ◌↔◌, ◌≤◌, ◌<◌, ◌*◌, ◌+◌, ℕ, Bool, true, Some, List, length};
ghost use Rattle.cut_net.specs.Network.{Network};
ghost use Rattle.cut_net.specs.Pins.{ArePins, IsFlowWithPins, InSourceSideWithPins, PinChain};
ghost use Rattle.cut_net.specs.WellFormed.{IsNetwork};
ghost use Rattle.cut_net.specs.Cuts.{IsSetOf, IsFlow, InSourceSide, Reached};
ghost use Rattle.cut_preflow.specs.declared.event.Event.{Event};
ghost use Rattle.cut_preflow.specs.Preflow.{FlowNetwork, State, run, opening, is_legal, relabel_target};
ghost use Rattle.cut_preflow.specs.Kept.{IsValidPreflow, IsQuiet};
ghost use Rattle.cut_preflow.specs.Bound.{changes, max_steps};
ghost use Rattle.cut_preflow.specs.Flows.{AreEnds, flow_on, network_between, value_of};
ghost use Rattle.cut_preflow.specs.Relabels.{IsRaised};

use cut_net::laws::source_side_with_pins;

/// For every list of events: no flow exceeds its capacity, no node but the source has more outflow than inflow, the labelling is valid,
/// source and sink never change their labels, and all labels are below twice the number of nodes.
pub fn every_run_is_valid()
    // The run of the events satisfies the invariant.
    ensures { (net : Network) (a b : ℕ) (events : List Event) → IsNetwork net → AreEnds net a b →
        IsValidPreflow (network_between net a b) (run (network_between net a b) (opening (network_between net a b)) events) }
{}

/// If no node but source and sink has excess after a list of events, the flow is a flow of the network.
pub fn quiet_run_is_flow()
    // The flow is a flow of the network.
    ensures { (net : Network) (a b : ℕ) (events : List Event) → IsNetwork net → AreEnds net a b →
        let flow_net = network_between net a b in
        let s = run flow_net (opening flow_net) events in
        IsQuiet flow_net s → IsFlow net a b (flow_on flow_net s) (value_of flow_net s) }
{}

/// If no node but source and sink has excess after a list of events, the modules that the source reaches in the residual graph are the
/// minimal source side. So neither this side nor the reported imports depend on the events.
pub fn quiet_run_reaches_source_side()
    // The reachable modules are the minimal source side.
    ensures { (net : Network) (a b : ℕ) (events : List Event) (modules : ℕ → Bool) → IsNetwork net → AreEnds net a b →
        let flow_net = network_between net a b in
        let s = run flow_net (opening flow_net) events in
        IsQuiet flow_net s → IsSetOf modules (Reached net (flow_on flow_net s) a) → IsSetOf modules (InSourceSide net a b) }
{}

/// If no node but source and sink has excess after a list of events, the flow is a flow by the definition with pins. If also no path of
/// pinned imports leads from the source to the sink, the modules that the source reaches are the minimal source side with pins.
pub fn quiet_run_with_pins()
    // The flow is a flow with pins.
    ensures flow { (net : Network) (a b : ℕ) (events : List Event) → IsNetwork net → AreEnds net a b →
        let flow_net = network_between net a b in
        let s = run flow_net (opening flow_net) events in
        IsQuiet flow_net s → IsFlowWithPins net a b (flow_on flow_net s) (value_of flow_net s) }
    // The reachable modules are the minimal source side with pins.
    ensures near { (net : Network) (a b : ℕ) (events : List Event) (modules : ℕ → Bool) → IsNetwork net → AreEnds net a b →
        ArePins net → (PinChain net a b → ⊥) →
        let flow_net = network_between net a b in
        let s = run flow_net (opening flow_net) events in
        IsQuiet flow_net s → IsSetOf modules (Reached net (flow_on flow_net s) a) → IsSetOf modules (InSourceSideWithPins net a b) }
{
    source_side_with_pins();
}

/// A list of events changes the state at most 4n²m + 2nm + 4n² times, for n nodes and m imports; no legal history is longer.
pub fn steps_are_bounded()
    // The number of changes is bounded.
    ensures changes { (net : Network) (a b : ℕ) (events : List Event) → IsNetwork net → AreEnds net a b →
        changes (network_between net a b) (opening (network_between net a b)) events ≤ max_steps (network_between net a b) }
    // The length of a legal history is bounded.
    ensures legal { (net : Network) (a b : ℕ) (events : List Event) → IsNetwork net → AreEnds net a b →
        is_legal (network_between net a b) (opening (network_between net a b)) events ≡ true → length events ≤ max_steps (network_between net a b) }
{}

/// A relabel applies to an active node none of whose arcs with residual capacity leads to a lower label, if it has one with residual
/// capacity. The new label is one more than the smallest label at their heads.
pub fn new_label_is_smallest()
    // A relabel of node v gives it the label `label` exactly if `IsRaised` holds.
    ensures { (flow_net : FlowNetwork) (s : State) (v label : ℕ) → (relabel_target flow_net s v ≡ Some label) ↔ IsRaised flow_net s v label }
{}
