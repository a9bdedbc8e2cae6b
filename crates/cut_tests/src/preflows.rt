//! Steps with their outcomes, from the initial preflow on, in any order, in shares and outside, and the completion.
ghost use Rattle.std.specs.Prelude.{◌≡◌, ◌<◌, IfOk, IsTrue, length};
ghost use Rattle.cut_net.specs.Pins.{PinChain};
ghost use Rattle.cut_preflow.specs.Flows.{AreEnds, network_between};

use crate::description::expect;
use crate::worked::{A_WAY_BACK, THREE_IMPORTS, TWO_IMPORTS, append_lines, net_of};
use cut_net::{Net, Priced};
use cut_preflow::{Event, LEDGER_PARTS, NetworkLedger, Outcome, Preflow, Share, Step};
use cut_solve::workers::look;
use std::alloc::{AllocError, Global};
use std::marker::Brand;
use std::sync::ledger::Blank;
use std::test::Fail;

/// A scenario on the initial preflow.
#[derive(Clone, Copy)]
pub(crate) enum Scenario {
    /// These steps in turn.
    Steps(&'static [Step]),
    /// All steps repeatedly, with this difference between the numbers of successive ones.
    All(u32),
    /// 66 calls of `share`.
    Shares,
    /// Steps in a share and outside of it.
    Counts,
    /// A relabel of the third module.
    Raised,
}

/// The result of a scenario; and after completion the minimal source side, and the imports with flow.
#[derive(Drop)]
pub(crate) struct Settled {
    pub(crate) description: String,
    pub(crate) side: Vec<bool>,
    pub(crate) flow: Vec<Priced>,
}

/// Whether no path of pinned imports leads from one module to the other.
pub(crate) fn has_no_pinned_path(
    alloc: Global,
    net: &Net,
    from: u32,
    to: u32,
) -> Result<bool, AllocError>
    requires from { from < length net.now.names }
    requires to { to < length net.now.names }
    ensures { IfOk result (λ yes. IsTrue yes → PinChain net.now from to → ⊥) }
{
    match net.pinned_chain(from, to)? {
        Some(_) => Ok(false),
        None => Ok(true),
    }
}

/// The imports with flow, each with its flow.
fn imports_with_flow<L: NetworkLedger>(
    alloc: Global,
    net: &Net,
    _ends: (u32, u32),
    preflow: &Preflow<L>,
) -> Result<Vec<Priced>, AllocError>
    requires { preflow.now.trace.net ≡ network_between net.now _ends.0 _ends.1 }
{
    net.invariants();
    let mut flow = Vec::new(alloc);
    for number in 0..net.imports().len() as u32 {
        let import = net.import(number);
        let amount = preflow.flow(number);
        if amount > 0 {
            flow.push(Priced { amount, ..import })?;
        }
    }
    Ok(flow)
}

/// The label and the excess of each module.
fn append_modules<L: NetworkLedger>(
    text: &mut String,
    net: &Net,
    ends: (u32, u32),
    preflow: &Preflow<L>,
) -> Result<(), AllocError>
    requires { preflow.now.trace.net ≡ network_between net.now ends.0 ends.1 }
{
    let _ = ends;
    for node in 0..net.nodes() {
        write!(text, " {}:{}", preflow.label(node), preflow.excess(node))?;
    }
    Ok(())
}

/// The next step, the number of steps, and the minimal source side.
fn append_next_step<L: NetworkLedger>(
    text: &mut String,
    preflow: &Preflow<L>,
) -> Result<(), AllocError> {
    let side = preflow.side()?;
    write!(
        text,
        "{:?} {:?} {:?} quiet {} after {} side {:?}; ",
        preflow.active(),
        preflow.next_step(),
        look(preflow, 7),
        preflow.is_quiet(),
        preflow.history().len(),
        side.as_slice()
    )
}

/// The labels and excesses of the modules, the imports with flow, and the next step.
fn append_state<L: NetworkLedger>(
    text: &mut String,
    alloc: Global,
    net: &Net,
    ends: (u32, u32),
    preflow: &Preflow<L>,
) -> Result<(), AllocError>
    requires { preflow.now.trace.net ≡ network_between net.now ends.0 ends.1 }
{
    append_modules(text, net, ends, preflow)?;
    append_lines(text, "flow", &imports_with_flow(alloc, net, ends, preflow)?)?;
    text.push_str("; ")?;
    append_next_step(text, preflow)
}

/// Applies an event, again after a failed allocation. Appends it if it changed something.
fn apply_with_retry<L: NetworkLedger>(
    text: &mut String,
    preflow: &mut Preflow<L>,
    event: Event,
) -> Result<Outcome, AllocError>
    ensures { preflow.new.trace.net ≡ preflow.old.trace.net }
{
    let before = (preflow.history().len(), preflow.active());
    let outcome = preflow.apply(event);
    if outcome != Outcome::Refused {
        return Ok(outcome);
    }
    if (preflow.history().len(), preflow.active()) != before {
        text.push_str("changed ")?;
    }
    Ok(preflow.apply(event))
}

/// Applies these steps in turn, and appends the outcome of each and the modules with excess.
fn append_steps<L: NetworkLedger>(
    text: &mut String,
    preflow: &mut Preflow<L>,
    steps: &[Step],
) -> Result<(), AllocError>
    ensures { preflow.new.trace.net ≡ preflow.old.trace.net }
{
    for step in steps {
        let event = Event {
            worker: 4294967295,
            step: *step,
        };
        let outcome = apply_with_retry(text, preflow, event)?;
        write!(text, "{outcome:?} {:?}; ", preflow.active())?;
    }
    Ok(())
}

/// The step with this number: the pushes over all arcs, then the relabels of all nodes.
fn step_by_number(number: u32, arcs: u32) -> Step {
    if number < arcs {
        Step::Push { arc: number }
    } else {
        Step::Relabel {
            node: number - arcs,
        }
    }
}

/// Applies all steps repeatedly, ten thousand in all.
fn apply_all_steps<L: NetworkLedger>(preflow: &mut Preflow<L>, net: &Net, by: u32)
    ensures { preflow.new.trace.net ≡ preflow.old.trace.net }
{
    net.invariants();
    let arcs = (net.imports().len() as u32).saturating_mul(2);
    let steps = arcs.saturating_add(net.nodes()).max(1);
    for turn in 0..10_000u32 {
        let _ = preflow.apply(Event {
            worker: 4294967295,
            step: step_by_number(turn.wrapping_mul(by) % steps, arcs),
        });
    }
}

/// Appends which of 66 calls of `share` return none, and the number of shares out once the last one has come back.
fn append_shares<L: NetworkLedger>(
    text: &mut String,
    preflow: &mut Preflow<L>,
) -> Result<(), AllocError>
    ensures { preflow.new.trace.net ≡ preflow.old.trace.net }
{
    let mut last = None;
    for call in 1..67u32 {
        match preflow.share() {
            Some(share) => last = Some(share),
            None => write!(text, "call {call} gives none, ")?,
        }
    }
    match last {
        Some(share) => write!(text, "{} out; ", preflow.rejoin(share)),
        None => Ok(()),
    }
}

/// Whether each step is applied in the share, and the step.
const COUNTED: &[(bool, Step)] = &[
    (true, Step::Relabel { node: 2 }),
    (true, Step::Relabel { node: 2 }),
    (false, Step::Push { arc: 2 }),
];

fn append_share<L: NetworkLedger>(text: &mut String, share: &Share<L>) -> Result<(), AllocError> {
    write!(text, "{} {}; ", share.count(), share.is_marked())
}

fn append_outcome(text: &mut String, quiet: bool, outcome: Outcome) -> Result<(), AllocError> {
    write!(text, "{quiet} {outcome:?} ")
}

/// Appends before each step whether no node is active, and then the outcome of the step and the state of the share.
fn append_count<L: NetworkLedger>(
    text: &mut String,
    preflow: &mut Preflow<L>,
    share: &mut Share<L>,
) -> Result<(), AllocError>
    ensures { preflow.new.trace.net ≡ preflow.old.trace.net }
{
    for (counted, step) in COUNTED {
        let event = Event {
            worker: 7,
            step: *step,
        };
        let quiet = preflow.note_quiet(share);
        let outcome = if *counted {
            preflow.apply_as(event, share)
        } else {
            preflow.apply(event)
        };
        if outcome == Outcome::Refused {
            return Err(AllocError);
        }
        append_outcome(text, quiet, outcome)?;
        append_share(text, share)?;
    }
    Ok(())
}

/// Counts steps in a share; without active nodes, appends that, the state of the share, the steps, and the number of shares out.
fn append_counts<L: NetworkLedger>(
    text: &mut String,
    preflow: &mut Preflow<L>,
) -> Result<(), AllocError>
    ensures { preflow.new.trace.net ≡ preflow.old.trace.net }
{
    let Some(mut share) = preflow.share() else {
        return Err(AllocError);
    };
    append_count(text, preflow, &mut share)?;
    let quiet = preflow.note_quiet(&mut share);
    append_share(text, &share)?;
    let out = preflow.rejoin(share);
    write!(text, "{quiet} {:?} {out} out; ", preflow.history())
}

/// Raises the label of the third module, again after a failed allocation, and appends the label after the failure and at the end.
fn append_relabel<L: NetworkLedger>(
    text: &mut String,
    net: &Net,
    ends: (u32, u32),
    preflow: &mut Preflow<L>,
) -> Result<(), AllocError>
    requires { preflow.old.trace.net ≡ network_between net.now ends.0 ends.1 }
    ensures { preflow.new.trace.net ≡ preflow.old.trace.net }
{
    let _ = ends;
    if net.nodes() < 3 {
        return Err(AllocError);
    }
    let event = Event {
        worker: 7,
        step: Step::Relabel { node: 2 },
    };
    let mut refused = 0;
    if preflow.apply(event) == Outcome::Refused {
        refused = preflow.label(2);
        let _ = preflow.apply(event);
    }
    write!(
        text,
        "refused at {refused} raised to {}; ",
        preflow.label(2)
    )
}

fn append_scenario<L: NetworkLedger>(
    text: &mut String,
    alloc: Global,
    net: &Net,
    ends: (u32, u32),
    preflow: &mut Preflow<L>,
    trial: Scenario,
) -> Result<(), AllocError>
    requires { preflow.old.trace.net ≡ network_between net.now ends.0 ends.1 }
    ensures { preflow.new.trace.net ≡ preflow.old.trace.net }
{
    match trial {
        Scenario::Steps(steps) => {
            append_state(text, alloc, net, ends, preflow)?;
            append_steps(text, preflow, steps)?;
            append_state(text, alloc, net, ends, preflow)
        }
        Scenario::All(by) => {
            apply_all_steps(preflow, net, by);
            write!(
                text,
                "quiet {} after {}; ",
                preflow.is_quiet(),
                preflow.history().len()
            )
        }
        Scenario::Shares => append_shares(text, preflow),
        Scenario::Counts => append_counts(text, preflow),
        Scenario::Raised => append_relabel(text, net, ends, preflow),
    }
}

/// Appends the result of a scenario, runs to completion, and appends the result of that.
fn run_scenario_on<L: NetworkLedger>(
    alloc: Global,
    net: &Net,
    ends: (u32, u32),
    preflow: &mut Preflow<L>,
    trial: Scenario,
) -> Result<Settled, AllocError>
    requires { preflow.old.trace.net ≡ network_between net.now ends.0 ends.1 }
{
    let mut description = String::new(alloc);
    append_scenario(&mut description, alloc, net, ends, preflow, trial)?;
    preflow.settle()?;
    append_next_step(&mut description, preflow)?;
    Ok(Settled {
        description,
        side: preflow.side()?,
        flow: imports_with_flow(alloc, net, ends, preflow)?,
    })
}

fn start_and_run<L: NetworkLedger>(
    alloc: Global,
    blank: Blank,
    net: &Net,
    ends: (u32, u32),
    trial: Scenario,
) -> Result<Settled, AllocError>
    requires ends { AreEnds net.now ends.0 ends.1 }
    requires free { PinChain net.now ends.0 ends.1 → ⊥ }
    requires net { network_between net.now ends.0 ends.1 ≡ L.net }
    requires name { blank.name ≡ L.name }
    requires parts { (blank.parts ≡ 65) × (L.parts ≡ 65) }
{
    let mut preflow = Preflow::<L>::start(alloc, blank, net, ends.0, ends.1)?;
    run_scenario_on(alloc, net, ends, &mut preflow, trial)
}

/// Runs a scenario on the initial preflow between two modules that no path of pinned imports joins.
pub(crate) fn run_scenario(
    alloc: Global,
    net: &Net,
    ends: (u32, u32),
    trial: Scenario,
) -> Result<Settled, AllocError> {
    if ends.0 == ends.1 || ends.0 >= net.nodes() || ends.1 >= net.nodes() {
        return Err(AllocError);
    }
    if !has_no_pinned_path(alloc, net, ends.0, ends.1)? {
        return Err(AllocError);
    }
    start_and_run::<Brand>(alloc, Blank::new(LEDGER_PARTS), net, ends, trial)
}

/// A network, the scenario between its first two modules, and its expected result.
const ROWS: &[(&[u8], Scenario, &str)] = &[
    // Each event has an outcome.
    (
        TWO_IMPORTS,
        Scenario::Steps(&[
            Step::Push { arc: 2 },
            Step::Relabel { node: 2 },
            Step::Push { arc: 2 },
            Step::Push { arc: 2 },
            Step::Relabel { node: 2 },
            Step::Push { arc: 99 },
        ]),
        " 3:0 0:0 0:2 flow 0 2 2; \
        Some(2) Some(Relabel { node: 2 }) Try { event: Event { worker: 7, step: Relabel { node: 2 } } } quiet false after 0 side [true, false, false]; \
        Stale Some(2); Raised { label: 1 } Some(2); Moved { amount: 2 } None; Stale None; Stale None; Stale None;  \
        3:0 0:2 1:0 flow 0 2 2 flow 2 1 2; \
        None None Quiet quiet true after 2 side [true, false, false]; \
        None None Quiet quiet true after 2 side [true, false, false]; ",
    ),
    // Events with unknown numbers are stale.
    (
        TWO_IMPORTS,
        Scenario::Steps(&[
            Step::Push { arc: 4294967295 },
            Step::Relabel { node: 4294967295 },
            Step::Relabel { node: 0 },
            Step::Relabel { node: 1 },
        ]),
        " 3:0 0:0 0:2 flow 0 2 2; \
        Some(2) Some(Relabel { node: 2 }) Try { event: Event { worker: 7, step: Relabel { node: 2 } } } quiet false after 0 side [true, false, false]; \
        Stale Some(2); Stale Some(2); Stale Some(2); Stale Some(2);  \
        3:0 0:0 0:2 flow 0 2 2; \
        Some(2) Some(Relabel { node: 2 }) Try { event: Event { worker: 7, step: Relabel { node: 2 } } } quiet false after 0 side [true, false, false]; \
        None None Quiet quiet true after 2 side [true, false, false]; ",
    ),
    // Four steps complete the path of three imports.
    (
        THREE_IMPORTS,
        Scenario::Steps(&[]),
        " 4:0 0:0 0:2 0:0 flow 0 2 2; \
        Some(2) Some(Relabel { node: 2 }) Try { event: Event { worker: 7, step: Relabel { node: 2 } } } quiet false after 0 side [true, false, false, false];  \
        4:0 0:0 0:2 0:0 flow 0 2 2; \
        Some(2) Some(Relabel { node: 2 }) Try { event: Event { worker: 7, step: Relabel { node: 2 } } } quiet false after 0 side [true, false, false, false]; \
        None None Quiet quiet true after 4 side [true, false, false, false]; ",
    ),
    // X gets excess over two arcs, and pushes one unit on and one back. The residual arcs of U are its two imports and the reverse arc to
    // S.
    (
        A_WAY_BACK,
        Scenario::Steps(&[
            Step::Relabel { node: 3 },
            Step::Push { arc: 8 },
            Step::Relabel { node: 2 },
            Step::Push { arc: 4 },
            Step::Relabel { node: 4 },
            Step::Push { arc: 10 },
            Step::Relabel { node: 4 },
            Step::Push { arc: 5 },
            Step::Push { arc: 6 },
            Step::Relabel { node: 5 },
            Step::Push { arc: 12 },
        ]),
        " 6:0 0:0 0:1 0:1 0:0 0:0 flow 0 2 1 flow 0 3 1; \
        Some(3) Some(Relabel { node: 3 }) Try { event: Event { worker: 7, step: Relabel { node: 3 } } } quiet false after 0 side [true, false, false, false, false, false]; \
        Raised { label: 1 } Some(3); Moved { amount: 1 } Some(4); Raised { label: 1 } Some(4); Moved { amount: 1 } Some(4); \
        Raised { label: 1 } Some(4); Moved { amount: 1 } Some(4); Raised { label: 2 } Some(4); Moved { amount: 1 } Some(2); \
        Moved { amount: 1 } Some(5); Raised { label: 1 } Some(5); Moved { amount: 1 } None;  \
        6:0 0:2 1:0 1:0 2:0 1:0 flow 0 2 1 flow 0 3 1 flow 2 5 1 flow 3 4 1 flow 4 1 1 flow 5 1 1; \
        None None Quiet quiet true after 11 side [true, false, false, false, false, false]; \
        None None Quiet quiet true after 11 side [true, false, false, false, false, false]; ",
    ),
    (
        THREE_IMPORTS,
        Scenario::All(1),
        "quiet true after 4; None None Quiet quiet true after 4 side [true, false, false, false]; ",
    ),
    (
        A_WAY_BACK,
        Scenario::All(1),
        "quiet true after 11; None None Quiet quiet true after 11 side [true, false, false, false, false, false]; ",
    ),
    (
        A_WAY_BACK,
        Scenario::All(3),
        "quiet true after 8; None None Quiet quiet true after 8 side [true, false, false, false, false, false]; ",
    ),
    (
        A_WAY_BACK,
        Scenario::All(7),
        "quiet true after 12; None None Quiet quiet true after 12 side [true, false, false, false, false, false]; ",
    ),
    (
        A_WAY_BACK,
        Scenario::All(9),
        "quiet true after 8; None None Quiet quiet true after 8 side [true, false, false, false, false, false]; ",
    ),
    (
        A_WAY_BACK,
        Scenario::All(11),
        "quiet true after 8; None None Quiet quiet true after 8 side [true, false, false, false, false, false]; ",
    ),
    (
        A_WAY_BACK,
        Scenario::All(13),
        "quiet true after 8; None None Quiet quiet true after 8 side [true, false, false, false, false, false]; ",
    ),
    (
        A_WAY_BACK,
        Scenario::All(17),
        "quiet true after 14; None None Quiet quiet true after 14 side [true, false, false, false, false, false]; ",
    ),
    (
        A_WAY_BACK,
        Scenario::All(19),
        "quiet true after 8; None None Quiet quiet true after 8 side [true, false, false, false, false, false]; ",
    ),
    (
        TWO_IMPORTS,
        Scenario::Shares,
        "call 65 gives none, call 66 gives none, 63 out; \
        None None Quiet quiet true after 2 side [true, false, false]; ",
    ),
    (
        TWO_IMPORTS,
        Scenario::Counts,
        "false Raised { label: 1 } 1 false; false Stale 1 false; false Moved { amount: 2 } 1 false; \
        1 true; true [Event { worker: 7, step: Relabel { node: 2 } }, Event { worker: 7, step: Push { arc: 2 } }] 0 out; \
        None None Quiet quiet true after 2 side [true, false, false]; ",
    ),
    // If the allocation of the history fails at a relabel, the label is unchanged.
    (
        TWO_IMPORTS,
        Scenario::Raised,
        "refused at 0 raised to 1; None None Quiet quiet true after 2 side [true, false, false]; ",
    ),
];

fn description(alloc: Global, net: &[u8], trial: Scenario) -> Result<String, AllocError> {
    let net = net_of(alloc, net, b"")?;
    Ok(run_scenario(alloc, &net, (0, 1), trial)?.description)
}

#[test]
fn scenarios_have_their_outcomes(rt: HostRuntime) -> Result<(), Fail> {
    for (net, trial, want) in ROWS {
        let description = description(rt.alloc(), net, *trial)?;
        expect(&rt, description.as_str(), want);
    }
    Ok(())
}
