//! A graph with an augmenting path that cancels flow, and the state after the calls.
ghost use Rattle.std.specs.Prelude.{◌≤◌, ◌<◌, ◌≢◌, IsTrue};

use crate::description::expect;
use residual_graph::{Arc, ResidualArc, ResidualGraph, path_to, search};
use std::alloc::{AllocError, Global};
use std::test::Fail;

const S: u32 = 0;

const A: u32 = 1;

const B: u32 = 2;

const T: u32 = 3;

/// An arc: its tail, its head, its capacity and its flow.
type Row = (u32, u32, u64, u64);

/// Arcs between this many nodes, and one of these nodes. The result has the numbers of arcs and nodes, and the residual arcs that leave A,
/// each with its arc, its ends and its residual capacity. Then the nodes that a search from S reaches, the steps of a path to the node with
/// the amount that is sent along it, and the flow of each arc.
const ROWS: &[(&[Row], u32, u32, &str)] = &[
    // One unit of flow goes S, A, B, T. Another one goes S, B, then cancels that of A B, and goes A, T.
    (
        &[
            (S, A, 1, 1),
            (S, B, 1, 0),
            (A, B, 1, 1),
            (A, T, 1, 0),
            (B, T, 1, 1),
        ],
        4,
        T,
        "5 arcs, 4 nodes, back 0 from 1 to 0 left 1, forth 2 from 1 to 2 left 0, forth 3 from 1 to 3 left 1, \
        [true, true, true, true] [0, 2, 1, 3], \
        forth 1 from 0 to 2 left 1, back 2 from 2 to 1 left 1, forth 3 from 1 to 3 left 1, sends 1, \
        1 of 1, 1 of 1, 0 of 1, 1 of 1, 1 of 1, ",
    ),
    // The minimum residual capacity is sent.
    (
        &[(S, A, 7, 2), (A, B, 3, 0)],
        3,
        B,
        "2 arcs, 3 nodes, back 0 from 1 to 0 left 2, forth 1 from 1 to 2 left 3, \
        [true, true, true] [0, 1, 2], \
        forth 0 from 0 to 1 left 5, forth 1 from 1 to 2 left 3, sends 3, \
        5 of 7, 3 of 3, ",
    ),
];

fn is_valid_arc(arc: &Arc, nodes: u32) -> bool
    ensures { IsTrue result → (arc.now.flow ≤ arc.now.capacity) × (arc.now.from < nodes) × (arc.now.to < nodes) }
{
    arc.flow <= arc.capacity && arc.from < nodes && arc.to < nodes
}

fn graph_of(alloc: Global, rows: &[Row], nodes: u32) -> Result<ResidualGraph, AllocError> {
    let mut arcs = Vec::new(alloc);
    for (from, to, capacity, flow) in rows {
        arcs.push(Arc {
            from: *from,
            to: *to,
            capacity: *capacity,
            flow: *flow,
        })?;
    }
    if arcs.iter().any(|arc| !is_valid_arc(arc, nodes)) {
        return Err(AllocError);
    }
    ResidualGraph::new(alloc, arcs, nodes)
}

/// Each residual arc with its direction, its arc, its ends and its residual capacity.
fn append_steps(
    text: &mut String,
    graph: &ResidualGraph,
    steps: &[ResidualArc],
) -> Result<(), AllocError> {
    for step in steps {
        if step.arc >= graph.arcs().len() {
            return Err(AllocError);
        }
        write!(
            text,
            "{} {} from {} to {} left {}, ",
            if step.forward { "forth" } else { "back" },
            step.arc,
            graph.tail(*step),
            graph.head(*step),
            graph.residual(*step)
        )?;
    }
    Ok(())
}

fn append_flows(text: &mut String, graph: &ResidualGraph) -> Result<(), AllocError> {
    for arc in graph.arcs() {
        write!(text, "{} of {}, ", arc.flow, arc.capacity)?;
    }
    Ok(())
}

/// Appends the nodes that a search from S reaches, and sends the maximum along a path to another node.
fn append_path(
    text: &mut String,
    alloc: Global,
    graph: &mut ResidualGraph,
    node: u32,
) -> Result<(), AllocError>
    requires { (0 < graph.old.nodes) × (node < graph.old.nodes) × (node ≢ 0) }
{
    let found = search(alloc, graph, S)?;
    write!(
        text,
        "{:?} {:?}, ",
        found.reached_flags.as_slice(),
        found.levels.as_slice()
    )?;
    if !found.reached_flags[node as usize] {
        return Ok(());
    }
    let path = path_to(alloc, graph, &found, node)?;
    append_steps(text, graph, &path)?;
    write!(text, "sends {}, ", graph.augment(&path))
}

fn description(alloc: Global, rows: &[Row], nodes: u32, node: u32) -> Result<String, AllocError> {
    let mut graph = graph_of(alloc, rows, nodes)?;
    let nodes = graph.nodes();
    if node == S || node >= nodes || A >= nodes {
        return Err(AllocError);
    }
    let mut text = format!(in alloc; "{} arcs, {nodes} nodes, ", graph.arcs().len())?;
    let leaving: Vec<ResidualArc> = graph
        .residual_arcs(A)
        .iter()
        .map(|out| out.step)
        .collect(alloc)?;
    append_steps(&mut text, &graph, &leaving)?;
    append_path(&mut text, alloc, &mut graph, node)?;
    append_flows(&mut text, &graph)?;
    Ok(text)
}

#[test]
fn what_is_left_is_sent_along_a_path(rt: HostRuntime) -> Result<(), Fail> {
    for (rows, nodes, node, want) in ROWS {
        let description = description(rt.alloc(), rows, *nodes, *node)?;
        expect(&rt, description.as_str(), want);
    }
    Ok(())
}
