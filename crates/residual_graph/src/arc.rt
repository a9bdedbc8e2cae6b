//! Arcs, and residual arcs.
ghost use Rattle.std.specs.Prelude.{◌≡◌, ◌≤◌};
ghost use Rattle.residual_graph.specs.OutArcs.{out_arc_of};

/// An arc between two nodes with its capacity and flow. Nodes are given by their numbers.
#[derive(Clone, Copy)]
pub struct Arc {
    /// The tail.
    pub from: u32,
    /// The head.
    pub to: u32,
    /// The capacity.
    pub capacity: u64,
    /// The flow, at most the capacity.
    pub flow: u64,
}

/// A residual arc (Goldberg and Tarjan 1988, section 2): an arc in its direction or against it. A path is a list of residual arcs.
#[derive(Clone, Copy)]
pub struct ResidualArc {
    /// The number of the arc.
    pub arc: usize,
    /// Whether the residual arc has the arc's direction.
    pub forward: bool,
}

/// A residual arc as a search needs it: with its head and its residual capacity, so that the arc need not be read.
#[derive(Clone, Copy)]
pub struct OutArc {
    /// The number of the arc, and the direction.
    pub step: ResidualArc,
    /// The head.
    pub head: u32,
    /// The residual capacity.
    pub residual: u64,
}

/// The residual arc `step` of `arc`, with its head and its residual capacity.
pub(crate) fn out_arc_of(arc: Arc, step: ResidualArc) -> OutArc
    requires { arc.flow ≤ arc.capacity }
    ensures { result ≡ out_arc_of arc step }
{
    if step.forward {
        OutArc {
            step,
            head: arc.to,
            residual: arc.capacity - arc.flow,
        }
    } else {
        OutArc {
            step,
            head: arc.from,
            residual: arc.flow,
        }
    }
}
