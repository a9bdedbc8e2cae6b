//! Augmentation: more flow on an arc, and the bottleneck of a path.
ghost use Rattle.std.specs.Prelude.{ℕ, ◌≡◌, ◌<◌, ◌≤◌, ◌^◌, All};
ghost use Rattle.residual_graph.specs.Flows.{pushed};
ghost use Rattle.residual_graph.specs.Graphs.{HasArc, residual, room};

use crate::{Arc, ResidualArc};

/// The arc with this amount more flow if `forward` is true, otherwise with this amount less.
pub(crate) fn push(arc: Arc, forward: bool, amount: u64) -> Arc
    requires left { amount ≤ room arc forward }
    requires within { arc.flow ≤ arc.capacity }
    ensures { result ≡ pushed arc forward amount }
{
    if forward {
        Arc {
            flow: arc.flow + amount,
            ..arc
        }
    } else {
        Arc {
            flow: arc.flow - amount,
            ..arc
        }
    }
}

/// The residual capacity of a residual arc: the capacity less the flow in the arc's direction, the flow against it.
pub(crate) fn residual_of(arcs: &[Arc], step: ResidualArc) -> u64
    requires known { HasArc arcs.now step }
    requires within { All (λ r. r.flow ≤ r.capacity) arcs.now }
    ensures { result ≡ residual arcs.now step }
{
    let arc = arcs[step.arc];
    if step.forward {
        arc.capacity - arc.flow
    } else {
        arc.flow
    }
}

/// The bottleneck of a path: the smallest residual capacity of its residual arcs, 2^64 - 1 for a path without arcs.
pub(crate) fn min_residual(arcs: &[Arc], path: &[ResidualArc]) -> u64
    requires known { All (HasArc arcs.now) path.now }
    requires within { All (λ r. r.flow ≤ r.capacity) arcs.now }
    ensures left { All (λ s. result ≤ residual arcs.now s) path.now }
    ensures most { (m : ℕ) → m < 2 ^ 64 → All (λ s. m ≤ residual arcs.now s) path.now → m ≤ result }
{
    let mut least = u64::MAX;
    for step in path {
        let left = residual_of(arcs, *step);
        if left < least {
            least = left;
        }
    }
    least
}
