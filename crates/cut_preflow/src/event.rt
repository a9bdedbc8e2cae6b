//! The events of a preflow, that is, steps tried by workers, and the outcomes of events.

use std::mem::size_of;

/// A step of push-relabel (Goldberg and Tarjan 1988, section 3). Import i has the forward arc 2i, from the importer to the imported
/// module, and the backward arc 2i + 1.
#[derive(Clone, Copy, Debug)]
pub enum Step {
    /// Pushes excess over an arc.
    Push { arc: u32 },
    /// Relabels a node.
    Relabel { node: u32 },
}

/// A step, with the number of the worker that tries it. All numbers are allowed: a step over an arc or of a node that doesn't exist
/// doesn't apply.
#[derive(Clone, Copy, Debug)]
pub struct Event {
    /// The worker that tries the step; it doesn't affect the outcome.
    pub worker: u32,
    /// The step.
    pub step: Step,
}

const _: () = prove!(size_of::<Event>() <= 12);

/// The outcome of an event.
#[derive(Clone, Copy, Debug, PartialEq, Eq)]
pub enum Outcome {
    /// The push moved this amount, in units of weight.
    Moved { amount: u64 },
    /// The new label of the node.
    Raised { label: u32 },
    /// The step doesn't apply, and nothing changed.
    Stale,
    /// The step applies, but the history's allocation failed. The preflow is unchanged; only the share that would have counted the step is
    /// flagged.
    Refused,
}

/// Why a preflow didn't run to completion. The steps that were applied stay.
#[derive(Clone, Copy)]
pub(crate) enum SettleFault {
    /// The allowed number of steps was applied, and a node is active.
    Unfinished,
    /// An allocation failed.
    Memory,
}
