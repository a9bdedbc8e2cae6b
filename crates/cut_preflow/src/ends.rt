//! The source and the sink of a preflow.

/// The number of nodes, and the source and the sink.
#[derive(Clone, Copy)]
pub(crate) struct FlowEnds {
    pub(crate) nodes: u32,
    pub(crate) source: u32,
    pub(crate) sink: u32,
}
