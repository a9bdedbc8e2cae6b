//! Output as a trait: a `Sink` accepts bytes piece by piece, so a caller needn't hold its whole output in memory.
//! Depends on std alone, and on `thiserror` for the messages of its errors.
//! Main call: `write_fully` writes all bytes to a sink, or a prefix of them if it returns an error. A sink counts failures of its device.
#![tactic(auto)]

mod buffer;
mod sink;

pub use buffer::flush_if_full;
pub use sink::{Sink, SinkFault, ToWrite, write_fully};
