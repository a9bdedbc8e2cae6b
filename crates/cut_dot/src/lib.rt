//! Pictures of cuts, in the language DOT of Graphviz.
//! Depends on `cut_part` for subnetworks, `residual_graph` for the modules that are still reached, `digraph` for the edges of a path,
//! `cut_net` for networks, `byte_sink` for output, and lemmas of `texts`.
//! The main calls are `draw` and `draw_flow`. They promise that the sink takes exactly the text of the picture, or a prefix of it.
#![tactic(auto)]

mod drawing;
pub mod laws;
mod lines;
mod path;
mod reached;
mod reported;
mod text;

pub use drawing::{draw, draw_flow};
