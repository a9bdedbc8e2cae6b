//! Reports of cuts and of paths of pinned imports: their reader and writer; the writers of a network and of a path of imports.
//! Also the shortest path between two modules, and the modules that a module reaches or that reach it (`digraph`, breadth-first search).
//! Depends on `cut_net` for networks, `texts` for fields of lines, and `byte_sink` for output; it reexports `byte_sink`.
//! The main calls are `read` and `write`. `write` writes the text of a report, which is unique; `read` returns the report that a text
//! represents, or the text's first error.
#![tactic(auto)]

mod builder;
mod chain;
mod fault;
mod import_guess;
pub mod laws;
mod line;
mod net_writer;
mod reach;
mod reader;
mod report;
mod writer;

pub use byte_sink::{Sink, SinkFault, ToWrite, write_fully};
pub use chain::shortest_import_path;
pub use fault::ReportFault;
pub use net_writer::{write_chain, write_net};
pub use reach::{reached_modules, reaching_modules};
pub use reader::read;
pub use report::Report;
pub use writer::write;
