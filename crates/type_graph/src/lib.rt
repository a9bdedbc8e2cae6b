//! Look-up in a graph of types: the type that a name denotes, elements, targets, and fields inherited through bases, also if names form
//! cycles.
//! Cycles are found by Brent's algorithm (1980), ends of searches are memoized, and long chains of bases are climbed along heavy paths
//! (Sleator and Tarjan 1983).
//! Depends on `indexmap` and `text_hash` for tables that chosen names can't slow down.
//! Main type: `Finder`; each search returns exactly what the report's rules give, or nothing if they give nothing.
#![tactic(auto)]

mod cache;
mod decompose;
mod detector;
mod ends;
mod field_entries;
mod finder;
mod forest;
mod graph;
mod jump;
pub mod laws;
mod listed;
mod memo;
mod name_filter;
mod parts;
mod paths;
mod records;
mod shape;

pub use finder::Finder;
pub use graph::TypeGraph;
pub use jump::Jump;
pub use listed::RecordField;
pub use paths::{HeavyPaths, jump_along};
pub use shape::Shape;
