//! Queries on a SCIP index: the symbol at a position, the definitions and references of a symbol, and all definitions (scip.proto).
//! Calls on the bytes of an index walk its records and build nothing; a `Store` is built once, for many queries.
//! Depends on `scip_index` and `proto_wire` for the format, on `texts` and `byte_sink` for lines of output.
//! It also depends on `indexmap` for the tables of a store and on `thiserror` for errors.
//! The main call is `query`. With success the sink takes exactly the lines of the locations that the index's occurrences determine.
//! Otherwise it fails with the first fault of the bytes, or with `NoDocument` if no document has the path.
#![tactic(auto)]

mod builder;
mod byte_queries;
mod fault;
pub mod laws;
mod lines;
mod location;
mod locations;
mod nearest;
mod query_fault;
mod query_runs;
mod row;
mod span;
mod store;
mod symbols;
mod table;

pub use byte_queries::{definitions_in_bytes, references_in_bytes, symbol_in_bytes};
pub use fault::StoreFault;
pub use lines::write_lines;
pub use location::{Place, Position};
pub use query_fault::{QueryFault, query_fault_text, query_status};
pub use query_runs::{Which, list_symbols, query, query_symbol, write_symbol};
pub use store::Store;
