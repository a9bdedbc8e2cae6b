//! Tests of symbols, of the wire format and of indexes, of what no command shows. The output of `def`, `refs` and `index` is in `rows/`.
//! Depends on `scip_symbol`, `proto_wire`, `scip_index` and `index_store`, which it tests.
//! It also depends on `hex` for bytes as text and on `test_doubles` for a sink that fails. It has nothing but tests.
#![tactic(auto)]

#[cfg(test)]
mod asked;
#[cfg(test)]
mod bytes;
#[cfg(test)]
mod description;
#[cfg(test)]
mod listed;
#[cfg(test)]
mod reader;
#[cfg(test)]
mod sinks;
#[cfg(test)]
mod symbols;
