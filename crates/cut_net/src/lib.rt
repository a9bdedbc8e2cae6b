//! Networks: modules by name and weighted imports, their text, prices and pins, and the laws of cuts and flows (Ford and Fulkerson 1956;
//! Goldberg and Tarjan 1988).
//! Depends on `texts` for names and numbers, `digraph` for cycles, `text_hash` and `indexmap` for tables, `thiserror` for errors.
//! The main calls are `Net::read` and `Net::price`. `Net::read` returns the network that a text states, or the text's first error; a
//! network that exceeds the limits or has a cycle is an error.
#![tactic(auto)]

mod answer;
mod builder;
mod cut;
mod cycle;
mod fault;
mod found;
pub mod laws;
mod line_list;
mod lines;
mod net;
mod numbering;
mod ordering;
mod pin_chain;
mod pin_state;
mod price_fault;
mod price_lines;
mod priced;
mod prices;
mod reading;
mod recent;

pub use answer::Answer;
pub use cut::Cut;
pub use fault::NetFault;
pub use found::find_import;
pub use net::{Net, name_index};
pub use numbering::sort_imports;
pub use price_fault::PriceFault;
pub use priced::Priced;
pub use prices::find_import_number;
pub use texts::fields;
