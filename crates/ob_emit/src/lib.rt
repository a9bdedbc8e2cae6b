//! The SCIP document of a module, as a message or as the bytes of its record, and the external symbols that it uses (scip.proto).
//! `document_record` writes each occurrence from its reference, without making a message; each symbol string is made once.
//! Depends on `ob_view` and the crates below it for references, names and tables, and on `scip_symbol` for symbol strings; on no types.
//! It also depends on `scip_index` and `proto_wire` for the format; `indexmap`, `text_hash` and `thiserror` serve tables and the error.
//! The main call is `document_record`. It promises exactly the document that the references and the rules for symbols determine.
//! It rejects a package if and only if no symbol string can contain it.
#![tactic(auto)]

mod capacity;
mod declaration_index;
mod documents;
mod external_symbols;
mod fault;
mod foreign_texts;
mod hinted_lookup;
mod imported_cache;
mod imported_texts;
mod interface_steps;
pub mod laws;
mod locations;
mod module_texts;
mod own_declarations;
mod path;
mod prefixes;
mod ranges;
mod records;
mod steps;
mod stored_texts;
mod symbol_texts;
mod target_texts;

pub use documents::document;
pub use external_symbols::{externals, merge_externals};
pub use fault::EmitFault;
pub use records::document_record;
