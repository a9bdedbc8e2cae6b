//! Text on one line: the fields of a line, control characters as escapes, and locations in files, also in the style of editors.
//! Depends on std alone; `lanes` tests sixteen bytes at once with SIMD.
//! The functions of `fields` parse whole fields: a name is an identifier of Oberon-07, a number its decimal digits. They return nothing
//! only if the field is invalid. Functions of `prefixes` parse the start of a text, and may return nothing for a valid line.
//! `escaped` and `EscapingWriter::push` replace each control character by its escape and copy every other byte. `LocationWriter` writes
//! `PATH:LINE:COL` in a style, which may prefix the path and count lines and columns from 1.
#![tactic(auto)]

mod escape;
pub mod fields;
pub mod lanes;
pub mod laws;
mod places;
pub mod prefixes;
mod writer;

pub use escape::escaped;
pub use places::{LocationStyle, LocationWriter};
pub use writer::EscapingWriter;
