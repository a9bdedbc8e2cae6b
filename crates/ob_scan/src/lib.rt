//! The scanner: from the bytes of an Oberon-07 module to its tokens (longest match; Oberon-07 report, section 3), and from offsets to
//! lines and columns.
//! Depends on `texts` for the SIMD tests of letters and line ends, and on `thiserror` for the messages of its errors.
//! Main call: `scan`. The tokens spell the bytes, or the error names the first offset at which no blank, comment or token begins, and
//! why.
#![tactic(auto)]

mod comment;
mod delimiters;
mod fault;
mod kind;
mod lanes;
pub mod laws;
mod lexeme;
mod line_column;
mod line_ends;
mod line_search;
mod line_table;
mod name;
mod number;
mod scanner;
mod token;
mod token_texts;
mod words;

pub use fault::ScanFault;
pub use kind::Kind;
pub use line_column::Position;
pub use line_ends::{lines, position};
pub use line_table::Lines;
pub use scanner::scan;
pub use token::{Token, Tokens};
pub use token_texts::TokenTexts;
