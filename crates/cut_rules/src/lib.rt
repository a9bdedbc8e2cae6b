//! Rules for a tree: which modules may not import which, directly or through others. A breadth-first search for each rule finds the
//! imports that break it.
//! Depends on `cut_net` for networks, `digraph` for paths, `texts` and `byte_sink` for input and output,
//! `text_hash` and `indexmap` for names, `thiserror` for errors.
//! The main calls are `Rules::read` and `write_verdict`. Rules are exactly those of the text, or its first error; the sink takes a line
//! for exactly the imports that break a rule and the stale `allow` lines, or else `yes`.
#![tactic(auto)]

mod builder;
mod fault;
mod file;
mod folders;
pub mod laws;
mod line;
mod members;
mod names;
mod reading;
mod rule;
mod rule_search;
mod site;
mod table;
mod verdict;

pub use fault::RulesFault;
pub use file::File;
pub use reading::Rules;
pub use rule::{Rule, RuleKind, StaleAllow};
pub use site::Site;
pub use verdict::write_verdict;
