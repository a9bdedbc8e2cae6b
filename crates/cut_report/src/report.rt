//! The content of a report.

use cut_net::Answer;

/// A report: an answer for two modules, which are given by their numbers.
#[derive(Drop)]
pub struct Report {
    /// The number of the module at which all the paths begin that a cut has to break.
    pub from: u32,
    /// The number of the module at which all the paths end that a cut has to break.
    pub to: u32,
    /// The answer for the two modules: a cut with its flow, or a path of pinned imports.
    pub answer: Answer,
}
