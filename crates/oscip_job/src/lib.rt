//! The command line: parses the arguments of the program into a `Job`, which names the files to read and the question to answer.
//! Depends on `clap`, which parses the arguments and makes help texts, and on `thiserror` for the errors.
//! The main call is `job_of`. It promises that a job holds exactly the values that `clap` finds for the arguments.
//! It also promises that numbers of workers, positions, packages and symbols are valid, and that an index has one output.
#![tactic(auto)]

mod commands;
mod help_texts;
mod job;
mod job_conversion;

pub use job::{
    AskedSymbol, CutRequest, Direction, IndexQuestion, IndexRequest, Job, JobFault, NetQuestion,
    Output, PictureRequest, Places, Position, ReachRequest, ReportInput, SourceTree, TreeQuestion,
    TwoNames,
};
pub use job_conversion::job_of;
