//! Runs of jobs: reads the files that a job names through any `Reader`, runs its engine into any `Sink`, and ends with a status. Depends on
//! `oscip_job` for jobs, `source_tree` for trees, `index_store` for queries and the `cut_` crates for networks, cuts, rules and pictures.
//! It also depends on `thiserror` for its errors. The main calls are `run_tree_job`, `run_network_job` and `run_index_question`, and the
//! engine `cut_tree`, whose clause `run` is the headline theorem. They promise that the sink takes exactly what the definitions state about
//! the files that the reader returned.
#![tactic(auto)]

mod crossing;
mod drawing;
mod ending;
mod engine;
mod fault;
mod faults;
mod files;
mod folder;
mod imports;
pub mod laws;
mod listing;
mod priced_network;
mod query_runs;
mod reader;
mod reading;
mod rule_check;
mod run;
mod stream;
mod style;
mod tree_run;

pub use crossing::list_tree_crossings;
pub use drawing::{draw_net_bytes, draw_tree};
pub use ending::{
    finish_run, finish_tree_run, finish_without_job, run_fault_line, status_of_run,
    status_without_job,
};
pub use engine::{READERS, check_net_bytes, check_tree, cut_net_bytes, cut_tree};
pub use fault::{RunFault, fault_line, status_of};
pub use faults::list_tree_faults;
pub use files::read_file;
pub use folder::read_folder;
pub use imports::{write_net_shortest_path, write_tree_net, write_tree_shortest_path};
pub use listing::{list_reachable_in_net, list_reachable_in_tree, list_tree_modules};
pub use query_runs::answer_question;
pub use reader::{Reader, SystemFiles};
pub use reading::{run_index_question, run_network_job};
pub use rule_check::check_tree_rules;
pub use run::{answer_net_question, answer_tree_net_question};
pub use stream::Stream;
pub use style::{style_of_job, style_of_tree};
pub use tree_run::{TreeRun, read_tree_files, run_tree_job};
