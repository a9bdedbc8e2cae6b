//! Tests of the program's libraries, of what no command shows: sinks that fail at each write, gates at which workers meet, a scheduler with
//! the test's own threads, trees that are read completely, and faults that no input causes. The output of commands is in `rows/`. Depends
//! on `oscip_job`, `source_tree`, `ob_board`, `oscip_run` and `index_run`, which it tests, and on `test_doubles`. It has nothing but tests.
#![tactic(auto)]

#[cfg(test)]
mod all_faults;
#[cfg(test)]
mod boards;
#[cfg(test)]
mod commands;
#[cfg(test)]
mod faults;
#[cfg(test)]
mod inputs;
#[cfg(test)]
mod models;
#[cfg(test)]
mod trees;
#[cfg(test)]
mod workers;
