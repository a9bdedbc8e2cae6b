//! Tests of interfaces, import graphs, the scheduler, inherited fields and documents, of what no command shows. The output of commands is
//! in `rows/`.
//! Depends on `ob_scan`, `module_table`, `table_reader`, `ob_scope`, `ob_interface`, `ob_view`, `type_graph`, `ob_types`, `ob_emit`,
//! `ob_imports` and `work_board`, which it tests or needs for inputs.
//! It has nothing but tests.
#![tactic(auto)]

#[cfg(test)]
mod asked;
#[cfg(test)]
mod bases;
#[cfg(test)]
mod boards;
#[cfg(test)]
mod documents;
#[cfg(test)]
mod graphs;
#[cfg(test)]
mod interfaces;
#[cfg(test)]
mod owners;
#[cfg(test)]
mod readings;
