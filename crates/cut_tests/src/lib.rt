//! Tests of `residual_graph`, `cut_net`, `cut_part`, `cut_report`, `cut_rules`, `initial_flow`, `cut_preflow`, `cut_check`, `cut_dot`,
//! `cut_solve`
//! and `cut_plain`, of what no command shows: pictures by flow, failing sinks, the solver's own calls, workers at gates, the sequential
//! solver, repeated prices, written networks, paths and rules, and verdicts on results that no report states.
//! Orders that no contract claims, and the initial flow, are compared with reference implementations.
//! Depends on these crates, on `byte_sink` and on `test_doubles`. The output of `cut-net` and `check-net` is in `rows/`.
#![tactic(auto)]

#[cfg(test)]
mod answers;
#[cfg(test)]
mod description;
#[cfg(test)]
mod drawn;
#[cfg(test)]
mod earlier;
#[cfg(test)]
mod gates;
#[cfg(test)]
mod generated;
#[cfg(test)]
mod graphs;
#[cfg(test)]
mod listed;
#[cfg(test)]
mod networks;
#[cfg(test)]
mod orders;
#[cfg(test)]
mod pictures;
#[cfg(test)]
mod preflows;
#[cfg(test)]
mod rule_files;
#[cfg(test)]
mod rules;
#[cfg(test)]
mod sinks;
#[cfg(test)]
mod sorted;
#[cfg(test)]
mod trials;
#[cfg(test)]
mod verdicts;
#[cfg(test)]
mod worked;
#[cfg(test)]
mod written_nets;
