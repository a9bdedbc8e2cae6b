//! A reference solver for tests: cheapest cuts by Dinic's algorithm (1970), in one thread.
//! Depends on `cut_net`, on `residual_graph` for searches, and on `cut_solve` for outcomes, errors and the cut of a maximum flow.
//! The main call is `plain`. Its contract is that of `solve` in `cut_solve`.
#![tactic(auto)]

mod blocking;
mod maximum_flow;
mod solver;

pub use solver::plain;
