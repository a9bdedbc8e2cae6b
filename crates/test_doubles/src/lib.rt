//! Test doubles that several crates use: a sink that fails, and a gate at which all workers meet.
//! Depends on `byte_sink` and `cut_solve`, whose traits `Sink` and `Gate` the doubles implement.
//! The sink satisfies the contract of sinks, and shows the bytes that it took and the number of its failures. No clause describes the gate.
#![tactic(auto)]

mod gate;
mod sink;

pub use gate::MeetingGate;
pub use sink::FailingSink;
