//! A gate that does nothing.
use crate::Gate;

/// A gate that returns at once, so that no worker is delayed between two critical sections.
#[derive(Drop)]
pub struct OpenGate;

impl Gate for OpenGate {
    fn at(&self, _worker: u32, _turn: u64) {}
}
