//! The state of a module.

/// The state of a module in the scheduler.
#[derive(Clone, Copy)]
pub enum State {
    /// An import of the module isn't delivered.
    Waiting,
    /// All imports are delivered, and the module isn't claimed.
    Free,
    /// The module is claimed and not delivered.
    Claimed,
    /// The entry of the module is delivered.
    Delivered,
}
