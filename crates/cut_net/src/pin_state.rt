//! The states of imports, weighed or pinned, and the changes of states by a prices file.

/// The state of an import: unpinned with this weight, or pinned with the weight that it had before it was pinned.
#[derive(Clone, Copy)]
pub(crate) enum PinState {
    WithWeight(u64),
    WithPin(u64),
}

/// The change of an import by a line: a new weight, or a pin.
#[derive(Clone, Copy)]
pub(crate) enum Change {
    Price(u64),
    Pin,
}
