//! What the network and an answer state about one import: whether it is pinned, whether it is removed, and its flow.
ghost use Rattle.std.specs.Prelude.{◌≡◌};
ghost use Rattle.cut_net.specs.Lines.{flow_by, removed_by, IsAscending};
ghost use Rattle.cut_net.specs.Pins.{is_pinned};

use cut_net::{Net, Priced, find_import};

/// Whether the import is pinned in the network.
pub(crate) fn is_pinned(net: &Net, import: Priced) -> bool
    ensures { result ≡ is_pinned net.now import }
{
    net.invariants();
    find_import(net.pins(), import).is_some()
}

/// Whether the import is in the list of removed imports.
pub(crate) fn is_removed(removed: &[Priced], import: Priced) -> bool
    // The list is strictly sorted.
    requires { IsAscending removed.now }
    ensures { result ≡ removed_by removed.now import }
{
    find_import(removed, import).is_some()
}

/// The flow of the import: its amount in the list `flow`, or 0 if the list doesn't have the import.
pub(crate) fn flow_on(flow: &[Priced], import: Priced) -> u64
    // The list is strictly sorted.
    requires { IsAscending flow.now }
    ensures { result ≡ flow_by flow.now import }
{
    match find_import(flow, import) {
        Some(line) => line.amount,
        None => 0,
    }
}
