//! The check of a path of pinned imports.
ghost use Rattle.std.specs.Prelude.{ℕ, ◌≡◌, ◌+◌, ◌<◌, ◌↔◌, IsTrue, MatchOption, length};
ghost use Rattle.cut_net.specs.Pins.{is_pinned};
ghost use Rattle.cut_check.specs.Verdicts.{AreChainEnds, IsChainVerdict, IsFirstUnpinned, IsPinnedAt};

use crate::Verdict;
use cut_net::{Net, Priced, find_import};

/// Whether the network has a pinned import with the importer and the imported module of `import`; its amount doesn't matter.
pub(crate) fn is_pinned(net: &Net, import: Priced) -> bool
    ensures { result ≡ is_pinned net.now import }
{
    net.invariants();
    find_import(net.pins(), import).is_some()
}

/// The first two consecutive modules of the path without a pinned import of the second by the first; `None` if there are none.
fn first_unpinned(net: &Net, chain: &[u32]) -> Option<Priced>
    ensures { MatchOption result
        ((k : ℕ) → k + 1 < length chain.now → IsPinnedAt net.now chain.now k)
        (λ pair. IsFirstUnpinned net.now chain.now pair.from pair.to) }
{
    net.invariants();
    for k in 1..chain.len() {
        let pair = Priced {
            from: chain[k - 1],
            to: chain[k],
            amount: 0,
        };
        if !is_pinned(net, pair) {
            return Some(pair);
        }
    }
    None
}

/// Whether the path isn't empty, begins with `from` and ends with `to`.
fn are_chain_ends(chain: &[u32], from: u32, to: u32) -> bool
    ensures { IsTrue result ↔ AreChainEnds from to chain.now }
{
    !chain.is_empty() && chain[0] == from && chain[chain.len() - 1] == to
}

/// The verdict on a list of modules that is claimed to be a path of pinned imports from `from` to `to`.
pub(crate) fn check_chain(net: &Net, from: u32, to: u32, chain: &[u32]) -> Verdict
    ensures { IsChainVerdict net.now from to chain.now result }
{
    if !are_chain_ends(chain, from, to) {
        return Verdict::StillChain;
    }
    match first_unpinned(net, chain) {
        Some(pair) => Verdict::NotPinned {
            from: pair.from,
            to: pair.to,
        },
        None => Verdict::Yes,
    }
}
