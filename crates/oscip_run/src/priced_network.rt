//! The network of a run: the network of its input, which is a text or a tree, with the given prices applied.
ghost use Rattle.std.specs.Prelude.{IfErr, IfOk, option_copied};
ghost use Rattle.oscip_run.specs.PricedInputs.{IsNetOfPricedText, IsNetOfPricedTree, IsPricedInput, IsRejectedOr, IsRejectedPriced, IsRejectedPricedText, IsRejectedPricedTree};
ghost use Rattle.oscip_run.specs.Runs.{IsNeverRejected, IsThis};

use crate::RunFault;
use cut_net::Net;
use source_tree::{Source, net_of};
use std::alloc::Global;
use std::thread::Threads;

/// The network with the prices applied, or the unchanged network if no prices are given. Fails with `Price` or `Memory`.
fn with_prices(net: Net, prices: Option<&[u8]>) -> Result<Net, RunFault>
    // With `Ok` the result is this network with the prices applied, if they are given.
    ensures net { IfOk result (IsPricedInput (IsThis net) (option_copied prices.entry)) }
    // The error is the fault of the prices on this network, or `Memory`.
    ensures fault { IfErr result (IsRejectedOr (IsRejectedPriced (IsThis net) IsNeverRejected (option_copied prices.entry))) }
{
    match prices {
        Some(prices) => Ok(net.price(prices)?),
        None => Ok(net),
    }
}

/// The network that the bytes state, with the prices applied, if they are given. Fails with `Net` if the network is rejected, then with
/// `Price` if the prices are, or with `Memory`.
pub(crate) fn net_of_text(
    alloc: Global,
    network: &[u8],
    prices: Option<&[u8]>,
) -> Result<Net, RunFault>
    // With `Ok` the result is the network of the text, with the prices applied, if they are given.
    ensures net { IfOk result (IsNetOfPricedText network.now (option_copied prices.entry)) }
    // The error is the fault for which the text, or else the prices, are rejected, or `Memory`.
    ensures fault { IfErr result (IsRejectedOr (IsRejectedPricedText network.now (option_copied prices.entry))) }
{
    let net = Net::read(alloc, network)?;
    with_prices(net, prices)
}

/// The network of a tree, with the prices applied, if they are given. At most `workers` threads read the files. Fails with `Tree` if the
/// tree is rejected, then with `Price` if the prices are, or with `Memory`.
pub(crate) fn net_of_tree<R: Threads + Sync>(
    rt: &R,
    alloc: Global,
    sources: &[Source],
    workers: u32,
    prices: Option<&[u8]>,
) -> Result<Net, RunFault>
    // With `Ok` the result is the network of the tree, with the prices applied, if they are given.
    ensures net { IfOk result (IsNetOfPricedTree sources.now (option_copied prices.entry)) }
    // The error is the fault for which the tree, or else the prices, are rejected, or `Memory`.
    ensures fault { IfErr result (IsRejectedOr (IsRejectedPricedTree sources.now (option_copied prices.entry))) }
{
    let net = net_of(rt, alloc, sources, workers)?;
    with_prices(net, prices)
}
