//! The engines of the commands `net`, `why` and `why-net`: they write imports of a tree or a network to any sink.
ghost use Rattle.std.specs.Prelude.{◌≡◌, ◌≢◌, [], Err, IfErr, IfOk, Some};
ghost use Rattle.byte_sink.specs.Sinks.{failures_by};
ghost use Rattle.cut_net.specs.Network.{index_of};
ghost use Rattle.cut_solve.specs.Faults.{UnlessMemory};
ghost use Rattle.cut_solve.specs.Solving.{IsSolveOutcome};
ghost use Rattle.oscip_run.specs.Faults.{is_device};
ghost use Rattle.oscip_run.specs.ImportRuns.{IsNetTextRun, IsWhyRun};
ghost use Rattle.oscip_run.specs.Runs.{IsNetOfText, IsNeverRejected, IsRejectedText, IsRejectedTree, IsThis};
ghost use Rattle.source_tree.specs.Sources.{ArePathsInOrder};
ghost use Rattle.source_tree.specs.Trees.{IsNetOfTree};

use crate::RunFault;
use crate::engine::READERS;
use byte_sink::Sink;
use cut_net::Net;
use cut_report::laws::net_read_inverts_write_net;
use cut_report::{shortest_import_path, write_chain, write_net};
use cut_solve::{SolveFault, module_number};
use source_tree::{Source, net_of};
use std::alloc::Global;
use std::thread::Threads;

/// Writes a network as text. `Net::read` reads the text as the same network.
fn write_net_text<S: Sink>(alloc: Global, net: &Net, sink: &mut S) -> Result<(), RunFault>
    // The text of a network doesn't state pinned imports, so the network has none.
    requires { net.now.pins ≡ [] }
    // With `Ok` the sink took the text of this network, after an error at most a prefix of the text.
    ensures run { IsNetTextRun (IsThis net.now) IsNeverRejected (S.taken sink.old) (S.taken sink.new) result }
    // The sink counts a failure if and only if the result is `Device`.
    ensures failures { S.failures sink.new ≡ failures_by is_device result (S.failures sink.old) }
{
    net.invariants();
    net_read_inverts_write_net();
    write_net(alloc, net, sink)?;
    Ok(())
}

/// Reads the files of a tree, and writes its network as text.
/// The text has a line `module M` for each module, also each external one, sorted by name. A line `import M N w` for each import follows,
/// sorted by both names.
/// The weight `w` is the number of qualified names that use the import. `Net::read` reads the text as exactly the tree's network.
/// Fails with `Tree`, `Device` or `Memory`.
pub fn write_tree_net<R: Threads + Sync, S: Sink>(
    rt: &R,
    alloc: Global,
    sources: &[Source],
    sink: &mut S,
) -> Result<(), RunFault>
    // The files are sorted by path, each path once.
    requires { ArePathsInOrder sources.now }
    // With `Ok` the sink took exactly the text of the tree's network. After `Device` or `Memory` it has at most a prefix of it, after
    // `Tree` none.
    ensures run { IsNetTextRun (IsNetOfTree sources.now) (IsRejectedTree sources.now) (S.taken sink.old) (S.taken sink.new) result }
    // The sink counts a failure if and only if the result is `Device`.
    ensures failures { S.failures sink.new ≡ failures_by is_device result (S.failures sink.old) }
{
    let net = net_of(rt, alloc, sources, READERS)?;
    write_net_text(alloc, &net, sink)
}

/// The numbers of the modules of two different names. Fails with `NoSuchModule` for the first unknown name, with `SameModule` if both names
/// are the same, and with `Memory`.
fn two_module_numbers(alloc: Global, net: &Net, a: &str, b: &str) -> Result<(u32, u32), SolveFault>
    // With `Ok` the two numbers are those of the modules with these names, and they differ.
    ensures found { IfOk result (λ found. (index_of net.now a.now ≡ Some found.0) × (index_of net.now b.now ≡ Some found.1) × (found.0 ≢ found.1)) }
    // An error other than `Memory` is the one that a search for a cut between these names returns.
    ensures refused { IfErr result (λ fault. UnlessMemory fault (λ refusal. IsSolveOutcome net.now a.now b.now (Err refusal))) }
{
    let from = module_number(alloc, net, a)?;
    let to = module_number(alloc, net, b)?;
    if from == to {
        return Err(SolveFault::SameModule);
    }
    Ok((from, to))
}

/// Writes the lines of the shortest path of imports from the module named `a` to the one named `b`. Returns whether there is a path;
/// without one nothing is written.
fn write_shortest_path<S: Sink>(
    alloc: Global,
    net: &Net,
    a: &str,
    b: &str,
    sink: &mut S,
) -> Result<bool, RunFault>
    // The network was read without prices, so it has no pinned imports.
    requires { net.now.pins ≡ [] }
    // With `Ok` the sink took the lines of the path, and the result is whether there is one. After an error it took at most a prefix of
    // them.
    ensures run { IsWhyRun (IsThis net.now) IsNeverRejected a.now b.now (S.taken sink.old) (S.taken sink.new) result }
    // The sink counts a failure if and only if the result is `Device`.
    ensures failures { S.failures sink.new ≡ failures_by is_device result (S.failures sink.old) }
{
    net.invariants();
    let (from, to) = two_module_numbers(alloc, net, a, b)?;
    let found = shortest_import_path(alloc, net, from, to)?;
    let Some(chain) = found else {
        return Ok(false);
    };
    write_chain(alloc, net, chain.as_slice(), sink)?;
    Ok(true)
}

/// Reads a network, and writes the shortest path of imports from the module named `a` to the one named `b`, of several the
/// lexicographically smallest.
/// Each import of the path gets a line `import M N w`, and the first M is `a`. Imports of weight 0 count. Returns whether there is a path;
/// without one nothing is written.
/// Fails with `Net` if the network is rejected, then with `Solve` for the first unknown name or if both names are the same, and with
/// `Device` or `Memory`.
pub fn write_net_shortest_path<S: Sink>(
    alloc: Global,
    network: &[u8],
    a: &str,
    b: &str,
    sink: &mut S,
) -> Result<bool, RunFault>
    // With `Ok` the sink took exactly the lines of the path, and the result is whether there is one. After `Device` or `Memory` it has at
    // most a prefix of the lines, after another error none.
    ensures run { IsWhyRun (IsNetOfText network.now) (IsRejectedText network.now) a.now b.now (S.taken sink.old) (S.taken sink.new) result }
    // The sink counts a failure if and only if the result is `Device`.
    ensures failures { S.failures sink.new ≡ failures_by is_device result (S.failures sink.old) }
{
    let net = Net::read(alloc, network)?;
    write_shortest_path(alloc, &net, a, b, sink)
}

/// Reads the files of a tree, and writes the shortest path of imports from the module named `a` to the one named `b`, as
/// `write_net_shortest_path` does. Fails with `Tree` if the tree is rejected, then with `Solve` for the first unknown name or if both names
/// are the same, and with `Device` or `Memory`.
pub fn write_tree_shortest_path<R: Threads + Sync, S: Sink>(
    rt: &R,
    alloc: Global,
    sources: &[Source],
    a: &str,
    b: &str,
    sink: &mut S,
) -> Result<bool, RunFault>
    // The files are sorted by path, each path once.
    requires { ArePathsInOrder sources.now }
    // With `Ok` the sink took exactly the lines of the path, and the result is whether there is one. After `Device` or `Memory` it has at
    // most a prefix of the lines, after another error none.
    ensures run { IsWhyRun (IsNetOfTree sources.now) (IsRejectedTree sources.now) a.now b.now (S.taken sink.old) (S.taken sink.new) result }
    // The sink counts a failure if and only if the result is `Device`.
    ensures failures { S.failures sink.new ≡ failures_by is_device result (S.failures sink.old) }
{
    let net = net_of(rt, alloc, sources, READERS)?;
    write_shortest_path(alloc, &net, a, b, sink)
}
