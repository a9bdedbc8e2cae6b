//! The engines of the commands `cut`, `check`, `cut-net` and `check-net`, which write to any sink.
ghost use Rattle.std.specs.Prelude.{◌≡◌, ◌++◌, ◌≤◌, All, IfOk, IsSome, codes, option_copied};
ghost use Rattle.std.specs.String.{string_bytes};
ghost use Rattle.cut_dot.specs.Pictures.{answer_flow};
ghost use Rattle.cut_net.specs.Answers.{answer_claim};
ghost use Rattle.cut_net.specs.Network.{index_of, name_of};
ghost use Rattle.cut_solve.specs.Solving.{IsSolved};
ghost use Rattle.byte_sink.specs.Sinks.{failures_by};
ghost use Rattle.oscip_run.specs.Faults.{is_device};
ghost use Rattle.oscip_run.specs.CutRuns.{IsCutRun};
ghost use Rattle.oscip_job.specs.Jobs.{IsWorkerCount};
ghost use Rattle.oscip_run.specs.PricedInputs.{IsNetOfPricedText, IsNetOfPricedTree, IsRejectedPricedText, IsRejectedPricedTree};
ghost use Rattle.oscip_run.specs.Runs.{is_yes, verdict_text, IsCheckRun, IsNeverRejected, IsThis};
ghost use Rattle.source_tree.specs.Sources.{ArePathsInOrder};

use crate::RunFault;
use crate::priced_network::{net_of_text, net_of_tree};
use byte_sink::{Sink, write_fully};
use cut_check::{Verdict, check};
use cut_net::{Answer, Net, Priced};
use cut_report::write;
use cut_solve::{Gate, solve};
use source_tree::Source;
use std::alloc::{AllocError, Global};
use std::sync::Wait;
use std::thread::Threads;

/// The maximum number of threads that read the files of a tree for a command without `--workers`.
pub const READERS: u32 = 4;

/// The name of a module, or an empty text if the network has no module of this number.
fn name_or_empty(net: &Net, node: u32) -> &str
    ensures { result.now ≡ name_of net.now node }
{
    if node < net.nodes() {
        net.name(node)
    } else {
        ""
    }
}

/// The line `no WORD M N`, in which M and N are the names of the modules `from` and `to`: a verdict about the import of `to` by `from`.
fn import_verdict_line(
    alloc: Global,
    net: &Net,
    word: &str,
    from: u32,
    to: u32,
) -> Result<String, AllocError>
    ensures { IfOk result (λ t. string_bytes t ≡ codes "no " ++ word.now ++ codes " " ++ name_of net.now from ++ codes " " ++ name_of net.now to ++ codes "\n") }
{
    let from = name_or_empty(net, from);
    let to = name_or_empty(net, to);
    format!(in alloc; "no {word} {from} {to}\n")
}

/// The line that a check writes for this verdict, with the names of the modules in it.
fn verdict_line(alloc: Global, net: &Net, verdict: Verdict) -> Result<String, AllocError>
    ensures { IfOk result (λ t. string_bytes t ≡ verdict_text net.now verdict) }
{
    match verdict {
        Verdict::Yes => String::from_str(alloc, "yes\n"),
        Verdict::NoSuchImport { from, to } => import_verdict_line(
            alloc,
            net,
            "NoSuchImport",
            from,
            to,
        ),
        Verdict::StillChain => String::from_str(alloc, "no StillChain\n"),
        Verdict::WrongWeight => String::from_str(alloc, "no WrongWeight\n"),
        Verdict::OverWeight { from, to } => import_verdict_line(alloc, net, "OverWeight", from, to),
        Verdict::NotKept { module } => {
            let module = name_or_empty(net, module);
            format!(in alloc; "no NotKept {module}\n")
        }
        Verdict::WrongValue => String::from_str(alloc, "no WrongValue\n"),
        Verdict::NotPinned { from, to } => import_verdict_line(alloc, net, "NotPinned", from, to),
    }
}

/// Whether the verdict is `yes`.
fn is_yes(verdict: Verdict) -> bool
    ensures { result ≡ is_yes verdict }
{
    matches!(verdict, Verdict::Yes)
}

/// Reads a report on a network, writes the line of the verdict, and returns whether the verdict is `yes`.
fn check_report<S: Sink>(
    alloc: Global,
    net: &Net,
    report: &[u8],
    sink: &mut S,
) -> Result<bool, RunFault>
    // This is the run of `check_net_bytes` for a network that is already read, so no network or prices are rejected.
    ensures run { IsCheckRun (IsThis net.now) IsNeverRejected report.now (S.taken sink.old) (S.taken sink.new) result }
    // The sink counts a failure if and only if the result is `Device`.
    ensures failures { S.failures sink.new ≡ failures_by is_device result (S.failures sink.old) }
{
    let report = cut_report::read(alloc, report, net)?;
    let verdict = check(alloc, net, report.from, report.to, &report.answer)?;
    let line = verdict_line(alloc, net, verdict)?;
    write_fully(sink, line.as_bytes())?;
    Ok(is_yes(verdict))
}

/// Reads a network, its prices if they are given, and then a report on it. Writes the line of the verdict, and returns whether it is `yes`.
/// With `yes`, a report of a cut has a cheapest cut between its two modules, among the sets without pinned imports. With `yes`, a blocked
/// report has a path of pinned imports, so no set without pinned imports is a cut. Otherwise nothing is promised of the report.
/// Fails with `Net`, `Price`, `Report`, `Device` or `Memory`.
pub fn check_net_bytes<S: Sink>(
    alloc: Global,
    network: &[u8],
    report: &[u8],
    prices: Option<&[u8]>,
    sink: &mut S,
) -> Result<bool, RunFault>
    // With `Ok` the sink took exactly the line of the verdict on the report. After `Device` or `Memory` it has at most a prefix of the
    // line, after another error none.
    ensures run { IsCheckRun (IsNetOfPricedText network.now (option_copied prices.entry)) (IsRejectedPricedText network.now (option_copied prices.entry)) report.now (S.taken sink.old) (S.taken sink.new) result }
    // The sink counts a failure if and only if the result is `Device`.
    ensures failures { S.failures sink.new ≡ failures_by is_device result (S.failures sink.old) }
{
    let net = net_of_text(alloc, network, prices)?;
    check_report(alloc, &net, report, sink)
}

/// Reads the files of a tree, its prices if they are given, and then a report on its network. Writes the line of the verdict, and returns
/// whether it is `yes`. With `yes`, the report has the properties that `check_net_bytes` describes.
/// Fails with `Tree`, `Price`, `Report`, `Device` or `Memory`.
pub fn check_tree<R: Threads + Sync, S: Sink>(
    rt: &R,
    alloc: Global,
    sources: &[Source],
    report: &[u8],
    prices: Option<&[u8]>,
    sink: &mut S,
) -> Result<bool, RunFault>
    // The files are sorted by path, each path once.
    requires { ArePathsInOrder sources.now }
    // With `Ok` the sink took exactly the line of the verdict on the report. After `Device` or `Memory` it has at most a prefix of the
    // line, after another error none.
    ensures run { IsCheckRun (IsNetOfPricedTree sources.now (option_copied prices.entry)) (IsRejectedPricedTree sources.now (option_copied prices.entry)) report.now (S.taken sink.old) (S.taken sink.new) result }
    // The sink counts a failure if and only if the result is `Device`.
    ensures failures { S.failures sink.new ≡ failures_by is_device result (S.failures sink.old) }
{
    let net = net_of_tree(rt, alloc, sources, READERS, prices)?;
    check_report(alloc, &net, report, sink)
}

/// The number of the module of this name. The caller knows that the network has such a module.
fn module_number(net: &Net, name: &str) -> u32
    // The network has a module of this name.
    requires { IsSome (index_of net.now name.now) }
    ensures { Some result ≡ index_of net.now name.now }
{
    net.index_of(name).unwrap()
}

/// The largest amount in the list, 0 if it is empty. The program doesn't use it: it shows the prover that each amount fits 64 bits.
fn largest_amount(lines: &[Priced]) -> u64
    // No amount in the list is larger than the result.
    ensures { All (λ line. line.amount ≤ result) lines.now }
{
    let mut most = 0;
    for line in lines {
        if line.amount > most {
            most = line.amount;
        }
    }
    most
}

/// The imports with flow of an answer; empty for a blocked path, since there is no cut then.
fn flow_of(answer: &Answer) -> &[Priced]
    ensures { result.now ≡ answer_flow answer.now }
{
    match answer {
        Answer::Cut(cut) => cut.flow.as_slice(),
        Answer::Blocked { .. } => &[],
    }
}

/// Writes the report of an answer to the question for a cut between the modules named `a` and `b`.
fn write_cut<S: Sink>(
    alloc: Global,
    net: &Net,
    a: &str,
    b: &str,
    answer: &Answer,
    sink: &mut S,
) -> Result<(), RunFault>
    // The answer is a correct result of `solve` for these two names.
    requires { IsSolved net.now a.now b.now (answer_claim answer.now) }
    // This is the run of `cut_net_bytes` for a network that is already read, so no network or prices are rejected.
    ensures run { IsCutRun (IsThis net.now) IsNeverRejected a.now b.now (S.taken sink.old) (S.taken sink.new) result }
    // The sink counts a failure if and only if the result is `Device`.
    ensures failures { S.failures sink.new ≡ failures_by is_device result (S.failures sink.old) }
{
    net.invariants();
    let from = module_number(net, a);
    let to = module_number(net, b);
    let _most = largest_amount(flow_of(answer));
    write(alloc, net, from, to, answer, sink)?;
    Ok(())
}

/// Writes the report of a cheapest cut of a network between the modules named `a` and `b`, or of a path of pinned imports if no cut exists.
fn solve_and_write<R: Threads + Wait + Sync, G: Gate + Sync, S: Sink>(
    rt: &R,
    alloc: Global,
    net: &Net,
    a: &str,
    b: &str,
    workers: u32,
    gate: &G,
    sink: &mut S,
) -> Result<(), RunFault>
    // The number of workers is 1 to 64.
    requires { IsWorkerCount workers }
    // This is the run of `cut_net_bytes` for a network that is already read, so no network or prices are rejected.
    ensures run { IsCutRun (IsThis net.now) IsNeverRejected a.now b.now (S.taken sink.old) (S.taken sink.new) result }
    // The sink counts a failure if and only if the result is `Device`.
    ensures failures { S.failures sink.new ≡ failures_by is_device result (S.failures sink.old) }
{
    let answer = solve(rt, alloc, net, a, b, workers, gate)?;
    write_cut(alloc, net, a, b, &answer, sink)
}

/// Reads a network and its prices, if they are given, and writes the report of a cheapest cut between the modules named `a` and `b`.
/// The report has the imports to remove so that `a` no longer reaches `b`, their weight, and a flow of that value.
/// From 1 to 64 threads, the workers, search for the cut and wait for one another. Each calls `gate` between the two critical sections of a
/// step.
///
/// For every accepted tree, two named modules and every interleaving of the workers' pushes and relabels: once no other
/// module holds excess, removing the printed imports leaves no import chain from the first module to the second, their
/// weight is the printed one, and every set of imports whose removal leaves none weighs at least as much; the printed flow
/// has that value.
///
/// Here the input is a network instead of a tree. Clause `run` states the theorem: with `Ok` the sink has a text for which `IsCutText`
/// holds, for every number of workers, every gate and every interleaving.
///
/// If prices are given, they replace the weights of their imports, and only sets without pinned imports count.
/// If a path of pinned imports leads from `a` to `b`, each cut has a pinned import. The report then has the shortest path of pinned
/// imports, of several the lexicographically smallest.
///
/// Fails with `Net` if the network is rejected, and then with `Price` if the prices are.
/// Then fails with `Solve` for the first unknown name, or if both names are the same; and with `Device` or `Memory`.
pub fn cut_net_bytes<R: Threads + Wait + Sync, G: Gate + Sync, S: Sink>(
    rt: &R,
    alloc: Global,
    network: &[u8],
    a: &str,
    b: &str,
    workers: u32,
    gate: &G,
    prices: Option<&[u8]>,
    sink: &mut S,
) -> Result<(), RunFault>
    // The number of workers is 1 to 64.
    requires workers { IsWorkerCount workers }
    // With `Ok` the sink took the report of a cheapest cut, or of a path of pinned imports. After `Device` or `Memory` it has at most a
    // prefix of such a report, after another error none.
    ensures run { IsCutRun (IsNetOfPricedText network.now (option_copied prices.entry)) (IsRejectedPricedText network.now (option_copied prices.entry)) a.now b.now (S.taken sink.old) (S.taken sink.new) result }
    // The sink counts a failure if and only if the result is `Device`.
    ensures failures { S.failures sink.new ≡ failures_by is_device result (S.failures sink.old) }
{
    let network = net_of_text(alloc, network, prices)?;
    solve_and_write(rt, alloc, &network, a, b, workers, gate, sink)
}

/// Reads the files of a tree and its prices, if they are given, and writes the report of a cheapest cut between the modules named `a` and
/// `b`.
/// The weight of an import is the number of qualified names that use it.
///
/// For every accepted tree, two named modules and every interleaving of the workers' pushes and relabels: once no other
/// module holds excess, removing the printed imports leaves no import chain from the first module to the second, their
/// weight is the printed one, and every set of imports whose removal leaves none weighs at least as much; the printed flow
/// has that value.
///
/// Clause `run` states the theorem: with `Ok` the sink has a text for which `IsCutText` holds, for every number of workers, every gate and
/// every interleaving.
/// Prices and pinned imports have the effect that `cut_net_bytes` describes.
///
/// Fails with `Tree` if the tree is rejected, and then with `Price` if the prices are.
/// Then fails with `Solve` for the first unknown name, or if both names are the same; and with `Device` or `Memory`.
pub fn cut_tree<R: Threads + Wait + Sync, G: Gate + Sync, S: Sink>(
    rt: &R,
    alloc: Global,
    sources: &[Source],
    a: &str,
    b: &str,
    workers: u32,
    gate: &G,
    prices: Option<&[u8]>,
    sink: &mut S,
) -> Result<(), RunFault>
    // The files are sorted by path, each path once.
    requires in_order { ArePathsInOrder sources.now }
    // The number of workers is 1 to 64.
    requires workers { IsWorkerCount workers }
    // With `Ok` the sink took the report of a cheapest cut, or of a path of pinned imports. After `Device` or `Memory` it has at most a
    // prefix of such a report, after another error none.
    ensures run { IsCutRun (IsNetOfPricedTree sources.now (option_copied prices.entry)) (IsRejectedPricedTree sources.now (option_copied prices.entry)) a.now b.now (S.taken sink.old) (S.taken sink.new) result }
    // The sink counts a failure if and only if the result is `Device`.
    ensures failures { S.failures sink.new ≡ failures_by is_device result (S.failures sink.old) }
{
    let network = net_of_tree(rt, alloc, sources, workers, prices)?;
    solve_and_write(rt, alloc, &network, a, b, workers, gate, sink)
}
