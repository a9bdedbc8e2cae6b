//! The checker: whether an answer for two modules is right, and if not, the first cause.
ghost use Rattle.std.specs.Prelude.{◌≡◌, ◌<◌, ◌↔◌, IsTrue, IfOk, length};
ghost use Rattle.cut_net.specs.Cuts.{Chain};
ghost use Rattle.cut_net.specs.Answers.{answer_claim, cut_claim};
ghost use Rattle.cut_net.specs.Pins.{IsCheapestAnswerWithPins};
ghost use Rattle.cut_check.specs.Reaching.{IsAllowed};
ghost use Rattle.cut_check.specs.Verdicts.{IsVerdict};

use crate::Verdict;
use crate::arcs::arcs_of;
use crate::flow::check_flow;
use crate::lines::{imports_without_line, match_lines};
use crate::pins::check_chain;
use crate::weights::has_right_weights;
use cut_net::laws::{pinned_path_excludes_cut, weak_duality_with_pins};
use cut_net::{Answer, Cut, Net};
use residual_graph::flag_reachable;
use std::alloc::{AllocError, Global};

/// Whether a path leads from `from` to `to` by allowed imports: those with an index k such that `allowed[k]` is true.
fn has_chain(
    alloc: Global,
    net: &Net,
    allowed: &[bool],
    from: u32,
    to: u32,
) -> Result<bool, AllocError>
    requires from { from < length net.now.names }
    requires to { to < length net.now.names }
    requires allowed { length allowed.now ≡ length net.now.imports }
    ensures { IfOk result (λ yes. IsTrue yes ↔ Chain net.now.imports (IsAllowed net.now.imports allowed.now) from to) }
{
    net.invariants();
    let arcs = arcs_of(alloc, net.imports(), allowed)?;
    let reached_flags = flag_reachable(alloc, &arcs, net.nodes(), from)?;
    Ok(reached_flags[to as usize])
}

/// The verdict on a cut that is claimed to be cheapest between two modules: `Yes`, or the first cause against it.
fn check_cut(alloc: Global, net: &Net, from: u32, to: u32, cut: &Cut) -> Result<Verdict, AllocError>
    requires from { from < length net.now.names }
    requires to { to < length net.now.names }
    ensures exact { IfOk result (IsVerdict net.now from to (cut_claim cut.now)) }
    ensures cheapest { IfOk result (λ v. v ≡ Verdict.Yes → IsCheapestAnswerWithPins net.now from to (cut_claim cut.now)) }
{
    weak_duality_with_pins();
    net.invariants();
    let printed = match_lines(alloc, net, &cut.imports)?;
    if let Some(line) = cut.imports.get(printed.count) {
        return Ok(Verdict::NoSuchImport {
            from: line.from,
            to: line.to,
        });
    }
    let flow = match_lines(alloc, net, &cut.flow)?;
    if let Some(line) = cut.flow.get(flow.count) {
        return Ok(Verdict::NoSuchImport {
            from: line.from,
            to: line.to,
        });
    }
    let allowed = imports_without_line(alloc, &printed.amounts)?;
    if has_chain(alloc, net, &allowed, from, to)? {
        return Ok(Verdict::StillChain);
    }
    if !has_right_weights(net, &printed.amounts, cut.weight) {
        return Ok(Verdict::WrongWeight);
    }
    check_flow(alloc, net, &flow.amounts, from, to, cut.weight)
}

/// The verdict on an answer for two modules of a network: `Yes`, or the first cause against it. The answer may have any imports and
/// amounts, even of modules that the network doesn't have. Fails if an allocation fails.
pub fn check(
    alloc: Global,
    net: &Net,
    from: u32,
    to: u32,
    answer: &Answer,
) -> Result<Verdict, AllocError>
    // `from` is a module.
    requires from { from < length net.now.names }
    // `to` is a module.
    requires to { to < length net.now.names }
    // With `Ok` the verdict is `Yes` or the first cause against the answer, by the definition.
    ensures exact { IfOk result (IsVerdict net.now from to (answer_claim answer.now)) }
    // If the verdict on a cut is `Yes`, no cut of unpinned imports weighs less. If that on a path is `Yes`, no set of unpinned imports is a
    // cut.
    ensures cheapest { IfOk result (λ v. v ≡ Verdict.Yes → IsCheapestAnswerWithPins net.now from to (answer_claim answer.now)) }
{
    pinned_path_excludes_cut();
    match answer {
        Answer::Cut(cut) => check_cut(alloc, net, from, to, cut),
        Answer::Blocked { chain } => Ok(check_chain(net, from, to, chain)),
    }
}
