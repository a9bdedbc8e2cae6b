//! Writing the picture of an answer.
ghost use Rattle.std.specs.Prelude.{◌≡◌, ◌<◌, [], length};
ghost use Rattle.byte_sink.specs.Sinks.{failures_after};
ghost use Rattle.cut_net.specs.Answers.{answer_claim};
ghost use Rattle.cut_net.specs.Lines.{IsAscending};
ghost use Rattle.cut_net.specs.WellFormed.{AreBetween};
ghost use Rattle.cut_dot.specs.Drawing.{IsDrawing, IsDrawingOf, IsFlowDrawing};
ghost use Rattle.cut_dot.specs.Pictures.{answer_flow, answer_removed, IsFlowPicture, IsPathPicture, IsPictureOfImports};

use crate::path::imports_along;
use crate::reached::flag_reached;
use crate::reported::{filter_reported, flag_ends};
use crate::text::write_picture;
use byte_sink::{Sink, SinkFault};
use cut_net::{Answer, Cut, Net, Priced};
use cut_part::between;
use std::alloc::Global;

/// Writes the picture of a cut between the modules `from` and `to`: it has all modules and imports on paths from `from` to `to`.
fn draw_cut<S: Sink>(
    alloc: Global,
    net: &Net,
    from: u32,
    to: u32,
    cut: &Cut,
    sink: &mut S,
) -> Result<(), SinkFault>
    // `from` is the number of a module of the network.
    requires from { from < length net.now.names }
    // `to` is the number of a module of the network.
    requires to { to < length net.now.names }
    // The imports that the cut removes are strictly sorted.
    requires removed { IsAscending cut.now.imports.items }
    // The imports with flow are strictly sorted.
    requires flow { IsAscending cut.now.flow.items }
    // With `Ok` the sink took the whole picture, with an error at most a prefix of it.
    ensures run { IsDrawing net.now from to cut.now.imports.items cut.now.flow.items (S.taken sink.old) (S.taken sink.new) result }
    // The sink counts a failure if and only if the result is `Device`.
    ensures failures { S.failures sink.new ≡ failures_after result (S.failures sink.old) }
{
    net.invariants();
    let Ok(part) = between(alloc, net, from, to) else {
        return Err(SinkFault::Memory);
    };
    let Ok(reached) = flag_reached(alloc, net, cut.imports.as_slice(), from) else {
        return Err(SinkFault::Memory);
    };
    write_picture(
        alloc,
        net,
        (from, to),
        cut,
        net.imports(),
        &part.marks,
        &reached,
        sink,
    )
}

/// Writes the picture of these imports of the network. Its modules are those at the ends of the imports, and the two modules `ends`.
fn draw_imports<S: Sink>(
    alloc: Global,
    net: &Net,
    ends: (u32, u32),
    cut: &Cut,
    imports: &[Priced],
    sink: &mut S,
) -> Result<(), SinkFault>
    // `ends.0` is the number of a module of the network.
    requires from { ends.0 < length net.now.names }
    // The imports are between modules of the network.
    requires imports { AreBetween imports.now (length net.now.names) }
    // The imports that the cut removes are strictly sorted.
    requires removed { IsAscending cut.now.imports.items }
    // The imports with flow are strictly sorted.
    requires flow { IsAscending cut.now.flow.items }
    // With `Ok` the sink took the whole picture, with an error at most a prefix of it.
    ensures run { IsDrawingOf (IsPictureOfImports net.now ends.0 ends.1 cut.now.imports.items cut.now.flow.items imports.now) (S.taken sink.old) (S.taken sink.new) result }
    // The sink counts a failure if and only if the result is `Device`.
    ensures failures { S.failures sink.new ≡ failures_after result (S.failures sink.old) }
{
    let Ok(marks) = flag_ends(alloc, imports, net.nodes()) else {
        return Err(SinkFault::Memory);
    };
    let Ok(reached) = flag_reached(alloc, net, cut.imports.as_slice(), ends.0) else {
        return Err(SinkFault::Memory);
    };
    write_picture(alloc, net, ends, cut, imports, &marks, &reached, sink)
}

/// Writes the picture of a cut by its flow, which has only the imports that the cut removes or gives flow.
fn draw_flow_of_cut<S: Sink>(
    alloc: Global,
    net: &Net,
    ends: (u32, u32),
    cut: &Cut,
    sink: &mut S,
) -> Result<(), SinkFault>
    // `ends.0` is the number of a module of the network.
    requires from { ends.0 < length net.now.names }
    // The imports that the cut removes are strictly sorted.
    requires removed { IsAscending cut.now.imports.items }
    // The imports with flow are strictly sorted.
    requires flow { IsAscending cut.now.flow.items }
    // With `Ok` the sink took the whole picture, with an error at most a prefix of it.
    ensures run { IsDrawingOf (IsFlowPicture net.now ends.0 ends.1 cut.now.imports.items cut.now.flow.items) (S.taken sink.old) (S.taken sink.new) result }
    // The sink counts a failure if and only if the result is `Device`.
    ensures failures { S.failures sink.new ≡ failures_after result (S.failures sink.old) }
{
    net.invariants();
    let removed = cut.imports.as_slice();
    let Ok(imports) = filter_reported(alloc, net.imports(), removed, cut.flow.as_slice()) else {
        return Err(SinkFault::Memory);
    };
    draw_imports(alloc, net, ends, cut, &imports, sink)
}

/// A cut without imports and flow, for the picture of an answer that has no cut.
fn empty_cut(alloc: Global) -> Cut
    ensures removed { result.imports.items ≡ [] }
    ensures flow { result.flow.items ≡ [] }
{
    Cut {
        imports: Vec::new(alloc),
        weight: 0,
        flow: Vec::new(alloc),
    }
}

/// Writes the picture of a path of pinned imports. No import is removed in it, and none has flow.
fn draw_path<S: Sink>(
    alloc: Global,
    net: &Net,
    ends: (u32, u32),
    path: &[u32],
    sink: &mut S,
) -> Result<(), SinkFault>
    // `ends.0` is the number of a module of the network.
    requires from { ends.0 < length net.now.names }
    // With `Ok` the sink took the whole picture, with an error at most a prefix of it.
    ensures run { IsDrawingOf (IsPathPicture net.now ends.0 ends.1 path.now) (S.taken sink.old) (S.taken sink.new) result }
    // The sink counts a failure if and only if the result is `Device`.
    ensures failures { S.failures sink.new ≡ failures_after result (S.failures sink.old) }
{
    net.invariants();
    let Ok(imports) = imports_along(alloc, net.imports(), path) else {
        return Err(SinkFault::Memory);
    };
    draw_imports(alloc, net, ends, &empty_cut(alloc), &imports, sink)
}

/// Writes the picture of an answer for two modules of a network, A and B, which are given by their numbers, as a graph in DOT.
/// The picture has the modules on paths from A to B, and all imports between these, in the order of the network, each once.
/// A and B have a double border. They are in the picture even if no path leads from A to B; then it has no import.
/// The modules that A reaches without the removed imports are gray, A among them. A removed import is dashed and red.
/// An import's label is its flow, a slash, and its weight in the network. A pinned import is bold, and has `pin` instead of a weight.
/// Without a cut no import is removed, and none has flow. The answer isn't verified: a line of an import that isn't drawn has no effect.
/// Fails with `Device` or `Memory`; the sink then has a prefix of the text.
pub fn draw<S: Sink>(
    alloc: Global,
    net: &Net,
    from: u32,
    to: u32,
    answer: &Answer,
    sink: &mut S,
) -> Result<(), SinkFault>
    // `from` is the number of a module of the network.
    requires from { from < length net.now.names }
    // `to` is the number of a module of the network.
    requires to { to < length net.now.names }
    // The imports to remove are strictly sorted.
    requires removed { IsAscending (answer_removed answer.now) }
    // The imports with flow are strictly sorted.
    requires flow { IsAscending (answer_flow answer.now) }
    // With `Ok` the sink took the whole picture, otherwise a prefix of it.
    ensures run { IsDrawing net.now from to (answer_removed answer.now) (answer_flow answer.now) (S.taken sink.old) (S.taken sink.new) result }
    // The sink counts a failure if and only if the result is `Device`.
    ensures failures { S.failures sink.new ≡ failures_after result (S.failures sink.old) }
{
    match answer {
        Answer::Cut(cut) => draw_cut(alloc, net, from, to, cut, sink),
        Answer::Blocked { .. } => draw_cut(alloc, net, from, to, &empty_cut(alloc), sink),
    }
}

/// Writes the picture of an answer for two modules A and B by its flow. It differs from the picture of `draw` in its imports and modules.
/// The imports are exactly those of the network that the cut removes or gives flow, wherever they lead.
/// Without a cut they are those of the path of pinned imports, each from a module of the path to the next.
/// The modules are those at the ends of the imports, and A and B. Fails with `Device` or `Memory`; the sink then has a prefix of the text.
pub fn draw_flow<S: Sink>(
    alloc: Global,
    net: &Net,
    from: u32,
    to: u32,
    answer: &Answer,
    sink: &mut S,
) -> Result<(), SinkFault>
    // `from` is the number of a module of the network.
    requires from { from < length net.now.names }
    // `to` is the number of a module of the network.
    requires to { to < length net.now.names }
    // The imports to remove are strictly sorted.
    requires removed { IsAscending (answer_removed answer.now) }
    // The imports with flow are strictly sorted.
    requires flow { IsAscending (answer_flow answer.now) }
    // With `Ok` the sink took the whole picture by flow, otherwise a prefix of it.
    ensures run { IsFlowDrawing net.now from to (answer_claim answer.now) (S.taken sink.old) (S.taken sink.new) result }
    // The sink counts a failure if and only if the result is `Device`.
    ensures failures { S.failures sink.new ≡ failures_after result (S.failures sink.old) }
{
    match answer {
        Answer::Cut(cut) => draw_flow_of_cut(alloc, net, (from, to), cut, sink),
        Answer::Blocked { chain } => draw_path(alloc, net, (from, to), chain, sink),
    }
}
