//! Writes the text of a picture, in the language DOT: its first lines, its modules, its imports and its last line.
ghost use Rattle.std.specs.Prelude.{◌≡◌, ◌<◌, ◌++◌, if◌then◌else◌, [], IfErr, OnOk, filter, length};
ghost use Rattle.std.specs.List.{flat_map};
ghost use Rattle.std.specs.String.{string_bytes};
ghost use Rattle.byte_sink.specs.Sinks.{failures_after, AppendsPrefix, Writes};
ghost use Rattle.cut_net.specs.Lines.{IsAscending};
ghost use Rattle.cut_net.specs.WellFormed.{AreBetween};
ghost use Rattle.byte_sink.specs.Pieces.{WritesAllBut};
ghost use Rattle.cut_part.specs.Subnetworks.{are_ends_in};
ghost use Rattle.residual_graph.specs.Graphs.{is_flagged};
ghost use Rattle.cut_dot.specs.Ends.{is_chain_end};
ghost use Rattle.cut_dot.specs.Pictures.{drawn_modules, is_drawn};
ghost use Rattle.cut_dot.specs.Texts.{end_attribute, ends_text, head_text, line_of_import, label_text, line_of_module, module_line, picture_text, pin_text, reached_attribute, removed_attributes};

use crate::lines::{flow_on, is_pinned, is_removed};
use byte_sink::{Sink, SinkFault, flush_if_full, write_fully};
use cut_net::{Cut, Net, Priced};
use std::alloc::{AllocError, Global};

/// The first lines of the picture: the graph goes from left to right, and its label is the legend.
fn head_text() -> &'static str
    ensures { result.now ≡ head_text }
{
    "digraph cut {\n  rankdir=LR;\n  label=\"flow/weight; red: removed; bold: pinned; gray: still reached; double border: the two ends\";\n"
}

/// The attribute of A or B, a double border; empty for another module.
fn end_attribute(is_chain_end: bool) -> &'static str
    ensures { result.now ≡ end_attribute is_chain_end }
{
    if is_chain_end { " [peripheries=2]" } else { "" }
}

/// The attribute of a module that is still reached, gray; empty for another module.
fn reached_attribute(is_reached: bool) -> &'static str
    ensures { result.now ≡ reached_attribute is_reached }
{
    if is_reached { " [style=filled]" } else { "" }
}

/// The attributes of a removed import; empty for another import.
fn removed_attributes(is_removed: bool) -> &'static str
    ensures { result.now ≡ removed_attributes is_removed }
{
    if is_removed {
        " [style=dashed, color=red]"
    } else {
        ""
    }
}

/// Appends the line of a module to the text: its name, with a double border if it is A or B, and gray if it is still reached.
fn append_module(
    text: &mut String,
    name: &str,
    is_chain_end: bool,
    is_reached: bool,
) -> Result<(), AllocError>
    // With `Ok` the text has grown by exactly these bytes.
    ensures { OnOk result (string_bytes text.new ≡ string_bytes text.old ++ module_line name.now is_chain_end is_reached) }
{
    let end = end_attribute(is_chain_end);
    let reached = reached_attribute(is_reached);
    writeln!(text, "  \"{name}\"{end}{reached};")
}

/// Appends the names of an import's two modules to the text, with an arrow between them.
fn append_ends(text: &mut String, from: &str, to: &str) -> Result<(), AllocError>
    // With `Ok` the text has grown by exactly these bytes.
    ensures { OnOk result (string_bytes text.new ≡ string_bytes text.old ++ ends_text from.now to.now) }
{
    write!(text, "  \"{from}\" -> \"{to}\"")
}

/// Appends what follows the names in the line of an unpinned import: its label, and the attributes of a removed import if it is removed.
fn append_label(
    text: &mut String,
    flow: u64,
    weight: u64,
    is_removed: bool,
) -> Result<(), AllocError>
    // With `Ok` the text has grown by exactly these bytes.
    ensures { OnOk result (string_bytes text.new ≡ string_bytes text.old ++ label_text flow weight is_removed) }
{
    let removed = removed_attributes(is_removed);
    writeln!(text, " [label=\"{flow}/{weight}\"]{removed};")
}

/// Appends what follows the names in the line of a pinned import: its label and style, and the attributes of a removed import if it is
/// removed.
fn append_pin(text: &mut String, flow: u64, is_removed: bool) -> Result<(), AllocError>
    // With `Ok` the text has grown by exactly these bytes.
    ensures { OnOk result (string_bytes text.new ≡ string_bytes text.old ++ pin_text flow is_removed) }
{
    let removed = removed_attributes(is_removed);
    writeln!(text, " [label=\"{flow}/pin\"] [style=bold]{removed};")
}

/// Whether the module `node` is `from` or `to`, the modules A and B of the picture.
fn is_chain_end(from: u32, to: u32, node: u32) -> bool
    ensures { result ≡ is_chain_end from to node }
{
    (node == from) | (node == to)
}

/// Appends the line of a module to the buffer `text`, if the module is flagged, or is A or B. If the buffer is then full, writes it to the
/// sink.
fn write_drawn_module<S: Sink>(
    text: &mut String,
    net: &Net,
    from: u32,
    to: u32,
    marks: &[bool],
    reached: &[bool],
    node: u32,
    sink: &mut S,
) -> Result<(), SinkFault>
    // `marks` has a flag for each module of the network.
    requires marks { length marks.now ≡ length net.now.names }
    // `reached` has a flag for each module of the network.
    requires reached { length reached.now ≡ length net.now.names }
    // `node` is the number of a module of the network.
    requires node { node < length net.now.names }
    // With `Ok` the sink took the old buffer and the new lines, without what the new buffer still holds.
    ensures gathered { OnOk result (WritesAllBut (S.taken sink.old) (S.taken sink.new) (string_bytes text.old ++
        (if is_drawn from to (is_flagged marks.now) node then line_of_module net.now from to (is_flagged reached.now) node else []))
        (string_bytes text.new)) }
    // After an error the sink took a prefix of the old buffer and the new lines.
    ensures error_prefix { IfErr result (λ _. AppendsPrefix (S.taken sink.old) (S.taken sink.new) (string_bytes text.old ++
        (if is_drawn from to (is_flagged marks.now) node then line_of_module net.now from to (is_flagged reached.now) node else []))) }
    // The sink counts a failure if and only if the result is `Device`.
    ensures failures { S.failures sink.new ≡ failures_after result (S.failures sink.old) }
{
    let is_chain_end = is_chain_end(from, to, node);
    if marks[node as usize] | is_chain_end {
        let Ok(()) = append_module(text, net.name(node), is_chain_end, reached[node as usize])
        else {
            return Err(SinkFault::Memory);
        };
        return flush_if_full(text, sink);
    }
    Ok(())
}

/// Appends the lines of the modules that `marks` flags, and of A and B (`from` and `to`), to the buffer `text`. Whenever the buffer is
/// full, writes it to the sink.
fn write_modules<S: Sink>(
    text: &mut String,
    net: &Net,
    from: u32,
    to: u32,
    marks: &[bool],
    reached: &[bool],
    sink: &mut S,
) -> Result<(), SinkFault>
    // `marks` has a flag for each module of the network.
    requires marks { length marks.now ≡ length net.now.names }
    // `reached` has a flag for each module of the network.
    requires reached { length reached.now ≡ length net.now.names }
    // With `Ok` the sink took the old buffer and the new lines, without what the new buffer still holds.
    ensures gathered { OnOk result (WritesAllBut (S.taken sink.old) (S.taken sink.new) (string_bytes text.old ++
        flat_map (line_of_module net.now from to (is_flagged reached.now)) (drawn_modules net.now from to (is_flagged marks.now)))
        (string_bytes text.new)) }
    // After an error the sink took a prefix of the old buffer and the new lines.
    ensures error_prefix { IfErr result (λ _. AppendsPrefix (S.taken sink.old) (S.taken sink.new) (string_bytes text.old ++
        flat_map (line_of_module net.now from to (is_flagged reached.now)) (drawn_modules net.now from to (is_flagged marks.now)))) }
    // The sink counts a failure if and only if the result is `Device`.
    ensures failures { S.failures sink.new ≡ failures_after result (S.failures sink.old) }
{
    for node in 0..net.nodes() {
        write_drawn_module(text, net, from, to, marks, reached, node, sink)?;
    }
    Ok(())
}

/// Appends the line of an import to the text: the names of its modules, its label, and its attributes.
fn append_import(
    text: &mut String,
    net: &Net,
    removed: &[Priced],
    flow: &[Priced],
    import: Priced,
) -> Result<(), AllocError>
    // The removed imports are strictly sorted.
    requires removed { IsAscending removed.now }
    // The imports with flow are strictly sorted.
    requires flow { IsAscending flow.now }
    // The import is between two modules of the network.
    requires from { import.from < length net.now.names }
    requires to { import.to < length net.now.names }
    // With `Ok` the text has grown by exactly these bytes.
    ensures { OnOk result (string_bytes text.new ≡ string_bytes text.old ++ line_of_import net.now removed.now flow.now import) }
{
    let carried = flow_on(flow, import);
    let is_gone = is_removed(removed, import);
    let (from, to) = (net.name(import.from), net.name(import.to));
    append_ends(text, from, to)?;
    if is_pinned(net, import) {
        append_pin(text, carried, is_gone)
    } else {
        append_label(text, carried, import.amount, is_gone)
    }
}

/// Appends the line of an import to the buffer `text`, if both modules of the import are flagged. If the buffer is then full, writes it to
/// the sink.
fn write_internal_import<S: Sink>(
    text: &mut String,
    net: &Net,
    marks: &[bool],
    removed: &[Priced],
    flow: &[Priced],
    import: Priced,
    sink: &mut S,
) -> Result<(), SinkFault>
    // `marks` has a flag for each module of the network.
    requires marks { length marks.now ≡ length net.now.names }
    // The removed imports are strictly sorted.
    requires removed { IsAscending removed.now }
    // The imports with flow are strictly sorted.
    requires flow { IsAscending flow.now }
    // The import is between two modules of the network.
    requires from { import.from < length net.now.names }
    requires to { import.to < length net.now.names }
    // With `Ok` the sink took the old buffer and the new lines, without what the new buffer still holds.
    ensures gathered { OnOk result (WritesAllBut (S.taken sink.old) (S.taken sink.new) (string_bytes text.old ++
        (if are_ends_in (is_flagged marks.now) import then line_of_import net.now removed.now flow.now import else []))
        (string_bytes text.new)) }
    // After an error the sink took a prefix of the old buffer and the new lines.
    ensures error_prefix { IfErr result (λ _. AppendsPrefix (S.taken sink.old) (S.taken sink.new) (string_bytes text.old ++
        (if are_ends_in (is_flagged marks.now) import then line_of_import net.now removed.now flow.now import else []))) }
    // The sink counts a failure if and only if the result is `Device`.
    ensures failures { S.failures sink.new ≡ failures_after result (S.failures sink.old) }
{
    if marks[import.from as usize] & marks[import.to as usize] {
        let Ok(()) = append_import(text, net, removed, flow, import) else {
            return Err(SinkFault::Memory);
        };
        return flush_if_full(text, sink);
    }
    Ok(())
}

/// Appends the lines of the imports whose two modules are both flagged to the buffer `text`. Whenever the buffer is full, writes it to the
/// sink.
fn write_imports<S: Sink>(
    text: &mut String,
    net: &Net,
    imports: &[Priced],
    marks: &[bool],
    removed: &[Priced],
    flow: &[Priced],
    sink: &mut S,
) -> Result<(), SinkFault>
    // The imports are between modules of the network.
    requires imports { AreBetween imports.now (length net.now.names) }
    // `marks` has a flag for each module of the network.
    requires marks { length marks.now ≡ length net.now.names }
    // The removed imports are strictly sorted.
    requires removed { IsAscending removed.now }
    // The imports with flow are strictly sorted.
    requires flow { IsAscending flow.now }
    // With `Ok` the sink took the old buffer and the new lines, without what the new buffer still holds.
    ensures gathered { OnOk result (WritesAllBut (S.taken sink.old) (S.taken sink.new) (string_bytes text.old ++
        flat_map (line_of_import net.now removed.now flow.now) (filter (are_ends_in (is_flagged marks.now)) imports.now))
        (string_bytes text.new)) }
    // After an error the sink took a prefix of the old buffer and the new lines.
    ensures error_prefix { IfErr result (λ _. AppendsPrefix (S.taken sink.old) (S.taken sink.new) (string_bytes text.old ++
        flat_map (line_of_import net.now removed.now flow.now) (filter (are_ends_in (is_flagged marks.now)) imports.now))) }
    // The sink counts a failure if and only if the result is `Device`.
    ensures failures { S.failures sink.new ≡ failures_after result (S.failures sink.old) }
{
    for import in imports {
        write_internal_import(text, net, marks, removed, flow, *import, sink)?;
    }
    Ok(())
}

/// Writes the text of a picture. It has the modules that `marks` flags, the two modules `ends`, and those of `imports` whose modules are
/// both flagged. A module that `reached` flags is gray.
pub(crate) fn write_picture<S: Sink>(
    alloc: Global,
    net: &Net,
    ends: (u32, u32),
    cut: &Cut,
    imports: &[Priced],
    marks: &[bool],
    reached: &[bool],
    sink: &mut S,
) -> Result<(), SinkFault>
    // The imports are between modules of the network.
    requires imports { AreBetween imports.now (length net.now.names) }
    // `marks` has a flag for each module of the network.
    requires marks { length marks.now ≡ length net.now.names }
    // `reached` has a flag for each module of the network.
    requires reached { length reached.now ≡ length net.now.names }
    // The removed imports are strictly sorted.
    requires removed { IsAscending cut.now.imports.items }
    // The imports with flow are strictly sorted.
    requires flow { IsAscending cut.now.flow.items }
    // With `Ok` the sink took the whole text of the picture, otherwise a prefix of it.
    ensures writes { Writes (S.taken sink.old) (S.taken sink.new) result
        (picture_text net.now ends.0 ends.1 cut.now.imports.items cut.now.flow.items (is_flagged reached.now)
        (drawn_modules net.now ends.0 ends.1 (is_flagged marks.now)) (filter (are_ends_in (is_flagged marks.now)) imports.now)) }
    // The sink counts a failure if and only if the result is `Device`.
    ensures failures { S.failures sink.new ≡ failures_after result (S.failures sink.old) }
{
    let removed = cut.imports.as_slice();
    let flow = cut.flow.as_slice();
    let Ok(mut text) = String::from_str(alloc, head_text()) else {
        return Err(SinkFault::Memory);
    };
    write_modules(&mut text, net, ends.0, ends.1, marks, reached, sink)?;
    write_imports(&mut text, net, imports, marks, removed, flow, sink)?;
    let Ok(()) = text.push_str("}\n") else {
        return Err(SinkFault::Memory);
    };
    write_fully(sink, text.as_bytes())
}
