//! Writers of a network, and of a path of its imports.
//! Clauses of the functions that fill the buffer: `gathered`: with `Ok`, what the sink took and the new buffer together are the old buffer
//! and the lines. `error_prefix`: with `Err`, the sink took a prefix of these. `failures`: the sink counts a failure only for `Device`.
ghost use Rattle.std.specs.Prelude.{◌≡◌, ◌++◌, [], ◌<◌, length, map, IfErr, IfOk, OnOk};
ghost use Rattle.std.specs.String.{string_bytes};
ghost use Rattle.byte_sink.specs.Sinks.{failures_after, AppendsPrefix, Writes};
ghost use Rattle.byte_sink.specs.Pieces.{WritesAllBut};
ghost use Rattle.cut_net.specs.NetReading.{import_line};
ghost use Rattle.cut_net.specs.NetText.{Module};
ghost use Rattle.cut_net.specs.WellFormed.{AreBetween};
ghost use Rattle.cut_report.specs.NetLines.{chain_text, import_between, imports_along, net_line_content, ended_line, ended_lines, net_text, AreImportChain};

use crate::{Sink, SinkFault, write_fully};
use byte_sink::flush_if_full;
use cut_net::{Net, Priced, find_import};
use std::alloc::{AllocError, Global};
use std::fmt;

/// The content of a line of a network's text.
#[derive(Clone, Copy, Drop)]
enum NetLine<'a> {
    /// A `module` line: the name of a module.
    Module(&'a str),
    /// An `import` line: the first named module imports the second, with this weight.
    Import(&'a str, &'a str, u64),
}

/// Writes the bytes of the line, without its LF.
impl fmt::Display for NetLine<'_> {
    ghost use Rattle.std.specs.Prelude.{Some};
    ghost use Rattle.cut_net.specs.NetText.{net_line};
    ghost use Rattle.cut_report.specs.NetLines.{net_line_content};

    ghost output = { λ line. Some (net_line (net_line_content line)) };

    fn fmt<W: fmt::Write>(&self, f: &mut fmt::Formatter<W>) -> fmt::Result {
        match self {
            NetLine::Module(name) => write!(f, "module {name}"),
            NetLine::Import(from, to, weight) => write!(f, "import {from} {to} {weight}"),
        }
    }
}

/// Appends a line with its LF to the buffer `text`, and writes the buffer to the sink if it is full.
fn write_line<S: Sink>(text: &mut String, line: NetLine, sink: &mut S) -> Result<(), SinkFault>
    ensures gathered { OnOk result (WritesAllBut (S.taken sink.old) (S.taken sink.new)
        (string_bytes text.old ++ ended_line (net_line_content line.entry)) (string_bytes text.new)) }
    ensures error_prefix { IfErr result (λ _. AppendsPrefix (S.taken sink.old) (S.taken sink.new)
        (string_bytes text.old ++ ended_line (net_line_content line.entry))) }
    ensures failures { S.failures sink.new ≡ failures_after result (S.failures sink.old) }
{
    writeln!(text, "{line}").map_err(|_| SinkFault::Memory)?;
    flush_if_full(text, sink)
}

/// Appends a line for each module to the buffer `text`, which is written to the sink whenever it is full.
fn write_modules<S: Sink>(text: &mut String, net: &Net, sink: &mut S) -> Result<(), SinkFault>
    ensures gathered { OnOk result (WritesAllBut (S.taken sink.old) (S.taken sink.new)
        (string_bytes text.old ++ ended_lines (map Module net.now.names)) (string_bytes text.new)) }
    ensures error_prefix { IfErr result (λ _. AppendsPrefix (S.taken sink.old) (S.taken sink.new)
        (string_bytes text.old ++ ended_lines (map Module net.now.names))) }
    ensures failures { S.failures sink.new ≡ failures_after result (S.failures sink.old) }
{
    for node in 0..net.nodes() {
        write_line(text, NetLine::Module(net.name(node)), sink)?;
    }
    Ok(())
}

/// Appends a line for each import to the buffer `text`, which is written to the sink whenever it is full.
fn write_imports<S: Sink>(
    text: &mut String,
    net: &Net,
    imports: &[Priced],
    sink: &mut S,
) -> Result<(), SinkFault>
    requires { AreBetween imports.now (length net.now.names) }
    ensures gathered { OnOk result (WritesAllBut (S.taken sink.old) (S.taken sink.new)
        (string_bytes text.old ++ ended_lines (map (import_line net.now.names) imports.now)) (string_bytes text.new)) }
    ensures error_prefix { IfErr result (λ _. AppendsPrefix (S.taken sink.old) (S.taken sink.new)
        (string_bytes text.old ++ ended_lines (map (import_line net.now.names) imports.now))) }
    ensures failures { S.failures sink.new ≡ failures_after result (S.failures sink.old) }
{
    for import in imports {
        let from = net.name(import.from);
        let to = net.name(import.to);
        write_line(text, NetLine::Import(from, to, import.amount), sink)?;
    }
    Ok(())
}

/// Writes the text of a network: a line for each module, sorted by name, and then one for each import, in their order.
/// Fails with `Device` or `Memory`; the sink then has a prefix of the text.
pub fn write_net<S: Sink>(alloc: Global, net: &Net, sink: &mut S) -> Result<(), SinkFault>
    // No import is pinned, since a network's text can't express a pin.
    requires { net.now.pins ≡ [] }
    // With `Ok` the sink took the whole text, otherwise a prefix of it.
    ensures writes { Writes (S.taken sink.old) (S.taken sink.new) result (net_text net.now) }
    // The sink counts a failure if and only if the result is `Device`.
    ensures failures { S.failures sink.new ≡ failures_after result (S.failures sink.old) }
{
    net.invariants();
    let mut text = String::new(alloc);
    write_modules(&mut text, net, sink)?;
    write_imports(&mut text, net, net.imports(), sink)?;
    write_fully(sink, text.as_bytes())
}

/// The network's import of the module `to` by `from`; if there is none, an import between them with weight 0.
fn import_between(net: &Net, from: u32, to: u32) -> Priced
    ensures { result ≡ import_between net.now from to }
{
    net.invariants();
    let none = Priced {
        from,
        to,
        amount: 0,
    };
    find_import(net.imports(), none).unwrap_or(none)
}

/// For each two consecutive modules of the list, the network's import of the second by the first, or one with weight 0 if there is none.
fn imports_along(alloc: Global, net: &Net, modules: &[u32]) -> Result<Vec<Priced>, AllocError>
    ensures { IfOk result (λ imports. imports.items ≡ imports_along net.now modules.now) }
{
    modules
        .iter()
        .zip(modules.iter().skip(1))
        .map(|(from, to)| import_between(net, *from, *to))
        .collect(alloc)
}

/// Writes a line for each import of a path, in their order and with their weights. The path is given by its module numbers.
/// Writes nothing for a path of one module. Fails with `Device` or `Memory`; the sink then has a prefix of the text.
pub fn write_chain<S: Sink>(
    alloc: Global,
    net: &Net,
    chain: &[u32],
    sink: &mut S,
) -> Result<(), SinkFault>
    // Each module of the path imports the next one.
    requires chain { AreImportChain net.now chain.now }
    // No import is pinned, since a pinned import has no weight.
    requires unpinned { net.now.pins ≡ [] }
    // With `Ok` the sink took all of the lines, otherwise a prefix of them.
    ensures writes { Writes (S.taken sink.old) (S.taken sink.new) result (chain_text net.now chain.now) }
    // The sink counts a failure if and only if the result is `Device`.
    ensures failures { S.failures sink.new ≡ failures_after result (S.failures sink.old) }
{
    net.invariants();
    let Ok(imports) = imports_along(alloc, net, chain) else {
        return Err(SinkFault::Memory);
    };
    let mut text = String::new(alloc);
    write_imports(&mut text, net, imports.as_slice(), sink)?;
    write_fully(sink, text.as_bytes())
}
