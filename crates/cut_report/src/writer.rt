//! The writer of reports.
//! Clauses of the functions that fill the buffer: `gathered`: with `Ok`, what the sink took and the new buffer together are the old buffer
//! and the lines. `error_prefix`: with `Err`, the sink took a prefix of these. `failures`: the sink counts a failure only for `Device`.
ghost use Rattle.std.specs.Prelude.{◌≡◌, ◌++◌, ◌<◌, true, length, map, All, IfErr, IfOk, OnOk};
ghost use Rattle.std.specs.String.{string_bytes};
ghost use Rattle.texts.specs.Fields.{ended, line_of};
ghost use Rattle.cut_net.specs.Answers.{answer_claim, cut_claim};
ghost use Rattle.cut_net.specs.Network.{name_of};
ghost use Rattle.cut_net.specs.AnswerClaim.{BlockedBy};
ghost use Rattle.cut_report.specs.ReportLine.{flows, removes, report_line, answer_lines, written};
ghost use Rattle.cut_report.specs.ReportText.{report_text, IsReport, IsWellFormedAnswer};
ghost use Rattle.cut_net.specs.WellFormed.{AreBetween};
ghost use Rattle.cut_report.specs.Faults.{is_failure, is_of_sink};
ghost use Rattle.cut_report.specs.Lines.{line_content, joined_with};
ghost use Rattle.cut_report.specs.Reading.{claim_of};
ghost use Rattle.byte_sink.specs.Sinks.{failures_after, failures_by, AppendsPrefix, Writes, WritesBy};
ghost use Rattle.byte_sink.specs.Pieces.{WritesAllBut};

use crate::line::Line;
use crate::{ReportFault, Sink, SinkFault, write_fully};
use byte_sink::flush_if_full;
use cut_net::{Answer, Cut, Net, Priced};
use std::alloc::{AllocError, Global};

/// Appends a line with its LF to the buffer `text`, and writes the buffer to the sink if it is full.
fn write_line<S: Sink>(text: &mut String, line: Line, sink: &mut S) -> Result<(), SinkFault>
    ensures gathered { OnOk result (WritesAllBut (S.taken sink.old) (S.taken sink.new)
        (string_bytes text.old ++ ended (report_line (line_content line.entry))) (string_bytes text.new)) }
    ensures error_prefix { IfErr result (λ _. AppendsPrefix (S.taken sink.old) (S.taken sink.new)
        (string_bytes text.old ++ ended (report_line (line_content line.entry)))) }
    ensures failures { S.failures sink.new ≡ failures_after result (S.failures sink.old) }
{
    writeln!(text, "{line}").map_err(|_| SinkFault::Memory)?;
    flush_if_full(text, sink)
}

/// Appends a `remove` line for each of these imports to the buffer `text`, which is written to the sink whenever it is full.
fn write_removes<S: Sink>(
    text: &mut String,
    net: &Net,
    imports: &[Priced],
    sink: &mut S,
) -> Result<(), SinkFault>
    requires { AreBetween imports.now (length net.now.names) }
    ensures gathered { OnOk result (WritesAllBut (S.taken sink.old) (S.taken sink.new)
        (string_bytes text.old ++ written (map (removes net.now) imports.now)) (string_bytes text.new)) }
    ensures error_prefix { IfErr result (λ _. AppendsPrefix (S.taken sink.old) (S.taken sink.new)
        (string_bytes text.old ++ written (map (removes net.now) imports.now))) }
    ensures failures { S.failures sink.new ≡ failures_after result (S.failures sink.old) }
{
    for import in imports {
        let from = net.name(import.from);
        let to = net.name(import.to);
        write_line(text, Line::Removes(from, to, import.amount), sink)?;
    }
    Ok(())
}

/// Appends a `flow` line for each of these imports to the buffer `text`, which is written to the sink whenever it is full.
fn write_flows<S: Sink>(
    text: &mut String,
    net: &Net,
    imports: &[Priced],
    sink: &mut S,
) -> Result<(), SinkFault>
    requires { AreBetween imports.now (length net.now.names) }
    ensures gathered { OnOk result (WritesAllBut (S.taken sink.old) (S.taken sink.new)
        (string_bytes text.old ++ written (map (flows net.now) imports.now)) (string_bytes text.new)) }
    ensures error_prefix { IfErr result (λ _. AppendsPrefix (S.taken sink.old) (S.taken sink.new)
        (string_bytes text.old ++ written (map (flows net.now) imports.now))) }
    ensures failures { S.failures sink.new ≡ failures_after result (S.failures sink.old) }
{
    for import in imports {
        let from = net.name(import.from);
        let to = net.name(import.to);
        write_line(text, Line::Flows(from, to, import.amount), sink)?;
    }
    Ok(())
}

/// Appends the lines of a cut to the buffer `text`: its weight, the imports to remove, and the imports with flow. Writes the buffer to the
/// sink whenever it is full.
fn write_cut<S: Sink>(
    text: &mut String,
    net: &Net,
    cut: &Cut,
    sink: &mut S,
) -> Result<(), SinkFault>
    requires { IsWellFormedAnswer net.now (cut_claim cut.now) }
    ensures gathered { OnOk result (WritesAllBut (S.taken sink.old) (S.taken sink.new)
        (string_bytes text.old ++ written (answer_lines net.now (cut_claim cut.now))) (string_bytes text.new)) }
    ensures error_prefix { IfErr result (λ _. AppendsPrefix (S.taken sink.old) (S.taken sink.new)
        (string_bytes text.old ++ written (answer_lines net.now (cut_claim cut.now)))) }
    ensures failures { S.failures sink.new ≡ failures_after result (S.failures sink.old) }
{
    write_line(text, Line::Weighs(cut.weight), sink)?;
    write_removes(text, net, cut.imports.as_slice(), sink)?;
    write_flows(text, net, cut.flow.as_slice(), sink)
}

/// Appends a word to `text`, with a space before it unless it is the first word. `count` is the number of words that `text` already has.
fn append_word(text: &mut String, count: usize, word: &str) -> Result<(), AllocError>
    ensures { OnOk result (string_bytes text.new ≡ joined_with (string_bytes text.old) count word.now) }
{
    if count > 0 {
        text.push_str(" ")?;
    }
    text.push_str(word)
}

/// The names of these modules in their order, separated by spaces.
fn joined_names(alloc: Global, net: &Net, modules: &[u32]) -> Result<String, AllocError>
    requires { All (λ m. m < length net.now.names) modules.now }
    ensures { IfOk result (λ t. string_bytes t ≡ line_of (map (name_of net.now) modules.now)) }
{
    let mut text = String::new(alloc);
    for (k, module) in modules.iter().enumerate() {
        append_word(&mut text, k, net.name(*module))?;
    }
    Ok(text)
}

/// Appends the `blocked` line of a path of pinned imports to the buffer `text`, which is written to the sink if it is full.
fn write_pin_chain<S: Sink>(
    alloc: Global,
    text: &mut String,
    net: &Net,
    chain: &[u32],
    sink: &mut S,
) -> Result<(), SinkFault>
    requires { IsWellFormedAnswer net.now (BlockedBy chain.now) }
    ensures gathered { OnOk result (WritesAllBut (S.taken sink.old) (S.taken sink.new)
        (string_bytes text.old ++ written (answer_lines net.now (BlockedBy chain.now))) (string_bytes text.new)) }
    ensures error_prefix { IfErr result (λ _. AppendsPrefix (S.taken sink.old) (S.taken sink.new)
        (string_bytes text.old ++ written (answer_lines net.now (BlockedBy chain.now)))) }
    ensures failures { S.failures sink.new ≡ failures_after result (S.failures sink.old) }
{
    let Ok(names) = joined_names(alloc, net, chain) else {
        return Err(SinkFault::Memory);
    };
    write_line(text, Line::Blocks(names.as_str()), sink)
}

/// Appends the lines of the answer, all lines of the report except its first and last one, to the buffer `text`. Writes the buffer to the
/// sink whenever it is full.
fn write_answer<S: Sink>(
    alloc: Global,
    text: &mut String,
    net: &Net,
    answer: &Answer,
    sink: &mut S,
) -> Result<(), SinkFault>
    requires { IsWellFormedAnswer net.now (answer_claim answer.now) }
    ensures gathered { OnOk result (WritesAllBut (S.taken sink.old) (S.taken sink.new)
        (string_bytes text.old ++ written (answer_lines net.now (answer_claim answer.now))) (string_bytes text.new)) }
    ensures error_prefix { IfErr result (λ _. AppendsPrefix (S.taken sink.old) (S.taken sink.new)
        (string_bytes text.old ++ written (answer_lines net.now (answer_claim answer.now)))) }
    ensures failures { S.failures sink.new ≡ failures_after result (S.failures sink.old) }
{
    match answer {
        Answer::Cut(cut) => write_cut(text, net, cut, sink),
        Answer::Blocked { chain } => write_pin_chain(alloc, text, net, chain, sink),
    }
}

/// Writes the text of the report of an answer for two modules to the sink, through a buffer.
fn write_text<S: Sink>(
    alloc: Global,
    net: &Net,
    from: u32,
    to: u32,
    answer: &Answer,
    sink: &mut S,
) -> Result<(), SinkFault>
    requires { IsReport net.now (claim_of from to answer.now) }
    ensures writes { Writes (S.taken sink.old) (S.taken sink.new) result (report_text net.now (claim_of from to answer.now)) }
    ensures failures { S.failures sink.new ≡ failures_after result (S.failures sink.old) }
{
    let mut text = String::new(alloc);
    write_line(&mut text, Line::Ends(net.name(from), net.name(to)), sink)?;
    write_answer(alloc, &mut text, net, answer, sink)?;
    write_line(&mut text, Line::Last, sink)?;
    write_fully(sink, text.as_bytes())
}

/// Writes the report of an answer for two modules of the network, which are given by their numbers.
/// Fails with `Device` or `Memory`; the sink then has a prefix of the text.
pub fn write<S: Sink>(
    alloc: Global,
    net: &Net,
    from: u32,
    to: u32,
    answer: &Answer,
    sink: &mut S,
) -> Result<(), ReportFault>
    // `from` and `to` are modules. The lists of a cut are strictly sorted imports between modules of the network, and no flow is 0. A path
    // has one or more modules of the network.
    requires { IsReport net.now (claim_of from to answer.now) }
    // With `Ok` the sink took the whole text, otherwise a prefix of it.
    ensures writes { WritesBy is_of_sink (S.taken sink.old) (S.taken sink.new) result (report_text net.now (claim_of from to answer.now)) }
    // The sink counts a failure if and only if the result is `Device`.
    ensures failures { S.failures sink.new ≡ failures_by is_failure result (S.failures sink.old) }
    // With `Err` the error is one of the sink: `Device` or `Memory`.
    ensures of_sink { IfErr result (λ fault. is_of_sink fault ≡ true) }
{
    write_text(alloc, net, from, to, answer, sink)?;
    Ok(())
}
