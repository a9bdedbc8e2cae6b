//! Runs the commands whose input is the file of a network or of an index, with any reader and any sink.
ghost use Rattle.std.specs.Prelude.{◌≡◌, IfErr, IfOk, option_copied};
ghost use Rattle.byte_sink.specs.Sinks.{failures_by};
ghost use Rattle.oscip_job.specs.Jobs.{HasNetWorkers};
ghost use Rattle.oscip_run.specs.Faults.{is_device, IsReadFault};
ghost use Rattle.oscip_run.specs.FileRuns.{IsNetRun, IsQuestionRun};
ghost use Rattle.oscip_run.specs.Readings.{returned_bytes, bytes_or_empty, question_paths, AreReturned, AreUnreadable, IsReturned, IsUnreadable};
ghost use Rattle.texts.specs.Places.{style_of};

use crate::{Reader, RunFault, answer_net_question, answer_question};
use byte_sink::Sink;
use cut_solve::OpenGate;
use oscip_job::{IndexQuestion, NetQuestion};
use std::alloc::Global;
use std::sync::Wait;
use std::thread::Threads;
use texts::LocationStyle;

/// The path of the report that the question names, or `None` if it names none.
fn report_path(question: &NetQuestion) -> Option<&str>
    ensures { option_copied result ≡ (question_paths question.now).report }
{
    match question {
        NetQuestion::Check(reported) => Some(reported.report.as_str()),
        NetQuestion::Dot(drawing) => Some(drawing.reported.report.as_str()),
        NetQuestion::Cut(_) | NetQuestion::Why(_) | NetQuestion::Reach(_) => None,
    }
}

/// The path of the prices that the question names, or `None` if it names none.
fn prices_path(question: &NetQuestion) -> Option<&str>
    ensures { option_copied result ≡ (question_paths question.now).prices }
{
    match question {
        NetQuestion::Cut(cutting) => cutting.prices.as_deref(),
        NetQuestion::Check(reported) => reported.prices.as_deref(),
        NetQuestion::Dot(drawing) => drawing.reported.prices.as_deref(),
        NetQuestion::Why(_) | NetQuestion::Reach(_) => None,
    }
}

/// The files that a question reads besides its network or tree.
#[derive(Drop)]
pub(crate) struct QuestionFiles {
    /// The bytes of the report, if the question has one.
    pub(crate) report: Option<Vec<u8>>,
    /// The bytes of the prices, if the question has any.
    pub(crate) prices: Option<Vec<u8>>,
}

/// The bytes of the file at this path, or `None` without a path.
fn read_optional_file<F: Reader>(
    reader: &F,
    path: Option<&str>,
) -> Result<Option<Vec<u8>>, RunFault>
    // With `Ok` the bytes are those that the reader returned for the path, and `None` without a path.
    ensures given { IfOk result (λ given. IsReturned (F.answers reader.now) (option_copied path.entry) (returned_bytes given)) }
    // An error is the one that the reader returned for the path.
    ensures refused { IfErr result (IsUnreadable (F.answers reader.now) (option_copied path.entry)) }
    // The error is `CannotRead` or `Memory`.
    ensures fault { IfErr result IsReadFault }
{
    match path {
        Some(path) => Ok(Some(reader.file(path)?)),
        None => Ok(None),
    }
}

/// Reads the files of the report and of the prices that a question names: first the report, then the prices.
pub(crate) fn read_question_files<F: Reader>(
    reader: &F,
    question: &NetQuestion,
) -> Result<QuestionFiles, RunFault>
    // With `Ok` the bytes are those that the reader returned for the paths in the question, and `None` for a path that it doesn't name.
    ensures given { IfOk result (λ beside. AreReturned (F.answers reader.now) (question_paths question.now) (returned_bytes beside.report) (returned_bytes beside.prices)) }
    // An error is the one that the reader returned for the report, or, after the report was read, for the prices.
    ensures refused { IfErr result (AreUnreadable (F.answers reader.now) (question_paths question.now)) }
    // The error is `CannotRead` or `Memory`.
    ensures fault { IfErr result IsReadFault }
{
    let report = read_optional_file(reader, report_path(question))?;
    let prices = read_optional_file(reader, prices_path(question))?;
    Ok(QuestionFiles { report, prices })
}

/// The bytes of a file, or an empty slice for `None`.
pub(crate) fn bytes_or_empty(given: &Option<Vec<u8>>) -> &[u8]
    ensures { result.now ≡ bytes_or_empty (returned_bytes given.now) }
{
    match given {
        Some(bytes) => bytes.as_slice(),
        None => &[],
    }
}

/// Answers a question about the network in the file of this path.
/// Reads the network, then the report, then the prices, all before the engine runs.
/// Returns false if a check says no or `why` finds no path. Fails with the first fault of the reader, and otherwise as
/// `answer_net_question` does.
pub fn run_network_job<R: Threads + Wait + Sync, F: Reader, S: Sink>(
    rt: &R,
    alloc: Global,
    reader: &F,
    network: &str,
    question: &NetQuestion,
    sink: &mut S,
) -> Result<bool, RunFault>
    // A question with a number of workers has 1 to 64 of them.
    requires { HasNetWorkers question.now }
    // `answer_net_question` runs on the bytes that the reader returned for this path and for the paths in the question. If a file can't be
    // read, the sink is unchanged.
    ensures run { IsNetRun (F.answers reader.now) network.now question.now (S.taken sink.old) (S.taken sink.new) result }
    // The sink counts a failure if and only if the result is `Device`.
    ensures failures { S.failures sink.new ≡ failures_by is_device result (S.failures sink.old) }
{
    let network = reader.file(network)?;
    let beside = read_question_files(reader, question)?;
    let (network, report) = (network.as_slice(), bytes_or_empty(&beside.report));
    let prices = beside.prices.as_deref();
    answer_net_question(
        rt, alloc, question, network, report, &OpenGate, prices, sink,
    )
}

/// Answers a question about the index in the file of this path, with locations in this style. With `Ok` the result is always true, so a
/// question about an index never ends the program with status 5.
/// Fails with the fault of the reader, and otherwise as `answer_question` does.
pub fn run_index_question<F: Reader, S: Sink>(
    alloc: Global,
    reader: &F,
    path: &str,
    question: &IndexQuestion,
    style: LocationStyle<'_>,
    sink: &mut S,
) -> Result<bool, RunFault>
    // `answer_question` runs on the bytes that the reader returned for this path. If the file can't be read, the sink is unchanged.
    ensures run { IsQuestionRun (F.answers reader.now) (style_of style.entry) path.now question.now (S.taken sink.old) (S.taken sink.new) result }
    // The sink counts a failure if and only if the result is `Device`.
    ensures failures { S.failures sink.new ≡ failures_by is_device result (S.failures sink.old) }
{
    let index = reader.file(path)?;
    answer_question(alloc, question, index.as_slice(), style, sink)?;
    Ok(true)
}
