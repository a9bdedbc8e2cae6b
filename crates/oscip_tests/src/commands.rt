//! Commands with their arguments and their output, also with a sink that fails at each write, and with a gate at which all workers meet.
ghost use Rattle.std.specs.Prelude.{IfOk};
ghost use Rattle.oscip_job.specs.Jobs.{HasPackage, HasTreeWorkers, HasWorkers};
ghost use Rattle.source_tree.specs.Sources.{ArePathsInOrder};

use crate::faults::describe_fault;
use crate::inputs::{
    FOUR, FOUR_BLOCKED, FOUR_BROKEN, FOUR_CROSSINGS, FOUR_CUT, FOUR_DOT, FOUR_MODULES, FOUR_NET,
    FOUR_PINS, FOUR_RULES, FOUR_WHY, NONE_INDEX, ONE, ONE_HEX, ONE_INDEX, SIX, SIX_BLOCKED,
    SIX_CUT, SIX_DOT, SIX_PINS, SIX_WHY, WRONG, WRONG_LINE, sources,
};
use index_run::{OpenBoardGate, unresolved_to, write_requested_index};
use oscip_job::{Job, JobFault, TreeQuestion, job_of};
use oscip_run::{
    RunFault, answer_net_question, answer_question, answer_tree_net_question, check_tree_rules,
    list_tree_crossings, list_tree_faults, list_tree_modules, write_tree_net,
};
use source_tree::{Source, in_order};
use std::alloc::{AllocError, Global};
use std::process::Abort;
use std::sync::Wait;
use std::sync::atomic::Ordering;
use std::test::Fail;
use std::thread::Threads;
use std::time::Clock;
use test_doubles::{FailingSink, MeetingGate};
use texts::LocationStyle;

/// The arguments after the program's name, the files, the prices, and the output.
type Command = (
    &'static [&'static str],
    &'static [(&'static str, &'static str)],
    Option<&'static [u8]>,
    &'static [u8],
);

const PUTS: &[Command] = &[
    (
        &["cut-net", "six.net", "A", "B", "--workers", "2"],
        &[],
        None,
        SIX_CUT,
    ),
    (
        &["cut-net", "six.net", "A", "B", "--workers", "2"],
        &[],
        Some(SIX_PINS),
        SIX_BLOCKED,
    ),
    (&["check-net", "six.net", "six.cut"], &[], None, b"yes\n"),
    (&["dot-net", "six.net", "six.cut"], &[], None, SIX_DOT),
    (
        &["dot-net", "--flow", "six.net", "six.cut"],
        &[],
        None,
        SIX_DOT,
    ),
    (
        &["cut", "four", "A", "D", "--workers", "2"],
        FOUR,
        None,
        FOUR_CUT,
    ),
    (
        &["cut", "four", "A", "D", "--workers", "2"],
        FOUR,
        Some(FOUR_PINS),
        FOUR_BLOCKED,
    ),
    (&["check", "four", "four.cut"], FOUR, None, b"yes\n"),
    (&["dot", "four", "four.cut"], FOUR, None, FOUR_DOT),
    (&["crossings", "four", "B", "D"], FOUR, None, FOUR_CROSSINGS),
    (&["net", "four"], FOUR, None, FOUR_NET),
    (&["why", "four", "A", "D"], FOUR, None, FOUR_WHY),
    (&["rules", "four", "four.rules"], FOUR, None, FOUR_BROKEN),
    (&["faults", "four"], FOUR, None, b"yes\n"),
    (&["modules", "four"], FOUR, None, FOUR_MODULES),
    (&["reach", "four", "B"], FOUR, None, b"D\n"),
    (&["reach", "--back", "four", "B"], FOUR, None, b"A\n"),
    (&["reach-net", "six.net", "A"], &[], None, b"B\nM\n"),
    (&["why-net", "six.net", "A", "B"], &[], None, SIX_WHY),
    (
        &["index", "one", "one.scip", "--workers", "1"],
        ONE,
        None,
        ONE_INDEX,
    ),
    (
        &["index", "one", "--hex", "--workers", "1"],
        ONE,
        None,
        ONE_HEX,
    ),
    (
        &["index", "none", "none.scip", "--workers", "1"],
        &[],
        None,
        NONE_INDEX,
    ),
    (&["unresolved", "wrong"], WRONG, None, WRONG_LINE),
    (&["unresolved", "one"], ONE, None, b""),
    (
        &["def", "one.scip", "M.Mod", "0", "14"],
        &[],
        None,
        b"M.Mod:0:7-0:8\n",
    ),
    (
        &["refs", "--symbol", "scip-oberon . . . M/", "one.scip"],
        &[],
        None,
        b"M.Mod:0:14-0:15\n",
    ),
    (
        &["symbol", "one.scip", "M.Mod", "0", "7"],
        &[],
        None,
        b"scip-oberon . . . M/\n",
    ),
    (
        &["symbols", "one.scip"],
        &[],
        None,
        b"M.Mod:0:7-0:8 scip-oberon . . . M/\n",
    ),
];

/// The arguments of cuts, with the number of workers and the output. Leading zeros and a plus sign are permitted.
const WORKERS: &[(&[&str], u64, &[u8])] = &[
    (&["cut", "four", "A", "D"], 4, FOUR_CUT),
    (&["cut", "four", "A", "D", "--workers", "8"], 8, FOUR_CUT),
    (&["cut", "--workers=1", "four", "A", "D"], 1, FOUR_CUT),
    (&["cut", "--workers", "+4", "four", "A", "D"], 4, FOUR_CUT),
    (&["cut", "--workers", "04", "four", "A", "D"], 4, FOUR_CUT),
    (&["cut", "--workers", "010", "four", "A", "D"], 10, FOUR_CUT),
    (&["cut", "--workers", "64", "four", "A", "D"], 64, FOUR_CUT),
    (&["cut-net", "six.net", "A", "B"], 4, SIX_CUT),
    (
        &["cut-net", "six.net", "A", "B", "--workers", "8"],
        8,
        SIX_CUT,
    ),
    (
        &["cut-net", "--workers", "+4", "six.net", "A", "B"],
        4,
        SIX_CUT,
    ),
    (
        &["cut-net", "--workers", "04", "six.net", "A", "B"],
        4,
        SIX_CUT,
    ),
    (
        &["cut-net", "--workers", "63", "six.net", "A", "B"],
        63,
        SIX_CUT,
    ),
];

/// The program's name and its arguments.
fn line_of(alloc: Global, words: &[&str]) -> Result<Vec<String>, AllocError> {
    let mut line = Vec::new(alloc);
    line.push(String::from_str(alloc, "oscip")?)?;
    for word in words {
        line.push(String::from_str(alloc, word)?)?;
    }
    Ok(line)
}

fn box_job(alloc: Global, job: Job) -> Result<Box<Job>, JobFault>
    requires workers { HasWorkers job }
    requires package { HasPackage job }
    ensures workers { IfOk result (λ job. HasWorkers job.value) }
    ensures package { IfOk result (λ job. HasPackage job.value) }
{
    match Box::new(alloc, job) {
        Ok(job) => Ok(job),
        Err(_) => Err(JobFault::Memory),
    }
}

/// The job of the arguments.
fn parse_job(alloc: Global, words: &[String]) -> Result<Box<Job>, JobFault>
    ensures workers { IfOk result (λ job. HasWorkers job.value) }
    ensures package { IfOk result (λ job. HasPackage job.value) }
{
    box_job(alloc, job_of(alloc, words)?)
}

/// `yes` or `no`, or the fault.
fn describe_verdict(alloc: Global, ended: &Result<bool, RunFault>) -> Result<String, AllocError> {
    match ended {
        Ok(true) => String::from_str(alloc, "yes"),
        Ok(false) => String::from_str(alloc, "no"),
        Err(fault) => describe_fault(alloc, fault),
    }
}

/// `put` for success, or the fault.
fn describe_end(alloc: Global, ended: &Result<(), RunFault>) -> Result<String, AllocError> {
    match ended {
        Ok(()) => String::from_str(alloc, "put"),
        Err(fault) => describe_fault(alloc, fault),
    }
}

/// The result of a question about a tree.
fn describe_tree_run<R: Threads + Wait + AllocGlobal + Clock + Sync>(
    rt: &R,
    question: &TreeQuestion,
    sources: &[Source],
    prices: Option<&[u8]>,
    gate: &MeetingGate<'_, R>,
    sink: &mut FailingSink,
) -> Result<String, AllocError>
    requires workers { HasTreeWorkers question.now }
    requires in_order { ArePathsInOrder sources.now }
{
    let alloc = rt.alloc();
    match question {
        TreeQuestion::OfNet(question) => describe_verdict(
            alloc,
            &answer_tree_net_question(rt, alloc, question, sources, FOUR_CUT, gate, prices, sink),
        ),
        TreeQuestion::Crossings(names) => {
            let (from, to) = (names.from.as_str(), names.to.as_str());
            describe_end(
                alloc,
                &list_tree_crossings(rt, alloc, sources, from, to, LocationStyle::Plain, sink),
            )
        }
        TreeQuestion::Net => describe_end(alloc, &write_tree_net(rt, alloc, sources, sink)),
        TreeQuestion::Modules => describe_end(
            alloc,
            &list_tree_modules(rt, alloc, sources, LocationStyle::Plain, sink),
        ),
        TreeQuestion::Rules(_) => describe_verdict(
            alloc,
            &check_tree_rules(rt, alloc, sources, FOUR_RULES, LocationStyle::Plain, sink),
        ),
        TreeQuestion::Faults => describe_verdict(
            alloc,
            &list_tree_faults(rt, alloc, sources, LocationStyle::Plain, sink),
        ),
    }
}

/// The result of a job.
fn description<R: Threads + Wait + AllocGlobal + Clock + Sync>(
    rt: &R,
    job: &Job,
    sources: &[Source],
    prices: Option<&[u8]>,
    gate: &MeetingGate<'_, R>,
    sink: &mut FailingSink,
) -> Result<String, AllocError>
    requires workers { HasWorkers job.now }
    requires package { HasPackage job.now }
    requires in_order { ArePathsInOrder sources.now }
{
    let alloc = rt.alloc();
    match job {
        Job::Network { question, .. } => describe_verdict(
            alloc,
            &answer_net_question(rt, alloc, question, SIX, SIX_CUT, gate, prices, sink),
        ),
        Job::Tree { question, .. } => describe_tree_run(rt, question, sources, prices, gate, sink),
        Job::Index(index_request) => describe_end(
            alloc,
            &write_requested_index(rt, alloc, index_request, sources, &OpenBoardGate, sink),
        ),
        Job::Unresolved { .. } => describe_end(
            alloc,
            &unresolved_to(rt, alloc, sources, LocationStyle::Plain, sink),
        ),
        Job::Ask { question, .. } => {
            let style = LocationStyle::Plain;
            describe_end(
                alloc,
                &answer_question(alloc, question, ONE_INDEX, style, sink),
            )
        }
    }
}

/// Checks the result of a job.
fn check_end<R: Abort + Threads + Wait + AllocGlobal + Clock + Sync>(
    rt: &R,
    job: &Job,
    sources: &[Source],
    prices: Option<&[u8]>,
    gate: &MeetingGate<'_, R>,
    sink: &mut FailingSink,
    want: &str,
) -> Result<(), AllocError>
    requires workers { HasWorkers job.now }
    requires package { HasPackage job.now }
{
    assert!(rt; in_order(sources));
    let description = description(rt, job, sources, prices, gate, sink)?;
    assert_eq!(rt; description.as_str(), want);
    Ok(())
}

/// Checks that a sink that fails at each write in turn has a prefix of the output.
fn check_prefixes<R: Abort + Threads + Wait + AllocGlobal + Clock + Sync>(
    rt: &R,
    job: &Job,
    sources: &[Source],
    prices: Option<&[u8]>,
    text: &[u8],
) -> Result<(), AllocError>
    requires workers { HasWorkers job.now }
    requires package { HasPackage job.now }
{
    for writes in 0..text.len() {
        let mut sink = FailingSink::new(rt.alloc(), writes as u64);
        let gate = MeetingGate::new(rt, 0);
        check_end(
            rt,
            job,
            sources,
            prices,
            &gate,
            &mut sink,
            "3 oscip: cannot write\n",
        )?;
        assert_eq!(rt; (sink.taken.len(), sink.failures), (writes, 1));
        assert_eq!(rt; sink.empty, 0);
        assert!(rt; text.starts_with(sink.taken.as_slice()));
    }
    Ok(())
}

/// Checks that a sink that takes one byte per write has the whole output, and that no write is empty.
fn check_bytewise<R: Abort + Threads + Wait + AllocGlobal + Clock + Sync>(
    rt: &R,
    job: &Job,
    sources: &[Source],
    prices: Option<&[u8]>,
    text: &[u8],
) -> Result<(), AllocError>
    requires workers { HasWorkers job.now }
    requires package { HasPackage job.now }
{
    assert!(rt; in_order(sources));
    let mut sink = FailingSink::new(rt.alloc(), u64::MAX);
    let gate = MeetingGate::new(rt, 0);
    let description = description(rt, job, sources, prices, &gate, &mut sink)?;
    let put = if description.as_str() == "put" {
        "put"
    } else {
        "yes"
    };
    let want = if text == FOUR_BROKEN { "no" } else { put };
    assert_eq!(rt; description.as_str(), want);
    assert_eq!(rt; (sink.failures, sink.empty), (0, 0));
    assert_eq!(rt; sink.taken.as_slice(), text);
    Ok(())
}

/// Checks that all workers of a cut come to its gate, and the output.
fn check_workers<R: Abort + Threads + Wait + AllocGlobal + Clock + Sync>(
    rt: &R,
    job: &Job,
    sources: &[Source],
    workers: u64,
    text: &[u8],
) -> Result<(), AllocError>
    requires workers { HasWorkers job.now }
    requires package { HasPackage job.now }
{
    let mut sink = FailingSink::new(rt.alloc(), 1000);
    let gate = MeetingGate::new(rt, workers);
    check_end(rt, job, sources, None, &gate, &mut sink, "yes")?;
    assert_eq!(rt; gate.arrived_workers.load(Ordering::SeqCst), workers);
    assert_eq!(rt; sink.taken.as_slice(), text);
    Ok(())
}

#[test]
fn a_sink_that_fails_has_the_prefix(rt: HostRuntime) -> Result<(), Fail> {
    for (words, files, prices, text) in PUTS {
        let line = line_of(rt.alloc(), words)?;
        let sources = sources(rt.alloc(), files)?;
        let job = parse_job(rt.alloc(), line.as_slice())?;
        check_prefixes(&rt, &job, sources.as_slice(), *prices, text)?;
    }
    Ok(())
}

#[test]
fn a_sink_of_one_byte_a_write_has_all(rt: HostRuntime) -> Result<(), Fail> {
    for (words, files, prices, text) in PUTS {
        let line = line_of(rt.alloc(), words)?;
        let sources = sources(rt.alloc(), files)?;
        let job = parse_job(rt.alloc(), line.as_slice())?;
        check_bytewise(&rt, &job, sources.as_slice(), *prices, text)?;
    }
    Ok(())
}

#[test]
fn all_workers_of_a_cut_reach_the_gate(rt: HostRuntime) -> Result<(), Fail> {
    let sources = sources(rt.alloc(), FOUR)?;
    for (words, workers, text) in WORKERS {
        let line = line_of(rt.alloc(), words)?;
        let job = parse_job(rt.alloc(), line.as_slice())?;
        check_workers(&rt, &job, sources.as_slice(), *workers, text)?;
    }
    Ok(())
}
