//! All faults of a tree, and the index of the files without faults, also with a sink that fails at each write.
ghost use Rattle.oscip_job.specs.Jobs.{IsPackage, IsWorkerCount};
ghost use Rattle.source_tree.specs.Sources.{ArePathsInOrder};
ghost use Rattle.std.specs.Prelude.{IfOk};
ghost use Rattle.std.specs.String.{string_bytes};

use crate::faults::describe_fault;
use crate::inputs::{FOUR, ONE_HEX, ONE_INDEX, sources};
use index_run::{OpenBoardGate, write_requested_index};
use oscip_job::{IndexRequest, Job, job_of};
use oscip_run::{RunFault, list_tree_faults};
use source_tree::{
    PartitionedFiles, Source, TreeFault, in_order, partition_files, tree_fault_text,
};
use std::alloc::{AllocError, Global};
use std::process::Abort;
use std::sync::Wait;
use std::test::Fail;
use std::thread::Threads;
use test_doubles::FailingSink;
use texts::LocationStyle;

/// Files of which one has no fault: the first has a byte order mark, one an underscore, and one has text after its end.
const SOME: &[(&str, &str)] = &[
    ("A.Mod", "\u{feff}MODULE A; END A."),
    ("B.Mod", "MODULE B; VAR a_b: SET; END B."),
    ("M.Mod", "MODULE M; END M."),
    ("N.Mod", "MODULE N; END N. text"),
    ("deep/E.Mod", "MODULE E; VAR x, x: SET; END E."),
];

const SOME_FAULTS: &[u8] =
    b"A.Mod:0:0: BadByte\nB.Mod:0:15: BadByte\nN.Mod:0:17: Syntax\ndeep/E.Mod:0:17: Twice x\n";

/// Files with the output of their faults, and the verdict.
const FAULTS: &[(&[(&str, &str)], &[u8], &str)] = &[
    (&[], b"yes\n", "yes"),
    (FOUR, b"yes\n", "yes"),
    (SOME, SOME_FAULTS, "no"),
    // Faults of imports are reported only if each file is accepted.
    (
        &[
            ("A.Mod", "MODULE A; IMPORT B; END A."),
            ("B.Mod", "MODULE B; IMPORT A; END B."),
        ],
        b"Cycle A B\n",
        "no",
    ),
    (
        &[
            ("A.Mod", "MODULE A; IMPORT B; END A."),
            ("B.Mod", "MODULE B; IMPORT A; END B."),
            ("C\n.Mod", "MODULE C; END D."),
        ],
        b"C\\n.Mod:0:14: EndName\n",
        "no",
    ),
];

fn describe_verdict(alloc: Global, ended: &Result<bool, RunFault>) -> Result<String, AllocError> {
    match ended {
        Ok(true) => String::from_str(alloc, "yes"),
        Ok(false) => String::from_str(alloc, "no"),
        Err(fault) => describe_fault(alloc, fault),
    }
}

/// Checks the output of the faults to a sink that takes this many bytes, and the verdict.
fn check_faults<R: Abort + Threads + AllocGlobal + Sync>(
    rt: &R,
    sources: &[Source],
    writes: u64,
    text: &[u8],
    want: &str,
) -> Result<(), AllocError> {
    assert!(rt; in_order(sources));
    let mut sink = FailingSink::new(rt.alloc(), writes);
    let ended = list_tree_faults(rt, rt.alloc(), sources, LocationStyle::Plain, &mut sink);
    let description = describe_verdict(rt.alloc(), &ended)?;
    assert_eq!(rt; description.as_str(), want);
    assert_eq!(rt; sink.taken.as_slice(), text);
    Ok(())
}

#[test]
fn all_faults_are_reported(rt: HostRuntime) -> Result<(), Fail> {
    for (files, text, want) in FAULTS {
        let sources = sources(rt.alloc(), files)?;
        check_faults(&rt, sources.as_slice(), u64::MAX, text, want)?;
        for writes in 0..text.len() {
            let front = &text[..writes];
            let fault = "3 oscip: cannot write\n";
            check_faults(&rt, sources.as_slice(), writes as u64, front, fault)?;
        }
    }
    Ok(())
}

/// The arguments of jobs that index, with the output for the accepted file.
const INDEXES: &[(&str, &[u8])] = &[("one.scip", ONE_INDEX), ("--hex", ONE_HEX)];

/// The faults of the files that were left out, each on a line, followed by that of the run on the others.
fn describe_faults(
    alloc: Global,
    faults: &[TreeFault],
    ended: &Result<(), RunFault>,
) -> Result<String, AllocError> {
    let mut description = String::new(alloc);
    for fault in faults {
        description.push_str(tree_fault_text(alloc, LocationStyle::Plain, fault)?.as_str())?;
        description.push('\n')?;
    }
    if let Err(fault) = ended {
        description.push_str(describe_fault(alloc, fault)?.as_str())?;
    }
    Ok(description)
}

/// The job that indexes a folder to this output.
fn index_request(alloc: Global, word: &str) -> Result<IndexRequest, AllocError>
    ensures package { IfOk result (λ it. IsPackage (string_bytes it.package)) }
    ensures workers { IfOk result (λ it. IsWorkerCount it.workers) }
{
    let mut line = Vec::new(alloc);
    for word in ["oscip", "index", "--workers", "2", "some", word] {
        line.push(String::from_str(alloc, word)?)?;
    }
    match job_of(alloc, line.as_slice()) {
        Ok(Job::Index(index_request)) => Ok(index_request),
        _ => Err(AllocError),
    }
}

/// Checks the output of the index of the accepted files to a sink that takes this many bytes, and the faults of the others.
fn check_index<R: Abort + Threads + Wait + AllocGlobal + Sync>(
    rt: &R,
    index_request: &IndexRequest,
    sources: Vec<Source>,
    writes: u64,
    text: &[u8],
    want: &[u8],
) -> Result<(), AllocError>
    requires package { IsPackage (string_bytes index_request.now.package) }
    requires workers { IsWorkerCount index_request.now.workers }
{
    assert!(rt; in_order(sources.as_slice()));
    let alloc = rt.alloc();
    let mut sink = FailingSink::new(alloc, writes);
    let PartitionedFiles { accepted, faults } = partition_files(rt, alloc, sources, 2)?;
    let accepted = accepted.as_slice();
    let ended = write_requested_index(
        rt,
        alloc,
        index_request,
        accepted,
        &OpenBoardGate,
        &mut sink,
    );
    assert_eq!(rt;
        describe_faults(alloc, faults.as_slice(), &ended)?.as_bytes(),
        want
    );
    assert_eq!(rt; sink.taken.as_slice(), text);
    Ok(())
}

/// The faults of the files, followed by that of a sink that fails.
const SOME_AND_DEVICE: &[u8] =
    b"A.Mod:0:0: BadByte\nB.Mod:0:15: BadByte\nN.Mod:0:17: Syntax\ndeep/E.Mod:0:17: Twice x\n3 oscip: cannot write\n";

#[test]
fn files_with_faults_are_left_out(rt: HostRuntime) -> Result<(), Fail> {
    for (word, text) in INDEXES {
        let index_request = index_request(rt.alloc(), word)?;
        let files = sources(rt.alloc(), SOME)?;
        check_index(&rt, &index_request, files, u64::MAX, text, SOME_FAULTS)?;
        for writes in 0..text.len() {
            let files = sources(rt.alloc(), SOME)?;
            check_index(
                &rt,
                &index_request,
                files,
                writes as u64,
                &text[..writes],
                SOME_AND_DEVICE,
            )?;
        }
    }
    Ok(())
}

/// Two modules that import each other, and a file with a fault of its own.
const CYCLE: &[(&str, &str)] = &[
    ("A.Mod", "MODULE A; IMPORT B; END A."),
    ("B.Mod", "MODULE B; IMPORT A; END B."),
    ("C.Mod", "MODULE C; END D."),
];

#[test]
fn faults_of_a_rejected_tree_are_reported(rt: HostRuntime) -> Result<(), Fail> {
    for (word, _) in INDEXES {
        let index_request = index_request(rt.alloc(), word)?;
        let files = sources(rt.alloc(), CYCLE)?;
        let want = b"C.Mod:0:14: EndName\n1 oscip: Cycle A B\n";
        check_index(&rt, &index_request, files, u64::MAX, b"", want)?;
    }
    Ok(())
}
