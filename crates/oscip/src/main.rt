//! The program: parses the command line, runs one engine on the files of the system and standard output, and returns an exit status.
//! Depends on `oscip_job` for the command line, on `oscip_run` and `index_run` for the engines, the files and the ends of runs, and on
//! `atomic_file` for replacing an index.
//! The program is proved to be safe. What it writes, and its status, follow from the contracts of the functions that it calls.
#![tactic(auto)]

ghost use Rattle.std.specs.String.{string_bytes};
ghost use Rattle.source_tree.specs.Sources.{ArePathsInOrder};
ghost use Rattle.oscip_job.specs.Jobs.{HasPackage, HasWorkers, IsPackage, IsWorkerCount};

use atomic_file::{ContentFault, ReplaceFault, StdFile, StdFiles, replace_file};
use byte_sink::{Sink, ToWrite};
use index_run::{OpenBoardGate, run_unresolved, write_requested_index};
use oscip_job::{IndexRequest, Job, JobFault, Output, job_of};
use oscip_run::{
    Reader, RunFault, Stream, SystemFiles, TreeRun, finish_run, finish_tree_run,
    finish_without_job, read_tree_files, run_fault_line, run_index_question, run_network_job,
    run_tree_job, style_of_job,
};
use source_tree::{PartitionedFiles, Source};
use std::alloc::Global;
use std::fs::File;
use std::io::ErrorKind;
use std::process::ExitCode;
use std::rt::{Env, Files};
use std::sync::Wait;
use std::thread::Threads;
use std::{env, fs, io};
use texts::LocationStyle;

/// The fault `CannotWrite` with a copy of the path, or `Memory` if the copy fails.
fn cannot_write(alloc: Global, path: &str) -> RunFault {
    match String::from_str(alloc, path) {
        Ok(path) => RunFault::CannotWrite { path },
        Err(_) => RunFault::Memory,
    }
}

/// Makes an index and writes it to the file at this path, after creating or emptying the file. Fails with `CannotWrite` for the path if the
/// file can't be opened or written.
fn write_index_file<R: Files + AllocGlobal + Threads + Wait + Sync>(
    rt: &R,
    indexing: &IndexRequest,
    sources: &[Source],
    path: &str,
) -> Result<(), RunFault>
    // The files are sorted by path, each path once.
    requires in_order { ArePathsInOrder sources.now }
    // The package isn't `.` and doesn't begin with a space.
    requires package { IsPackage (string_bytes indexing.now.package) }
    // The number of workers is 1 to 64.
    requires workers { IsWorkerCount indexing.now.workers }
{
    let Ok(file) = fs::create(rt, path) else {
        return Err(cannot_write(rt.alloc(), path));
    };
    let mut sink = ToWrite::new(file);
    match write_requested_index(rt, rt.alloc(), indexing, sources, &OpenBoardGate, &mut sink) {
        Err(RunFault::Device) => Err(cannot_write(rt.alloc(), path)),
        ended => ended,
    }
}

/// Makes an index and replaces the content of the file at this path by it atomically. Fails with `CannotWrite` for the path of the file, or
/// for that of the partial file, if either can't be written.
fn replace_index_file<R: Files<File = File> + AllocGlobal + Threads + Wait + Sync>(
    rt: &R,
    indexing: &IndexRequest,
    sources: &[Source],
    path: &str,
) -> Result<(), RunFault>
    // The files are sorted by path, each path once.
    requires in_order { ArePathsInOrder sources.now }
    // The package isn't `.` and doesn't begin with a space.
    requires package { IsPackage (string_bytes indexing.now.package) }
    // The number of workers is 1 to 64.
    requires workers { IsWorkerCount indexing.now.workers }
{
    let alloc = rt.alloc();
    let write = |file: &mut StdFile| -> Result<(), ContentFault<RunFault>>
        requires in_order { ArePathsInOrder sources.now }
        requires package { IsPackage (string_bytes indexing.now.package) }
        requires workers { IsWorkerCount indexing.now.workers }
    {
        match write_requested_index(rt, alloc, indexing, sources, &OpenBoardGate, file) {
            Ok(()) => Ok(()),
            Err(RunFault::Device) => Err(ContentFault::Device),
            Err(fault) => Err(ContentFault::Other(fault)),
        }
    };
    match replace_file(alloc, &mut StdFiles(rt), path, write) {
        Ok(()) => Ok(()),
        Err(ReplaceFault::Target) => Err(cannot_write(alloc, path)),
        Err(ReplaceFault::Partial { path }) => Err(RunFault::CannotWrite { path }),
        Err(ReplaceFault::Content(fault)) => Err(fault),
        Err(ReplaceFault::Memory) => Err(RunFault::Memory),
    }
}

/// Makes an index and writes it to the output of the request: to a file, or as hexadecimal digits to `sink`.
fn write_index<R: Files<File = File> + AllocGlobal + Threads + Wait + Sync, S: Sink>(
    rt: &R,
    indexing: &IndexRequest,
    sources: &[Source],
    sink: &mut S,
) -> Result<(), RunFault>
    // The files are sorted by path, each path once.
    requires in_order { ArePathsInOrder sources.now }
    // The package isn't `.` and doesn't begin with a space.
    requires package { IsPackage (string_bytes indexing.now.package) }
    // The number of workers is 1 to 64.
    requires workers { IsWorkerCount indexing.now.workers }
{
    match &indexing.output {
        Output::File(path) if indexing.is_atomic => {
            replace_index_file(rt, indexing, sources, path.as_str())
        }
        Output::File(path) => write_index_file(rt, indexing, sources, path.as_str()),
        Output::Hex => write_requested_index(
            rt,
            rt.alloc(),
            indexing,
            sources,
            &OpenBoardGate,
            sink,
        ),
    }
}

/// Reads all files of the request's folder, then makes and writes the index. Returns the result of this, and the faults of the files that
/// were left out.
fn run_index<R: Files<File = File> + AllocGlobal + Threads + Wait + Sync, F: Reader, S: Sink>(
    rt: &R,
    reader: &F,
    indexing: &IndexRequest,
    sink: &mut S,
) -> Result<TreeRun, RunFault>
    // The package isn't `.` and doesn't begin with a space.
    requires package { IsPackage (string_bytes indexing.now.package) }
    // The number of workers is 1 to 64.
    requires workers { IsWorkerCount indexing.now.workers }
{
    let tree = &indexing.tree;
    let files = read_tree_files(rt, rt.alloc(), reader, tree, indexing.workers)?;
    let PartitionedFiles { accepted, faults } = files;
    let ended = write_index(rt, indexing, accepted.as_slice(), sink);
    Ok(TreeRun {
        faults,
        ended: ended.map(|()| true),
    })
}

/// Runs the job with the files of the system and standard output. Reports the faults of files that were left out to `stderr`. A result of
/// false means the exit status 5.
fn run_job<
    R: Files<File = File> + AllocGlobal + Print + Threads + Wait + Sync + Clone + Drop,
    E: Sink,
>(rt: &R, job: &Job, style: LocationStyle<'_>, stderr: &mut Stream<E>) -> Result<bool, RunFault>
    // If the job has a number of workers, it is from 1 to 64.
    requires workers { HasWorkers job.now }
    // If the job makes an index, the package isn't `.` and doesn't begin with a space.
    requires package { HasPackage job.now }
{
    let alloc = rt.alloc();
    let reader = SystemFiles(rt);
    let mut sink = ToWrite::new(io::writer(rt));
    let run = match job {
        Job::Tree { tree, question } => run_tree_job(
            rt, alloc, &reader, tree, question, &mut sink,
        )?,
        Job::Unresolved(tree) => run_unresolved(rt, alloc, &reader, tree, &mut sink)?,
        Job::Index(indexing) => run_index(rt, &reader, indexing, &mut sink)?,
        Job::Network { network, question } => {
            return run_network_job(rt, alloc, &reader, network.as_str(), question, &mut sink);
        }
        Job::Ask {
            index,
            question,
            ..
        } => return run_index_question(alloc, &reader, index.as_str(), question, style, &mut sink),
    };
    finish_tree_run(alloc, run, style, stderr)
}

/// Runs the job, reports its fault, and returns the exit status.
fn run_and_report<
    R: Files<File = File> + AllocGlobal + Print + Threads + Wait + Sync + Clone + Drop,
    E: Sink,
>(rt: &R, job: &Job, stderr: &mut Stream<E>) -> ExitCode
    // If the job has a number of workers, it is from 1 to 64.
    requires workers { HasWorkers job.now }
    // If the job makes an index, the package isn't `.` and doesn't begin with a space.
    requires package { HasPackage job.now }
{
    let style = style_of_job(job);
    let ended = run_job(rt, job, style, stderr);
    let line = run_fault_line(rt.alloc(), style, &ended);
    finish_run(&ended, line, stderr)
}

/// Reports the error of the command line, or writes the requested help, and returns the exit status.
fn report_no_job<R: AllocGlobal + Print, E: Sink>(
    rt: &R,
    fault: &JobFault,
    stderr: &mut Stream<E>,
) -> ExitCode {
    let mut stdout = Stream::new(ToWrite::new(io::writer(rt)));
    finish_without_job(fault, &mut stdout, stderr)
}

/// Parses the arguments into a job and runs it, or reports why there is no job. Returns the exit status.
fn run<R: Files<File = File> + AllocGlobal + Print + Threads + Wait + Sync + Clone + Drop, E: Sink>(
    rt: &R,
    words: &[String],
    stderr: &mut Stream<E>,
) -> ExitCode {
    match job_of(rt.alloc(), words) {
        Ok(job) => run_and_report(rt, &job, stderr),
        Err(fault) => report_no_job(rt, &fault, stderr),
    }
}

/// The fault for a command line with an argument that isn't UTF-8, or `Memory` if its text can't be allocated.
fn non_utf8_fault(alloc: Global) -> JobFault {
    match String::from_str(alloc, "error: a word of the command line isn't UTF-8\n") {
        Ok(text) => JobFault::Line { text },
        Err(_) => JobFault::Memory,
    }
}

/// The arguments of the command line, the program's name first.
fn command_line_arguments<R: Env + AllocGlobal>(rt: &R) -> io::Result<Vec<String>> {
    let words = env::args(rt)?;
    Ok(words.collect(rt.alloc())?)
}

/// Runs the program on the arguments of its command line, and returns its exit status. An argument that isn't UTF-8 is an error of the
/// command line.
fn main(rt: HostRuntime) -> ExitCode {
    let mut stderr = Stream::new(ToWrite::new(rt.stderr()));
    match command_line_arguments(&rt) {
        Ok(words) => run(&rt, words.as_slice(), &mut stderr),
        Err(error) if error.kind() == ErrorKind::OutOfMemory => {
            report_no_job(&rt, &JobFault::Memory, &mut stderr)
        }
        Err(_) => report_no_job(&rt, &non_utf8_fault(rt.alloc()), &mut stderr),
    }
}
