//! The jobs of the program, run on data in memory. The digest takes their output and exit statuses.

use crate::digest::Digest;
use cut_solve::OpenGate;
use index_run::{OpenBoardGate, index_to, unresolved_to};
use ob_board::IndexOptions;
use oscip_job::IndexQuestion;
use oscip_run::{
    RunFault, answer_question, check_net_bytes, check_tree, cut_net_bytes, cut_tree, status_of,
    status_of_run,
};
use source_tree::{Source, in_order};
use std::alloc::{AllocError, Global};
use std::sync::Wait;
use std::thread::Threads;
use texts::LocationStyle;

/// Why a workload failed.
#[derive(Clone, Copy, Debug)]
pub enum WorkloadFault {
    /// An allocation failed.
    Memory,
    /// No workload has the name.
    Words,
    /// The files of a tree aren't sorted by path.
    Order,
}

impl From<AllocError> for WorkloadFault {
    fn from(_error: AllocError) -> WorkloadFault {
        WorkloadFault::Memory
    }
}

/// The exit status of a run without a yes or no.
fn status_of_write(ended: &Result<(), RunFault>) -> u8 {
    match ended {
        Ok(()) => 0,
        Err(fault) => status_of(fault),
    }
}

/// Makes the index of a tree with one worker.
pub fn index<R: Threads + Wait + AllocGlobal + Sync>(
    rt: &R,
    sources: &[Source],
    digest: &mut Digest,
) -> Result<(), WorkloadFault> {
    if !in_order(sources) {
        return Err(WorkloadFault::Order);
    }
    let alloc = rt.alloc();
    let (package, root) = (String::new(alloc), String::new(alloc));
    let options = IndexOptions { package, root };
    let ended = index_to(rt, alloc, sources, &options, 1, &OpenBoardGate, digest);
    digest.end(status_of_write(&ended));
    Ok(())
}

/// Lists the unresolved identifiers of a tree.
pub fn unresolved<R: Threads + AllocGlobal + Sync>(
    rt: &R,
    sources: &[Source],
    digest: &mut Digest,
) -> Result<(), WorkloadFault> {
    if !in_order(sources) {
        return Err(WorkloadFault::Order);
    }
    let ended = unresolved_to(rt, rt.alloc(), sources, LocationStyle::Plain, digest);
    digest.end(status_of_write(&ended));
    Ok(())
}

/// Checks a report for a tree.
fn check_in_tree<R: Threads + AllocGlobal + Sync>(
    rt: &R,
    sources: &[Source],
    report: &[u8],
    prices: Option<&[u8]>,
    digest: &mut Digest,
) -> Result<(), WorkloadFault> {
    if !in_order(sources) {
        return Err(WorkloadFault::Order);
    }
    let ended = check_tree(rt, rt.alloc(), sources, report, prices, digest);
    digest.end(status_of_run(&ended));
    Ok(())
}

/// Computes a cut of a tree between two modules with one worker, and checks the report.
pub fn cut_in_tree<R: Threads + Wait + AllocGlobal + Sync>(
    rt: &R,
    sources: &[Source],
    a: &str,
    b: &str,
    prices: Option<&[u8]>,
    digest: &mut Digest,
) -> Result<(), WorkloadFault> {
    if !in_order(sources) {
        return Err(WorkloadFault::Order);
    }
    let mut report = Vec::new(rt.alloc());
    let ended = cut_tree(
        rt,
        rt.alloc(),
        sources,
        a,
        b,
        1,
        &OpenGate,
        prices,
        &mut report,
    );
    digest.end(status_of_write(&ended));
    digest.add(report.as_slice());
    check_in_tree(rt, sources, report.as_slice(), prices, digest)
}

/// Computes a cut of a network between two modules with one worker, and checks the report.
pub fn cut_in_net<R: Threads + Wait + AllocGlobal + Sync>(
    rt: &R,
    network: &[u8],
    a: &str,
    b: &str,
    digest: &mut Digest,
) {
    let alloc = rt.alloc();
    let mut report = Vec::new(alloc);
    let ended = cut_net_bytes(rt, alloc, network, a, b, 1, &OpenGate, None, &mut report);
    digest.end(status_of_write(&ended));
    digest.add(report.as_slice());
    let ended = check_net_bytes(alloc, network, report.as_slice(), None, digest);
    digest.end(status_of_run(&ended));
}

/// Runs a query on an index, for the locations of the symbol at a position.
pub fn ask(alloc: Global, question: &IndexQuestion, index: &[u8], digest: &mut Digest) {
    let ended = answer_question(alloc, question, index, LocationStyle::Plain, digest);
    digest.end(status_of_write(&ended));
}
