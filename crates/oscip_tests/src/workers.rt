//! A scheduler of a tree of four modules with two threads of the test itself: A imports B and C, which import D. The entry of C is offered
//! for B before B is delivered.
ghost use Rattle.std.specs.Prelude.{◌≡◌, false, List};
ghost use Rattle.std.specs.String.{string_bytes};
ghost use Rattle.ob_board.specs.SourceParts.{file_models};
ghost use Rattle.source_tree.specs.Parts.{ArePartsOfTree};
ghost use Rattle.source_tree.specs.Trees.{ModuleFile};
ghost use Rattle.scip_symbol.specs.Outcomes.{is_wrong_part};

use crate::inputs::{FOUR, sources};
use crate::models::{encode_message, is_invalid_package, message_bytes, options_of};
use ob_board::{
    BoardFault, Claim, EntryBuilder, IndexEntry, IndexOptions, Job, NamedIndex, TreeBoard,
    board_graph,
};
use scip_index::Index;
use source_tree::{Source, TreeParts, tree_parts};
use std::alloc::{AllocError, Global};
use std::marker::Brand;
use std::process::Abort;
use std::sync::atomic::{AtomicU64, Ordering};
use std::sync::{Condvar, Mutex, MutexGuard, Wait};
use std::test::Fail;
use std::thread;
use std::thread::Threads;

/// The numbers of B and C.
const B: u32 = 1;

const C: u32 = 2;

/// The scheduler of a tree, guarded by a lock, and the scheduler while the lock is held.
type Locked<'g, F> = Mutex<TreeBoard<'g, F>>;

type Held<'l, 'g, F> = MutexGuard<'l, TreeBoard<'g, F>>;

/// The number of times that the entry of C was offered for B, and that it was rejected as another module's.
#[derive(Drop)]
struct Offers {
    made: AtomicU64,
    wrong: AtomicU64,
}

impl Offers {
    fn new() -> Offers {
        Offers {
            made: AtomicU64::new(0),
            wrong: AtomicU64::new(0),
        }
    }
}

/// No module is ready.
struct Later;

/// Claims a module and takes its input; `None` if the scheduler is done.
fn take<F: NamedIndex>(board: &mut TreeBoard<'_, F>) -> Result<Option<Job<F>>, Later> {
    match board.claim() {
        Claim::Finished => Ok(None),
        Claim::Later => Err(Later),
        Claim::Module { number } => match Job::from_claimed(board, number) {
            Ok(job) => Ok(Some(job)),
            Err(_) => {
                board.abandon(number);
                Ok(None)
            }
        },
    }
}

/// Waits until a module is ready; `None` if the scheduler is done.
fn next<F: NamedIndex, R: Wait>(
    rt: &R,
    locked: &Locked<'_, F>,
    changed: &Condvar,
) -> Option<Job<F>> {
    let mut board = locked.lock(rt);
    for _ in rt.forever() {
        match take(&mut *board) {
            Ok(job) => return job,
            Err(Later) => board = changed.wait(rt, board),
        }
    }
    unreachable!()
}

/// Offers the entry of C for B, and returns the entry if it is handed back.
fn offer_entry<F: NamedIndex>(
    board: &mut TreeBoard<'_, F>,
    offers: &Offers,
    entry: IndexEntry<F>,
) -> Option<IndexEntry<F>> {
    offers.made.fetch_add(1, Ordering::SeqCst);
    match board.deliver(B, entry) {
        Ok(()) => None,
        Err((BoardFault::WrongModule, entry)) => {
            offers.wrong.fetch_add(1, Ordering::SeqCst);
            Some(entry)
        }
        Err((_, entry)) => Some(entry),
    }
}

/// Waits until the entry of C was offered, or an allocation failed.
fn wait_for_offer<'l, 'g, F: NamedIndex, R: Wait>(
    rt: &R,
    changed: &Condvar,
    offers: &Offers,
    held: Held<'l, 'g, F>,
) -> Held<'l, 'g, F> {
    let mut board = held;
    for _ in rt.forever() {
        if offers.made.load(Ordering::SeqCst) > 0 || board.is_abandoned() {
            return board;
        }
        board = changed.wait(rt, board);
    }
    unreachable!()
}

/// Delivers the entry of a module: that of B after that of C was offered for it.
fn deliver_entry<F: NamedIndex, R: Wait>(
    rt: &R,
    locked: &Locked<'_, F>,
    changed: &Condvar,
    offers: &Offers,
    number: u32,
    made: IndexEntry<F>,
) {
    let mut board = locked.lock(rt);
    if number == B {
        board = wait_for_offer(rt, changed, offers, board);
    }
    let entry = if number == C {
        offer_entry(&mut *board, offers, made)
    } else {
        Some(made)
    };
    if let Some(entry) = entry {
        let _ = board.deliver(number, entry);
    }
}

/// Processes modules until the scheduler is done.
fn worker<F: NamedIndex, R: Wait>(
    rt: &R,
    locked: &Locked<'_, F>,
    changed: &Condvar,
    offers: &Offers,
    work: &EntryBuilder<'_, F, IndexEntry<F>>,
) {
    for _ in rt.forever() {
        let Some(job) = next(rt, locked, changed) else {
            changed.notify_all();
            return;
        };
        match work.entry(&job) {
            Ok(made) => deliver_entry(rt, locked, changed, offers, job.number(), made),
            Err(_) => locked.lock(rt).abandon(job.number()),
        }
        changed.notify_all();
    }
    unreachable!()
}

/// Two workers, each a thread.
fn run_two_workers<F: NamedIndex + Send + Sync, R: Threads + Wait + Sync>(
    rt: &R,
    locked: &Locked<'_, F>,
    offers: &Offers,
    work: &EntryBuilder<'_, F, IndexEntry<F>>,
) -> Result<(), AllocError> {
    let changed = Condvar::new();
    let waked = &changed;
    thread::scope(thread::scope_env(), rt, |scope| -> Result<(), AllocError> {
        scope.spawn(move || worker(rt, locked, waked, offers, work))?;
        worker(rt, locked, waked, offers, work);
        Ok(())
    })
}

/// The index that is gathered from the scheduler of a tree, with this package.
fn gather_index<F: NamedIndex + Send + Sync, R: Threads + Wait + Sync>(
    rt: &R,
    alloc: Global,
    sources: &[Source],
    tree: &TreeParts,
    options: &IndexOptions,
    offers: &Offers,
) -> Result<Option<Index>, AllocError>
    requires parts { (files : List ModuleFile) × ArePartsOfTree sources.now files tree.now }
    requires files { F.files ≡ file_models sources.now tree.now.modules.items }
    requires graph { F.graph ≡ tree.now.graph }
    requires package { F.package_name ≡ string_bytes options.now.package }
    requires right { is_wrong_part F.package_name ≡ false }
{
    let package = options.package.as_str();
    let work = EntryBuilder::<F, IndexEntry<F>>::from_tree_parts(alloc, sources, tree, package)?;
    let graph = board_graph(alloc, &tree.graph)?;
    let locked: Locked<'_, F> = Mutex::new(TreeBoard::new(alloc, &graph)?);
    run_two_workers(rt, &locked, offers, &work)?;
    work.gather(locked.into_inner(), options.root.as_str())
}

/// The written form of the index that is gathered for a tree.
fn gathered_bytes<R: AllocGlobal + Threads + Wait + Sync>(
    rt: &R,
    sources: &[Source],
    options: &IndexOptions,
    offers: &Offers,
) -> Result<Vec<u8>, Fail>
    requires { is_wrong_part (string_bytes options.now.package) ≡ false }
{
    let tree = tree_parts(rt, rt.alloc(), sources, 2)?;
    let index = gather_index::<Brand, R>(rt, rt.alloc(), sources, &tree, options, offers)?;
    match index {
        Some(index) => encode_message(rt.alloc(), index),
        None => Err(Fail::new("a module isn't delivered: memory ran out")),
    }
}

/// Checks that the gathered index is the tree's, and that the entry of C was rejected for B.
fn check_gathered_index<R: Abort + AllocGlobal + Threads + Wait + Sync>(
    rt: &R,
    sources: &[Source],
) -> Result<(), Fail> {
    let options = options_of(rt.alloc(), 3)?;
    assert!(rt; !is_invalid_package(options.package.as_str()));
    let offers = Offers::new();
    let by_threads = gathered_bytes(rt, sources, &options, &offers)?;
    let whole = message_bytes(rt, sources, &options)?;
    assert!(rt; by_threads.as_slice() == whole.as_slice());
    assert_eq!(rt; offers.made.load(Ordering::SeqCst), 1);
    assert_eq!(rt; offers.wrong.load(Ordering::SeqCst), 1);
    Ok(())
}

#[test]
fn threads_of_a_caller_process_a_tree(rt: HostRuntime) -> Result<(), Fail> {
    let sources = sources(rt.alloc(), FOUR)?;
    check_gathered_index(&rt, sources.as_slice())
}
