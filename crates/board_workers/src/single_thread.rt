//! How one thread makes all entries, with a scheduler that no other thread uses.
ghost use Rattle.std.specs.Prelude.{◌≡◌, ◌<◌, ◌≤◌, ℕ, true, false, length, map, slice_set, IfNone, IfOk, IfSome, OnOk, Some};
ghost use Rattle.std.specs.Arc.{arc_value};
ghost use Rattle.work_board.specs.Graphs.{list_at, IsAcyclic};
ghost use Rattle.work_board.specs.Cores.{has_entry, is_claimed, missing, AreModuleEntries, IsIdle};
ghost use Rattle.board_workers.specs.Parts.{AreAllDelivered, AreEntries, IsHeld, IsJob};

use crate::Work;
use std::alloc::{AllocError, Global};
use std::marker::Brand;
use std::sync::Arc;
use work_board::{Board, BoardFault, Claim, Graph, NamedTree, WorkEntry};

/// Claims the ready module with the smallest number. Returns it with the shared parts from which its entry is made; none if all modules
/// are delivered.
fn claim_next<T: NamedTree, E: WorkEntry>(
    board: &mut Board<'_, T, E>,
) -> Result<Option<(u32, Vec<Arc<E::Shared>>)>, AllocError>
    requires acyclic { IsAcyclic T.graph.imports }
    requires going { board.old.abandoned ≡ false }
    requires idle { IsIdle board.old }
    ensures job { IfOk result (λ job. IfSome job (λ j. IsJob E.is_of E.shared_of T.graph j.0 (map arc_value j.1.items))) }
    ensures claimed { IfOk result (λ job. IfSome job (λ j. IsHeld board.old j.0 board.new)) }
    ensures none { IfOk result (λ job. IfNone job ((board.new ≡ board.old) × AreAllDelivered board.new)) }
{
    board.invariants();
    match board.claim() {
        Claim::Finished => Ok(None),
        Claim::Later => unreachable!(),
        Claim::Module { number } => {
            board.invariants();
            match board.interfaces(number) {
                Ok(parts) => Ok(Some((number, parts))),
                Err(BoardFault::Memory) => Err(AllocError),
                Err(_) => unreachable!(),
            }
        }
    }
}

/// Delivers the entry of a claimed module, which can't fail under these conditions.
fn store_entry<T: NamedTree, E: WorkEntry>(board: &mut Board<'_, T, E>, number: u32, entry: E)
    requires claimed { is_claimed board.old number ≡ true }
    requires none { has_entry board.old.entries number ≡ false }
    requires name { E.name_of entry ≡ list_at T.graph.names number }
    ensures { board.new ≡ record board.old { entries = slice_set board.old.entries number (Some entry) } }
{
    match board.deliver(number, entry) {
        Ok(()) => {}
        Err(_) => unreachable!(),
    }
}

/// Makes and delivers the entry of one more module. Returns false if all modules were delivered already.
fn deliver_next<T: NamedTree, W: Work>(
    board: &mut Board<'_, T, W::Entry>,
    work: &W,
) -> Result<bool, AllocError>
    requires acyclic { IsAcyclic T.graph.imports }
    requires work { W.graph work.now ≡ T.graph }
    requires going { board.old.abandoned ≡ false }
    requires idle { IsIdle board.old }
    ensures going { OnOk result (board.new.abandoned ≡ false) }
    ensures idle { OnOk result (IsIdle board.new) }
    ensures more { IfOk result (λ more. more ≡ true → missing board.new < missing board.old) }
    ensures end { IfOk result (λ more. more ≡ false → AreAllDelivered board.new) }
{
    match claim_next(board)? {
        Some((number, parts)) => {
            let entry = work.make(number, parts.as_slice())?;
            store_entry(board, number, entry);
            Ok(true)
        }
        None => Ok(false),
    }
}

/// Makes and delivers all missing entries.
fn deliver_missing<T: NamedTree, W: Work>(
    board: &mut Board<'_, T, W::Entry>,
    work: &W,
) -> Result<(), AllocError>
    requires acyclic { IsAcyclic T.graph.imports }
    requires work { W.graph work.now ≡ T.graph }
    requires going { board.old.abandoned ≡ false }
    requires idle { IsIdle board.old }
    ensures { OnOk result (AreAllDelivered board.new) }
{
    'steps: loop {
        if !deliver_next(board, work)? {
            return Ok(());
        }
    }
}

/// The entries without the `Option`. Each must be `Some`.
fn unwrap_entries<E: Drop>(alloc: Global, gathered: Vec<Option<E>>) -> Result<Vec<E>, AllocError>
    requires { (n : ℕ) → n < length gathered.items → has_entry gathered.items n ≡ true }
    ensures { IfOk result (λ entries. map Some entries.items ≡ gathered.items) }
{
    let mut entries = Vec::with_capacity(alloc, gathered.len())?;
    for entry in gathered {
        match entry {
            Some(entry) => entries.push(entry)?,
            None => unreachable!(),
        }
    }
    Ok(entries)
}

/// The entries by module number, after all workers have ended. The calling thread makes the missing entries, also those of modules that a
/// worker claimed and didn't deliver. Fails if an allocation fails here, or failed in a worker, which then abandoned its module.
pub(crate) fn complete_entries<T: NamedTree, W: Work>(
    alloc: Global,
    mut board: Board<'_, T, W::Entry>,
    work: &W,
) -> Result<Vec<W::Entry>, AllocError>
    requires acyclic { IsAcyclic T.graph.imports }
    requires work { W.graph work.now ≡ T.graph }
    ensures entries { IfOk result (λ entries. AreEntries W.Entry.is_of T.graph entries.items) }
    ensures going { OnOk result (board.entry.abandoned ≡ false) }
{
    if board.is_abandoned() {
        return Err(AllocError);
    }
    board.release_claims();
    deliver_missing(&mut board, work)?;
    unwrap_entries(alloc, board.gather())
}

/// The entries of a graph's modules by number, made by the calling thread. The type parameter `T` identifies the graph.
fn make_entries_by_one_thread<T: NamedTree, W: Work>(
    alloc: Global,
    graph: &Graph,
    work: &W,
) -> Result<Vec<W::Entry>, AllocError>
    requires tree { graph.now ≡ T.graph }
    requires acyclic { IsAcyclic T.graph.imports }
    requires work { W.graph work.now ≡ T.graph }
    ensures { IfOk result (λ entries. AreEntries W.Entry.is_of T.graph entries.items) }
{
    let board = Board::new(alloc, graph)?;
    complete_entries::<T, W>(alloc, board, work)
}

/// The entries of a graph's modules by number, made by the calling thread alone. Fails if an allocation fails.
pub fn make_entries_by_caller<W: Work>(
    alloc: Global,
    graph: &Graph,
    work: &W,
) -> Result<Vec<W::Entry>, AllocError>
    // No module reaches itself by imports.
    requires acyclic { IsAcyclic graph.now.imports }
    // The work is for the modules of this graph.
    requires work { W.graph work.now ≡ graph.now }
    // The result has the entry of each module, by module number.
    ensures { IfOk result (λ entries. AreEntries W.Entry.is_of graph.now entries.items) }
{
    make_entries_by_one_thread::<Brand, W>(alloc, graph, work)
}
