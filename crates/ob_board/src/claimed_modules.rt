//! Makes the index of a tree for callers that run their own workers. A worker claims a module and gets the module's input as a `Job`.
//! It makes the module's entry from the job and delivers the entry to the scheduler. At the end the index is gathered from all entries.
ghost use Rattle.std.specs.Prelude.{◌≡◌, ◌<◌, ◌⊎◌, true, false, count_by, is_none, map, IfErr, IfNone, IfOk, IfSome, List, Some};
ghost use Rattle.source_tree.specs.Parts.{ArePartsOfTree};
ghost use Rattle.source_tree.specs.Trees.{ModuleFile};
ghost use Rattle.scip_index.specs.Plain.{index_model};
ghost use Rattle.scip_symbol.specs.Outcomes.{is_wrong_part};
ghost use Rattle.work_board.specs.Cores.{is_claimed, missing};
ghost use Rattle.work_board.specs.Graphs.{list_at};
ghost use Rattle.ob_board.specs.BoardGraphs.{modules_of};
ghost use Rattle.ob_board.specs.Entries.{entry_model, IsEntryOf};
ghost use Rattle.ob_board.specs.Indexes.{IsIndexOf};
ghost use Rattle.ob_board.specs.SourceParts.{file_models};

use crate::Entry;
use crate::built::{EntryBuilder, IndexEntry};
use crate::indexing::assemble_index;
use crate::named_index::{BoardOf, NamedIndex};
use crate::precomputed_chains::PrecomputedChains;
use board_workers::Work;
use ob_interface::Interface;
use scip_index::Index;
use source_tree::{Source, TreeParts};
use std::alloc::{AllocError, Global};
use std::marker::{Model, PhantomData};
use std::sync::Arc;
use work_board::{Board, BoardFault};

/// The scheduler of a tree. Its type names the tree and the package, so an entry of another tree or package has another type and can't be
/// delivered. `deliver` returns `WrongModule` for the entry of a module other than the claimed one.
pub type TreeBoard<'g, F> = Board<'g, BoardOf<F>, IndexEntry<F>>;

/// The input of a module that a worker has claimed: the interfaces of all modules that the module reaches. The type parameter `F` names the
/// tree. Contracts describe a job by the number of its module.
#[derive(Drop)]
pub struct Job<F: NamedIndex> {
    number: u32,
    parts: Vec<Arc<Interface>>,
    of: PhantomData<F>,
}

impl<F: NamedIndex> Model for Job<F> {
    ghost use Rattle.std.specs.Prelude.{ℕ, map};
    ghost use Rattle.std.specs.Arc.{arc_value};
    ghost use Rattle.board_workers.specs.Parts.{IsJob};
    ghost use Rattle.ob_board.specs.BoardGraphs.{modules_of};
    ghost use Rattle.ob_board.specs.Entries.{IsEntryOf};

    ghost Value = { ℕ };

    ghost view = { λ j. j.number };

    ghost invariant = { λ j. IsJob (λ name e. IsEntryOf F.files F.package_name name e) (λ e. e.interface) (modules_of F.graph) j.number (map arc_value j.parts.items) };
}

impl<F: NamedIndex> Job<F> {
    /// Collects the input of a claimed module: the interfaces of all modules that the module reaches. Returns `NotClaimed` if no worker has
    /// claimed the module, and `Memory` if an allocation fails.
    pub fn from_claimed(board: &TreeBoard<'_, F>, number: u32) -> Result<Job<F>, BoardFault>
        // With `Ok` the job is that of the module with this number.
        ensures number { IfOk result (λ job. job ≡ number) }
        // With `Ok` the module with this number is claimed.
        ensures claimed { IfOk result (λ job. is_claimed board.now number ≡ true) }
        // An error is either `NotClaimed`, and the module isn't claimed, or `Memory`.
        ensures refused { IfErr result (λ fault. ((fault ≡ BoardFault.NotClaimed) × (is_claimed board.now number ≡ false)) ⊎ (fault ≡ BoardFault.Memory)) }
    {
        board.invariants();
        let parts = board.interfaces(number)?;
        Ok(Job {
            number,
            parts,
            of: PhantomData,
        })
    }

    /// Returns the number of the job's module.
    pub fn number(&self) -> u32
        // The result is the number of the job's module.
        ensures { result ≡ self.now }
    {
        self.number
    }
}

/// Returns the entries of all modules, by module number, or `Ok(None)` if a module has no entry.
fn collect_if_complete<F: NamedIndex>(
    alloc: Global,
    gathered: Vec<Option<IndexEntry<F>>>,
) -> Result<Option<Vec<Entry>>, AllocError>
    ensures all { IfOk result (λ outcome. IfSome outcome (λ entries. map (λ e. Some (entry_model e)) entries.items ≡ gathered.items)) }
    ensures none { IfOk result (λ outcome. IfNone outcome (0 < count_by is_none gathered.items)) }
{
    let mut entries = Vec::new(alloc);
    for built in gathered {
        match built {
            Some(built) => entries.push(built.into_entry())?,
            None => return Ok(None),
        }
    }
    Ok(Some(entries))
}

impl<'a, F: NamedIndex> EntryBuilder<'a, F, IndexEntry<F>> {
    /// A builder for the entries of a tree's modules, with symbols in this package. `tree` is what `tree_parts` returned for these sources.
    pub fn from_tree_parts(
        alloc: Global,
        sources: &'a [Source],
        tree: &'a TreeParts,
        package_name: &'a str,
    ) -> Result<EntryBuilder<'a, F, IndexEntry<F>>, AllocError>
        // The parts are those of the tree of these files, as `tree_parts` returns them.
        requires parts { (files : List ModuleFile) × ArePartsOfTree sources.now files tree.now }
        // `F.files` are the files that these sources and their parts describe.
        requires files { F.files ≡ file_models sources.now tree.now.modules.items }
        // `F.graph` is the tree's graph of imports.
        requires graph { F.graph ≡ tree.now.graph }
        // `F.package_name` is this package.
        requires package { F.package_name ≡ package_name.now }
        // The package isn't `.` and doesn't begin with a space.
        requires right { is_wrong_part F.package_name ≡ false }
        // With `Ok` the builder has the graph that the type `F` names.
        ensures { IfOk result (λ work. work ≡ F.graph) }
    {
        let precomputed_chains = PrecomputedChains::from_files(
            alloc,
            sources,
            tree.modules.as_slice(),
        );
        Ok(EntryBuilder::new(
            alloc,
            sources,
            tree.modules.as_slice(),
            &tree.graph,
            package_name,
            precomputed_chains,
        ))
    }

    /// Makes the entry of a job's module, without holding a lock. Fails with `AllocError` if an allocation fails.
    pub fn entry(&self, job: &Job<F>) -> Result<IndexEntry<F>, AllocError>
        // With `Ok` the entry has the name of the job's module.
        ensures named { IfOk result (λ e. e.name ≡ list_at (modules_of F.graph).names job.now) }
        // With `Ok` the entry is that of the job's module, in the tree and the package that the type `F` names.
        ensures exact { IfOk result (IsEntryOf F.files F.package_name (list_at (modules_of F.graph).names job.now)) }
    {
        self.invariants();
        let built = self.make(job.number, job.parts.as_slice())?;
        built.invariants();
        Ok(built)
    }

    /// Gathers the index of the tree from the entries that the workers have delivered: the documents in the order of the files, and the
    /// external symbols sorted by symbol string, each once. `root` is the project root in the metadata.
    /// Returns `Ok(None)` if a module's entry wasn't delivered. Fails with `AllocError` if an allocation fails.
    pub fn gather(&self, board: TreeBoard<'_, F>, root: &str) -> Result<Option<Index>, AllocError>
        // If an index is returned, it is the index of the files that the type `F` names.
        ensures exact { IfOk result (λ outcome. IfSome outcome (λ index. IsIndexOf F.files F.package_name root.now (index_model index))) }
        // If an index is returned, no module's entry is missing.
        ensures whole { IfOk result (λ outcome. IfSome outcome (λ index. missing board.entry ≡ 0)) }
        // With `Ok(None)` a module's entry is missing.
        ensures none { IfOk result (λ outcome. IfNone outcome (0 < missing board.entry)) }
    {
        match collect_if_complete(self.alloc, board.gather())? {
            Some(entries) => Ok(Some(assemble_index(self.alloc, entries, root)?)),
            None => Ok(None),
        }
    }
}
