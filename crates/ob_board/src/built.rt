//! Makes the entries of a tree's modules. An entry contains the module's document as a message in memory. In the clauses of this file:
//! - `input`: the parts are those of a file of the tree, and `reached` has the interfaces of the modules that its module reaches.
//! - `named`: the names in these interfaces are identifiers. `seen`: the parts and the graph are those of the sources.
//! - `package`, `files`, `graph`: the type `F` names this package, these files and this graph.
//! - `right`: the package isn't `.` and doesn't begin with a space. `precomputed_chains`: the chains are those of the tree's modules.
ghost use Rattle.std.specs.Prelude.{◌≡◌, false, map, IfOk};
ghost use Rattle.std.specs.Arc.{arc_value};
ghost use Rattle.ob_scan.specs.Texts.{text_at};
ghost use Rattle.scip_symbol.specs.Outcomes.{is_wrong_part};
ghost use Rattle.ob_board.specs.PrecomputedChains.{AreChainsOf, ServesModule};
ghost use Rattle.ob_board.specs.SourceParts.{file_models, AreSourcesRead};
ghost use Rattle.ob_board.specs.Entries.{interfaces_of, entry_model, AreAllNamed, IsEntryOf};
ghost use Rattle.ob_board.specs.UnresolvedEntry.{IsModuleInput};

use crate::Entry;
use crate::laws::reach_by_names_agrees;
use crate::named_index::NamedIndex;
use crate::precomputed_chains::PrecomputedChains;
use crate::written::{EmittedDocument, emit_module};
use board_workers::Work;
use ob_imports::Graph;
use ob_interface::Interface;
use source_tree::{ModuleParts, Source};
use std::alloc::{AllocError, Global};
use std::marker::{Model, PhantomData};
use std::sync::Arc;
use work_board::WorkEntry;

/// The entry of a module of a tree. The type parameter `F` names the tree and the package, so entries of different trees can't be mixed.
#[derive(Drop)]
pub struct IndexEntry<F: NamedIndex> {
    entry: Entry,
    of: PhantomData<F>,
}

impl<F: NamedIndex> Model for IndexEntry<F> {
    ghost use Rattle.std.specs.String.{string_bytes};
    ghost use Rattle.ob_board.specs.Entries.{entry_model, IsEntryOf, EntryModel};

    ghost Value = { EntryModel };

    ghost view = { λ m. entry_model m.entry };

    ghost invariant = { λ m. IsEntryOf F.files F.package_name (string_bytes m.entry.name) (entry_model m.entry) };
}

impl<F: NamedIndex> IndexEntry<F> {
    /// States the invariant of the type: the value is the entry of the module whose name it contains, in the tree and package of `F`.
    pub fn invariants(&self)
        // The value is the entry of the module whose name it contains.
        ensures { IsEntryOf F.files F.package_name self.now.name self.now }
    {
        let _entry = &self.entry;
    }

    /// Converts into a plain `Entry`, whose type names no tree.
    pub fn into_entry(self) -> Entry
        // The result has exactly the contents of this entry.
        ensures { entry_model result ≡ self }
    {
        let IndexEntry { entry, of: _ } = self;
        entry
    }
}

impl<F: NamedIndex> WorkEntry for IndexEntry<F> {
    ghost use Rattle.ob_board.specs.Entries.{IsEntryOf};

    type Shared = Interface;

    ghost name_of = { λ m. m.name };

    ghost is_of = { λ name m. IsEntryOf F.files F.package_name name m };

    ghost shared_of = { λ m. m.interface };

    fn name(&self) -> &str {
        self.entry.name.as_str()
    }

    fn shared(&self) -> &Arc<Interface> {
        &self.entry.interface
    }
}

/// Makes the entry of a module from the module's parts, the interfaces of the modules that it reaches, and the tree's precomputed type
/// chains.
fn build_entry<F: NamedIndex>(
    alloc: Global,
    source: &Source,
    parts: &ModuleParts,
    reached: &[Arc<Interface>],
    precomputed_chains: &PrecomputedChains,
    package_name: &str,
) -> Result<IndexEntry<F>, AllocError>
    requires input { IsModuleInput F.files source.now parts.now (map arc_value reached.now) }
    requires named { AreAllNamed (map arc_value reached.now) }
    requires precomputed_chains { ServesModule (map arc_value reached.now) precomputed_chains.now }
    requires package { package_name.now ≡ F.package_name }
    requires right { is_wrong_part F.package_name ≡ false }
    // With `Ok` the entry has the name of the module, which is token 1.
    ensures { IfOk result (λ m. m.name ≡ text_at source.now.bytes.items parts.now.tokens 1) }
{
    let EmittedDocument {
        document,
        externals,
    } = emit_module(
        alloc,
        source,
        parts,
        reached,
        precomputed_chains,
        package_name,
    )?;
    let name = String::from_str(alloc, parts.scopes.name())?;
    let interface = Arc::try_clone(&parts.interface)?;
    let entry = Entry {
        name,
        document,
        interface,
        externals,
    };
    Ok(IndexEntry {
        entry,
        of: PhantomData,
    })
}

/// Makes the entries of a tree's modules. The type parameter `F` names the tree and the package, and `E` is the type of the entries.
/// Contracts describe a builder by the tree's graph of imports.
#[derive(Drop)]
pub struct EntryBuilder<'a, F: NamedIndex, E> {
    pub(crate) alloc: Global,
    pub(crate) sources: &'a [Source],
    pub(crate) modules: &'a [Box<ModuleParts>],
    pub(crate) graph: &'a Graph,
    pub(crate) package_name: &'a str,
    /// The precomputed type chains of all modules.
    pub(crate) precomputed_chains: PrecomputedChains,
    of: PhantomData<F>,
    built: PhantomData<E>,
}

impl<'a, F: NamedIndex, E> Model for EntryBuilder<'a, F, E> {
    ghost use Rattle.std.specs.Prelude.{◌≡◌, false};
    ghost use Rattle.ob_imports.specs.Graphs.{ImportGraph};
    ghost use Rattle.scip_symbol.specs.Outcomes.{is_wrong_part};
    ghost use Rattle.ob_board.specs.PrecomputedChains.{AreChainsOf};
    ghost use Rattle.ob_board.specs.SourceParts.{file_models, AreSourcesRead};
    ghost use Rattle.ob_board.specs.Entries.{interfaces_of};

    ghost Value = { ImportGraph };

    ghost view = { λ w. w.graph.now };

    ghost invariant = { λ w. (F.files ≡ file_models w.sources.now w.modules.now) × AreSourcesRead w.sources.now w.modules.now w.graph.now × (w.package_name.now ≡ F.package_name)
        × (is_wrong_part F.package_name ≡ false) × AreChainsOf (interfaces_of w.modules.now) w.precomputed_chains × (F.graph ≡ w.graph.now) };
}

impl<'a, F: NamedIndex, E> EntryBuilder<'a, F, E> {
    /// A builder for the entries of these modules. Their symbols are in this package, and types are followed with the precomputed chains.
    pub(crate) fn new(
        alloc: Global,
        sources: &'a [Source],
        modules: &'a [Box<ModuleParts>],
        graph: &'a Graph,
        package_name: &'a str,
        precomputed_chains: PrecomputedChains,
    ) -> EntryBuilder<'a, F, E>
        requires files { F.files ≡ file_models sources.now modules.now }
        requires seen { AreSourcesRead sources.now modules.now graph.now }
        requires graph { F.graph ≡ graph.now }
        requires package { package_name.now ≡ F.package_name }
        requires right { is_wrong_part F.package_name ≡ false }
        requires precomputed_chains { AreChainsOf (interfaces_of modules.now) precomputed_chains }
        ensures { result ≡ graph.now }
    {
        EntryBuilder {
            alloc,
            sources,
            modules,
            graph,
            package_name,
            precomputed_chains,
            of: PhantomData,
            built: PhantomData,
        }
    }

    /// States a part of the type's invariant: the builder has the graph of imports that the type `F` names.
    pub fn invariants(&self)
        // The builder's graph is the one that the type `F` names.
        ensures { self.now ≡ F.graph }
    {
        let _graph = self.graph;
    }
}

impl<F: NamedIndex> Work for EntryBuilder<'_, F, IndexEntry<F>> {
    ghost use Rattle.ob_board.specs.BoardGraphs.{modules_of};

    type Entry = IndexEntry<F>;

    ghost graph = { λ w. modules_of w };

    fn make(&self, number: u32, parts: &[Arc<Interface>]) -> Result<IndexEntry<F>, AllocError> {
        reach_by_names_agrees();
        let place = number as usize;
        let built = build_entry(
            self.alloc,
            &self.sources[place],
            &self.modules[place],
            parts,
            &self.precomputed_chains,
            self.package_name,
        )?;
        Ok(built)
    }
}
