//! Makes the entries of modules for `unresolved_in_tree`: the interface and the unresolved identifiers of each module. In the clauses:
//! `input`: the parts are those of a file of the tree, with the interfaces of the modules that its module reaches.
//! `in_text`: the tokens are nonempty ranges of the bytes, each before the next. `few`: indices of reached modules fit 32 bits.
//! `precomputed_chains`: the chains are those of the tree's modules. `seen`: the parts and the graph are those of the sources.
ghost use Rattle.std.specs.Prelude.{◌≡◌, ◌≤◌, ◌^◌, length, map, IfOk, List};
ghost use Rattle.std.specs.Arc.{arc_value};
ghost use Rattle.module_table.specs.Tables.{rows_in};
ghost use Rattle.ob_scan.specs.Spelling.{AreInText};
ghost use Rattle.ob_scan.specs.Texts.{text_at};
ghost use Rattle.ob_view.specs.declared.target.Reference.{Reference};
ghost use Rattle.ob_targets.specs.Refers.{unresolved, AreReferences};
ghost use Rattle.ob_view.specs.World.{world};
ghost use Rattle.ob_board.specs.PrecomputedChains.{AreChainsOf, ServesModule};
ghost use Rattle.ob_board.specs.SourceParts.{file_models, AreSourcesRead};
ghost use Rattle.ob_board.specs.Entries.{interfaces_of};
ghost use Rattle.ob_board.specs.UnresolvedEntry.{IsModuleInput};
ghost use Rattle.ob_board.specs.Unresolved.{unresolved_model};

use crate::Unresolved;
use crate::files::NamedFiles;
use crate::laws::reach_by_names_agrees;
use crate::module_types::module_types;
use crate::precomputed_chains::PrecomputedChains;
use crate::rows::locate_all_unresolved;
use board_workers::Work;
use ob_imports::Graph;
use ob_interface::Interface;
use ob_resolve::references;
use ob_scan::laws::tokens_in_text;
use ob_types::Types;
use source_tree::{ModuleParts, Source};
use std::alloc::{AllocError, Global};
use std::marker::{Model, PhantomData};
use std::sync::Arc;
use work_board::WorkEntry;

/// The result of processing a module for `unresolved_in_tree`: the module's name, its interface, and its unresolved identifiers (`rows`).
/// The type parameter `F` names the files of the tree.
#[derive(Drop)]
pub(crate) struct UnresolvedEntry<F: NamedFiles> {
    name: String,
    interface: Arc<Interface>,
    rows: Vec<Unresolved>,
    of: PhantomData<F>,
}

impl<F: NamedFiles> Model for UnresolvedEntry<F> {
    ghost use Rattle.std.specs.Prelude.{map};
    ghost use Rattle.std.specs.Arc.{arc_value};
    ghost use Rattle.std.specs.String.{string_bytes};
    ghost use Rattle.ob_board.specs.UnresolvedEntry.{IsUnresolvedEntryOf, UnresolvedEntryModel};
    ghost use Rattle.ob_board.specs.Unresolved.{unresolved_model};

    ghost Value = { UnresolvedEntryModel };

    ghost view = { λ f. record { name = string_bytes f.name; interface = arc_value f.interface; rows = map unresolved_model f.rows.items } };

    ghost invariant = { λ f. IsUnresolvedEntryOf F.files (string_bytes f.name) (record { name = string_bytes f.name; interface = arc_value f.interface; rows = map unresolved_model f.rows.items }) };
}

impl<F: NamedFiles> UnresolvedEntry<F> {
    /// Moves the module's unresolved identifiers out of the entry.
    pub(crate) fn into_rows(self) -> Vec<Unresolved>
        ensures { map unresolved_model result.items ≡ self.rows }
    {
        let UnresolvedEntry {
            name: _,
            interface: _,
            rows,
            of: _,
        } = self;
        rows
    }
}

impl<F: NamedFiles> WorkEntry for UnresolvedEntry<F> {
    ghost use Rattle.ob_board.specs.UnresolvedEntry.{IsUnresolvedEntryOf};

    type Shared = Interface;

    ghost name_of = { λ f. f.name };

    ghost is_of = { λ name f. IsUnresolvedEntryOf F.files name f };

    ghost shared_of = { λ f. f.interface };

    fn name(&self) -> &str {
        self.name.as_str()
    }

    fn shared(&self) -> &Arc<Interface> {
        &self.interface
    }
}

/// Finds the token numbers of a module's unresolved identifiers, from the types of the module.
fn find_unresolved_tokens(alloc: Global, types: &Types<'_>) -> Result<Vec<u32>, AllocError>
    ensures { IfOk result (λ numbers. (refs : List Reference) × (numbers.items ≡ unresolved refs) × AreReferences types.now refs) }
{
    let refs = references(alloc, types)?;
    let numbers = refs.unresolved();
    drop(refs);
    numbers
}

/// Finds the token numbers of a module's unresolved identifiers, from the module's parts, the interfaces of the modules that it reaches,
/// and the tree's precomputed type chains.
fn unresolved_tokens_of_module(
    alloc: Global,
    source: &Source,
    parts: &ModuleParts,
    reached: &[Arc<Interface>],
    precomputed_chains: &PrecomputedChains,
) -> Result<Vec<u32>, AllocError>
    requires in_text { AreInText source.now.bytes.items parts.now.tokens }
    requires few { length (map arc_value reached.now) ≤ 2 ^ 32 }
    requires precomputed_chains { ServesModule (map arc_value reached.now) precomputed_chains.now }
    ensures { IfOk result (λ numbers. (refs : List Reference) × (numbers.items ≡ unresolved refs)
        × AreReferences (world source.now.bytes.items parts.now.tokens (rows_in parts.now.table) parts.now.scopes (map arc_value reached.now)) refs) }
{
    let types = module_types(alloc, source, parts, reached, precomputed_chains)?;
    let numbers = find_unresolved_tokens(alloc, &types);
    drop(types);
    numbers
}

/// Makes the entry of a module from the module's parts, the interfaces of the modules that it reaches, and the tree's precomputed type
/// chains.
fn build_unresolved_entry<F: NamedFiles>(
    alloc: Global,
    source: &Source,
    parts: &ModuleParts,
    reached: &[Arc<Interface>],
    precomputed_chains: &PrecomputedChains,
) -> Result<UnresolvedEntry<F>, AllocError>
    requires input { IsModuleInput F.files source.now parts.now (map arc_value reached.now) }
    requires precomputed_chains { ServesModule (map arc_value reached.now) precomputed_chains.now }
    // With `Ok` the entry has the name of the module, which is token 1.
    ensures { IfOk result (λ found. found.name ≡ text_at source.now.bytes.items parts.now.tokens 1) }
{
    tokens_in_text();
    let numbers = unresolved_tokens_of_module(alloc, source, parts, reached, precomputed_chains)?;
    let bytes = source.bytes.as_slice();
    let rows = locate_all_unresolved(
        alloc,
        source.path.as_str(),
        bytes,
        parts.tokens.as_slice(),
        numbers.as_slice(),
    )?;
    let name = String::from_str(alloc, parts.scopes.name())?;
    let interface = Arc::try_clone(&parts.interface)?;
    Ok(UnresolvedEntry {
        name,
        interface,
        rows,
        of: PhantomData,
    })
}

/// Makes the entries of a tree's modules, each with the module's unresolved identifiers. The type parameter `F` names the files of the
/// tree. Contracts describe a finder by the tree's graph of imports.
#[derive(Drop)]
pub(crate) struct UnresolvedFinder<'a, F: NamedFiles> {
    alloc: Global,
    sources: &'a [Source],
    modules: &'a [Box<ModuleParts>],
    graph: &'a Graph,
    /// The precomputed type chains of all modules.
    precomputed_chains: PrecomputedChains,
    of: PhantomData<F>,
}

impl<'a, F: NamedFiles> Model for UnresolvedFinder<'a, F> {
    ghost use Rattle.std.specs.Prelude.{◌≡◌};
    ghost use Rattle.ob_imports.specs.Graphs.{ImportGraph};
    ghost use Rattle.ob_board.specs.PrecomputedChains.{AreChainsOf};
    ghost use Rattle.ob_board.specs.Entries.{interfaces_of};
    ghost use Rattle.ob_board.specs.SourceParts.{file_models, AreSourcesRead};

    ghost Value = { ImportGraph };

    ghost view = { λ w. w.graph.now };

    ghost invariant = { λ w. (F.files ≡ file_models w.sources.now w.modules.now) × AreSourcesRead w.sources.now w.modules.now w.graph.now
        × AreChainsOf (interfaces_of w.modules.now) w.precomputed_chains };
}

impl<'a, F: NamedFiles> UnresolvedFinder<'a, F> {
    /// A finder for the modules of these files, with the precomputed type chains.
    pub(crate) fn new(
        alloc: Global,
        sources: &'a [Source],
        modules: &'a [Box<ModuleParts>],
        graph: &'a Graph,
        precomputed_chains: PrecomputedChains,
    ) -> UnresolvedFinder<'a, F>
        requires files { F.files ≡ file_models sources.now modules.now }
        requires seen { AreSourcesRead sources.now modules.now graph.now }
        requires precomputed_chains { AreChainsOf (interfaces_of modules.now) precomputed_chains }
        ensures { result ≡ graph.now }
    {
        UnresolvedFinder {
            alloc,
            sources,
            modules,
            graph,
            precomputed_chains,
            of: PhantomData,
        }
    }
}

impl<F: NamedFiles> Work for UnresolvedFinder<'_, F> {
    ghost use Rattle.ob_board.specs.BoardGraphs.{modules_of};

    type Entry = UnresolvedEntry<F>;

    ghost graph = { λ w. modules_of w };

    fn make(
        &self,
        number: u32,
        parts: &[Arc<Interface>],
    ) -> Result<UnresolvedEntry<F>, AllocError> {
        reach_by_names_agrees();
        let place = number as usize;
        let found = build_unresolved_entry(
            self.alloc,
            &self.sources[place],
            &self.modules[place],
            parts,
            &self.precomputed_chains,
        )?;
        Ok(found)
    }
}
