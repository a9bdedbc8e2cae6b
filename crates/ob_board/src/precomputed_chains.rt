//! Precomputes the type chains of a tree: long chains are followed once for all modules. A step of a chain leads from a type to the type
//! that it names, points to or extends.
ghost use Rattle.std.specs.Prelude.{◌≡◌, ◌<◌, length, map, IfOk, IfSome, IsPermutation};
ghost use Rattle.std.specs.Arc.{arc_value};
ghost use Rattle.std.specs.Cmp.Lexicographic.{slice_cmp};
ghost use Rattle.std.specs.List.Sorted.{IsSortedBy};
ghost use Rattle.std.specs.Ordering.{is_lt, nat_cmp};
ghost use Rattle.std.specs.Option.{option_copied, option_map};
ghost use Rattle.ob_imports.specs.Graphs.{ImportGraph};
ghost use Rattle.ob_interface.specs.Interfaces.{ModuleInterface};
ghost use Rattle.ob_board.specs.PrecomputedChains.{AreAllByName, AreChainsOf};
ghost use Rattle.ob_board.specs.Entries.{interfaces_of};
ghost use Rattle.ob_board.specs.SourceParts.{AreSourcesRead};

use crate::module_types::types_with_interfaces;
use ob_interface::Interface;
use ob_scan::laws::tokens_in_text;
use ob_types::{PrecomputedTypes, precompute_types};
use source_tree::{ModuleParts, Source};
use std::alloc::{AllocError, Global};
use std::sync::Arc;

/// Type chains are precomputed only for a tree with at least this number of modules.
const MIN_MODULES: usize = 2;

/// The precomputed type chains of all modules of a tree; `None` if none are precomputed. A module uses the chains in the modules that it
/// reaches.
#[derive(Drop)]
pub(crate) struct PrecomputedChains {
    pub(crate) precomputed: Option<Box<PrecomputedTypes>>,
}

/// The interfaces in the parts of all modules, as shared pointers, in the order of the modules.
fn interfaces(
    alloc: Global,
    modules: &[Box<ModuleParts>],
) -> Result<Vec<Arc<Interface>>, AllocError>
    ensures { IfOk result (λ all. map arc_value all.items ≡ interfaces_of modules.now) }
{
    let mut all = Vec::new(alloc);
    for parts in modules {
        all.push(Arc::try_clone(&parts.interface)?)?;
    }
    Ok(all)
}

/// Sorts interfaces by the names of their modules.
fn sort_by_name(all: &mut Vec<Arc<Interface>>)
    ensures same { IsPermutation all.old.items all.new.items }
    ensures sorted { IsSortedBy (λ (a b : ModuleInterface). is_lt (slice_cmp nat_cmp a.name b.name)) (map arc_value all.new.items) }
{
    all.sort_unstable_by(|a, b| a.name().cmp(&b.name()));
}

/// The index of the source with the fewest bytes. The contract promises only that it is an index of the list, which mustn't be empty.
fn shortest_source(sources: &[Source]) -> usize
    requires { 0 < length sources.now }
    ensures { result < length sources.now }
{
    let mut place = 0;
    for at in 0..sources.len() {
        if sources[at].bytes.len() < sources[place].bytes.len() {
            place = at;
        }
    }
    place
}

/// Precomputes the type chains of all modules of these files, from the interfaces of all modules. This needs the types of some module; it
/// takes the one with the shortest source.
/// Returns `Ok(None)` for fewer than two modules, or if no chain is long: following the chains then costs less than precomputing them.
fn precompute_chains(
    alloc: Global,
    sources: &[Source],
    modules: &[Box<ModuleParts>],
) -> Result<Option<Box<PrecomputedTypes>>, AllocError>
    // The parts are those of the sources, with some graph of imports.
    requires { (graph : ImportGraph) × AreSourcesRead sources.now modules.now graph }
    // Chains that are returned are those of the given modules, sorted by name.
    ensures { IfOk result (λ outcome. IfSome outcome (λ s. AreAllByName (interfaces_of modules.now) s.value)) }
{
    if modules.len() < MIN_MODULES {
        return Ok(None);
    }
    tokens_in_text();
    let mut all = interfaces(alloc, modules)?;
    sort_by_name(&mut all);
    let place = shortest_source(sources);
    let types = types_with_interfaces(alloc, &sources[place], &modules[place], all.as_slice())?;
    precompute_types(alloc, &types)
}

impl PrecomputedChains {
    /// Precomputes the type chains of the modules of these files. If an allocation fails, the result has none; then each module follows the
    /// chains itself.
    pub(crate) fn from_files(
        alloc: Global,
        sources: &[Source],
        modules: &[Box<ModuleParts>],
    ) -> PrecomputedChains
        requires { (graph : ImportGraph) × AreSourcesRead sources.now modules.now graph }
        ensures { AreChainsOf (interfaces_of modules.now) result }
    {
        match precompute_chains(alloc, sources, modules) {
            Ok(precomputed) => PrecomputedChains { precomputed },
            Err(_) => PrecomputedChains { precomputed: None },
        }
    }

    /// Borrows the precomputed type chains of all modules; `None` if none are precomputed.
    pub(crate) fn precomputed(&self) -> Option<&PrecomputedTypes>
        ensures { option_copied result ≡ option_map (λ s. s.value) self.now.precomputed }
    {
        self.precomputed.as_deref()
    }
}
