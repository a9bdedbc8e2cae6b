//! Laws of indexes of a tree, and of the scheduler of a tree, proved as contracts of functions with an empty body.
ghost use Rattle.std.specs.Prelude.{◌≡◌, ℕ, List};
ghost use Rattle.ob_imports.specs.Graphs.{ImportGraph};
ghost use Rattle.ob_imports.specs.Outcomes.{AreFilesOfGraph};
ghost use Rattle.source_tree.specs.Parts.{ArePartsOfTree};
ghost use Rattle.source_tree.specs.Trees.{ModuleFile};
ghost use Rattle.source_tree.specs.declared.parts.TreeParts.{TreeParts};
ghost use Rattle.source_tree.specs.declared.source.Source.{Source};
ghost use Rattle.scip_index.specs.Plain.{IndexModel};
ghost use Rattle.ob_board.specs.Entries.{EntryModel};
ghost use Rattle.ob_board.specs.Indexes.{AreTreeEntries, IsIndex, IsIndexOf};
ghost use Rattle.ob_board.specs.SourceParts.{file_models};
ghost use Rattle.ob_board.specs.Reached.{files_of, HasSameReach, FileModel};
ghost use Rattle.ob_board.specs.Unresolved.{AreUnresolved, UnresolvedModel};

/// A tree has at most one index for each package and project root.
pub fn index_is_unique()
    // Two indexes of the same tree, package and project root are equal.
    ensures { (sources : List Source) (package_name root : List ℕ) (index other : IndexModel) →
        IsIndex sources package_name root index → IsIndex sources package_name root other → index ≡ other }
{}

/// A tree has at most one list of entries for each package.
pub fn entries_are_unique()
    // Two lists of entries of the same tree and package are equal.
    ensures { (sources : List Source) (package_name : List ℕ) (entries others : List EntryModel) →
        AreTreeEntries sources package_name entries → AreTreeEntries sources package_name others → entries ≡ others }
{}

/// A tree has at most one list of unresolved identifiers.
pub fn unresolved_list_is_unique()
    // Two lists of unresolved identifiers of the same tree are equal.
    ensures { (sources : List Source) (rows others : List UnresolvedModel) → AreUnresolved sources rows → AreUnresolved sources others → rows ≡ others }
{}

/// A module reaches another one by the edges of the scheduler's graph if and only if it does so by the names in the files' import lists.
pub fn reach_by_names_agrees()
    // If the graph is that of the files, a module reaches the same modules by numbers in the graph and by names in the files.
    ensures { (files : List FileModel) (graph : ImportGraph) → AreFilesOfGraph (files_of files) graph → HasSameReach files graph }
{}

/// An index of the files that `tree_parts` read is the index of the tree. So the index that `EntryBuilder::gather` returns equals the one
/// that `index_tree` returns.
pub fn index_of_parts_is_tree_index()
    // If `tree` has the parts of the tree of these sources, each index of the files with these parts is an index of the tree.
    ensures { (sources : List Source) (files : List ModuleFile) (tree : TreeParts) (package_name root : List ℕ) (index : IndexModel) →
        ArePartsOfTree sources files tree → IsIndexOf (file_models sources tree.modules.items) package_name root index → IsIndex sources package_name root index }
{}
