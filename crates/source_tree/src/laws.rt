//! Laws of source trees, each the contract of a function with an empty body: a tree has one network or one error message.
ghost use Rattle.std.specs.Prelude.{◌≡◌, ◌↔◌, ◌∷◌, [], ℕ, Contains, false, length, map, true, List};
ghost use Rattle.cut_net.specs.declared.priced.Priced.{Priced};
ghost use Rattle.cut_net.specs.Network.{Network, name_of};
ghost use Rattle.texts.specs.Places.{Style};
ghost use Rattle.source_tree.specs.Crossings.{AreUses};
ghost use Rattle.source_tree.specs.FileFaults.{ArePartitionedFiles, AreTreeFaults};
ghost use Rattle.source_tree.specs.TreeFaults.{tree_fault_text, is_out_of_memory};
ghost use Rattle.source_tree.specs.Trees.{IsNetOfTree, IsTree, IsTreeFault, ModuleFile};
ghost use Rattle.source_tree.specs.declared.crossing.Span.{Span};
ghost use Rattle.source_tree.specs.declared.source.Source.{Source};
ghost use Rattle.source_tree.specs.declared.tree_fault.TreeFault.{TreeFault};

/// An accepted tree has no error other than a failed allocation.
pub fn no_fault_of_a_tree()
    // Every error of an accepted tree is a failed allocation.
    ensures { (sources : List Source) (files : List ModuleFile) (fault : TreeFault) →
        IsTree sources files → IsTreeFault sources fault → is_out_of_memory fault ≡ true }
{}

/// A tree has at most one network.
pub fn network_is_unique()
    // Two networks of a tree are equal.
    ensures { (sources : List Source) (net other : Network) → IsNetOfTree sources net → IsNetOfTree sources other → net ≡ other }
{}

/// The error message of a rejected tree is unique, with its path, line and column. So for a file without a syntax tree of at most 200
/// levels, it is determined whether the error is `Syntax` or `TooDeep`, and at which location.
pub fn one_fault()
    // Any two errors of one tree that aren't failed allocations have equal messages.
    ensures { (style : Style) (sources : List Source) (fault other : TreeFault) → IsTreeFault sources fault → IsTreeFault sources other →
        is_out_of_memory fault ≡ false → is_out_of_memory other ≡ false →
        tree_fault_text style fault ≡ tree_fault_text style other }
{}

/// The number of ranges at which one module uses another one is the weight of that import in the tree's network.
pub fn weight_is_use_count()
    // If the network has the import, its weight is the number of ranges.
    ensures { (sources : List Source) (net : Network) (path : List ℕ) (spans : List Span) (i : Priced) →
        IsNetOfTree sources net → Contains net.imports i → AreUses sources (name_of net i.from) (name_of net i.to) path spans → i.amount ≡ length spans }
{}

/// The partition of a tree's files is unique: which files are accepted, and the error messages for the other files.
pub fn partition_is_unique()
    // The accepted files are unique.
    ensures accepted { (sources accepted others : List Source) (faults more : List TreeFault) →
        ArePartitionedFiles sources accepted faults → ArePartitionedFiles sources others more → accepted ≡ others }
    // The messages for the other files are unique.
    ensures message { (style : Style) (sources accepted others : List Source) (faults more : List TreeFault) →
        ArePartitionedFiles sources accepted faults → ArePartitionedFiles sources others more → map (tree_fault_text style) faults ≡ map (tree_fault_text style) more }
{}

/// The messages for all errors of a tree are unique. There is no error exactly if the tree is accepted; otherwise the first error is the
/// tree's error.
pub fn fault_list_is_unique()
    // Any two lists of all errors of one tree have equal messages.
    ensures message { (style : Style) (sources : List Source) (faults more : List TreeFault) →
        AreTreeFaults sources faults → AreTreeFaults sources more → map (tree_fault_text style) faults ≡ map (tree_fault_text style) more }
    // The list of errors is empty exactly if the tree is accepted.
    ensures nothing { (sources : List Source) (faults : List TreeFault) →
        AreTreeFaults sources faults → faults ≡ [] ↔ ((files : List ModuleFile) × IsTree sources files) }
    // The first error in the list is the tree's error.
    ensures first { (sources : List Source) (fault : TreeFault) (more : List TreeFault) → AreTreeFaults sources (fault ∷ more) → IsTreeFault sources fault }
{}
