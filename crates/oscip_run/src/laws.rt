//! Laws of runs: functions with an empty body, whose contracts are proved.
ghost use Rattle.std.specs.Prelude.{ℕ, List, None};
ghost use Rattle.cut_net.specs.Network.{Network};
ghost use Rattle.oscip_run.specs.CutRuns.{IsCutText, IsUnpinnedCutText};
ghost use Rattle.oscip_run.specs.PricedInputs.{IsNetOfPricedText, IsNetOfPricedTree};
ghost use Rattle.oscip_run.specs.Runs.{IsNetOfText, IsRejectedTree};
ghost use Rattle.oscip_run.specs.declared.fault.RunFault.{RunFault};
ghost use Rattle.source_tree.specs.Trees.{IsNetOfTree};
ghost use Rattle.source_tree.specs.declared.source.Source.{Source};

/// A tree that has a network is never rejected.
pub fn tree_with_net_is_accepted()
    // If these files have a network, the tree isn't rejected with any fault.
    ensures { (sources : List Source) (net : Network) (fault : RunFault) →
        IsNetOfTree sources net → IsRejectedTree sources fault → ⊥ }
{}

/// Without prices no import is pinned. So a report that is written is one of a cheapest cut among all sets of imports, with a flow within
/// the weights.
pub fn no_pins_without_prices()
    // What `cut_tree` writes without prices is the report of a cheapest cut among all sets of imports, with a flow within the weights.
    ensures tree { (sources : List Source) (first second text : List ℕ) →
        IsCutText (IsNetOfPricedTree sources None) first second text → IsUnpinnedCutText (IsNetOfTree sources) first second text }
    // What `cut_net_bytes` writes without prices is the report of a cheapest cut among all sets of imports, with a flow within the weights.
    ensures network { (lines first second text : List ℕ) →
        IsCutText (IsNetOfPricedText lines None) first second text → IsUnpinnedCutText (IsNetOfText lines) first second text }
{}
