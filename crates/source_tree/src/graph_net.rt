//! A constructor of a network, `Net`, from an import graph.
ghost use Rattle.std.specs.Prelude.{◌≡◌, true, All, IfErr, IfOk, length};
ghost use Rattle.cut_net.specs.declared.fault.NetFault.TheVariants.{Memory};
ghost use Rattle.texts.specs.Fields.{is_name};
ghost use Rattle.cut_net.specs.NetText.{IsNetOf};
ghost use Rattle.source_tree.specs.GraphNet.{graph_lines};

use crate::net_of_graph;
use cut_net::{Net, NetFault};
use ob_imports::Graph;
use ob_scope::Scopes;
use std::alloc::Global;

/// A type, `Net`, that can be constructed from an import graph and the scopes of its modules.
pub trait FromGraph {
    /// The network of an import graph: its modules, the external ones included, and its imports. The weight of an import is the number of
    /// qualified names of the importer whose alias denotes the imported module. `scopes` are those of the tree's modules, by their
    /// numbers in the graph.
    fn from_graph(alloc: Global, graph: &Graph, scopes: &[Scopes]) -> Result<Net, NetFault>
        // `scopes` has an element for each module of the tree; external modules have none.
        requires as_many { length scopes.now ≡ graph.now.modules }
        // The module names of the graph are identifiers.
        requires named { All (λ n. is_name n ≡ true) graph.now.names }
        // With `Ok` the network has exactly the modules of the graph and its imports with their weights.
        ensures net { IfOk result (IsNetOf (graph_lines graph.now scopes.now)) }
        // The only error is that an allocation failed.
        ensures memory { IfErr result (λ fault. fault ≡ Memory) };
}

impl FromGraph for Net {
    fn from_graph(alloc: Global, graph: &Graph, scopes: &[Scopes]) -> Result<Net, NetFault> {
        Ok(net_of_graph(alloc, graph, scopes)?)
    }
}
