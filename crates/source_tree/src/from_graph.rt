//! The network of an import graph, with weights from the scopes of its modules.
ghost use Rattle.std.specs.Prelude.{◌≡◌, ◌<◌, ◌++◌, true, All, IfOk, List, OnOk, length, map, ℕ};
ghost use Rattle.ob_imports.specs.Graphs.{imported, name_of};
ghost use Rattle.scopes.specs.Weights.{uses_of_import};
ghost use Rattle.texts.specs.Fields.{is_name};
ghost use Rattle.cut_net.specs.Network.{texts};
ghost use Rattle.cut_net.specs.NetText.{IsNetOf};
ghost use Rattle.source_tree.specs.GraphNet.{entry_to, graph_entry, graph_lines, ranked, sum_in, AreLight};

use cut_net::{Net, Priced, sort_imports};
use digraph::ranks_of;
use indexmap::IndexMap;
use ob_imports::Graph;
use ob_scope::Scopes;
use std::alloc::{AllocError, Global};
use text_hash::Seed;

/// A hash table, with this seed, from the name of each module that this module imports to the number of uses that its aliases qualify.
fn sum_alias_uses<'a>(
    alloc: Global,
    scopes: &'a Scopes,
    seed: Seed,
) -> Result<IndexMap<&'a str, u64, Seed>, AllocError>
    // With `Ok` the table's sum for a name is the number of uses that aliases of the module with this name qualify, 0 for any other name.
    ensures { IfOk result (λ sums. (name : List ℕ) → sum_in sums name ≡ uses_of_import scopes.now.aliases name) }
{
    scopes.invariants();
    let mut sums = IndexMap::with_hasher(alloc, seed);
    for alias in scopes.aliases() {
        let name = alias.module.as_str();
        let before = sums.get(name).copied().unwrap_or(0);
        sums.insert(name, before + scopes.qualified_uses(alias.decl))?;
    }
    Ok(sums)
}

/// The sum in the table for the module with this name; 0 if the table doesn't have the name.
fn alias_use_sum(sums: &IndexMap<&str, u64, Seed>, name: &str) -> u64
    ensures { result ≡ sum_in sums.now name.now }
{
    sums.get(name).copied().unwrap_or(0)
}

/// Appends the imports of the module `from`, with their weights, to `imports`. `ranks` maps a module's number in the graph to its number in
/// the network.
fn append_weighted_imports(
    alloc: Global,
    graph: &Graph,
    scopes: &Scopes,
    from: u32,
    ranks: &[u32],
    imports: &mut Vec<Priced>,
) -> Result<(), AllocError>
    // `from` is the number of a module, and each module has a number in the network.
    requires known { from < length graph.now.names }
    requires all_ranked { length ranks.now ≡ length graph.now.names }
    ensures last { OnOk result (imports.new.items ≡ imports.old.items ++ map (ranked ranks.now) (map (entry_to graph.now scopes.now from) (imported graph.now.pairs from))) }
{
    graph.invariants();
    let sums = sum_alias_uses(alloc, scopes, graph.seed())?;
    for to in graph.imports_of(from) {
        let amount = alias_use_sum(&sums, graph.name(*to));
        imports.push(Priced {
            from: ranks[from as usize],
            to: ranks[*to as usize],
            amount,
        })?;
    }
    Ok(())
}

/// The imports of the graph with their weights. `ranks` maps a module's number in the graph to its number in the network.
fn weighted_imports(
    alloc: Global,
    graph: &Graph,
    scopes: &[Scopes],
    ranks: &[u32],
) -> Result<Vec<Priced>, AllocError>
    requires as_many { length scopes.now ≡ graph.now.modules }
    requires all_ranked { length ranks.now ≡ length graph.now.names }
    // With `Ok` the result has each import of the graph with its weight, in the order of the graph.
    ensures entries { IfOk result (λ imports. imports.items ≡ map (ranked ranks.now) (map (graph_entry graph.now scopes.now) graph.now.pairs)) }
    // With `Ok` no weight exceeds 2 ^ 24.
    ensures light { IfOk result (λ _. AreLight (map (graph_entry graph.now scopes.now) graph.now.pairs)) }
{
    graph.invariants();
    let mut imports = Vec::new(alloc);
    for from in 0..graph.modules() {
        let own = &scopes[from as usize];
        own.invariants();
        append_weighted_imports(alloc, graph, own, from, ranks, &mut imports)?;
    }
    Ok(imports)
}

/// The names of the modules with these numbers in the graph, in the order of `nodes`.
fn node_names(alloc: Global, graph: &Graph, nodes: &[u32]) -> Result<Vec<String>, AllocError>
    requires { All (λ v. v < length graph.now.names) nodes.now }
    ensures { IfOk result (λ names. texts names.items ≡ map (name_of graph.now) nodes.now) }
{
    let mut names = Vec::new(alloc);
    for node in nodes {
        names.push(String::from_str(alloc, graph.name(*node))?)?;
    }
    Ok(names)
}

/// The network of an import graph: its modules, the external ones included, and its imports. The weight of an import is the number of
/// uses that the importer's aliases of the imported module qualify. Fails if an allocation fails.
pub fn net_of_graph(alloc: Global, graph: &Graph, scopes: &[Scopes]) -> Result<Net, AllocError>
    // `scopes` has an element for each module of the tree; external modules have none.
    requires as_many { length scopes.now ≡ graph.now.modules }
    // The module names of the graph are identifiers.
    requires named { All (λ n. is_name n ≡ true) graph.now.names }
    // With `Ok` the network has exactly the modules of the graph and its imports with their weights.
    ensures { IfOk result (IsNetOf (graph_lines graph.now scopes.now)) }
{
    graph.invariants();
    let order = graph.by_name();
    let ranks = ranks_of(alloc, order)?;
    let names = node_names(alloc, graph, order)?;
    let mut imports = weighted_imports(alloc, graph, scopes, ranks.as_slice())?;
    sort_imports(&mut imports);
    Ok(Net::from_parts(alloc, names, imports))
}
