//! Makes the graph of a scheduler from the graph of a tree's imports, by leaving out the external modules. In a graph of imports, the
//! modules of the tree have the smallest numbers.
ghost use Rattle.std.specs.Prelude.{◌≡◌, ◌<◌, length, map, take, IfOk};
ghost use Rattle.std.specs.String.{string_bytes};
ghost use Rattle.work_board.specs.Graphs.{lists, IsAcyclic};
ghost use Rattle.ob_board.specs.BoardGraphs.{modules_of, rows_below, tree_imports};

use ob_imports::Graph;
use std::alloc::{AllocError, Global};

/// The names of the modules of the tree, by module number; external modules are left out.
fn tree_module_names(alloc: Global, graph: &Graph) -> Result<Vec<String>, AllocError>
    ensures { IfOk result (λ names. map string_bytes names.items ≡ take graph.now.modules graph.now.names) }
{
    graph.invariants();
    let mut names = Vec::new(alloc);
    for node in 0..graph.modules() {
        names.push(String::from_str(alloc, graph.name(node))?)?;
    }
    Ok(names)
}

/// The numbers of the modules of the tree that module `node` imports; external modules are left out.
fn tree_imports_of_module(alloc: Global, graph: &Graph, node: u32) -> Result<Vec<u32>, AllocError>
    // The graph has a module with this number.
    requires { node < length graph.now.names }
    ensures { IfOk result (λ row. row.items ≡ tree_imports graph.now node) }
{
    let modules = graph.modules();
    let mut row = Vec::new(alloc);
    for import in graph.imports_of(node) {
        if *import < modules {
            row.push(*import)?;
        }
    }
    Ok(row)
}

/// For each module of the tree, the numbers of the modules of the tree that it imports.
fn all_tree_imports(alloc: Global, graph: &Graph) -> Result<Vec<Vec<u32>>, AllocError>
    ensures { IfOk result (λ rows. lists rows.items ≡ rows_below graph.now graph.now.modules) }
{
    graph.invariants();
    let mut rows = Vec::new(alloc);
    for node in 0..graph.modules() {
        rows.push(tree_imports_of_module(alloc, graph, node)?)?;
    }
    Ok(rows)
}

/// Makes the graph of a scheduler: the modules of the tree with their numbers in `graph`, and the imports among them. External modules are
/// left out. The result has no cycle. Fails with `AllocError` if an allocation fails.
pub fn board_graph(alloc: Global, graph: &Graph) -> Result<work_board::Graph, AllocError>
    // With `Ok` the graph has exactly the modules of the tree and the imports among them.
    ensures graph { IfOk result (λ board. board ≡ modules_of graph.now) }
    // With `Ok` the graph has no cycle.
    ensures acyclic { IfOk result (λ board. IsAcyclic board.imports) }
{
    graph.invariants();
    let names = tree_module_names(alloc, graph)?;
    let rows = all_tree_imports(alloc, graph)?;
    let board = work_board::Graph::new(alloc, names, rows)?;
    Ok(board)
}
