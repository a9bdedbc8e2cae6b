//! The type of import graphs.
ghost use Rattle.std.specs.Prelude.{ℕ, ◌≡◌, ◌<◌, length, vec_len, IfOk};
ghost use Rattle.digraph.specs.Edges.{AreBetween};
ghost use Rattle.digraph.specs.Marks.{lists, list_at};
ghost use Rattle.ob_imports.specs.Graphs.{graph_with, imported, importing, name_of, IsGraph, IsListOf, IsReady};
ghost use Rattle.ob_imports.specs.Names.{index_in, texts, IsByName};

use crate::Edge;
use crate::ready::ready_modules;
use digraph::{predecessor_lists, transpose};
use indexmap::IndexSet;
use std::alloc::{AllocError, Global};
use std::marker::Model;
use text_hash::Seed;

/// An import graph: the modules of a tree and the external ones that they import, by number, and the imports of each. The modules of the
/// tree are numbered in the order of their files; the external ones follow, sorted by name.
#[derive(Drop)]
pub struct Graph {
    pub(crate) names: IndexSet<String, Seed>,
    pub(crate) modules: u32,
    pub(crate) pairs: Vec<Edge>,
    /// The numbers of all modules, sorted by name.
    pub(crate) order: Vec<u32>,
    /// For each module the modules that it imports.
    pub(crate) imports: Vec<Vec<u32>>,
    /// For each module the modules that import it.
    pub(crate) importers: Vec<Vec<u32>>,
}

/// For each module the list of modules that it imports, and the list of modules that import it.
fn adjacency_lists(
    alloc: Global,
    pairs: &[Edge],
    nodes: usize,
) -> Result<(Vec<Vec<u32>>, Vec<Vec<u32>>), AllocError>
    requires between { AreBetween pairs.now nodes }
    ensures imports_long { IfOk result (λ rows. vec_len rows.0 ≡ nodes) }
    ensures importers_long { IfOk result (λ rows. vec_len rows.1 ≡ nodes) }
    ensures imports { IfOk result (λ rows. (v : ℕ) → list_at (lists rows.0.items) v ≡ imported pairs.now v) }
    ensures importers { IfOk result (λ rows. (v : ℕ) → list_at (lists rows.1.items) v ≡ importing pairs.now v) }
{
    let others = transpose(alloc, pairs)?;
    let imports = predecessor_lists(alloc, others.as_slice(), nodes)?;
    let importers = predecessor_lists(alloc, pairs, nodes)?;
    Ok((imports, importers))
}

impl Model for Graph {
    ghost use Rattle.std.specs.Prelude.{ℕ, ◌≡◌, ◌<◌, length, vec_len};
    ghost use Rattle.ob_imports.specs.Graphs.{imported, importing, ImportGraph, IsGraph};
    ghost use Rattle.digraph.specs.Marks.{lists, list_at};
    ghost use Rattle.ob_imports.specs.Names.{texts, IsByName};

    ghost Value = { ImportGraph };

    ghost view = { λ g. record { names = texts g.names.keys; modules = g.modules; pairs = g.pairs.items } };

    ghost invariant = { λ g. IsGraph (record { names = texts g.names.keys; modules = g.modules; pairs = g.pairs.items })
        × (vec_len g.imports ≡ length g.names.keys) × (vec_len g.importers ≡ length g.names.keys)
        × IsByName (texts g.names.keys) g.order.items
        × ((v : ℕ) → list_at (lists g.imports.items) v ≡ imported g.pairs.items v)
        × ((v : ℕ) → list_at (lists g.importers.items) v ≡ importing g.pairs.items v) };
}

impl Graph {
    /// The graph of these names and imports, which satisfy the invariant.
    pub(crate) fn from_parts(
        alloc: Global,
        names: IndexSet<String, Seed>,
        modules: u32,
        pairs: Vec<Edge>,
        order: Vec<u32>,
    ) -> Result<Graph, AllocError>
        requires graph { IsGraph (graph_with names.keys modules pairs.items) }
        requires order { IsByName (texts names.keys) order.items }
        ensures { IfOk result (λ graph. graph ≡ graph_with names.keys modules pairs.items) }
    {
        let (imports, importers) = adjacency_lists(alloc, pairs.as_slice(), names.len())?;
        Ok(Graph {
            names,
            modules,
            pairs,
            order,
            imports,
            importers,
        })
    }

    /// The invariant of a graph: names are distinct, imports are strictly sorted and lead from modules of the tree, all is within the
    /// limits, and the imports are acyclic.
    pub fn invariants(&self)
        // Names are distinct, imports are strictly sorted and acyclic, and all is within the limits.
        ensures { IsGraph self.now }
    {
        // Using a field makes the facts of the type known here.
        let _ = &self.names;
    }

    /// The number of modules, including external ones.
    pub fn nodes(&self) -> u32
        // The result is the number of names.
        ensures { result ≡ length self.now.names }
    {
        self.names.len() as u32
    }

    /// The number of modules of the tree, whose numbers come first.
    pub fn modules(&self) -> u32
        // The result is the number of modules of the tree.
        ensures { result ≡ self.now.modules }
    {
        self.modules
    }

    /// The name of a module.
    pub fn name(&self, node: u32) -> &str
        // `node` is a module.
        requires { node < length self.now.names }
        // The result is the module's name.
        ensures { result.now ≡ name_of self.now node }
    {
        self.names.as_slice()[node as usize].as_str()
    }

    /// The number of the module with this name; `None` if there is none.
    pub fn node_of(&self, name: &str) -> Option<u32>
        // The result is the index of the name, or `None`.
        ensures { result ≡ index_in self.now.names name.now }
    {
        let place = self.names.get_index_of(name)?;
        Some(place as u32)
    }

    /// The hash seed of the table of names, for other hash tables of module names. It affects only the running time.
    pub fn seed(&self) -> Seed {
        *self.names.hasher()
    }

    /// The numbers of all modules, sorted by name.
    pub fn by_name(&self) -> &[u32]
        // The result has the numbers of all modules, sorted by name.
        ensures { IsByName self.now.names result.now }
    {
        self.order.as_slice()
    }

    /// The modules that this one imports, strictly sorted.
    pub fn imports_of(&self, node: u32) -> &[u32]
        // `node` is a module.
        requires { node < length self.now.names }
        // The result has exactly the module's imports.
        ensures { result.now ≡ imported self.now.pairs node }
    {
        self.imports[node as usize].as_slice()
    }

    /// The modules that import this one, strictly sorted.
    pub fn importers_of(&self, node: u32) -> &[u32]
        // `node` is a module.
        requires { node < length self.now.names }
        // The result has exactly the modules that import this one.
        ensures { result.now ≡ importing self.now.pairs node }
    {
        self.importers[node as usize].as_slice()
    }

    /// The modules of the tree that aren't done and whose imports in the tree are all done, in ascending order. `done` has a flag for
    /// each module of the tree. Fails if an allocation fails.
    pub fn ready(&self, done: &[bool]) -> Result<Vec<u32>, AllocError>
        // There is a flag for each module of the tree.
        requires { length done.now ≡ self.now.modules }
        // The result has exactly the ready modules, in ascending order.
        ensures { IfOk result (λ nodes. IsListOf (IsReady self.now done.now) nodes.items) }
    {
        ready_modules(*self.imports.allocator(), self.imports.as_slice(), done)
    }
}
