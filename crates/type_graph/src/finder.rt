//! Memoizing searches in a graph of types.
ghost use Rattle.std.specs.Prelude.{◌≡◌, [], IfOk, IfSome, IfNone};
ghost use Rattle.type_graph.specs.BuiltPaths.{AreHeavyPaths};
ghost use Rattle.type_graph.specs.Link.{IsTypeEnd};
ghost use Rattle.type_graph.specs.Searches.{DenotesField, HasElement, HasTarget};

use crate::cache::{FieldCache, ParentCache};
use crate::decompose::decompose;
use crate::ends::find_end;
use crate::graph::TypeGraph;
use crate::memo::MemoTable;
use crate::name_filter::NameFilter;
use crate::parts::{find_element, find_target};
use crate::paths::HeavyPaths;
use crate::records::find_field_at;
use indexmap::IndexMap;
use std::alloc::{AllocError, Global};
use std::marker::Model;
use text_hash::Seed;

/// Searches in a graph of types. The end of a search is memoized for the declarations that it visits first, second, fourth, eighth and so
/// on, so that few searches visit the same declarations again. Once searches for fields have climbed far, the forest of records is
/// decomposed into heavy paths, along which they jump. Its value in contracts is the graph.
#[derive(Drop)]
pub struct Finder<'a, G: TypeGraph> {
    graph: &'a G,
    /// The ends of declarations through names.
    by_names: MemoTable<G::Declaration, Option<G::Node>>,
    cache: FieldCache<'a, G::Node, G::Declaration, G::Record, G::Field>,
}

impl<'a, G: TypeGraph> Model for Finder<'a, G> {
    ghost use Rattle.std.specs.Prelude.{false};
    ghost use Rattle.type_graph.specs.Caches.{IsValidFieldCache};
    ghost use Rattle.type_graph.specs.Link.{AreTypeEnds};

    ghost Value = { G };

    ghost view = { λ f. f.graph.now };

    ghost invariant = { λ f. AreTypeEnds (G.shape f.graph.now) false G.Declaration.eq f.by_names × IsValidFieldCache (G.shape f.graph.now) (G.base_of f.graph.now) G.Declaration.eq G.Record.eq (G.field_of f.graph.now) f.cache };
}

impl<'a, G: TypeGraph> Finder<'a, G> {
    /// A finder for this graph. `text` is the source whose field names will be looked up, and `most` the expected number of searches. Both
    /// affect only the running time: they determine the hash seed, since an author could choose names that collide under a fixed seed.
    pub fn new(alloc: Global, graph: &'a G, text: &[u8], most: usize) -> Finder<'a, G>
        ensures { result ≡ graph.now }
    {
        let seed = Seed::for_keys(text, most);
        Finder {
            graph,
            by_names: MemoTable::empty(alloc, seed, most),
            cache: FieldCache {
                parents: ParentCache {
                    ends: MemoTable::empty(alloc, seed, most),
                    parents: MemoTable::empty(alloc, seed, most),
                },
                paths: None,
                fields: IndexMap::with_hasher(alloc, seed),
                name_filter: NameFilter::empty(alloc),
            },
        }
    }

    /// The graph.
    pub fn graph(&self) -> &'a G
        ensures { result.now ≡ self.now }
    {
        self.graph
    }

    /// The element type of the array that a type opens to, which means: denotes through names; `None` if it opens to no array.
    pub fn element(&mut self, from: G::Node) -> Result<Option<G::Node>, AllocError>
        // The graph is unchanged.
        ensures graph { self.new ≡ self.old }
        // The type opens to an array whose elements have the returned type.
        ensures found { IfOk result (λ o. IfSome o (HasElement G.Declaration.eq (G.shape self.old) from)) }
        // `None` is returned only if there is no element type.
        ensures none { IfOk result (λ o. IfNone o ((n : G.Node) → HasElement G.Declaration.eq (G.shape self.old) from n → ⊥)) }
    {
        find_element(self.graph, &mut self.by_names, from)
    }

    /// The target of the pointer that a type opens to, which means: denotes through names; `None` if it opens to no pointer.
    pub fn target(&mut self, from: G::Node) -> Result<Option<G::Node>, AllocError>
        // The graph is unchanged.
        ensures graph { self.new ≡ self.old }
        // The type opens to a pointer with the returned target.
        ensures found { IfOk result (λ o. IfSome o (HasTarget G.Declaration.eq (G.shape self.old) from)) }
        // `None` is returned only if there is no target.
        ensures none { IfOk result (λ o. IfNone o ((n : G.Node) → HasTarget G.Declaration.eq (G.shape self.old) from n → ⊥)) }
    {
        find_target(self.graph, &mut self.by_names, from)
    }

    /// The field that a name denotes at a type: of the record that the type opens to, through pointers, or else of that record's base.
    /// `None` if there is no field of this name.
    pub fn find_field(
        &mut self,
        from: G::Node,
        name: &'a [u8],
    ) -> Result<Option<G::Field>, AllocError>
        // The graph is unchanged.
        ensures graph { self.new ≡ self.old }
        // The name denotes the returned field at the type.
        ensures found { IfOk result (λ o. IfSome o (λ f. DenotesField G.Declaration.eq (G.shape self.old) (λ r. G.field_of self.old r name.now) (G.base_of self.old) [] from f)) }
        // `None` is returned only if there is no field.
        ensures none { IfOk result (λ o. IfNone o ((f : G.Field) → DenotesField G.Declaration.eq (G.shape self.old) (λ r. G.field_of self.old r name.now) (G.base_of self.old) [] from f → ⊥)) }
    {
        find_field_at(self.graph, &mut self.cache, from, name)
    }

    /// The end of a type, through names, and through pointers if `pointers` is set; `None` if the steps form a cycle.
    pub fn end(&mut self, pointers: bool, from: G::Node) -> Result<Option<G::Node>, AllocError>
        // The graph is unchanged.
        ensures graph { self.new ≡ self.old }
        // The result is the end of the steps, or `None` for a cycle.
        ensures end { IfOk result (IsTypeEnd (G.shape self.old) pointers from) }
    {
        if pointers {
            find_end(self.graph, true, &mut self.cache.parents.ends, 1, from)
        } else {
            find_end(self.graph, false, &mut self.by_names, 1, from)
        }
    }

    /// The heavy paths of these records; `None` if the list is empty. Any records may be listed. A search with these paths (`jump_along`)
    /// can skip bases only from records of the list.
    pub fn decompose(
        &mut self,
        listed: &[G::Record],
    ) -> Result<Option<Box<HeavyPaths<G::Record>>>, AllocError>
        // The graph is unchanged.
        ensures graph { self.new ≡ self.old }
        // The result satisfies the invariant of heavy paths of this graph.
        ensures paths { IfOk result (λ o. IfSome o (λ l. AreHeavyPaths (G.shape self.old) (G.base_of self.old) (G.field_of self.old) l.value)) }
    {
        decompose(self.graph, &mut self.cache.parents, listed)
    }
}
